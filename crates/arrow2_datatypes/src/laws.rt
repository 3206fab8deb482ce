//! Laws of the type tables. Each is the contract of a function with an empty body.
ghost use Rattle.std.specs.Prelude.{◌≡◌, IsTrue};
ghost use Rattle.arrow2_types.specs.declared.primitive.PrimitiveType.{PrimitiveType};
ghost use Rattle.arrow2_datatypes.specs.declared.DataType.{DataType};
ghost use Rattle.arrow2_datatypes.specs.declared.field.Field.{Field};
ghost use Rattle.arrow2_datatypes.specs.Types.{physical, logical, of_primitive};

use crate::{DataType, Field, PhysicalType};
use std::cmp::PartialEq;
use std::hash::Hash;

/// The logical type that belongs to a native type has the layout of that native type.
#[tactic(auto, using(crate::proofs::Tables::tables))]
pub fn a_native_type_is_laid_out_as_itself()
    ensures { (p : PrimitiveType) → physical (of_primitive p) ≡ PhysicalType.Primitive p }
{}

/// A type has the same layout with and without its extensions.
#[tactic(auto, using(crate::proofs::Tables::tables))]
pub fn extensions_are_laid_out_as_what_they_extend()
    ensures { (t : DataType) → physical (logical t) ≡ physical t }
{}

/// To remove the extensions around a type twice is the same as to remove them once.
#[tactic(auto, using(crate::proofs::Tables::tables))]
pub fn a_logical_type_is_its_own()
    ensures { (t : DataType) → logical (logical t) ≡ logical t }
{}

/// Equal types and equal fields hash alike.
pub fn equal_types_hash_alike()
    ensures types { (a b : DataType) → IsTrue (⟦<DataType as PartialEq>⟧.eq a b) →
        ⟦<DataType as Hash>⟧.hash_input a ≡ ⟦<DataType as Hash>⟧.hash_input b }
    ensures fields { (a b : Field) → IsTrue (⟦<Field as PartialEq>⟧.eq a b) →
        ⟦<Field as Hash>⟧.hash_input a ≡ ⟦<Field as Hash>⟧.hash_input b }
{}
