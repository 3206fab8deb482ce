//! Laws of equality, order and hash. Each is the contract of a function with an empty body.
ghost use Rattle.std.specs.Prelude.{◌≡◌, IsTrue, ℤ};
ghost use Rattle.std.specs.Ordering.{is_eq};
ghost use Rattle.arrow2_composite.specs.declared.interval.days_ms.{days_ms};
ghost use Rattle.arrow2_composite.specs.declared.interval.months_days_ns.{months_days_ns};

use crate::interval::{days_ms, months_days_ns};
use crate::wide::i256;
use std::cmp::{Ord, PartialEq};
use std::hash::Hash;

/// Equal intervals hash alike.
pub fn equal_spans_hash_alike()
    ensures days { (a b : days_ms) → IsTrue (⟦<days_ms as PartialEq>⟧.eq a b) →
        ⟦<days_ms as Hash>⟧.hash_input a ≡ ⟦<days_ms as Hash>⟧.hash_input b }
    ensures months { (a b : months_days_ns) → IsTrue (⟦<months_days_ns as PartialEq>⟧.eq a b) →
        ⟦<months_days_ns as Hash>⟧.hash_input a ≡ ⟦<months_days_ns as Hash>⟧.hash_input b }
{}

/// Two numbers of 256 bits are equal exactly where `cmp` returns `Equal`. Equal numbers hash alike.
pub fn equality_order_and_hash_of_wide_numbers_agree()
    ensures order { (a b : ℤ) → ⟦<i256 as PartialEq>⟧.eq a b ≡ is_eq (⟦<i256 as Ord>⟧.cmp a b) }
    ensures hash { (a b : ℤ) → IsTrue (⟦<i256 as PartialEq>⟧.eq a b) →
        ⟦<i256 as Hash>⟧.hash_input a ≡ ⟦<i256 as Hash>⟧.hash_input b }
{}
