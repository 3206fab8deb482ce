//! A slot of the machine.
ghost use Rattle.std.specs.Prelude.{◌≡◌};
ghost use Rattle.arrow2_machine.specs.SlotValues.{Nothing};

use arrow2::array::BooleanArray;
use arrow2::bitmap::{Bitmap, MutableBitmap};
use arrow2::offset::{Offsets, OffsetsBuffer};
use std::marker::Model;

/// The contents of a slot.
#[derive(Drop)]
pub(crate) enum Contents {
    /// No value.
    Nothing,
    /// A frozen bitmap, which can be shared and sliced.
    Frozen(Bitmap),
    /// A growing bitmap.
    Growing(MutableBitmap),
    /// Frozen offsets, which can be shared and sliced.
    FrozenOffsets(OffsetsBuffer<i32>),
    /// Growing offsets.
    GrowingOffsets(Offsets<i32>),
    /// A boolean array, which can be shared and sliced.
    Array(BooleanArray),
}

/// A slot. Contracts see what it holds, as plain lists (`SlotValue`).
#[derive(Drop)]
pub(crate) struct Slot {
    pub(crate) contents: Contents,
}

impl Model for Slot {
    ghost use Rattle.arrow2_machine.specs.SlotValues.{SlotValue};

    ghost Value = { SlotValue };

    ghost use Rattle.arrow2_machine.specs.Slots.{held_in};

    ghost view = { λ s. held_in s.contents };
}

impl Slot {
    /// Returns a slot that holds nothing.
    pub(crate) fn new() -> Slot
        ensures { result ≡ Nothing }
    {
        Slot {
            contents: Contents::Nothing,
        }
    }
}
