//! The commands on boolean arrays, and their parser from the words of a line.
ghost use Rattle.std.specs.Prelude.{◌≡◌};
ghost use Rattle.arrow2_script.specs.ArrayCommands.{array_command_of};

use crate::arguments::Values;
use crate::lines::Parts;
use crate::words::SlotIndex;

/// A command on boolean arrays.
#[derive(Drop)]
pub enum ArrayCommand {
    /// `anew d v m`: slot d holds a boolean array. Its values are the frozen bitmap of slot v, and its validity is the
    /// frozen bitmap of slot m. Where m is `-`, no item is null.
    New(SlotIndex, SlotIndex, Option<SlotIndex>),
    /// `alist s`: the items of the boolean array of slot s as a text.
    List(SlotIndex),
    /// `anulls s`: the number of null items of the boolean array of slot s.
    Nulls(SlotIndex),
    /// `aslice s i n`: the boolean array of slot s is cut to its n items from item i on.
    Slice(SlotIndex, u64, u64),
    /// `aand d a b`: slot d holds the AND of the boolean arrays of slots a and b, item by item, by Kleene's logic.
    And(SlotIndex, SlotIndex, SlotIndex),
    /// `aor d a b`: slot d holds the OR of the boolean arrays of slots a and b, item by item, by Kleene's logic.
    Or(SlotIndex, SlotIndex, SlotIndex),
}

impl ArrayCommand {
    /// Returns the command of this name, with these words after it, or `None` if there is none.
    #[tactic(auto, unfolding(crate::specs::ArrayCommands::array_command_of))]
    pub fn read(name: &[u8], parts: Parts<'_>) -> Option<ArrayCommand>
        ensures { result ≡ array_command_of name.now parts.entry }
    {
        if name == b"anew".as_slice() {
            let (to, (values, (validity, ()))) = Values::read(parts)?;
            Some(ArrayCommand::New(to, values, validity))
        } else if name == b"alist".as_slice() {
            let (slot, ()) = Values::read(parts)?;
            Some(ArrayCommand::List(slot))
        } else if name == b"anulls".as_slice() {
            let (slot, ()) = Values::read(parts)?;
            Some(ArrayCommand::Nulls(slot))
        } else if name == b"aslice".as_slice() {
            let (slot, (offset, (length, ()))) = Values::read(parts)?;
            Some(ArrayCommand::Slice(slot, offset, length))
        } else if name == b"aand".as_slice() {
            let (to, (left, (right, ()))) = Values::read(parts)?;
            Some(ArrayCommand::And(to, left, right))
        } else if name == b"aor".as_slice() {
            let (to, (left, (right, ()))) = Values::read(parts)?;
            Some(ArrayCommand::Or(to, left, right))
        } else {
            None
        }
    }
}
