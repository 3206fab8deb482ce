//! The commands on values of several types, and their parser from the words of a line.
ghost use Rattle.std.specs.Prelude.{◌≡◌};
ghost use Rattle.arrow2_script.specs.ValueCommands.{value_command_of};

use crate::arguments::Values;
use crate::lines::Parts;
use crate::words::SlotIndex;

/// A command on values of several types.
#[derive(Drop)]
pub enum ValueCommand {
    /// `copy s d`: slot d holds the same frozen bitmap, frozen offsets or boolean array as slot s.
    Copy(SlotIndex, SlotIndex),
    /// `eq a b`: whether slots a and b hold the same list.
    Compare(SlotIndex, SlotIndex),
}

impl ValueCommand {
    /// Returns the command of this name, with these words after it, or `None` if there is none.
    #[tactic(auto, unfolding(crate::specs::ValueCommands::value_command_of))]
    pub fn read(name: &[u8], parts: Parts<'_>) -> Option<ValueCommand>
        ensures { result ≡ value_command_of name.now parts.entry }
    {
        if name == b"copy".as_slice() {
            let (from, (to, ())) = Values::read(parts)?;
            Some(ValueCommand::Copy(from, to))
        } else if name == b"eq".as_slice() {
            let (left, (right, ())) = Values::read(parts)?;
            Some(ValueCommand::Compare(left, right))
        } else {
            None
        }
    }
}
