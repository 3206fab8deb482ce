//! The commands by which bitmaps grow by many items, and their parser from the words of a line.
ghost use Rattle.std.specs.Prelude.{◌≡◌};
ghost use Rattle.arrow2_script.specs.GrowthCommands.{growth_command_of};

use crate::arguments::Values;
use crate::lines::Parts;
use crate::words::SlotIndex;

/// A command by which a bitmap grows by many items.
#[derive(Drop)]
pub enum GrowthCommand {
    /// `fill s n bit`: the bit is appended n times to the growing bitmap of slot s.
    Fill(SlotIndex, u64, bool),
    /// `append d s`: the items of the frozen bitmap of slot s are appended to the growing bitmap of slot d.
    Append(SlotIndex, SlotIndex),
}

impl GrowthCommand {
    /// Returns the command of this name, with these words after it, or `None` if there is none.
    #[tactic(auto, unfolding(crate::specs::GrowthCommands::growth_command_of))]
    pub fn read(name: &[u8], parts: Parts<'_>) -> Option<GrowthCommand>
        ensures { result ≡ growth_command_of name.now parts.entry }
    {
        if name == b"fill".as_slice() {
            let (slot, (additional, (bit, ()))) = Values::read(parts)?;
            Some(GrowthCommand::Fill(slot, additional, bit))
        } else if name == b"append".as_slice() {
            let (to, (from, ())) = Values::read(parts)?;
            Some(GrowthCommand::Append(to, from))
        } else {
            None
        }
    }
}
