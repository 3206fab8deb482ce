//! The commands on the stored bits of bitmaps, and their parser from the words of a line.
ghost use Rattle.std.specs.Prelude.{◌≡◌};
ghost use Rattle.arrow2_script.specs.StorageCommands.{storage_command_of};

use crate::arguments::Values;
use crate::lines::Parts;
use crate::words::{HexText, SlotIndex, Width};

/// A command on the bits that a bitmap stores.
#[derive(Drop)]
pub enum StorageCommand<'a> {
    /// `raw s hex o n`: slot s holds a frozen bitmap, the n bits of these bytes from bit o on.
    Raw(SlotIndex, HexText<'a>, u64, u64),
    /// `set s i bit`: item i of the growing bitmap of slot s becomes the bit.
    Set(SlotIndex, u64, bool),
    /// `words s w`: the words of w bits of the frozen bitmap of slot s.
    Words(SlotIndex, Width),
    /// `runs s`: the runs of set bits of the frozen bitmap of slot s.
    Runs(SlotIndex),
}

impl<'a> StorageCommand<'a> {
    /// Returns the command of this name, with these words after it, or `None` if there is none.
    #[tactic(auto, unfolding(crate::specs::StorageCommands::storage_command_of))]
    pub fn read(name: &[u8], parts: Parts<'a>) -> Option<StorageCommand<'a>>
        ensures { result ≡ storage_command_of name.now parts.entry }
    {
        if name == b"raw".as_slice() {
            let (slot, (bytes, (offset, (length, ())))) = Values::read(parts)?;
            Some(StorageCommand::Raw(slot, bytes, offset, length))
        } else if name == b"set".as_slice() {
            let (slot, (index, (bit, ()))) = Values::read(parts)?;
            Some(StorageCommand::Set(slot, index, bit))
        } else if name == b"words".as_slice() {
            let (slot, (width, ())) = Values::read(parts)?;
            Some(StorageCommand::Words(slot, width))
        } else if name == b"runs".as_slice() {
            let (slot, ()) = Values::read(parts)?;
            Some(StorageCommand::Runs(slot))
        } else {
            None
        }
    }
}
