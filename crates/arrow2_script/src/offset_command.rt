//! The commands on offsets, and their parser from the words of a line.
ghost use Rattle.std.specs.Prelude.{◌≡◌};
ghost use Rattle.arrow2_script.specs.OffsetCommands.{offset_command_of, frozen_offsets_command_of};

use crate::arguments::Values;
use crate::lines::Parts;
use crate::words::{NumberText, SlotIndex};

/// A command on offsets.
#[derive(Drop)]
pub enum OffsetCommand<'a> {
    /// `onew s x`: slot s holds growing offsets whose only offset is x.
    New(SlotIndex, u64),
    /// `opush s n`: length n is appended to the growing offsets of slot s.
    Push(SlotIndex, u64),
    /// `opop s`: the growing offsets of slot s lose their last offset.
    Pop(SlotIndex),
    /// `oext s list`: the lengths of the list are appended to the growing offsets of slot s.
    Extend(SlotIndex, NumberText<'a>),
    /// `olist s`: the offsets of slot s.
    Offsets(SlotIndex),
    /// `ofreeze s`: the growing offsets of slot s become frozen offsets.
    Freeze(SlotIndex),
    /// `oslice s i n`: the frozen offsets of slot s are cut to their n offsets from offset i on.
    Slice(SlotIndex, u64, u64),
    /// `zip s v`: the lengths of the frozen offsets of slot s, or `null` where the frozen bitmap of slot v is false.
    Zip(SlotIndex, SlotIndex),
}

impl<'a> OffsetCommand<'a> {
    /// Returns the command of this name, with these words after it, or `None` if there is none.
    #[tactic(auto, unfolding(crate::specs::OffsetCommands::offset_command_of))]
    pub fn read(name: &[u8], parts: Parts<'a>) -> Option<OffsetCommand<'a>>
        ensures { result ≡ offset_command_of name.now parts.entry }
    {
        if name == b"onew".as_slice() {
            let (slot, (first, ())) = Values::read(parts)?;
            Some(OffsetCommand::New(slot, first))
        } else if name == b"opush".as_slice() {
            let (slot, (length, ())) = Values::read(parts)?;
            Some(OffsetCommand::Push(slot, length))
        } else if name == b"opop".as_slice() {
            let (slot, ()) = Values::read(parts)?;
            Some(OffsetCommand::Pop(slot))
        } else if name == b"oext".as_slice() {
            let (slot, (lengths, ())) = Values::read(parts)?;
            Some(OffsetCommand::Extend(slot, lengths))
        } else if name == b"ofreeze".as_slice() {
            let (slot, ()) = Values::read(parts)?;
            Some(OffsetCommand::Freeze(slot))
        } else {
            OffsetCommand::read_frozen(name, parts)
        }
    }

    /// Returns the command of this name, with these words after it, if it is one that frozen offsets accept.
    #[tactic(auto, unfolding(crate::specs::OffsetCommands::frozen_offsets_command_of))]
    fn read_frozen(name: &[u8], parts: Parts<'a>) -> Option<OffsetCommand<'a>>
        ensures { result ≡ frozen_offsets_command_of name.now parts.entry }
    {
        if name == b"olist".as_slice() {
            let (slot, ()) = Values::read(parts)?;
            Some(OffsetCommand::Offsets(slot))
        } else if name == b"oslice".as_slice() {
            let (slot, (first, (count, ()))) = Values::read(parts)?;
            Some(OffsetCommand::Slice(slot, first, count))
        } else if name == b"zip".as_slice() {
            let (offsets, (validity, ())) = Values::read(parts)?;
            Some(OffsetCommand::Zip(offsets, validity))
        } else {
            None
        }
    }
}
