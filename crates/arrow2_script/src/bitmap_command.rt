//! The commands on bitmaps, and their parser from the words of a line.
ghost use Rattle.std.specs.Prelude.{◌≡◌};
ghost use Rattle.arrow2_script.specs.BitmapCommands.{bitmap_command_of, frozen_command_of};

use crate::arguments::Values;
use crate::lines::Parts;
use crate::words::{BitText, SlotIndex};

/// A command on bitmaps.
#[derive(Drop)]
pub enum BitmapCommand<'a> {
    /// `new s bits`: slot s holds a growing bitmap with these items.
    New(SlotIndex, BitText<'a>),
    /// `push s bit`: the growing bitmap of slot s gets one more item.
    Push(SlotIndex, bool),
    /// `pop s`: the growing bitmap of slot s loses its last item.
    Pop(SlotIndex),
    /// `get s i`: item i of slot s.
    Get(SlotIndex, u64),
    /// `freeze s`: the growing bitmap of slot s becomes a frozen bitmap.
    Freeze(SlotIndex),
    /// `thaw s`: the frozen bitmap of slot s becomes a growing bitmap.
    Thaw(SlotIndex),
    /// `slice s i n`: the frozen bitmap of slot s is cut to its n items from item i on.
    Slice(SlotIndex, u64, u64),
    /// `count s`: the number of false items of slot s.
    Count(SlotIndex),
    /// `bits s`: the items of slot s as a text.
    Bits(SlotIndex),
}

impl<'a> BitmapCommand<'a> {
    /// Returns the command of this name, with these words after it, or `None` if there is none.
    #[tactic(auto, unfolding(crate::specs::BitmapCommands::bitmap_command_of))]
    pub fn read(name: &[u8], parts: Parts<'a>) -> Option<BitmapCommand<'a>>
        ensures { result ≡ bitmap_command_of name.now parts.entry }
    {
        if name == b"new".as_slice() {
            let (slot, (bits, ())) = Values::read(parts)?;
            Some(BitmapCommand::New(slot, bits))
        } else if name == b"push".as_slice() {
            let (slot, (bit, ())) = Values::read(parts)?;
            Some(BitmapCommand::Push(slot, bit))
        } else if name == b"pop".as_slice() {
            let (slot, ()) = Values::read(parts)?;
            Some(BitmapCommand::Pop(slot))
        } else if name == b"freeze".as_slice() {
            let (slot, ()) = Values::read(parts)?;
            Some(BitmapCommand::Freeze(slot))
        } else {
            BitmapCommand::read_frozen(name, parts)
        }
    }

    /// Returns the command of this name, with these words after it, if it is one that frozen bitmaps accept.
    #[tactic(auto, unfolding(crate::specs::BitmapCommands::frozen_command_of))]
    fn read_frozen(name: &[u8], parts: Parts<'a>) -> Option<BitmapCommand<'a>>
        ensures { result ≡ frozen_command_of name.now parts.entry }
    {
        if name == b"get".as_slice() {
            let (slot, (index, ())) = Values::read(parts)?;
            Some(BitmapCommand::Get(slot, index))
        } else if name == b"thaw".as_slice() {
            let (slot, ()) = Values::read(parts)?;
            Some(BitmapCommand::Thaw(slot))
        } else if name == b"slice".as_slice() {
            let (slot, (offset, (length, ()))) = Values::read(parts)?;
            Some(BitmapCommand::Slice(slot, offset, length))
        } else if name == b"count".as_slice() {
            let (slot, ()) = Values::read(parts)?;
            Some(BitmapCommand::Count(slot))
        } else if name == b"bits".as_slice() {
            let (slot, ()) = Values::read(parts)?;
            Some(BitmapCommand::Bits(slot))
        } else {
            None
        }
    }
}
