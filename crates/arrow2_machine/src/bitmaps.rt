//! The commands on bitmaps: the effect of each on its slots, and its reply.
ghost use Rattle.std.specs.Prelude.{◌≡◌, slice_get, OnErr};
ghost use Rattle.arrow2.specs.Lists.{items_of};
ghost use Rattle.arrow2_machine.specs.SlotValues.{Growing};
ghost use Rattle.arrow2_machine.specs.Replies.{item_reply};
ghost use Rattle.arrow2_machine.specs.BitmapOutcomes.{after_push, after_pop, reply_with_item, after_freeze, after_thaw, after_slice, false_count, item_text, part_inside, bitmap_outcome};
ghost use Rattle.arrow2_machine.specs.Outcomes.{Gives, Carries, WritesText, MatchesMachine, Turns};

use crate::line_error::CommandError::Rejected;
use crate::line_error::{CommandError, LineError};
use crate::ranges::is_inside;
use crate::replies::{write_item, write_items, write_number};
use crate::slot::{Contents, Slot};
use arrow2::bitmap::{Bitmap, MutableBitmap};
use arrow2_script::bitmap_command::BitmapCommand;
use arrow2_script::words::BitText;
use std::alloc::Global;
use std::convert::TryFrom;
use std::mem;

/// Carries out a command on bitmaps, and appends its reply.
#[tactic(auto, unfolding(crate::specs::BitmapOutcomes::bitmap_outcome))]
pub(crate) fn run(
    slots: &mut [Slot; 16],
    alloc: Global,
    command: BitmapCommand<'_>,
    reply: &mut Vec<u8>,
) -> Result<(), CommandError>
    ensures { Carries result slots.old slots.new reply.old.items reply.new.items
        (bitmap_outcome slots.old command.entry) }
{
    match command {
        BitmapCommand::New(slot, bits) => slots[slot.get()] = Slot::with_bits(alloc, &bits)?,
        BitmapCommand::Push(slot, bit) => slots[slot.get()].push(bit)?,
        BitmapCommand::Pop(slot) => return Ok(write_item(slots[slot.get()].pop()?, reply)?),
        BitmapCommand::Get(slot, index) => {
            return Ok(write_item(slots[slot.get()].get(index)?, reply)?);
        }
        BitmapCommand::Freeze(slot) => slots[slot.get()].freeze()?,
        BitmapCommand::Thaw(slot) => slots[slot.get()].thaw()?,
        BitmapCommand::Slice(slot, offset, length) => slots[slot.get()].slice(offset, length)?,
        BitmapCommand::Count(slot) => {
            return Ok(write_number(slots[slot.get()].count()?, reply)?);
        }
        BitmapCommand::Bits(slot) => return slots[slot.get()].write_bits(reply),
    }
    reply.extend_from_slice(b"ok")?;
    Ok(())
}

impl Slot {
    /// Returns a slot with a growing bitmap of these items.
    ///
    /// # Errors
    ///
    /// Only `OutOfMemory`.
    fn with_bits(alloc: Global, text: &BitText<'_>) -> Result<Slot, CommandError>
        ensures { Gives (λ slot. slot) result (Ok (Growing text.now)) }
    {
        Ok(Slot {
            contents: Contents::Growing(bitmap_of(alloc, text)?),
        })
    }

    /// Adds one item to a growing bitmap.
    ///
    /// # Errors
    ///
    /// `Kind`, `Overflow` or `OutOfMemory`. They change nothing.
    fn push(&mut self, bit: bool) -> Result<(), CommandError>
        ensures gives { Gives (λ _. self.new) result (after_push self.old bit) }
        ensures err { OnErr result (self.new ≡ self.old) }
    {
        match &mut self.contents {
            Contents::Growing(bitmap) => {
                bitmap.push(bit)?;
                Ok(())
            }
            _ => Err(Rejected(LineError::Kind)),
        }
    }

    /// Removes the last item of a growing bitmap and returns it, or returns `None` if there is no item.
    ///
    /// # Errors
    ///
    /// Only `Kind`, which changes nothing.
    #[tactic(auto, using(crate::proofs::SlotLemmas::popping))]
    fn pop(&mut self) -> Result<Option<bool>, LineError>
        ensures gives { MatchesMachine (λ item. (self.new, item_reply item)) result (after_pop self.old) }
        ensures err { OnErr result (self.new ≡ self.old) }
    {
        match &mut self.contents {
            Contents::Growing(bitmap) => Ok(bitmap.pop()),
            _ => Err(LineError::Kind),
        }
    }

    /// Returns item `index` of a bitmap, or `None` if there is no such item.
    ///
    /// # Errors
    ///
    /// Only `Kind`.
    fn get(&self, index: u64) -> Result<Option<bool>, LineError>
        ensures { MatchesMachine item_reply result (reply_with_item self.now index) }
    {
        match &self.contents {
            Contents::Frozen(bitmap) => Ok(bitmap.get(index as usize)),
            Contents::Growing(bitmap) => Ok(item_at(bitmap, index)),
            _ => Err(LineError::Kind),
        }
    }

    /// Freezes a growing bitmap.
    ///
    /// # Errors
    ///
    /// `Kind`, which changes nothing, or `OutOfMemory`, which leaves nothing in the slot.
    fn freeze(&mut self) -> Result<(), CommandError>
        ensures { Turns result self.old self.new (after_freeze self.old) }
    {
        match mem::replace(&mut self.contents, Contents::Nothing) {
            Contents::Growing(bitmap) => {
                self.contents = Contents::Frozen(Bitmap::try_from(bitmap)?);
                Ok(())
            }
            other => {
                self.contents = other;
                Err(Rejected(LineError::Kind))
            }
        }
    }

    /// Turns a frozen bitmap into a growing one.
    ///
    /// # Errors
    ///
    /// `Kind`, which changes nothing, or `OutOfMemory`, which leaves nothing in the slot.
    fn thaw(&mut self) -> Result<(), CommandError>
        ensures { Turns result self.old self.new (after_thaw self.old) }
    {
        match mem::replace(&mut self.contents, Contents::Nothing) {
            Contents::Frozen(bitmap) => {
                self.contents = Contents::Growing(bitmap.make_mut()?);
                Ok(())
            }
            other => {
                self.contents = other;
                Err(Rejected(LineError::Kind))
            }
        }
    }

    /// Cuts a frozen bitmap to its `len` items from item `offset` on. Does not allocate.
    ///
    /// # Errors
    ///
    /// `Kind` or `Range`. They change nothing.
    fn slice(&mut self, offset: u64, len: u64) -> Result<(), LineError>
        ensures gives { MatchesMachine (λ _. self.new) result (after_slice self.old offset len) }
        ensures err { OnErr result (self.new ≡ self.old) }
    {
        match &mut self.contents {
            Contents::Frozen(bitmap) => cut(bitmap, offset, len),
            _ => Err(LineError::Kind),
        }
    }

    /// Returns the number of false items of a bitmap.
    ///
    /// # Errors
    ///
    /// Only `Kind`.
    fn count(&self) -> Result<usize, LineError>
        ensures { result ≡ false_count self.now }
    {
        match &self.contents {
            Contents::Frozen(bitmap) => Ok(bitmap.unset_bits()),
            Contents::Growing(bitmap) => Ok(bitmap.unset_bits()),
            _ => Err(LineError::Kind),
        }
    }

    /// Appends the text of a bitmap's items.
    ///
    /// # Errors
    ///
    /// `Kind`, which changes nothing, or `OutOfMemory`, after which nothing is stated of `out`.
    fn write_bits(&self, out: &mut Vec<u8>) -> Result<(), CommandError>
        ensures { WritesText result out.old.items out.new.items (item_text self.now) }
    {
        match &self.contents {
            Contents::Frozen(bitmap) => write_items(bitmap.iter(), out)?,
            Contents::Growing(bitmap) => write_items(bitmap.iter(), out)?,
            _ => return Err(Rejected(LineError::Kind)),
        }
        Ok(())
    }
}

/// Returns the growing bitmap of a text of bits.
fn bitmap_of(alloc: Global, text: &BitText<'_>) -> Result<MutableBitmap, CommandError>
    ensures { Gives (λ bitmap. bitmap.items) result (Ok text.now) }
{
    let digits = text.digits();
    let mut bitmap = MutableBitmap::with_capacity(alloc, digits.len())?;
    for digit in digits {
        bitmap.push(*digit == b'1')?;
    }
    Ok(bitmap)
}

/// Cuts a bitmap to its `len` items from item `offset` on. Returns `Range` and changes nothing where they are not
/// inside.
fn cut(bitmap: &mut Bitmap, offset: u64, len: u64) -> Result<(), LineError>
    ensures gives { MatchesMachine (λ _. items_of bitmap.new) result
        (part_inside (items_of bitmap.old) offset len) }
    ensures err { OnErr result (bitmap.new ≡ bitmap.old) }
{
    if !is_inside(bitmap.len(), offset, len) {
        return Err(LineError::Range);
    }
    bitmap.slice(offset as usize, len as usize);
    Ok(())
}

/// Returns item `index` of a growing bitmap, or `None` if there is no such item.
#[tactic(auto, using(std::proofs::lemmas::Option::gets))]
fn item_at(bitmap: &MutableBitmap, index: u64) -> Option<bool>
    ensures { result ≡ slice_get bitmap.now.items index }
{
    if index < bitmap.len() as u64 {
        Some(bitmap.get(index as usize))
    } else {
        None
    }
}
