//! The commands on offsets: the effect of each on its slots, and its reply.
ghost use Rattle.std.specs.Prelude.{◌≡◌, ◌<◌, ◌≤◌, ◌+◌, [], ◌∷◌, ◌≤ℤ◌, pos, unsigned_abs, sum, OnOk, OnErr, IfOk, IsErrOf};
ghost use Rattle.arrow2.specs.Lists.{buffer_items};
ghost use Rattle.arrow2.specs.Offsets.{last_of_growing, GrownBy, SameOffsets};
ghost use Rattle.arrow2_machine.specs.Slots.{offsets_in};
ghost use Rattle.arrow2_machine.specs.Replies.{offset_reply};
ghost use Rattle.arrow2_machine.specs.OffsetOutcomes.{after_new_offsets, after_lengths, after_offset_pop, offset_text, after_offsets_freeze, offsets_inside, after_offsets_slice, zip_text, offset_outcome};
ghost use Rattle.arrow2_machine.specs.Outcomes.{Gives, Carries, WritesText, MatchesMachine, Turns};
ghost use Rattle.arrow2.specs.Failures.{OnlyOverflowOrOutOfMemory};

use crate::line_error::CommandError::Rejected;
use crate::line_error::{CommandError, LineError};
use crate::ranges::is_inside;
use crate::replies::{write_offset, write_offsets, write_slots};
use crate::slot::{Contents, Slot};
use arrow2::error;
use arrow2::error::Error;
use arrow2::offset::{Offsets, OffsetsBuffer};
use arrow2_script::offset_command::OffsetCommand;
use arrow2_script::words::NumberText;
use std::alloc::{AllocError, Global};
use std::convert::TryFrom;
use std::mem;

/// Carries out a command on offsets, and appends its reply.
#[tactic(auto, unfolding(crate::specs::OffsetOutcomes::offset_outcome))]
pub(crate) fn run(
    slots: &mut [Slot; 16],
    alloc: Global,
    command: OffsetCommand<'_>,
    reply: &mut Vec<u8>,
) -> Result<(), CommandError>
    ensures { Carries result slots.old slots.new reply.old.items reply.new.items
        (offset_outcome slots.old command.entry) }
{
    match command {
        OffsetCommand::New(slot, first) => slots[slot.get()] = Slot::with_offset(alloc, first)?,
        OffsetCommand::Push(slot, length) => slots[slot.get()].push_length(length)?,
        OffsetCommand::Pop(slot) => {
            return Ok(write_offset(slots[slot.get()].pop_offset()?, reply)?);
        }
        OffsetCommand::Extend(slot, lengths) => slots[slot.get()].extend_lengths(lengths)?,
        OffsetCommand::Offsets(slot) => return slots[slot.get()].write_offsets(reply),
        OffsetCommand::Freeze(slot) => slots[slot.get()].freeze_offsets()?,
        OffsetCommand::Slice(slot, first, count) => slots[slot.get()].slice_offsets(first, count)?,
        OffsetCommand::Zip(offsets, validity) => {
            let slots: &[Slot; 16] = slots;
            return slots[offsets.get()].write_zipped(&slots[validity.get()], reply);
        }
    }
    reply.extend_from_slice(b"ok")?;
    Ok(())
}

impl Slot {
    /// Returns a slot with growing offsets whose only offset is `first`.
    ///
    /// # Errors
    ///
    /// `Range` where `first` is above 2147483647, else only `OutOfMemory`.
    fn with_offset(alloc: Global, first: u64) -> Result<Slot, CommandError>
        ensures { Gives (λ slot. slot) result (after_new_offsets first) }
    {
        let Ok(first) = i32::try_from(first) else {
            return Err(Rejected(LineError::Range));
        };
        Ok(Slot {
            contents: Contents::GrowingOffsets(offsets_of(alloc, first)?),
        })
    }

    /// Appends one length to growing offsets.
    ///
    /// # Errors
    ///
    /// `Kind`, `Overflow` or `OutOfMemory`. They change nothing.
    fn push_length(&mut self, len: u64) -> Result<(), CommandError>
        ensures gives { Gives (λ _. self.new) result (after_lengths self.old (len ∷ [])) }
        ensures err { OnErr result (self.new ≡ self.old) }
    {
        match &mut self.contents {
            Contents::GrowingOffsets(offsets) => {
                offsets.try_push_usize(len as usize)?;
                Ok(())
            }
            _ => Err(Rejected(LineError::Kind)),
        }
    }

    /// Appends lengths to growing offsets, all of them or none.
    ///
    /// # Errors
    ///
    /// `Kind`, `Overflow` or `OutOfMemory`. They change nothing.
    fn extend_lengths(&mut self, lengths: NumberText<'_>) -> Result<(), CommandError>
        ensures gives { Gives (λ _. self.new) result (after_lengths self.old lengths.entry) }
        ensures err { OnErr result (self.new ≡ self.old) }
    {
        match &mut self.contents {
            Contents::GrowingOffsets(offsets) => {
                extend(offsets, lengths)?;
                Ok(())
            }
            _ => Err(Rejected(LineError::Kind)),
        }
    }

    /// Removes the last offset of growing offsets and returns it. If there is only one offset, removes nothing and
    /// returns `None`.
    ///
    /// # Errors
    ///
    /// Only `Kind`, which changes nothing.
    fn pop_offset(&mut self) -> Result<Option<i32>, LineError>
        ensures gives { MatchesMachine (λ offset.
            (self.new, offset_reply offset)) result (after_offset_pop self.old) }
        ensures err { OnErr result (self.new ≡ self.old) }
    {
        match &mut self.contents {
            Contents::GrowingOffsets(offsets) => Ok(offsets.pop()),
            _ => Err(LineError::Kind),
        }
    }

    /// Appends the text of offsets.
    ///
    /// # Errors
    ///
    /// `Kind`, which changes nothing, or `OutOfMemory`, after which nothing is stated of `out`.
    fn write_offsets(&self, out: &mut Vec<u8>) -> Result<(), CommandError>
        ensures { WritesText result out.old.items out.new.items (offset_text self.now) }
    {
        match &self.contents {
            Contents::FrozenOffsets(offsets) => write_offsets(offsets.as_slice(), out)?,
            Contents::GrowingOffsets(offsets) => write_offsets(offsets.as_slice(), out)?,
            _ => return Err(Rejected(LineError::Kind)),
        }
        Ok(())
    }

    /// Freezes growing offsets.
    ///
    /// # Errors
    ///
    /// `Kind`, which changes nothing, or `OutOfMemory`, which leaves nothing in the slot.
    fn freeze_offsets(&mut self) -> Result<(), CommandError>
        ensures { Turns result self.old self.new (after_offsets_freeze self.old) }
    {
        match mem::replace(&mut self.contents, Contents::Nothing) {
            Contents::GrowingOffsets(offsets) => {
                self.contents = Contents::FrozenOffsets(OffsetsBuffer::try_from(offsets)?);
                Ok(())
            }
            other => {
                self.contents = other;
                Err(Rejected(LineError::Kind))
            }
        }
    }

    /// Cuts frozen offsets to the `count` offsets from offset `first` on. Does not allocate.
    ///
    /// # Errors
    ///
    /// `Kind`, or `Range` where `count` is 0 or these offsets are not inside. They change nothing.
    fn slice_offsets(&mut self, first: u64, count: u64) -> Result<(), LineError>
        ensures gives { MatchesMachine (λ _. self.new) result (after_offsets_slice self.old first count) }
        ensures err { OnErr result (self.new ≡ self.old) }
    {
        match &mut self.contents {
            Contents::FrozenOffsets(offsets) => cut(offsets, first, count),
            _ => Err(LineError::Kind),
        }
    }

    /// Appends the lengths of frozen offsets as text. Where an item of the frozen bitmap in `validity` is false, writes
    /// `null` in place of the length.
    ///
    /// # Errors
    ///
    /// `Kind` or `Length`, which change nothing, or `OutOfMemory`, after which nothing is stated of `out`.
    fn write_zipped(&self, validity: &Slot, out: &mut Vec<u8>) -> Result<(), CommandError>
        ensures { WritesText result out.old.items out.new.items (zip_text self.now validity.now) }
    {
        match (&self.contents, &validity.contents) {
            (Contents::FrozenOffsets(offsets), Contents::Frozen(validity)) => {
                if offsets.len_proxy() != validity.len() {
                    return Err(Rejected(LineError::Length));
                }
                write_slots(offsets.lengths(), validity.iter(), out)?;
                Ok(())
            }
            _ => Err(Rejected(LineError::Kind)),
        }
    }
}

/// Returns growing offsets whose only offset is `first`. Requires that `first` is not negative.
fn offsets_of(alloc: Global, first: i32) -> Result<Offsets<i32>, AllocError>
    requires { pos 0 ≤ℤ first }
    ensures { IfOk result (λ o. (o.start ≡ unsigned_abs first) × (o.lengths ≡ [])) }
{
    let offsets = vec![in alloc; first]?;
    Ok(Offsets::try_from(offsets).unwrap())
}

/// Appends lengths to offsets, all of them or none.
fn extend(offsets: &mut Offsets<i32>, lengths: NumberText<'_>) -> error::Result<()>
    ensures ok { OnOk result (GrownBy lengths.entry offsets.old offsets.new) }
    ensures fits { OnOk result (last_of_growing offsets.old + sum lengths.entry ≤ 2147483647) }
    ensures err { OnErr result (SameOffsets offsets.old offsets.new) }
    ensures overflow { IsErrOf result Error.Overflow →
        2147483647 < last_of_growing offsets.old + sum lengths.entry }
    ensures only { OnlyOverflowOrOutOfMemory result }
{
    offsets.try_extend_from_lengths(lengths)
}

/// Cuts offsets to the `count` offsets from offset `first` on. Returns `Range` and changes nothing where `count` is 0
/// or these offsets are not inside.
fn cut(offsets: &mut OffsetsBuffer<i32>, first: u64, count: u64) -> Result<(), LineError>
    ensures gives { MatchesMachine (λ _. offsets_in (buffer_items offsets.new)) result
        (offsets_inside (offsets_in (buffer_items offsets.old)) first count) }
    ensures err { OnErr result (offsets.new ≡ offsets.old) }
{
    if count == 0 || !is_inside(offsets.len(), first, count) {
        return Err(LineError::Range);
    }
    offsets.slice(first as usize, count as usize);
    Ok(())
}
