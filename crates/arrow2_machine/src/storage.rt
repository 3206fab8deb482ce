//! The commands on the stored bits of bitmaps: the effect of each on its slots, and its reply.
ghost use Rattle.std.specs.Prelude.{◌≡◌, OnErr, IfOk};
ghost use Rattle.arrow2_machine.specs.StorageOutcomes.{after_raw, after_set, word_text, run_text, storage_outcome};
ghost use Rattle.arrow2_machine.specs.Outcomes.{Gives, Carries, WritesText, MatchesMachine};

use crate::line_error::CommandError::Rejected;
use crate::line_error::{CommandError, LineError};
use crate::replies::{write_runs, write_words};
use crate::slot::{Contents, Slot};
use arrow2::bitmap::Bitmap;
use arrow2::bitmap::utils::SlicesIterator;
use arrow2_script::storage_command::StorageCommand;
use arrow2_script::words::{HexText, Width};
use std::alloc::{AllocError, Global};

/// Carries out a command on stored bits, and appends its reply.
#[tactic(auto, unfolding(crate::specs::StorageOutcomes::storage_outcome))]
pub(crate) fn run(
    slots: &mut [Slot; 16],
    alloc: Global,
    command: StorageCommand<'_>,
    reply: &mut Vec<u8>,
) -> Result<(), CommandError>
    ensures { Carries result slots.old slots.new reply.old.items reply.new.items
        (storage_outcome slots.old command.entry) }
{
    match command {
        StorageCommand::Raw(slot, bytes, offset, length) => {
            slots[slot.get()] = Slot::with_stored(alloc, bytes, offset, length)?;
        }
        StorageCommand::Set(slot, index, bit) => slots[slot.get()].set(index, bit)?,
        StorageCommand::Words(slot, width) => return slots[slot.get()].write_words(width, reply),
        StorageCommand::Runs(slot) => return slots[slot.get()].write_runs(reply),
    }
    reply.extend_from_slice(b"ok")?;
    Ok(())
}

impl Slot {
    /// Returns a slot with a frozen bitmap: the `len` bits of these bytes from bit `offset` on.
    ///
    /// # Errors
    ///
    /// `Range` where these bits are not inside the bytes, or `OutOfMemory`.
    fn with_stored(
        alloc: Global,
        bytes: HexText<'_>,
        offset: u64,
        len: u64,
    ) -> Result<Slot, CommandError>
        ensures { Gives (λ slot. slot) result (after_raw bytes.entry offset len) }
    {
        let Some(end) = offset.checked_add(len) else {
            return Err(Rejected(LineError::Range));
        };
        let mut bitmap = Bitmap::try_new(bytes_of_hex(alloc, bytes)?, end as usize)?;
        bitmap.slice(offset as usize, len as usize);
        Ok(Slot {
            contents: Contents::Frozen(bitmap),
        })
    }

    /// Sets item `index` of a growing bitmap to `bit`.
    ///
    /// # Errors
    ///
    /// `Kind` or `Range`. They change nothing.
    fn set(&mut self, index: u64, bit: bool) -> Result<(), LineError>
        ensures gives { MatchesMachine (λ _. self.new) result (after_set self.old index bit) }
        ensures err { OnErr result (self.new ≡ self.old) }
    {
        match &mut self.contents {
            Contents::Growing(bitmap) => {
                if index < bitmap.len() as u64 {
                    bitmap.set(index as usize, bit);
                    Ok(())
                } else {
                    Err(LineError::Range)
                }
            }
            _ => Err(LineError::Kind),
        }
    }

    /// Appends each word of a frozen bitmap as a decimal number. Bits of the last word past the items are 0.
    ///
    /// # Errors
    ///
    /// `Kind`, which changes nothing, or `OutOfMemory`, after which nothing is stated of `out`.
    fn write_words(&self, width: Width, out: &mut Vec<u8>) -> Result<(), CommandError>
        ensures { WritesText result out.old.items out.new.items (word_text self.now width) }
    {
        let Contents::Frozen(bitmap) = &self.contents else {
            return Err(Rejected(LineError::Kind));
        };
        match width {
            Width::Bits8 => write_words(bitmap.chunks::<u8>(), |word| word as usize, out)?,
            Width::Bits16 => write_words(bitmap.chunks::<u16>(), |word| word as usize, out)?,
            Width::Bits32 => write_words(bitmap.chunks::<u32>(), |word| word as usize, out)?,
            Width::Bits64 => write_words(bitmap.chunks::<u64>(), |word| word as usize, out)?,
        }
        Ok(())
    }

    /// Appends the runs of set bits of a frozen bitmap, each as its first index and its length.
    ///
    /// # Errors
    ///
    /// `Kind`, which changes nothing, or `OutOfMemory`, after which nothing is stated of `out`.
    fn write_runs(&self, out: &mut Vec<u8>) -> Result<(), CommandError>
        ensures { WritesText result out.old.items out.new.items (run_text self.now) }
    {
        write_runs(SlicesIterator::new(self.frozen_bitmap()?), out)?;
        Ok(())
    }
}

/// Returns the bytes of a text of hexadecimal digits.
fn bytes_of_hex(alloc: Global, bytes: HexText<'_>) -> Result<Vec<u8>, AllocError>
    ensures { IfOk result (λ vec. vec.items ≡ bytes.entry) }
{
    let mut decoded = Vec::with_capacity(alloc, bytes.len())?;
    for byte in bytes {
        decoded.push(byte)?;
    }
    Ok(decoded)
}
