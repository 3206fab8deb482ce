//! The commands by which bitmaps grow by many items: the effect of each on its slots, and its reply.
ghost use Rattle.std.specs.Prelude.{◌≡◌, OnErr};
ghost use Rattle.arrow2.specs.Lists.{items_of};
ghost use Rattle.arrow2_machine.specs.GrowthOutcomes.{after_fill, after_append, growth_outcome};
ghost use Rattle.arrow2_machine.specs.Outcomes.{Gives, Carries};

use crate::line_error::CommandError::Rejected;
use crate::line_error::{CommandError, LineError};
use crate::slot::{Contents, Slot};
use arrow2::bitmap::Bitmap;
use arrow2_script::growth_command::GrowthCommand;

/// Carries out a command by which a bitmap grows, and appends its reply.
#[tactic(auto, unfolding(crate::specs::GrowthOutcomes::growth_outcome))]
pub(crate) fn run(
    slots: &mut [Slot; 16],
    command: GrowthCommand,
    reply: &mut Vec<u8>,
) -> Result<(), CommandError>
    ensures { Carries result slots.old slots.new reply.old.items reply.new.items
        (growth_outcome slots.old command) }
{
    match command {
        GrowthCommand::Fill(slot, additional, bit) => slots[slot.get()].fill(additional, bit)?,
        GrowthCommand::Append(to, from) => {
            let other = slots[from.get()].frozen_bitmap()?.clone()?;
            slots[to.get()].append(&other)?;
        }
    }
    reply.extend_from_slice(b"ok")?;
    Ok(())
}

impl Slot {
    /// Appends a bit to a growing bitmap `additional` times.
    ///
    /// # Errors
    ///
    /// `Kind`, `Overflow` or `OutOfMemory`. They change nothing.
    fn fill(&mut self, additional: u64, bit: bool) -> Result<(), CommandError>
        ensures gives { Gives (λ _. self.new) result (after_fill self.old additional bit) }
        ensures err { OnErr result (self.new ≡ self.old) }
    {
        match &mut self.contents {
            Contents::Growing(bitmap) => {
                bitmap.extend_constant(additional as usize, bit)?;
                Ok(())
            }
            _ => Err(Rejected(LineError::Kind)),
        }
    }

    /// Appends the items of another bitmap to a growing one.
    ///
    /// # Errors
    ///
    /// `Kind`, `Overflow` or `OutOfMemory`. They change nothing.
    fn append(&mut self, other: &Bitmap) -> Result<(), CommandError>
        ensures gives { Gives (λ _. self.new) result (after_append self.old (items_of other.now)) }
        ensures err { OnErr result (self.new ≡ self.old) }
    {
        match &mut self.contents {
            Contents::Growing(bitmap) => {
                bitmap.extend_from_bitmap(other)?;
                Ok(())
            }
            _ => Err(Rejected(LineError::Kind)),
        }
    }
}
