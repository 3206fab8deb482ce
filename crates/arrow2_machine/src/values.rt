//! The commands on values of several types: the effect of each on its slots, and its reply.
ghost use Rattle.std.specs.Prelude.{◌≡◌};
ghost use Rattle.arrow2_machine.specs.ValueOutcomes.{after_copy, are_equal, value_outcome};
ghost use Rattle.arrow2_machine.specs.Outcomes.{Gives, Carries};

use crate::line_error::CommandError::Rejected;
use crate::line_error::{CommandError, LineError};
use crate::replies::write_item;
use crate::slot::{Contents, Slot};
use arrow2_script::value_command::ValueCommand;

/// Carries out a command on values, and appends its reply.
#[tactic(auto, unfolding(crate::specs::ValueOutcomes::value_outcome))]
pub(crate) fn run(
    slots: &mut [Slot; 16],
    command: ValueCommand,
    reply: &mut Vec<u8>,
) -> Result<(), CommandError>
    ensures { Carries result slots.old slots.new reply.old.items reply.new.items
        (value_outcome slots.old command) }
{
    match command {
        ValueCommand::Copy(from, to) => slots[to.get()] = slots[from.get()].copy()?,
        ValueCommand::Compare(left, right) => {
            let slots: &[Slot; 16] = slots;
            let same = slots[left.get()].compare(&slots[right.get()])?;
            return Ok(write_item(Some(same), reply)?);
        }
    }
    reply.extend_from_slice(b"ok")?;
    Ok(())
}

impl Slot {
    /// Returns a slot with the same frozen bitmap, frozen offsets or boolean array.
    ///
    /// # Errors
    ///
    /// `Kind` or `OutOfMemory`.
    fn copy(&self) -> Result<Slot, CommandError>
        ensures { Gives (λ slot. slot) result (after_copy self.now) }
    {
        let contents = match &self.contents {
            Contents::Frozen(bitmap) => Contents::Frozen(bitmap.clone()?),
            Contents::FrozenOffsets(offsets) => Contents::FrozenOffsets(offsets.clone()?),
            Contents::Array(array) => Contents::Array(array.clone()?),
            _ => return Err(Rejected(LineError::Kind)),
        };
        Ok(Slot { contents })
    }

    /// Returns whether two slots hold the same list.
    ///
    /// # Errors
    ///
    /// Only `Kind`: the slots hold values of different types, boolean arrays or nothing.
    fn compare(&self, other: &Slot) -> Result<bool, LineError>
        ensures { result ≡ are_equal self.now other.now }
    {
        match (&self.contents, &other.contents) {
            (Contents::Frozen(a), Contents::Frozen(b)) => Ok(a == b),
            (Contents::Growing(a), Contents::Growing(b)) => Ok(a == b),
            // Calls the method, since its contract is about the first offsets and the lengths.
            (Contents::FrozenOffsets(a), Contents::FrozenOffsets(b)) => Ok(a.eq(b)),
            (Contents::GrowingOffsets(a), Contents::GrowingOffsets(b)) => Ok(a == b),
            _ => Err(LineError::Kind),
        }
    }
}
