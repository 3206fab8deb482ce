//! The commands on boolean arrays: the effect of each on its slots, and its reply.
ghost use Rattle.std.specs.Prelude.{◌≡◌, length, OnErr, IfOk};
ghost use Rattle.arrow2_machine.specs.BitmapOutcomes.{part_inside};
ghost use Rattle.arrow2_machine.specs.SlotValues.{array as array_in, Array};
ghost use Rattle.arrow2_machine.specs.ArrayOutcomes.{after_new_array, array_reply, null_count, after_array_slice, two_arrays, after_kleene, array_outcome};
ghost use Rattle.arrow2.specs.Items.{boolean_items};
ghost use Rattle.arrow2.specs.Kleene.{kleene_and, kleene_or};
ghost use Rattle.arrow2_machine.specs.Outcomes.{Gives, Carries, WritesText, MatchesMachine};

use crate::kernels::two_bitmaps;
use crate::line_error::{CommandError, LineError};
use crate::ranges::is_inside;
use crate::replies::{write_array_items, write_number};
use crate::slot::{Contents, Slot};
use arrow2::array::BooleanArray;
use arrow2_script::array_command::ArrayCommand;
use arrow2_script::words::SlotIndex;

/// Carries out a command on boolean arrays, and appends its reply.
#[tactic(auto, unfolding(crate::specs::ArrayOutcomes::array_outcome))]
pub(crate) fn run(
    slots: &mut [Slot; 16],
    command: ArrayCommand,
    reply: &mut Vec<u8>,
) -> Result<(), CommandError>
    ensures { Carries result slots.old slots.new reply.old.items reply.new.items
        (array_outcome slots.old command) }
{
    match command {
        ArrayCommand::New(to, values, validity) => {
            slots[to.get()] = Slot::with_array(array_of(slots, values, validity)?);
        }
        ArrayCommand::List(slot) => return slots[slot.get()].write_array(reply),
        ArrayCommand::Nulls(slot) => {
            return Ok(write_number(slots[slot.get()].count_nulls()?, reply)?);
        }
        ArrayCommand::Slice(slot, offset, length) => {
            slots[slot.get()].slice_array(offset, length)?;
        }
        ArrayCommand::And(to, left, right) => {
            slots[to.get()] = Slot::with_array(and_kleene(slots, left, right)?);
        }
        ArrayCommand::Or(to, left, right) => {
            slots[to.get()] = Slot::with_array(or_kleene(slots, left, right)?);
        }
    }
    reply.extend_from_slice(b"ok")?;
    Ok(())
}

/// Returns the boolean array whose values are the frozen bitmap of slot `values`. An item is null where the frozen
/// bitmap of slot `validity` is false. Without `validity` no item is null.
///
/// # Errors
///
/// `Kind`, `Length` or `OutOfMemory`.
fn array_of(
    slots: &[Slot; 16],
    values: SlotIndex,
    validity: Option<SlotIndex>,
) -> Result<BooleanArray, CommandError>
    ensures { Gives (λ array. Array (boolean_items array)) result
        (after_new_array slots.now values validity) }
{
    let array = match validity {
        Some(validity) => {
            let (values, validity) = two_bitmaps(slots, values, validity)?;
            BooleanArray::new(values.clone()?, Some(validity.clone()?))
        }
        None => BooleanArray::new(slots[values.get()].frozen_bitmap()?.clone()?, None),
    };
    Ok(array)
}

/// Returns AND, by Kleene's logic, of two boolean arrays of equal length.
///
/// # Errors
///
/// `Kind`, `Length` or `OutOfMemory`.
fn and_kleene(
    slots: &[Slot; 16],
    left: SlotIndex,
    right: SlotIndex,
) -> Result<BooleanArray, CommandError>
    ensures { Gives (λ array. Array (boolean_items array)) result
        (after_kleene kleene_and slots.now left right) }
{
    let (left, right) = two_boolean_arrays(slots, left, right)?;
    Ok(left.and_kleene(right)?)
}

/// Returns OR, by Kleene's logic, of two boolean arrays of equal length.
///
/// # Errors
///
/// `Kind`, `Length` or `OutOfMemory`.
fn or_kleene(
    slots: &[Slot; 16],
    left: SlotIndex,
    right: SlotIndex,
) -> Result<BooleanArray, CommandError>
    ensures { Gives (λ array. Array (boolean_items array)) result
        (after_kleene kleene_or slots.now left right) }
{
    let (left, right) = two_boolean_arrays(slots, left, right)?;
    Ok(left.or_kleene(right)?)
}

/// Returns two boolean arrays of equal length.
///
/// # Errors
///
/// `Kind` if a slot holds no boolean array, else `Length` if the lengths differ.
fn two_boolean_arrays(
    slots: &[Slot; 16],
    first: SlotIndex,
    second: SlotIndex,
) -> Result<(&BooleanArray, &BooleanArray), LineError>
    ensures gives { MatchesMachine (λ a. (boolean_items a.0.now, boolean_items a.1.now)) result
        (two_arrays slots.now first second) }
    ensures same_length { IfOk result (λ a. length (boolean_items a.0.now) ≡ length (boolean_items a.1.now)) }
{
    let first = slots[first.get()].array()?;
    let second = slots[second.get()].array()?;
    if first.len() == second.len() {
        Ok((first, second))
    } else {
        Err(LineError::Length)
    }
}

impl Slot {
    /// Returns a slot with a boolean array.
    fn with_array(array: BooleanArray) -> Slot
        ensures { result ≡ Array (boolean_items array) }
    {
        Slot {
            contents: Contents::Array(array),
        }
    }

    /// Returns the boolean array of a slot.
    ///
    /// # Errors
    ///
    /// Only `Kind`.
    fn array(&self) -> Result<&BooleanArray, LineError>
        ensures { MatchesMachine (λ array. boolean_items array.now) result (array_in self.now) }
    {
        match &self.contents {
            Contents::Array(array) => Ok(array),
            _ => Err(LineError::Kind),
        }
    }

    /// Appends the text of a boolean array's items.
    ///
    /// # Errors
    ///
    /// `Kind`, which changes nothing, or `OutOfMemory`, after which nothing is stated of `out`.
    fn write_array(&self, out: &mut Vec<u8>) -> Result<(), CommandError>
        ensures { WritesText result out.old.items out.new.items (array_reply self.now) }
    {
        write_array_items(self.array()?, out)?;
        Ok(())
    }

    /// Returns the number of null items of a boolean array.
    ///
    /// # Errors
    ///
    /// Only `Kind`.
    fn count_nulls(&self) -> Result<usize, LineError>
        ensures { result ≡ null_count self.now }
    {
        Ok(self.array()?.null_count())
    }

    /// Cuts a boolean array to its `len` items from item `offset` on. Does not allocate.
    ///
    /// # Errors
    ///
    /// `Kind` or `Range`. They change nothing.
    fn slice_array(&mut self, offset: u64, len: u64) -> Result<(), LineError>
        ensures gives { MatchesMachine (λ _. self.new) result (after_array_slice self.old offset len) }
        ensures err { OnErr result (self.new ≡ self.old) }
    {
        match &mut self.contents {
            Contents::Array(array) => cut(array, offset, len),
            _ => Err(LineError::Kind),
        }
    }
}

/// Cuts a boolean array to its `len` items from item `offset` on. Returns `Range` and changes nothing where they are
/// not inside.
fn cut(array: &mut BooleanArray, offset: u64, len: u64) -> Result<(), LineError>
    ensures gives { MatchesMachine (λ _. boolean_items array.new) result
        (part_inside (boolean_items array.old) offset len) }
    ensures err { OnErr result (array.new ≡ array.old) }
{
    if !is_inside(array.len(), offset, len) {
        return Err(LineError::Range);
    }
    array.slice(offset as usize, len as usize);
    Ok(())
}
