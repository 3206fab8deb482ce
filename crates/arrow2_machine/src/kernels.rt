//! The commands that combine bitmaps: the effect of each on its slots, and its reply.
ghost use Rattle.std.specs.Prelude.{◌≡◌, [], ◌∷◌, length, OnErr, IfOk};
ghost use Rattle.arrow2.specs.Lists.{items_of};
ghost use Rattle.arrow2.specs.Tables.{each};
ghost use Rattle.arrow2_machine.specs.SlotValues.{frozen_list as frozen_in};
ghost use Rattle.arrow2_machine.specs.KernelOutcomes.{two_lists, three_lists, four_lists, kernel_items, after_assign_unary, after_assign_binary, kernel_outcome};
ghost use Rattle.arrow2_machine.specs.Outcomes.{Gives, Carries, MatchesMachine};

use crate::line_error::{CommandError, LineError};
use crate::slot::{Contents, Slot};
use arrow2::bitmap::{
    Bitmap, MutableBitmap, and, binary_assign_table, binary_table, or, quaternary_table,
    ternary_table, unary_assign_table, unary_table, xor,
};
use arrow2_script::kernel_command::{Kernel, KernelCommand};
use arrow2_script::words::{Below, SlotIndex, Width};

/// Carries out a command that combines bitmaps, and appends its reply.
#[tactic(auto, unfolding(crate::specs::KernelOutcomes::kernel_outcome))]
pub(crate) fn run(
    slots: &mut [Slot; 16],
    command: KernelCommand,
    reply: &mut Vec<u8>,
) -> Result<(), CommandError>
    ensures { Carries result slots.old slots.new reply.old.items reply.new.items
        (kernel_outcome slots.old command) }
{
    match command {
        KernelCommand::Make(to, kernel) => {
            let bitmap = new_bitmap(slots, kernel)?;
            slots[to.get()] = Slot {
                contents: Contents::Frozen(bitmap),
            };
        }
        KernelCommand::AssignUnary(slot, table, width) => {
            slots[slot.get()].assign(table, width)?;
        }
        KernelCommand::AssignBinary(slot, table, width, other) => {
            let other = slots[other.get()].frozen_bitmap()?.clone()?;
            slots[slot.get()].assign_binary(table, width, &other)?;
        }
    }
    reply.extend_from_slice(b"ok")?;
    Ok(())
}

/// Returns the bitmap that an operator or a table makes from frozen bitmaps.
///
/// # Errors
///
/// `Kind`, `Length` or `OutOfMemory`.
#[tactic(auto, unfolding(crate::specs::KernelOutcomes::kernel_items))]
fn new_bitmap(slots: &[Slot; 16], kernel: Kernel) -> Result<Bitmap, CommandError>
    ensures { Gives (λ bitmap. items_of bitmap) result (kernel_items slots.now kernel) }
{
    match kernel {
        Kernel::And(left, right) => {
            let (left, right) = two_bitmaps(slots, left, right)?;
            Ok(and(left, right)?)
        }
        Kernel::Or(left, right) => {
            let (left, right) = two_bitmaps(slots, left, right)?;
            Ok(or(left, right)?)
        }
        Kernel::Xor(left, right) => {
            let (left, right) = two_bitmaps(slots, left, right)?;
            Ok(xor(left, right)?)
        }
        Kernel::Not(from) => Ok(unary_table(slots[from.get()].frozen_bitmap()?, 1)?),
        Kernel::Unary(table, from) => Ok(unary_table(
            slots[from.get()].frozen_bitmap()?,
            table.get() as u8,
        )?),
        Kernel::Binary(table, first, second) => {
            let (first, second) = two_bitmaps(slots, first, second)?;
            Ok(binary_table(first, second, table.get() as u8)?)
        }
        Kernel::Ternary(table, first, second, third) => {
            let (first, second, third) = three_bitmaps(slots, first, second, third)?;
            Ok(ternary_table(first, second, third, table.get() as u8)?)
        }
        Kernel::Quaternary(table, first, second, third, fourth) => {
            let (first, second, third, fourth) = four_bitmaps(slots, first, second, third, fourth)?;
            Ok(quaternary_table(first, second, third, fourth, table.get() as u16)?)
        }
    }
}

/// Returns two frozen bitmaps of equal length.
///
/// # Errors
///
/// `Kind` if a slot holds no frozen bitmap, else `Length` if the lengths differ.
pub(crate) fn two_bitmaps(
    slots: &[Slot; 16],
    first: SlotIndex,
    second: SlotIndex,
) -> Result<(&Bitmap, &Bitmap), LineError>
    ensures gives { MatchesMachine (λ b. (items_of b.0.now, items_of b.1.now)) result
        (two_lists slots.now first second) }
    ensures same_length { IfOk result (λ b. length (items_of b.0.now) ≡ length (items_of b.1.now)) }
{
    let first = slots[first.get()].frozen_bitmap()?;
    let second = slots[second.get()].frozen_bitmap()?;
    if first.len() == second.len() {
        Ok((first, second))
    } else {
        Err(LineError::Length)
    }
}

/// Returns three frozen bitmaps of equal length.
///
/// # Errors
///
/// `Kind` if a slot holds no frozen bitmap, else `Length` if the lengths differ.
fn three_bitmaps(
    slots: &[Slot; 16],
    first: SlotIndex,
    second: SlotIndex,
    third: SlotIndex,
) -> Result<(&Bitmap, &Bitmap, &Bitmap), LineError>
    ensures gives { MatchesMachine (λ b. (items_of b.0.now, items_of b.1.now, items_of b.2.now)) result
        (three_lists slots.now first second third) }
    ensures same_length2 { IfOk result (λ b. length (items_of b.0.now)
        ≡ length (items_of b.1.now)) }
    ensures same_length3 { IfOk result (λ b. length (items_of b.0.now)
        ≡ length (items_of b.2.now)) }
{
    let first = slots[first.get()].frozen_bitmap()?;
    let second = slots[second.get()].frozen_bitmap()?;
    let third = slots[third.get()].frozen_bitmap()?;
    if first.len() == second.len() && first.len() == third.len() {
        Ok((first, second, third))
    } else {
        Err(LineError::Length)
    }
}

/// Returns four frozen bitmaps of equal length.
///
/// # Errors
///
/// `Kind` if a slot holds no frozen bitmap, else `Length` if the lengths differ.
fn four_bitmaps(
    slots: &[Slot; 16],
    first: SlotIndex,
    second: SlotIndex,
    third: SlotIndex,
    fourth: SlotIndex,
) -> Result<(&Bitmap, &Bitmap, &Bitmap, &Bitmap), LineError>
    ensures gives { MatchesMachine (λ b. (
      items_of b.0.now,
      items_of b.1.now,
      items_of b.2.now,
      items_of b.3.now,
    )) result (four_lists slots.now first second third fourth) }
    ensures same_length2 { IfOk result (λ b. length (items_of b.0.now)
        ≡ length (items_of b.1.now)) }
    ensures same_length3 { IfOk result (λ b. length (items_of b.0.now)
        ≡ length (items_of b.2.now)) }
    ensures same_length4 { IfOk result (λ b. length (items_of b.0.now)
        ≡ length (items_of b.3.now)) }
{
    let first = slots[first.get()].frozen_bitmap()?;
    let second = slots[second.get()].frozen_bitmap()?;
    let third = slots[third.get()].frozen_bitmap()?;
    let fourth = slots[fourth.get()].frozen_bitmap()?;
    if first.len() == second.len() && first.len() == third.len() && first.len() == fourth.len() {
        Ok((first, second, third, fourth))
    } else {
        Err(LineError::Length)
    }
}

impl Slot {
    /// Returns the frozen bitmap of a slot.
    ///
    /// # Errors
    ///
    /// Only `Kind`.
    pub(crate) fn frozen_bitmap(&self) -> Result<&Bitmap, LineError>
        ensures { MatchesMachine (λ bitmap. items_of bitmap.now) result (frozen_in self.now) }
    {
        match &self.contents {
            Contents::Frozen(bitmap) => Ok(bitmap),
            _ => Err(LineError::Kind),
        }
    }

    /// Replaces each item of a growing bitmap by the output of a table for it. The result is the same for each width of
    /// words. Does not allocate.
    ///
    /// # Errors
    ///
    /// Only `Kind`, which changes nothing.
    fn assign(&mut self, table: Below<4>, width: Width) -> Result<(), LineError>
        ensures gives { MatchesMachine (λ _. self.new) result (after_assign_unary self.old table) }
        ensures err { OnErr result (self.new ≡ self.old) }
    {
        match &mut self.contents {
            Contents::Growing(bitmap) => {
                assign_table(bitmap, table, width);
                Ok(())
            }
            _ => Err(LineError::Kind),
        }
    }

    /// Replaces each item of a growing bitmap by the output of a table for it and the item of another bitmap at the
    /// same index. The result is the same for each width of words. Does not allocate.
    ///
    /// # Errors
    ///
    /// `Kind` if this slot holds no growing bitmap, else `Length` if the lengths differ. They change nothing.
    fn assign_binary(
        &mut self,
        table: Below<16>,
        width: Width,
        other: &Bitmap,
    ) -> Result<(), LineError>
        ensures gives { MatchesMachine (λ _. self.new) result
            (after_assign_binary self.old table (items_of other.now)) }
        ensures err { OnErr result (self.new ≡ self.old) }
    {
        match &mut self.contents {
            Contents::Growing(bitmap) => {
                if bitmap.len() == other.len() {
                    assign_binary_table(bitmap, table, width, other);
                    Ok(())
                } else {
                    Err(LineError::Length)
                }
            }
            _ => Err(LineError::Kind),
        }
    }
}

/// Replaces each item by the output of a table for it.
fn assign_table(bitmap: &mut MutableBitmap, table: Below<4>, width: Width)
    ensures { bitmap.new.items ≡ each table (bitmap.old.items ∷ []) }
{
    let table = table.get() as u8;
    match width {
        Width::Bits8 => unary_assign_table::<u8>(bitmap, table),
        Width::Bits16 => unary_assign_table::<u16>(bitmap, table),
        Width::Bits32 => unary_assign_table::<u32>(bitmap, table),
        Width::Bits64 => unary_assign_table::<u64>(bitmap, table),
    }
}

/// Replaces each item by the output of a table for it and the item of `other` at the same index. Requires that both
/// bitmaps have equal lengths.
fn assign_binary_table(bitmap: &mut MutableBitmap, table: Below<16>, width: Width, other: &Bitmap)
    requires same_length { length bitmap.old.items ≡ length (items_of other.now) }
    ensures { bitmap.new.items ≡ each table (bitmap.old.items ∷ items_of other.now ∷ []) }
{
    let table = table.get() as u8;
    match width {
        Width::Bits8 => binary_assign_table::<u8>(bitmap, other, table),
        Width::Bits16 => binary_assign_table::<u16>(bitmap, other, table),
        Width::Bits32 => binary_assign_table::<u32>(bitmap, other, table),
        Width::Bits64 => binary_assign_table::<u64>(bitmap, other, table),
    }
}
