//! The commands that combine bitmaps by truth tables, and their parser from the words of a line.
ghost use Rattle.std.specs.Prelude.{◌≡◌};
ghost use Rattle.arrow2_script.specs.KernelCommands.{kernel_command_of, operator_command_of, table_command_of};

use crate::arguments::Values;
use crate::lines::Parts;
use crate::words::{Below, SlotIndex, Width};

/// A command that combines bitmaps.
#[derive(Drop)]
pub enum KernelCommand {
    /// `and d a b`, `table1 d t a` and so on: slot d holds the result for frozen bitmaps, as a frozen bitmap.
    Make(SlotIndex, Kernel),
    /// `inplace1 s t w`: the growing bitmap of slot s becomes the outputs of table t for it. The result is the same for
    /// each width w of words.
    AssignUnary(SlotIndex, Below<4>, Width),
    /// `inplace2 s t w a`: the growing bitmap of slot s becomes the outputs of table t for it and the frozen bitmap of
    /// slot a. The result is the same for each width w of words.
    AssignBinary(SlotIndex, Below<16>, Width, SlotIndex),
}

/// The operators and tables that make a bitmap from the frozen bitmaps of slots.
#[derive(Drop)]
pub enum Kernel {
    /// Item by item, whether both are true.
    And(SlotIndex, SlotIndex),
    /// Item by item, whether at least one is true.
    Or(SlotIndex, SlotIndex),
    /// Item by item, whether exactly one is true.
    Xor(SlotIndex, SlotIndex),
    /// Item by item, whether the item is false.
    Not(SlotIndex),
    /// The outputs of a table of one input.
    Unary(Below<4>, SlotIndex),
    /// The outputs of a table of two inputs.
    Binary(Below<16>, SlotIndex, SlotIndex),
    /// The outputs of a table of three inputs.
    Ternary(Below<256>, SlotIndex, SlotIndex, SlotIndex),
    /// The outputs of a table of four inputs.
    Quaternary(Below<65536>, SlotIndex, SlotIndex, SlotIndex, SlotIndex),
}

impl KernelCommand {
    /// Returns the command of this name, with these words after it, or `None` if there is none.
    #[tactic(auto, unfolding(crate::specs::KernelCommands::kernel_command_of))]
    pub fn read(name: &[u8], parts: Parts<'_>) -> Option<KernelCommand>
        ensures { result ≡ kernel_command_of name.now parts.entry }
    {
        if name == b"inplace1".as_slice() {
            let (slot, (table, (width, ()))) = Values::read(parts)?;
            Some(KernelCommand::AssignUnary(slot, table, width))
        } else if name == b"inplace2".as_slice() {
            let (slot, (table, (width, (other, ())))) = Values::read(parts)?;
            Some(KernelCommand::AssignBinary(slot, table, width, other))
        } else {
            KernelCommand::read_operator(name, parts)
        }
    }

    /// Returns the command that makes a bitmap by the operator, or else the table, of this name.
    #[tactic(auto, unfolding(crate::specs::KernelCommands::operator_command_of))]
    fn read_operator(name: &[u8], parts: Parts<'_>) -> Option<KernelCommand>
        ensures { result ≡ operator_command_of name.now parts.entry }
    {
        if name == b"and".as_slice() {
            let (to, (left, (right, ()))) = Values::read(parts)?;
            Some(KernelCommand::Make(to, Kernel::And(left, right)))
        } else if name == b"or".as_slice() {
            let (to, (left, (right, ()))) = Values::read(parts)?;
            Some(KernelCommand::Make(to, Kernel::Or(left, right)))
        } else if name == b"xor".as_slice() {
            let (to, (left, (right, ()))) = Values::read(parts)?;
            Some(KernelCommand::Make(to, Kernel::Xor(left, right)))
        } else if name == b"not".as_slice() {
            let (to, (from, ())) = Values::read(parts)?;
            Some(KernelCommand::Make(to, Kernel::Not(from)))
        } else {
            KernelCommand::read_table(name, parts)
        }
    }

    /// Returns the command that makes a bitmap by a table. The name gives the number of inputs.
    #[tactic(auto, unfolding(crate::specs::KernelCommands::table_command_of))]
    fn read_table(name: &[u8], parts: Parts<'_>) -> Option<KernelCommand>
        ensures { result ≡ table_command_of name.now parts.entry }
    {
        if name == b"table1".as_slice() {
            let (to, (table, (from, ()))) = Values::read(parts)?;
            Some(KernelCommand::Make(to, Kernel::Unary(table, from)))
        } else if name == b"table2".as_slice() {
            let (to, (table, (first, (second, ())))) = Values::read(parts)?;
            Some(KernelCommand::Make(to, Kernel::Binary(table, first, second)))
        } else if name == b"table3".as_slice() {
            let (to, (table, (first, (second, (third, ()))))) = Values::read(parts)?;
            Some(KernelCommand::Make(to, Kernel::Ternary(table, first, second, third)))
        } else if name == b"table4".as_slice() {
            let (to, (table, (first, (second, (third, (fourth, ())))))) = Values::read(parts)?;
            Some(KernelCommand::Make(to, Kernel::Quaternary(table, first, second, third, fourth)))
        } else {
            None
        }
    }
}
