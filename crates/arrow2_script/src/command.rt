//! The commands of a script, by group, and their parser from a line.
ghost use Rattle.std.specs.Prelude.{◌≡◌};
ghost use Rattle.arrow2_script.specs.Commands.{named_command, command_in};

use crate::array_command::ArrayCommand;
use crate::bitmap_command::BitmapCommand;
use crate::growth_command::GrowthCommand;
use crate::kernel_command::KernelCommand;
use crate::lines::Parts;
use crate::offset_command::OffsetCommand;
use crate::storage_command::StorageCommand;
use crate::value_command::ValueCommand;

/// A command of a script.
#[derive(Drop)]
pub enum Command<'a> {
    /// A command on bitmaps.
    Bitmap(BitmapCommand<'a>),
    /// A command on offsets.
    Offset(OffsetCommand<'a>),
    /// A command on values of several types.
    Value(ValueCommand),
    /// A command on the bits that bitmaps store.
    Storage(StorageCommand<'a>),
    /// A command that combines bitmaps.
    Kernel(KernelCommand),
    /// A command by which a bitmap grows by many items.
    Growth(GrowthCommand),
    /// A command on boolean arrays.
    Array(ArrayCommand),
}

/// Returns the command of this name, with these words after it, or `None` if there is none.
#[tactic(auto, unfolding(crate::specs::Commands::named_command))]
fn read_named<'a>(name: &[u8], parts: Parts<'a>) -> Option<Command<'a>>
    ensures { result ≡ named_command name.now parts.entry }
{
    if let Some(command) = BitmapCommand::read(name, parts.again()) {
        return Some(Command::Bitmap(command));
    }
    if let Some(command) = OffsetCommand::read(name, parts.again()) {
        return Some(Command::Offset(command));
    }
    if let Some(command) = ValueCommand::read(name, parts.again()) {
        return Some(Command::Value(command));
    }
    if let Some(command) = StorageCommand::read(name, parts.again()) {
        return Some(Command::Storage(command));
    }
    if let Some(command) = KernelCommand::read(name, parts.again()) {
        return Some(Command::Kernel(command));
    }
    if let Some(command) = GrowthCommand::read(name, parts.again()) {
        return Some(Command::Growth(command));
    }
    let command = ArrayCommand::read(name, parts)?;
    Some(Command::Array(command))
}

/// Returns the command that a line spells, or `None` if it spells none.
#[tactic(auto, using(crate::proofs::CommandLemmas::parsing))]
pub fn parse<'a>(line: &'a [u8]) -> Option<Command<'a>>
    ensures { result ≡ command_in line.entry.now }
{
    let mut parts = Parts::new(line, b' ');
    let name = parts.next()?;
    read_named(name, parts)
}
