//! The machine: sixteen slots, the effect of a line on them, and the replies to a whole script.
ghost use Rattle.std.specs.Prelude.{◌≡◌, ◌++◌, IfOk, OnOk, replicate};
ghost use Rattle.arrow2_script.specs.Lines.{with_newline};
ghost use Rattle.arrow2_machine.specs.SlotValues.{Nothing};
ghost use Rattle.arrow2_machine.specs.Machine.{outcome, step, text};
ghost use Rattle.arrow2_machine.specs.Outcomes.{Carries};

use crate::line_error::CommandError::Rejected;
use crate::line_error::{CommandError, LineError};
use crate::slot::Slot;
use crate::{arrays, bitmaps, growth, kernels, offsets, storage, values};
use arrow2_script::command::{Command, parse};
use arrow2_script::lines::next_line;
use std::alloc::{AllocError, Global};
use std::array;
use std::marker::Model;

/// Sixteen slots. Contracts see a list: for each slot what it holds, as plain lists (`SlotValue`).
#[derive(Drop)]
pub struct Machine {
    slots: [Slot; 16],
}

impl Model for Machine {
    ghost use Rattle.std.specs.Prelude.{List};
    ghost use Rattle.arrow2_machine.specs.SlotValues.{SlotValue};

    ghost Value = { List SlotValue };

    ghost view = { λ m. m.slots };
}

impl Machine {
    /// Returns sixteen slots that hold nothing.
    pub fn new() -> Machine
        ensures { result ≡ replicate 16 Nothing }
    {
        Machine {
            slots: array::from_fn(|_| Slot::new()),
        }
    }

    /// Carries out a command, and appends its reply.
    #[tactic(auto, unfolding(crate::specs::Machine::outcome))]
    fn run(
        &mut self,
        alloc: Global,
        command: Command<'_>,
        reply: &mut Vec<u8>,
    ) -> Result<(), CommandError>
        ensures { Carries result self.old self.new reply.old.items reply.new.items
            (outcome self.old command.entry) }
    {
        match command {
            Command::Bitmap(command) => bitmaps::run(&mut self.slots, alloc, command, reply),
            Command::Offset(command) => offsets::run(&mut self.slots, alloc, command, reply),
            Command::Value(command) => values::run(&mut self.slots, command, reply),
            Command::Storage(command) => storage::run(&mut self.slots, alloc, command, reply),
            Command::Kernel(command) => kernels::run(&mut self.slots, command, reply),
            Command::Growth(command) => growth::run(&mut self.slots, command, reply),
            Command::Array(command) => arrays::run(&mut self.slots, command, reply),
        }
    }

    /// Runs one line, given without its line end, and appends its reply and a line end. A line that is rejected changes
    /// no slot; its reply states why it is rejected.
    ///
    /// # Errors
    ///
    /// Where an allocation fails. Then the slots and `reply` may have changed.
    #[tactic(auto, unfolding(crate::specs::Machine::step))]
    pub fn answer(
        &mut self,
        alloc: Global,
        line: &[u8],
        reply: &mut Vec<u8>,
    ) -> Result<(), AllocError>
        ensures slots { OnOk result (self.new ≡ (step self.old line.now).0) }
        ensures reply { OnOk result (reply.new.items ≡ reply.old.items
            ++ with_newline (step self.old line.now).1) }
    {
        let outcome = match parse(line) {
            Some(command) => self.run(alloc, command, reply),
            None => Err(Rejected(LineError::Syntax)),
        };
        match outcome {
            Ok(()) => {}
            Err(Rejected(error)) => reply.extend_from_slice(error.text())?,
            Err(CommandError::OutOfMemory) => return Err(AllocError),
        }
        reply.push(b'\n')?;
        Ok(())
    }
}

/// Runs the lines of a script in order, on slots that hold nothing at first. Returns their replies, each followed by a
/// line end.
///
/// # Errors
///
/// Where an allocation fails.
#[tactic(auto, using(crate::proofs::MachineLemmas::running))]
pub fn replies(alloc: Global, script: &[u8]) -> Result<Vec<u8>, AllocError>
    ensures { IfOk result (λ reply. reply.items ≡ text script.now) }
{
    let mut machine = Machine::new();
    let mut reply = Vec::new(alloc);
    let mut rest = script;
    'lines: while !rest.is_empty() {
        let (line, others) = next_line(rest);
        machine.answer(alloc, line, &mut reply)?;
        rest = others;
    }
    Ok(reply)
}
