//! Why a line is rejected.
ghost use Rattle.std.specs.Prelude.{◌≡◌};
ghost use Rattle.arrow2_machine.specs.Replies.{rejected_text};

use arrow2::error::Error;
use std::alloc::{AllocError, AllocFailed};

/// Why a line is rejected. A line that is rejected changes no slot.
#[derive(Clone, Copy, Debug, PartialEq, Eq)]
pub enum LineError {
    /// The line is no command.
    Syntax,
    /// A slot does not hold what the command requires.
    Kind,
    /// A range or an index is out of bounds, a slice of offsets has no offset, or a first offset is above 2147483647.
    Range,
    /// Lists differ in length.
    Length,
    /// A length or an offset would be above its greatest value.
    Overflow,
}

impl LineError {
    /// Returns the reply to a rejected line, without a line end.
    pub fn text(self) -> &'static [u8]
        ensures { result.now ≡ rejected_text self }
    {
        match self {
            LineError::Syntax => b"error syntax",
            LineError::Kind => b"error kind",
            LineError::Range => b"error range",
            LineError::Length => b"error length",
            LineError::Overflow => b"error overflow",
        }
    }
}

/// Why a command was not carried out.
#[derive(Clone, Copy, Debug, PartialEq, Eq)]
pub enum CommandError {
    /// The machine rejects the line.
    Rejected(LineError),
    /// An allocation failed.
    OutOfMemory,
}

impl From<LineError> for CommandError {
    ghost use Rattle.arrow2_machine.specs.declared.line_error.CommandError.TheVariants.{Rejected};

    ghost from_gives = { λ line_error error. error ≡ Rejected line_error };

    fn from(error: LineError) -> CommandError {
        CommandError::Rejected(error)
    }
}

impl From<AllocError> for CommandError {
    ghost use Rattle.arrow2_machine.specs.declared.line_error.CommandError.TheVariants.{OutOfMemory};

    ghost from_gives = { λ _ error. error ≡ OutOfMemory };

    fn from(_error: AllocError) -> CommandError {
        CommandError::OutOfMemory
    }
}

/// Returns `OutOfMemory`, and drops the value that could not be stored.
impl<T: Drop> From<AllocFailed<T>> for CommandError {
    ghost use Rattle.arrow2_machine.specs.declared.line_error.CommandError.TheVariants.{OutOfMemory};

    ghost from_gives = { λ _ error. error ≡ OutOfMemory };

    fn from(_error: AllocFailed<T>) -> CommandError {
        CommandError::OutOfMemory
    }
}

/// `Overflow` becomes `LineError::Overflow`, `OutOfMemory` stays `OutOfMemory`, and every other error becomes
/// `LineError::Range`. Of the other errors, the calls that commands make return only `InvalidArgumentError` and
/// `OutOfSpec`.
impl From<Error> for CommandError {
    ghost use Rattle.arrow2_machine.specs.Outcomes.{command_error};

    ghost from_gives = { λ error given. given ≡ command_error error };

    fn from(error: Error) -> CommandError {
        match error {
            Error::Overflow => CommandError::Rejected(LineError::Overflow),
            Error::OutOfMemory => CommandError::OutOfMemory,
            // Not `OutOfMemory`, after which nothing is claimed of the reply.
            _ => CommandError::Rejected(LineError::Range),
        }
    }
}
