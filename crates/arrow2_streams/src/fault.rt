//! The faults that can end a replay.
ghost use Rattle.std.specs.Prelude.{◌≡◌, Some, MatchResult};

use std::alloc::{AllocError, AllocFailed};
use std::fmt;
use std::io::Eprint;
use std::process::ExitCode;

/// The fault that ended a replay before its end.
#[derive(Clone, Copy, Debug, PartialEq, Eq)]
pub enum ReplayFault {
    /// A call of the reader failed. Nothing was written.
    Read,
    /// An allocation failed. Nothing was written.
    Memory,
    /// A call of the writer failed. The written bytes are a prefix of the replies.
    Write,
}

/// Prints `read failed`, `out of memory` or `write failed`.
impl fmt::Display for ReplayFault {
    ghost use Rattle.arrow2_streams.specs.FaultTexts.{fault_text};

    ghost output = { λ fault. Some (fault_text fault) };

    fn fmt<W: fmt::Write>(&self, f: &mut fmt::Formatter<W>) -> fmt::Result {
        match self {
            ReplayFault::Read => write!(f, "read failed"),
            ReplayFault::Memory => write!(f, "out of memory"),
            ReplayFault::Write => write!(f, "write failed"),
        }
    }
}

impl std::error::Error for ReplayFault {}

impl From<AllocError> for ReplayFault {
    ghost use Rattle.arrow2_streams.specs.declared.fault.ReplayFault.TheVariants.{Memory};

    ghost from_gives = { λ _ fault. fault ≡ Memory };

    fn from(_error: AllocError) -> ReplayFault {
        ReplayFault::Memory
    }
}

/// Returns `Memory`, and drops the value that could not be stored.
impl<T: Drop> From<AllocFailed<T>> for ReplayFault {
    ghost use Rattle.arrow2_streams.specs.declared.fault.ReplayFault.TheVariants.{Memory};

    ghost from_gives = { λ _ fault. fault ≡ Memory };

    fn from(_error: AllocFailed<T>) -> ReplayFault {
        ReplayFault::Memory
    }
}

/// Returns the exit status of a program after a replay: `SUCCESS`, or `FAILURE` after a fault. Prints a fault to
/// standard error, as one line, and ignores an error of that print. No clause states the printed text: tests show it.
pub fn exit_code<R: Eprint>(rt: &R, outcome: Result<(), ReplayFault>) -> ExitCode
    ensures { MatchResult outcome (λ _. result ≡ ExitCode.SUCCESS) (λ _. result ≡ ExitCode.FAILURE) }
{
    match outcome {
        Ok(()) => ExitCode::SUCCESS,
        Err(fault) => {
            let _ = rt.eprintln(fault);
            ExitCode::FAILURE
        }
    }
}
