//! A whole replay, from the bytes of a script to the bytes of its replies.
#![tactic(auto)]

ghost use Rattle.std.specs.Prelude.{◌≡◌, ◌≢◌, ◌<◌, ◌↔◌, ℕ, take, IfSome, IfErr, OnOk, IsErrOf};
ghost use Rattle.std.specs.Io.KnownBytes.{Appends, IsAtEnd};
ghost use Rattle.arrow2_machine.specs.Machine.{text};
ghost use Rattle.arrow2_streams.specs.Watching.{FailsOnce};

use arrow2_machine::machine::replies;
use arrow2_streams::fault::ReplayFault;
use arrow2_streams::streams::{read_all, write_all};
use arrow2_streams::watched::Watched;
use std::alloc::Global;
use std::io::{Read, Write};

/// Reads a whole script, computes every reply in memory, then writes the replies and flushes.
///
/// # Errors
///
/// `Read` exactly where a call of the reader failed, `Write` exactly where a call of the writer failed, and `Memory`
/// where an allocation failed. After `Read` and `Memory` nothing was written; after `Write` the written bytes are a
/// prefix of the replies.
pub fn replay<R: Read, W: Write>(
    alloc: Global,
    reader: &mut Watched<R>,
    writer: &mut Watched<W>,
) -> Result<(), ReplayFault>
    // With `Ok` the replies to the whole script were written, and the reader is at its end.
    ensures ok { OnOk result (IfSome (R.remaining reader.old.inner) (λ script.
        Appends (W.contents writer.old.inner) (W.contents writer.new.inner) (text script))) }
    ensures end { OnOk result (IsAtEnd (R.remaining reader.new.inner)) }
    // In any case a prefix of the replies was written. With a fault other than `Write` nothing was written.
    ensures begins { IfSome (R.remaining reader.old.inner) (λ script.
        (n : ℕ) × Appends (W.contents writer.old.inner) (W.contents writer.new.inner)
        (take n (text script))) }
    ensures untouched { IfErr result (λ e. e ≢ ReplayFault.Write → writer.new ≡ writer.old) }
    // With `Ok` the writer was flushed after its last write.
    ensures flushed { OnOk result (writer.new.unflushed ≡ 0) }
    // `Read` and `Write` come exactly where a call failed.
    ensures read { IsErrOf result ReplayFault.Read ↔ reader.old.failed < reader.new.failed }
    ensures write { IsErrOf result ReplayFault.Write ↔ writer.old.failed < writer.new.failed }
    ensures read_once { FailsOnce result ReplayFault.Read reader.old.failed reader.new.failed }
    ensures write_once { FailsOnce result ReplayFault.Write writer.old.failed writer.new.failed }
{
    let script = read_all(alloc, reader)?;
    let reply = replies(alloc, script.as_slice())?;
    write_all(writer, reply.as_slice())
}
