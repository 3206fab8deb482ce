//! Reading all of a reader, and writing all of a slice.
ghost use Rattle.std.specs.Prelude.{◌≡◌, ◌≢◌, ◌<◌, ◌↔◌, ℕ, length, take, IfOk, IfErr, OnOk, IsErrOf, vec_len};
ghost use Rattle.std.specs.Io.KnownBytes.{Appends, Consumes, IsAtEnd};
ghost use Rattle.arrow2_streams.specs.Watching.{FailsOnce};

use crate::fault::ReplayFault;
use crate::watched::Watched;
use std::alloc::{AllocError, Global};
use std::io::{Read, Write};

/// The greatest number of bytes that one call of the reader returns.
const PIECE: usize = 65536;

/// Returns `len` zeros.
fn zeros(alloc: Global, len: usize) -> Result<Vec<u8>, AllocError>
    ensures { IfOk result (λ v. vec_len v ≡ len) }
{
    vec![in alloc; 0u8; len]
}

/// Reads all the bytes that the reader has left, and returns them. Takes every error as a failure: it does not retry on
/// `Interrupted`, as Rust's `read_to_end` does.
///
/// # Errors
///
/// `Read` exactly where a call of the reader failed. `Memory` where an allocation failed. After either error, the bytes
/// that were read are lost.
pub fn read_all<R: Read>(alloc: Global, reader: &mut Watched<R>) -> Result<Vec<u8>, ReplayFault>
    ensures bytes { IfOk result (λ v.
        Consumes (R.remaining reader.old.inner) (R.remaining reader.new.inner) v.items) }
    ensures end { OnOk result (IsAtEnd (R.remaining reader.new.inner)) }
    ensures fault { IsErrOf result ReplayFault.Read ↔ reader.old.failed < reader.new.failed }
    ensures once { FailsOnce result ReplayFault.Read reader.old.failed reader.new.failed }
    ensures only { IfErr result (λ e. e ≢ ReplayFault.Write) }
{
    let mut buffer = zeros(alloc, PIECE)?;
    read_through(alloc, reader, buffer.as_mut_slice())
}

/// Returns all the bytes that the reader has left, read through `buffer`. Requires that the buffer is not empty.
fn read_through<R: Read>(
    alloc: Global,
    reader: &mut Watched<R>,
    buffer: &mut [u8],
) -> Result<Vec<u8>, ReplayFault>
    requires { 0 < length buffer.old }
    ensures bytes { IfOk result (λ v.
        Consumes (R.remaining reader.old.inner) (R.remaining reader.new.inner) v.items) }
    ensures end { OnOk result (IsAtEnd (R.remaining reader.new.inner)) }
    ensures fault { IsErrOf result ReplayFault.Read ↔ reader.old.failed < reader.new.failed }
    ensures once { FailsOnce result ReplayFault.Read reader.old.failed reader.new.failed }
    ensures only { IfErr result (λ e. e ≢ ReplayFault.Write) }
{
    let mut input = Vec::new(alloc);
    'reads: loop {
        let Ok(count) = reader.read(buffer) else {
            return Err(ReplayFault::Read);
        };
        if count == 0 {
            return Ok(input);
        }
        input.extend_from_slice(&buffer[..count])?;
    }
}

/// Writes all of the bytes, and flushes. Does not retry on `Interrupted`, as Rust's `write_all` does.
///
/// # Errors
///
/// `Write` exactly where a call of the writer failed. Then the written bytes are a prefix of `bytes`.
pub fn write_all<W: Write>(writer: &mut Watched<W>, bytes: &[u8]) -> Result<(), ReplayFault>
    ensures ok { OnOk result (Appends (W.contents writer.old.inner)
        (W.contents writer.new.inner) bytes.now) }
    ensures begins { (n : ℕ) × Appends (W.contents writer.old.inner)
        (W.contents writer.new.inner) (take n bytes.now) }
    ensures flushed { OnOk result (writer.new.unflushed ≡ 0) }
    ensures fault { IsErrOf result ReplayFault.Write ↔ writer.old.failed < writer.new.failed }
    ensures once { FailsOnce result ReplayFault.Write writer.old.failed writer.new.failed }
    ensures only { IfErr result (λ e. e ≡ ReplayFault.Write) }
{
    let mut at = 0;
    'writes: while at < bytes.len() {
        match writer.write(&bytes[at..]) {
            Ok(count) if count > 0 => at += count,
            _ => return Err(ReplayFault::Write),
        }
    }
    if writer.flush().is_err() {
        return Err(ReplayFault::Write);
    }
    Ok(())
}
