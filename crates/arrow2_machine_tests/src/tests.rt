//! Scripts and their replies, and readers and writers that fail.
ghost use Rattle.std.specs.Prelude.{◌≤◌, length};

use arrow2_script_runner::replay;
use arrow2_streams::fault::{ReplayFault, exit_code};
use arrow2_streams::watched::Watched;
use std::alloc::{AllocError, Global};
use std::io;
use std::io::{ErrorKind, Read, Write};
use std::process::ExitCode;
use std::test::Fail;

/// A reader that returns at most `at_most` bytes per call, and fails at call `fails_at`.
#[derive(Drop)]
struct Trickle<'a> {
    rest: &'a [u8],
    at_most: usize,
    fails_at: u64,
    calls: u64,
}

impl Read for Trickle<'_> {
    fn read(&mut self, buf: &mut [u8]) -> io::Result<usize> {
        self.calls = self.calls.saturating_add(1);
        if self.calls == self.fails_at {
            return Err(ErrorKind::Other.into());
        }
        let count = self.at_most.min(buf.len()).min(self.rest.len());
        let (given, rest) = self.rest.split_at(count);
        buf[..count].copy_from_slice(given);
        self.rest = rest;
        Ok(count)
    }
}

/// A writer that takes at most `at_most` bytes per call, and fails at call `fails_at` or when it is flushed.
#[derive(Drop)]
struct Narrow {
    taken: Vec<u8>,
    at_most: usize,
    fails_at: u64,
    calls: u64,
    flush_fails: bool,
}

impl Write for Narrow {
    fn write(&mut self, buf: &[u8]) -> io::Result<usize> {
        self.calls = self.calls.saturating_add(1);
        if self.calls == self.fails_at {
            return Err(ErrorKind::Other.into());
        }
        let count = self.at_most.min(buf.len());
        self.taken.extend_from_slice(&buf[..count])?;
        Ok(count)
    }

    fn flush(&mut self) -> io::Result<()> {
        if self.flush_fails {
            return Err(ErrorKind::Other.into());
        }
        Ok(())
    }
}

/// The output of a replay, and its result.
fn output_and_result<R: Read + Drop, W: Write>(
    alloc: Global,
    reader: R,
    writer: W,
) -> (W, Result<(), ReplayFault>) {
    let mut reader = Watched::new(reader);
    let mut writer = Watched::new(writer);
    let result = replay(alloc, &mut reader, &mut writer);
    (writer.into_inner(), result)
}

/// The same byte, `count` times.
fn repeat_byte(alloc: Global, byte: u8, count: usize) -> Result<Vec<u8>, AllocError> {
    vec![in alloc; byte; count]
}

const FIRST: &[u8] =
    b"new 0 10110\npush 0 1\nfreeze 0\ncopy 0 1\nslice 1 1 4\nbits 1\ncount 1\nbits 0\n";

const FIRST_REPLIES: &[u8] = b"ok\nok\nok\nok\nok\n0110\n2\n101101\n";

#[test]
fn scripts_end_with_or_without_a_line_end(rt: HostRuntime) -> Result<(), Fail> {
    let rows: [(&[u8], &[u8]); 4] = [
        (FIRST, FIRST_REPLIES),
        (b"", b""),
        (b"new 0 1", b"ok\n"),
        (
            b"bits 0\r\n\xff\xff\n\n",
            b"error syntax\nerror syntax\nerror syntax\n",
        ),
    ];
    for (script, replies) in rows {
        let (out, result) = output_and_result(rt.alloc(), script, Vec::new(rt.alloc()));
        assert_eq!(&rt; result, Ok(()));
        assert_eq!(&rt; out.as_slice(), replies);
    }
    Ok(())
}

#[test]
fn long_line(rt: HostRuntime) -> Result<(), Fail> {
    let script = repeat_byte(rt.alloc(), b'x', 1_000_000)?;
    let (out, result) = output_and_result(rt.alloc(), script.as_slice(), Vec::new(rt.alloc()));
    assert_eq!(&rt; result, Ok(()));
    assert_eq!(&rt; out.as_slice(), b"error syntax\n".as_slice());
    Ok(())
}

#[test]
fn readers(rt: HostRuntime) -> Result<(), Fail> {
    let rows: [(usize, u64, Result<(), ReplayFault>, &[u8]); 2] = [
        (1, 0, Ok(()), FIRST_REPLIES),
        (20, 2, Err(ReplayFault::Read), b""),
    ];
    for (at_most, fails_at, outcome, written) in rows {
        let reader = Trickle {
            rest: FIRST,
            at_most,
            fails_at,
            calls: 0,
        };
        let (out, result) = output_and_result(rt.alloc(), reader, Vec::new(rt.alloc()));
        assert_eq!(&rt; result, outcome);
        assert_eq!(&rt; out.as_slice(), written);
    }
    Ok(())
}

#[test]
fn writers(rt: HostRuntime) -> Result<(), Fail> {
    let failed = Err(ReplayFault::Write);
    let rows: [(usize, u64, bool, Result<(), ReplayFault>, &[u8]); 4] = [
        (1, 0, false, Ok(()), FIRST_REPLIES),
        (1, 4, false, failed, b"ok\n"),
        (0, 0, false, failed, b""),
        (1000, 0, true, failed, FIRST_REPLIES),
    ];
    for (at_most, fails_at, flush_fails, outcome, written) in rows {
        let writer = Narrow {
            taken: Vec::new(rt.alloc()),
            at_most,
            fails_at,
            calls: 0,
            flush_fails,
        };
        let (writer, result) = output_and_result(rt.alloc(), FIRST, writer);
        assert_eq!(&rt; result, outcome);
        assert_eq!(&rt; writer.taken.as_slice(), written);
    }
    Ok(())
}

#[test]
fn a_fault_is_said_and_ends_with_status_one(rt: HostRuntime) -> Result<(), Fail> {
    for (fault, text) in [
        (ReplayFault::Read, "read failed"),
        (ReplayFault::Memory, "out of memory"),
        (ReplayFault::Write, "write failed"),
    ] {
        assert_eq!(&rt; fault.to_string(rt.alloc())?.as_str(), text);
        assert!(&rt; exit_code(&rt, Err(fault)) == ExitCode::FAILURE);
    }
    assert!(&rt; exit_code(&rt, Ok(())) == ExitCode::SUCCESS);
    Ok(())
}
