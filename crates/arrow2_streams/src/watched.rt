//! A reader or a writer with two counts that only contracts see.
ghost use Rattle.std.specs.Prelude.{◌≡◌, ◌+◌, ◌<◌, is_err, if◌then◌else◌, length};
ghost use Rattle.std.specs.Io.{ReadsAtMost, WritesAtMost};
ghost use Rattle.std.specs.Io.KnownBytes.{ReadConsumes, WriteAppends, Keeps};
ghost use Rattle.arrow2_streams.specs.Watching.{write_failed};

use arrow2_counter::Counter;
use std::io;
use std::io::{Read, Write};
use std::marker::Model;

/// A reader or a writer with two counts: of its failed calls, and of its writes since the last successful flush.
///
/// A call fails if it returns an error. A write also fails if it takes 0 bytes of a slice that is not empty. Only
/// contracts see the counts: at run time they have size 0.
#[derive(Drop)]
pub struct Watched<T> {
    inner: T,
    failed: Counter,
    unflushed: Counter,
}

impl<T> Model for Watched<T> {
    ghost use Rattle.arrow2_streams.specs.Watching.{WatchedCalls};

    ghost Value = { WatchedCalls T };

    ghost view = { λ w. record { inner = w.inner; failed = w.failed; unflushed = w.unflushed } };
}

impl<T> Watched<T> {
    /// Wraps a reader or a writer. Both counts begin at 0.
    pub fn new(inner: T) -> Watched<T>
        ensures inner { result.inner ≡ inner }
        ensures failed { result.failed ≡ 0 }
        ensures unflushed { result.unflushed ≡ 0 }
    {
        Watched {
            inner,
            failed: Counter::new(),
            unflushed: Counter::new(),
        }
    }

    /// Returns the reader or the writer without its counts.
    pub fn into_inner(self) -> T
        ensures { result ≡ self.inner }
    {
        let Watched {
            inner,
            failed: _,
            unflushed: _,
        } = self;
        inner
    }
}

impl<R: Read> Read for Watched<R> {
    ghost remaining = { λ w. R.remaining w.inner };

    fn read(&mut self, buf: &mut [u8]) -> io::Result<usize>
        ensures bound { ReadsAtMost result buf.new }
        ensures bytes { ReadConsumes (R.remaining self.old.inner)
            (R.remaining self.new.inner) result buf.new }
        ensures failed { self.new.failed ≡ self.old.failed + (if is_err result then 1 else 0) }
        ensures unflushed { self.new.unflushed ≡ self.old.unflushed }
    {
        let result = self.inner.read(buf);
        if result.is_err() {
            self.failed.add(1);
        }
        result
    }
}

impl<W: Write> Write for Watched<W> {
    ghost contents = { λ w. W.contents w.inner };

    fn write(&mut self, buf: &[u8]) -> io::Result<usize>
        ensures bound { WritesAtMost result buf.now }
        ensures bytes { WriteAppends (W.contents self.old.inner)
            (W.contents self.new.inner) result buf.now }
        ensures failed { self.new.failed ≡ self.old.failed
            + (if write_failed result (length buf.now) then 1 else 0) }
        ensures unflushed { self.new.unflushed ≡ self.old.unflushed + 1 }
    {
        self.unflushed.add(1);
        let result = self.inner.write(buf);
        match &result {
            Ok(taken) if *taken > 0 || buf.is_empty() => {}
            _ => self.failed.add(1),
        }
        result
    }

    fn flush(&mut self) -> io::Result<()>
        ensures bytes { Keeps (W.contents self.old.inner) (W.contents self.new.inner) }
        ensures failed { self.new.failed ≡ self.old.failed + (if is_err result then 1 else 0) }
        ensures unflushed { self.new.unflushed ≡ (if is_err result then self.old.unflushed else 0) }
    {
        let result = self.inner.flush();
        if result.is_err() {
            self.failed.add(1);
        } else {
            self.unflushed = Counter::new();
        }
        result
    }
}
