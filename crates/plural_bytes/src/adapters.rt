//! Sources and sinks over std's readers and writers: the trusted edge.

ghost use Rattle.std.specs.Prelude.{◌≡◌, ◌<◌, IfOk};
ghost use Rattle.std.specs.Io.{ReadsAtMost};
ghost use Rattle.plural_bytes.specs.Causes.{HasCause};
ghost use Rattle.plural_bytes.specs.Streams.{Reads, Writes, IsPart};

use crate::outside::{Failed, Sink, Source};
use std::io::{Read, Write};

/// A source over any reader of std. It tells the bytes that the reader tells: std's own readers of
/// the outside, as standard input, tell none. Each error of the reader is a failure.
#[derive(Drop)]
pub struct StdSource<R> {
    inner: R,
    faults: u64,
}

impl<R: Read> StdSource<R> {
    /// A source over this reader, which hasn't failed yet.
    pub fn new(inner: R) -> StdSource<R>
        ensures left { ⟦<StdSource<R> as Source>⟧.left result ≡ R.remaining inner }
        ensures faults { ⟦<StdSource<R> as Source>⟧.faults result ≡ 0 }
    {
        StdSource { inner, faults: 0 }
    }
}

impl<R: Read> Source for StdSource<R> {
    ghost left = { λ s. R.remaining s.inner };

    ghost faults = { λ s. s.faults };

    fn read(&mut self, into: &mut [u8]) -> Result<usize, Failed>
        ensures bound { ReadsAtMost result into.new }
        ensures bytes { Reads (R.remaining self.old.inner) (R.remaining self.new.inner) result into.new }
        ensures cause { HasCause self.old.faults self.new.faults result }
    {
        match self.inner.read(into) {
            Ok(n) => Ok(n),
            Err(_) => {
                self.faults = self.faults.saturating_add(1);
                Err(Failed)
            }
        }
    }
}

/// A sink over any writer of std, flushed after each write. It tells the bytes that the writer
/// tells: std's own writers to the outside, as standard output, tell none. Each error of the writer
/// is a failure, and so is a write that takes nothing of a piece that isn't empty.
#[derive(Drop)]
pub struct StdSink<W> {
    inner: W,
    faults: u64,
}

impl<W: Write> StdSink<W> {
    /// A sink over this writer, which hasn't failed yet.
    pub fn new(inner: W) -> StdSink<W>
        ensures holds { ⟦<StdSink<W> as Sink>⟧.holds result ≡ W.contents inner }
        ensures faults { ⟦<StdSink<W> as Sink>⟧.faults result ≡ 0 }
    {
        StdSink { inner, faults: 0 }
    }
}

impl<W: Write> Sink for StdSink<W> {
    ghost holds = { λ s. W.contents s.inner };

    ghost faults = { λ s. s.faults };

    fn write(&mut self, from: &[u8]) -> Result<usize, Failed>
        ensures bound { IfOk result (λ n. IsPart n from.now) }
        ensures bytes { Writes (W.contents self.old.inner) (W.contents self.new.inner) result from.now }
        ensures cause { HasCause self.old.faults self.new.faults result }
    {
        match self.inner.write(from) {
            Ok(n) if n > 0 || from.is_empty() => {
                if self.inner.flush().is_err() {
                    self.faults = self.faults.saturating_add(1);
                    return Err(Failed);
                }
                Ok(n)
            }
            _ => {
                self.faults = self.faults.saturating_add(1);
                Err(Failed)
            }
        }
    }
}
