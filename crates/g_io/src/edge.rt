//! The program's own input and output, over std's readers and writers.

ghost use Rattle.std.specs.Prelude.{◌≡◌, ◌<◌, None, length, IfOk};
ghost use Rattle.std.specs.Io.{ReadsAtMost, WritesAtMost};
ghost use Rattle.std.specs.Io.KnownBytes.{ReadConsumes, WriteAppends};
ghost use Rattle.g_io.specs.Causes.{HasCause, IsCounted};

use crate::sink::Sink;
use crate::source::{Failed, Source};
use std::io::{Read, Write};

/// A reader of std, with a count of its errors. It tells nothing of what it has left.
#[derive(Debug, Drop)]
pub struct StdinSource<R> {
    inner: R,
    faults: u64,
}

impl<R: Read> StdinSource<R> {
    /// A source over a reader, with no error counted yet.
    pub fn new(inner: R) -> Self
        ensures faultless { result.faults ≡ 0 }
    {
        StdinSource { inner, faults: 0 }
    }
}

impl<R: Read> Source for StdinSource<R> {
    ghost left = { λ _. None };

    ghost faults = { λ s. s.faults };

    fn read(&mut self, into: &mut [u8]) -> Result<usize, Failed>
        ensures bound { ReadsAtMost result into.new }
        ensures bytes { ReadConsumes None None result into.new }
        ensures cause { HasCause self.old.faults self.new.faults result }
        ensures counted { IsCounted self.old.faults self.new.faults result }
    {
        match self.inner.read(into) {
            Ok(count) => Ok(count),
            Err(_) => {
                self.faults = self.faults.saturating_add(1);
                Err(Failed)
            }
        }
    }
}

/// A writer of std, with a count of its errors; to take nothing of a piece counts as one. It tells
/// nothing of what it holds.
#[derive(Debug, Drop)]
pub struct StdoutSink<W> {
    inner: W,
    faults: u64,
}

impl<W: Write> StdoutSink<W> {
    /// A sink over a writer, with no error counted yet.
    pub fn new(inner: W) -> Self
        ensures faultless { result.faults ≡ 0 }
    {
        StdoutSink { inner, faults: 0 }
    }
}

impl<W: Write> Sink for StdoutSink<W> {
    ghost held = { λ _. None };

    ghost faults = { λ s. s.faults };

    ghost made_with = { λ _. None };

    fn write(&mut self, piece: &[u8]) -> Result<usize, Failed>
        ensures bound { WritesAtMost result piece.now }
        ensures progress { IfOk result (λ count. 0 < length piece.now → 0 < count) }
        ensures bytes { WriteAppends None None result piece.now }
        ensures cause { HasCause self.old.faults self.new.faults result }
        ensures counted { IsCounted self.old.faults self.new.faults result }
    {
        if piece.is_empty() {
            return Ok(0);
        }
        match self.inner.write(piece) {
            Ok(count) if count > 0 => Ok(count),
            _ => {
                self.faults = self.faults.saturating_add(1);
                Err(Failed)
            }
        }
    }
}
