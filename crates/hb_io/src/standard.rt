//! The readers and writers of std, as sources and sinks.
ghost use Rattle.std.specs.Prelude.{◌≡◌, ℕ, ◌≤◌, length, None, IfOk};

use crate::plan::fault;
use crate::{Failed, Sink, Source};
use std::io::{self, Read, Write};
use std::marker::Model;

/// A reader, as a source. It doesn't tell its bytes.
#[derive(Drop)]
pub struct StdSource<R> {
    reader: R,
    faults: u64,
}

/// Contracts see the count of faults.
impl<R> Model for StdSource<R> {
    ghost Value = { ℕ };

    ghost view = { λ s. s.faults };
}

impl<R: Read> StdSource<R> {
    /// A source that reads from `reader`, with no fault yet.
    pub fn new(reader: R) -> Self
        ensures { result ≡ 0 }
    {
        StdSource { reader, faults: 0 }
    }
}

impl<R: Read> Source for StdSource<R> {
    ghost left = { λ _. None };

    ghost faults = { λ s. s };

    /// Reads once from the reader. `Failed`: the reader gave an error, which is counted up to the
    /// greatest `u64`.
    #[tactic(auto, using(crate::proofs::ToldLemmas::told))]
    fn read(&mut self, buf: &mut [u8]) -> Result<usize, Failed> {
        match self.reader.read(buf) {
            Ok(n) => Ok(n),
            Err(_) => Err(fault(&mut self.faults)),
        }
    }
}

/// A writer, as a sink. It doesn't tell its bytes.
#[derive(Drop)]
pub struct StdSink<W> {
    writer: W,
    faults: u64,
}

/// Contracts see the count of faults.
impl<W> Model for StdSink<W> {
    ghost Value = { ℕ };

    ghost view = { λ s. s.faults };
}

impl<W: Write> StdSink<W> {
    /// A sink that writes to `writer`, with no fault yet.
    pub fn new(writer: W) -> Self
        ensures { result ≡ 0 }
    {
        StdSink { writer, faults: 0 }
    }
}

impl<W: Write> Sink for StdSink<W> {
    ghost kept = { λ _. None };

    ghost faults = { λ s. s };

    /// Writes once to the writer, and flushes it. `Failed`: the writer gave an error, took no byte or
    /// failed to flush, which is counted up to the greatest `u64`.
    #[tactic(auto, using(crate::proofs::ToldLemmas::told))]
    fn write(&mut self, bytes: &[u8]) -> Result<usize, Failed> {
        match write_through(&mut self.writer, bytes) {
            Ok(n) if n > 0 => Ok(n),
            _ => Err(fault(&mut self.faults)),
        }
    }
}

// Writes once and flushes, so that an error that the writer held back comes now.
fn write_through<W: Write>(writer: &mut W, bytes: &[u8]) -> io::Result<usize>
    ensures { IfOk result (λ n. n ≤ length bytes.now) }
{
    let n = writer.write(bytes)?;
    writer.flush()?;
    Ok(n)
}
