ghost use Rattle.std.specs.Prelude.{◌≡◌, None};
ghost use Rattle.dd_lines.specs.Outside.{Takes};

use crate::outside::{Failed, Sink, Source};
use std::io::{Read, Write};

/// A source over a reader. It does not tell what the reader has left. Each `Err` of the reader is a fault, that of an
/// interrupted call included.
#[derive(Drop)]
pub struct StdSource<R> {
    reader: R,
    faults: u64,
}

impl<R: Read> StdSource<R> {
    /// A source with no fault yet.
    pub fn new(reader: R) -> StdSource<R>
        ensures left { ⟦<StdSource<R> as Source>⟧.left result ≡ None }
        ensures faults { ⟦<StdSource<R> as Source>⟧.fault_count result ≡ 0 }
    {
        StdSource { reader, faults: 0 }
    }
}

impl<R: Read> Source for StdSource<R> {
    ghost left = { λ _. None };

    ghost fault_count = { λ s. s.faults };

    fn take(&mut self, room: &mut [u8]) -> Result<usize, Failed> {
        match self.reader.read(room) {
            Ok(taken) => Ok(taken),
            Err(_) => {
                self.faults = self.faults.saturating_add(1);
                Err(Failed)
            }
        }
    }

    fn faults(&self) -> u64 {
        self.faults
    }
}

/// A sink over a writer. It does not tell what the writer was given. Each `Err` of the writer is a fault, that of an
/// interrupted call included, and so is a call that takes nothing of a piece that is not empty.
#[derive(Drop)]
pub struct StdSink<W> {
    writer: W,
    faults: u64,
}

impl<W: Write> StdSink<W> {
    /// A sink with no fault yet.
    pub fn new(writer: W) -> StdSink<W>
        ensures given { ⟦<StdSink<W> as Sink>⟧.given result ≡ None }
        ensures faults { ⟦<StdSink<W> as Sink>⟧.fault_count result ≡ 0 }
    {
        StdSink { writer, faults: 0 }
    }
}

impl<W: Write> Sink for StdSink<W> {
    ghost given = { λ _. None };

    ghost fault_count = { λ s. s.faults };

    fn give(&mut self, piece: &[u8]) -> Result<usize, Failed> {
        match self.writer.write(piece) {
            Ok(given) if given > 0 => Ok(given),
            _ => {
                self.faults = self.faults.saturating_add(1);
                Err(Failed)
            }
        }
    }

    fn faults(&self) -> u64 {
        self.faults
    }
}
