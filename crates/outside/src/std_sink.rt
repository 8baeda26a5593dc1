// A writer as a sink.
ghost use Rattle.std.specs.Prelude.{◌≡◌, ◌≤◌, None};

use crate::count::raise;
use crate::sink::{Failed, Sink};
use std::io::Write;
use std::marker::Model;

/// A writer as a sink. It tells nothing of what was written. A write that fails, or that takes nothing
/// of a piece that is not empty, is a fault. Each put is one write, so the writer is to be unbuffered:
/// a buffer would lose the failures that come when it is flushed.
#[derive(Drop)]
pub struct StdSink<W> {
    writer: W,
    faults: u64,
}

impl<W> Model for StdSink<W> {
    ghost use Rattle.std.specs.Prelude.{ℕ};

    // the count of faults
    ghost Value = { ℕ };

    ghost view = { λ sink. sink.faults };
}

impl<W: Write + Drop> StdSink<W> {
    /// A sink over the writer, with no fault.
    pub fn new(writer: W) -> StdSink<W>
        ensures { result ≡ 0 }
    {
        StdSink { writer, faults: 0 }
    }
}

impl<W: Write + Drop> Sink for StdSink<W> {
    ghost taken = { λ _. None };

    ghost faults = { λ faults. faults };

    fn put(&mut self, piece: &[u8]) -> Result<usize, Failed> {
        if piece.is_empty() {
            return Ok(0);
        }
        match self.writer.write(piece) {
            Ok(count) if count > 0 => Ok(count),
            _ => {
                self.faults = raise(self.faults, 1);
                Err(Failed)
            }
        }
    }
}
