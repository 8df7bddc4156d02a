ghost use Rattle.std.specs.Prelude.{◌≡◌, ◌<◌, ◌≤◌, length, None, IfSome};

use crate::{Failed, Sink};
use std::io::Write;

/// A writer of the system, of which nothing is told but how often it failed.
#[derive(Drop)]
pub struct StdSink<W> {
    writer: W,
    faults: u64,
}

impl<W: Write> StdSink<W> {
    /// A sink over the writer, as over the standard output.
    pub fn new(writer: W) -> StdSink<W>
        ensures { result.faults ≡ 0 }
    {
        StdSink { writer, faults: 0 }
    }
}

impl<W: Write> Sink for StdSink<W> {
    ghost held = { λ _. None };

    ghost faults = { λ sink. sink.faults };

    /// Writes and flushes. A write that takes nothing of a piece that isn't empty is a fault, and
    /// so is a flush that fails.
    fn write(&mut self, piece: &[u8]) -> Result<usize, Failed> {
        match write_through(&mut self.writer, piece) {
            Some(count) => Ok(count),
            None => {
                self.faults = self.faults.saturating_add(1);
                Err(Failed)
            }
        }
    }
}

/// Writes and flushes; None where either failed or nothing was taken of a piece that isn't empty.
fn write_through<W: Write>(writer: &mut W, piece: &[u8]) -> Option<usize>
    ensures bound { IfSome result (λ count. count ≤ length piece.now) }
    ensures progress { IfSome result (λ count. 0 < length piece.now → 0 < count) }
{
    let count = writer.write(piece).ok()?;
    writer.flush().ok()?;
    if count > 0 || piece.is_empty() {
        Some(count)
    } else {
        None
    }
}
