ghost use Rattle.std.specs.Prelude.{◌≡◌, ◌<◌, ◌≤◌, ℕ, List as Items, Option, IfOk, OnOk, OnErr, length};
ghost use Rattle.std.specs.Io.{WritesAtMost};
ghost use Rattle.std.specs.Io.KnownBytes.{Appends, WriteAppends};
ghost use Rattle.loom_base.specs.Causes.{HasCause};
ghost use Rattle.loom_base.specs.Streams.{AppendsPart};

use crate::Failed;

/// Where bytes go.
pub trait Sink {
    /// The bytes that the sink holds, where it tells them.
    ghost held: { Self → Option (Items ℕ) };

    /// How often a write has failed; it never falls, and stops at the last value of a u64.
    ghost faults: { Self → ℕ };

    /// Appends bytes from the front of the piece, at least one where it isn't empty, and answers
    /// how many. After a failure nothing was appended, and the count of faults is one more.
    fn write(&mut self, piece: &[u8]) -> Result<usize, Failed>
        ensures bound { WritesAtMost result piece.now }
        ensures progress { IfOk result (λ count. 0 < length piece.now → 0 < count) }
        ensures bytes { WriteAppends (held self.old) (held self.new) result piece.now }
        ensures cause { HasCause (faults self.old) (faults self.new) result };
}

/// Writes all bytes; after a failed write a front of them that isn't all of them was appended.
pub fn write_all<K: Sink>(sink: &mut K, bytes: &[u8]) -> Result<(), Failed>
    ensures all { OnOk result (Appends (K.held sink.old) (K.held sink.new) bytes.now) }
    ensures part { OnErr result (AppendsPart (K.held sink.old) (K.held sink.new) bytes.now) }
    ensures cause { HasCause (K.faults sink.old) (K.faults sink.new) result }
{
    let mut written = 0;
    'writing: while written < bytes.len() {
        written += sink.write(&bytes[written..])?;
    }
    Ok(())
}
