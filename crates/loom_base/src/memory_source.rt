ghost use Rattle.std.specs.Prelude.{◌≡◌, ◌↔◌, [], length, Some, IsTrue, IsErr, IfOk, if◌then◌else◌, drop};
ghost use Rattle.std.specs.Io.{ReadsAtMost};
ghost use Rattle.std.specs.Io.KnownBytes.{ReadConsumes};
ghost use Rattle.loom_base.specs.Causes.{HasCause};
ghost use Rattle.loom_base.specs.Streams.{MemorySourceState, fails_next, read_len, filled, after_read};

use crate::bytes::fill_front;
use crate::{Failed, List, Source};
use std::marker::Model;

/// Bytes in memory, of which the reads with the numbers in `failing` fail, counted from 1.
#[derive(Debug, Drop)]
pub struct MemorySource {
    bytes: List<u8>,
    place: u64,
    failing: List<u64>,
    calls: u64,
    faults: u64,
}

impl Model for MemorySource {
    ghost use Rattle.std.specs.Prelude.{◌≤◌, length};
    ghost use Rattle.loom_base.specs.Streams.{MemorySourceState};

    ghost Value = { MemorySourceState };

    ghost view = { λ source. record {
      bytes = source.bytes;
      place = source.place;
      failing = source.failing;
      calls = source.calls;
      faults = source.faults;
    } };

    ghost invariant = { λ source. source.place ≤ length source.bytes };
}

impl MemorySource {
    /// A source of these bytes; the reads whose numbers stand in `failing` fail.
    pub fn new(bytes: List<u8>, failing: List<u64>) -> MemorySource
        ensures { result
            ≡ record { bytes = bytes; place = 0; failing = failing; calls = 0; faults = 0 } }
    {
        MemorySource {
            bytes,
            place: 0,
            failing,
            calls: 0,
            faults: 0,
        }
    }
}

impl Source for MemorySource {
    ghost left = { λ source. Some (drop source.place source.bytes) };

    ghost faults = { λ source. source.faults };

    /// Takes as many bytes as the buffer and what is left allow; fails exactly where the number of
    /// the call stands in `failing`.
    fn read(&mut self, buf: &mut [u8]) -> Result<usize, Failed>
        ensures bound { ReadsAtMost result buf.new }
        ensures bytes { ReadConsumes (Some (drop self.old.place self.old.bytes))
            (Some (drop self.new.place self.new.bytes)) result buf.new }
        ensures cause { HasCause self.old.faults self.new.faults result }
        ensures fails { IsErr result ↔ IsTrue (fails_next self.old.failing self.old.calls) }
        ensures count { IfOk result (λ count. count
            ≡ read_len self.old.bytes self.old.place (length buf.old)) }
        ensures state { self.new ≡ after_read self.old (length buf.old) }
        ensures buffer { buf.new ≡ (if fails_next self.old.failing self.old.calls then buf.old
            else filled self.old.bytes self.old.place buf.old) }
    {
        self.calls = self.calls.saturating_add(1);
        if self.failing.as_slice().contains(&self.calls) {
            self.faults = self.faults.saturating_add(1);
            return Err(Failed);
        }
        let count = fill_front(buf, &self.bytes.as_slice()[self.place as usize..]);
        self.place += count as u64;
        Ok(count)
    }
}
