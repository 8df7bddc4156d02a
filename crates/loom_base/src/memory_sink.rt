ghost use Rattle.std.specs.Prelude.{◌≡◌, ◌↔◌, ◌<◌, ◌≤◌, ◌^◌, [], length, Some, IsTrue, IsErr, IfOk};
ghost use Rattle.std.specs.Io.{WritesAtMost};
ghost use Rattle.std.specs.Io.KnownBytes.{WriteAppends};
ghost use Rattle.loom_base.specs.Causes.{HasCause};
ghost use Rattle.loom_base.specs.Streams.{MemorySinkState, write_fails, write_len, after_write};

use crate::bytes::{put_at, zeros};
use crate::{Failed, List, NoMemory, Sink};
use std::alloc::Global;
use std::marker::Model;

/// A sink in memory with a fixed room, which takes at most `per_call` bytes of a piece and of which
/// the writes with the numbers in `failing` fail, counted from 1.
#[derive(Debug, Drop)]
pub struct MemorySink {
    space: Vec<u8>,
    len: usize,
    per_call: u64,
    failing: List<u64>,
    calls: u64,
    faults: u64,
}

impl Model for MemorySink {
    ghost use Rattle.std.specs.Prelude.{◌≤◌, take, vec_len};
    ghost use Rattle.loom_base.specs.Streams.{MemorySinkState};

    ghost Value = { MemorySinkState };

    ghost view = { λ sink. record {
      held = take sink.len sink.space.items;
      room = vec_len sink.space;
      per_call = sink.per_call;
      failing = sink.failing;
      calls = sink.calls;
      faults = sink.faults;
    } };

    ghost invariant = { λ sink. (sink.len ≤ vec_len sink.space) × (1 ≤ sink.per_call) };
}

impl MemorySink {
    /// An empty sink; all of its room is taken here, so that a write needs no memory.
    pub fn new(
        alloc: Global,
        room: u64,
        per_call: u64,
        failing: List<u64>,
    ) -> Result<MemorySink, NoMemory>
        requires { 1 ≤ per_call }
        ensures { IfOk result (λ sink. sink ≡ record {
          held = [];
          room = room;
          per_call = per_call;
          failing = failing;
          calls = 0;
          faults = 0;
        }) }
    {
        Ok(MemorySink {
            space: zeros(alloc, room as usize)?,
            len: 0,
            per_call,
            failing,
            calls: 0,
            faults: 0,
        })
    }

    /// The bytes that were written.
    pub fn held(&self) -> &[u8]
        ensures bytes { result.now ≡ self.now.held }
        ensures room { length result.now ≤ self.now.room }
    {
        &self.space[..self.len]
    }
}

impl Sink for MemorySink {
    ghost held = { λ sink. Some sink.held };

    ghost faults = { λ sink. sink.faults };

    /// Takes as many bytes as the piece, the free room and `per_call` allow. Fails exactly where
    /// the number of the call stands in `failing`, or no room is free for a piece that isn't empty.
    fn write(&mut self, piece: &[u8]) -> Result<usize, Failed>
        ensures bound { WritesAtMost result piece.now }
        ensures progress { IfOk result (λ count. 0 < length piece.now → 0 < count) }
        ensures bytes { WriteAppends (Some self.old.held) (Some self.new.held) result piece.now }
        ensures cause { HasCause self.old.faults self.new.faults result }
        ensures fails { IsErr result ↔ IsTrue (write_fails self.old piece.now) }
        ensures count { IfOk result (λ count. count ≡ write_len self.old piece.now) }
        ensures state { self.new ≡ after_write self.old piece.now }
    {
        self.calls = self.calls.saturating_add(1);
        let free = self.space.len() - self.len;
        let is_failing = self.failing.as_slice().contains(&self.calls);
        if is_failing || (!piece.is_empty() && free == 0) {
            self.faults = self.faults.saturating_add(1);
            return Err(Failed);
        }
        let count = piece.len().min(free).min(self.per_call as usize);
        put_at(&mut self.space, self.len, &piece[..count]);
        self.len += count;
        Ok(count)
    }
}
