ghost use Rattle.std.specs.Prelude.{◌≡◌, ◌↔◌, ◌<◌, ◌≤◌, ◌-◌, ◌^◌, [], length, min, Some, IsTrue, IsErr, IfOk};
ghost use Rattle.std.specs.Io.{WritesAtMost};
ghost use Rattle.std.specs.Io.KnownBytes.{WriteAppends};
ghost use Rattle.loom_base.specs.Causes.{HasCause};
ghost use Rattle.loom_base.specs.Streams.{SteadySinkState, is_full_for, after_steady_write};

use crate::bytes::{put_at, zeros};
use crate::{Failed, NoMemory, Sink};
use std::alloc::Global;
use std::marker::Model;

/// A sink in memory with a fixed room, which fails only where it is full.
#[derive(Debug, Drop)]
pub struct SteadySink {
    space: Vec<u8>,
    len: usize,
    faults: u64,
}

impl Model for SteadySink {
    ghost use Rattle.std.specs.Prelude.{◌≡◌, ◌<◌, ◌≤◌, take, vec_len};
    ghost use Rattle.loom_base.specs.Streams.{SteadySinkState};

    ghost Value = { SteadySinkState };

    ghost view = { λ sink. record {
      held = take sink.len sink.space.items;
      room = vec_len sink.space;
      faults = sink.faults;
    } };

    ghost invariant = { λ sink. (sink.len ≤ vec_len sink.space)
        × (0 < sink.faults → sink.len ≡ vec_len sink.space) };
}

impl SteadySink {
    /// An empty sink; all of its room is taken here, so that a write needs no memory.
    pub fn new(alloc: Global, room: u64) -> Result<SteadySink, NoMemory>
        ensures { IfOk result (λ sink. sink ≡ record { held = []; room = room; faults = 0 }) }
    {
        Ok(SteadySink {
            space: zeros(alloc, room as usize)?,
            len: 0,
            faults: 0,
        })
    }

    /// The bytes that were written. Where a write failed the room is full.
    pub fn held(&self) -> &[u8]
        ensures bytes { result.now ≡ self.now.held }
        ensures room { length result.now ≤ self.now.room }
        ensures full { 0 < self.now.faults → length result.now ≡ self.now.room }
    {
        &self.space[..self.len]
    }
}

impl Sink for SteadySink {
    ghost held = { λ sink. Some sink.held };

    ghost faults = { λ sink. sink.faults };

    /// Takes as many bytes as the piece and the free room allow. Fails exactly where no room is
    /// free for a piece that isn't empty.
    fn write(&mut self, piece: &[u8]) -> Result<usize, Failed>
        ensures bound { WritesAtMost result piece.now }
        ensures progress { IfOk result (λ count. 0 < length piece.now → 0 < count) }
        ensures bytes { WriteAppends (Some self.old.held) (Some self.new.held) result piece.now }
        ensures cause { HasCause self.old.faults self.new.faults result }
        ensures fails { IsErr result ↔ IsTrue (is_full_for piece.now self.old.held self.old.room) }
        ensures count { IfOk result (λ count. count
            ≡ min (length piece.now) (self.old.room - length self.old.held)) }
        ensures state { self.new ≡ after_steady_write self.old piece.now }
    {
        let free = self.space.len() - self.len;
        if !piece.is_empty() && free == 0 {
            self.faults = self.faults.saturating_add(1);
            return Err(Failed);
        }
        let count = piece.len().min(free);
        put_at(&mut self.space, self.len, &piece[..count]);
        self.len += count;
        Ok(count)
    }
}
