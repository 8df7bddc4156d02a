ghost use Rattle.std.specs.Prelude.{◌≡◌, ◌+◌, [], length, Some, drop};
ghost use Rattle.std.specs.Io.{ReadsAtMost};
ghost use Rattle.std.specs.Io.KnownBytes.{ReadConsumes};
ghost use Rattle.loom_base.specs.Causes.{HasCause};
ghost use Rattle.loom_base.specs.Streams.{SteadySourceState, read_len, filled};

use crate::bytes::fill_front;
use crate::{Failed, List, Source};
use std::marker::Model;

/// Bytes in memory, of which no read fails.
#[derive(Debug, Drop)]
pub struct SteadySource {
    bytes: List<u8>,
    place: u64,
}

impl Model for SteadySource {
    ghost use Rattle.std.specs.Prelude.{◌≤◌, length};
    ghost use Rattle.loom_base.specs.Streams.{SteadySourceState};

    ghost Value = { SteadySourceState };

    ghost view = { λ source. record { bytes = source.bytes; place = source.place } };

    ghost invariant = { λ source. source.place ≤ length source.bytes };
}

impl SteadySource {
    /// A source of these bytes.
    pub fn new(bytes: List<u8>) -> SteadySource
        ensures { result ≡ record { bytes = bytes; place = 0 } }
    {
        SteadySource { bytes, place: 0 }
    }
}

impl Source for SteadySource {
    ghost left = { λ source. Some (drop source.place source.bytes) };

    ghost faults = { λ _. 0 };

    /// Takes as many bytes as the buffer and what is left allow.
    fn read(&mut self, buf: &mut [u8]) -> Result<usize, Failed>
        ensures bound { ReadsAtMost result buf.new }
        ensures bytes { ReadConsumes (Some (drop self.old.place self.old.bytes))
            (Some (drop self.new.place self.new.bytes)) result buf.new }
        ensures cause { HasCause 0 0 result }
        ensures count { result ≡ Ok (read_len self.old.bytes self.old.place (length buf.old)) }
        ensures state { self.new ≡ record self.old {
          place = self.old.place
              + read_len self.old.bytes self.old.place (length buf.old);
        } }
        ensures buffer { buf.new ≡ filled self.old.bytes self.old.place buf.old }
    {
        let count = fill_front(buf, &self.bytes.as_slice()[self.place as usize..]);
        self.place += count as u64;
        Ok(count)
    }
}
