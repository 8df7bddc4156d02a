ghost use Rattle.std.specs.Prelude.{◌≡◌, reverse};
ghost use Rattle.loom_types.specs.LayoutWires.{thread_from, finished};
ghost use Rattle.loom_audit.specs.Threads.{thread_of};

use loom_base::{List, NetNo, SegmentNo};
use loom_types::{End, Wire};
use std::alloc::Global;
use std::cmp::Ordering;

/// A wire that isn't finished.
#[derive(Drop)]
pub(crate) struct Thread {
    /// The stop at which it began.
    pub stop: End,
    /// The runs so far.
    pub route: List<SegmentNo>,
    /// The sum of their lengths, in millimetres.
    pub length: u64,
}

impl Thread {
    /// A thread that begins at a stop.
    pub fn new(alloc: Global, stop: End) -> Thread
        ensures { thread_of result ≡ thread_from stop }
    {
        Thread {
            stop,
            route: List::new(alloc),
            length: 0,
        }
    }

    /// The wire between the thread's stop and another one, from the lesser of the two to the
    /// greater, with row 0.
    pub fn finished(self, net: NetNo, stop: End) -> Wire
        ensures { result ≡ finished net.0 (thread_of self) stop }
    {
        let Thread {
            stop: first,
            route,
            length,
        } = self;
        match first.order(&stop) {
            Ordering::Greater => Wire {
                net,
                from: stop,
                to: first,
                route: turned(route),
                length,
                row: 0,
            },
            Ordering::Less | Ordering::Equal => Wire {
                net,
                from: first,
                to: stop,
                route,
                length,
                row: 0,
            },
        }
    }
}

/// The route in the other direction.
fn turned(route: List<SegmentNo>) -> List<SegmentNo>
    ensures { result ≡ reverse route }
{
    let mut runs = route.into_vec();
    runs.reverse();
    List::from_vec(runs)
}
