ghost use Rattle.std.specs.Prelude.{◌≡◌, ◌≤◌};
ghost use Rattle.loom_topology.specs.Topology.{price_of, priced, is_coupler};

use loom_base::{Pins, Price};

/// What a segment is.
#[derive(Clone, Copy, Debug, PartialEq, Eq)]
pub enum Kind {
    /// A run inside one harness; its length in millimetres is its price.
    Run { length: Price },
    /// An inline coupler between two harnesses.
    Coupler { price: Price, pins: Pins },
}

impl Kind {
    /// What a wire pays to pass: a run's length, a coupler's price.
    pub fn price(&self) -> u64
        ensures value { result ≡ price_of self.now }
        ensures range { (1 ≤ result) × (result ≤ 1000000) }
    {
        match self {
            Kind::Run { length } => length.get(),
            Kind::Coupler { price, .. } => price.get(),
        }
    }

    /// The same kind with another price: a run of that length, a coupler at that price.
    pub fn priced(&self, price: Price) -> Kind
        ensures value { result ≡ priced price self.now }
        ensures range { (1 ≤ price) × (price ≤ 1000000) }
    {
        let _in_range = price.get();
        match *self {
            Kind::Run { .. } => Kind::Run { length: price },
            Kind::Coupler { pins, .. } => Kind::Coupler { price, pins },
        }
    }

    pub fn is_coupler(&self) -> bool
        ensures { result ≡ is_coupler self.now }
    {
        matches!(self, Kind::Coupler { .. })
    }
}
