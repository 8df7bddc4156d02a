ghost use Rattle.std.specs.Prelude.{◌≡◌, ◌≤◌, SomeIff};

use std::marker::Model;

/// A run's length in millimetres or a coupler's price: 1 to 1,000,000.
#[derive(Clone, Copy, Debug, PartialEq, Eq, PartialOrd, Ord, Hash)]
pub struct Price {
    value: u64,
}

impl Model for Price {
    ghost use Rattle.std.specs.Prelude.{ℕ, ◌≤◌};

    ghost Value = { ℕ };

    ghost view = { λ price. price.value };

    ghost invariant = { λ price. (1 ≤ price.value) × (price.value ≤ 1000000) };

    ghost inverse = { λ n. record { value = n } };
}

impl Price {
    /// The price of that value; None where it is outside the range.
    pub fn new(value: u64) -> Option<Price>
        ensures { SomeIff result ((1 ≤ value) × (value ≤ 1000000)) value }
    {
        if (1..=1_000_000).contains(&value) {
            Some(Price { value })
        } else {
            None
        }
    }

    pub fn get(&self) -> u64
        ensures value { result ≡ self.now }
        ensures range { (1 ≤ result) × (result ≤ 1000000) }
    {
        self.value
    }
}

/// A node's branch cost: 0 to 1,000,000.
#[derive(Clone, Copy, Debug, PartialEq, Eq, PartialOrd, Ord, Hash)]
pub struct Branch {
    value: u64,
}

impl Model for Branch {
    ghost use Rattle.std.specs.Prelude.{ℕ, ◌≤◌};

    ghost Value = { ℕ };

    ghost view = { λ branch. branch.value };

    ghost invariant = { λ branch. branch.value ≤ 1000000 };

    ghost inverse = { λ n. record { value = n } };
}

impl Branch {
    /// The branch cost of that value; None where it is outside the range.
    pub fn new(value: u64) -> Option<Branch>
        ensures { SomeIff result (value ≤ 1000000) value }
    {
        if value <= 1_000_000 {
            Some(Branch { value })
        } else {
            None
        }
    }

    pub fn get(&self) -> u64
        ensures value { result ≡ self.now }
        ensures range { result ≤ 1000000 }
    {
        self.value
    }
}

/// How many pins a coupler has: 1 to 512.
#[derive(Clone, Copy, Debug, PartialEq, Eq, PartialOrd, Ord, Hash)]
pub struct Pins {
    value: u64,
}

impl Model for Pins {
    ghost use Rattle.std.specs.Prelude.{ℕ, ◌≤◌};

    ghost Value = { ℕ };

    ghost view = { λ pins. pins.value };

    ghost invariant = { λ pins. (1 ≤ pins.value) × (pins.value ≤ 512) };

    ghost inverse = { λ n. record { value = n } };
}

impl Pins {
    /// That many pins; None where the number is outside the range.
    pub fn new(value: u64) -> Option<Pins>
        ensures { SomeIff result ((1 ≤ value) × (value ≤ 512)) value }
    {
        if (1..=512).contains(&value) {
            Some(Pins { value })
        } else {
            None
        }
    }

    pub fn get(&self) -> u64
        ensures value { result ≡ self.now }
        ensures range { (1 ≤ result) × (result ≤ 512) }
    {
        self.value
    }
}
