ghost use Rattle.std.specs.Prelude.{refl};
ghost use Rattle.std.specs.Ordering.{on, eq_by_cmp, as_partial_cmp};
ghost use Rattle.std.specs.Cmp.{on_total, eq_by_cmp_equiv, partial_equiv_from_equiv, partial_order_from_total};
ghost use Rattle.loom_types.specs.WireOrder.{wire_cmp};
ghost use Rattle.loom_wires.specs.WireTotals.{wire_cmp_total};

use loom_types::Wire;
use std::cmp::Ordering;

/// A wire as the key of a map, ordered by net, from, to and route.
#[derive(Drop)]
pub(crate) struct WireKey {
    pub(crate) wire: Wire,
}

impl PartialEq for WireKey {
    ghost eq = { eq_by_cmp (on (λ k. k.wire) wire_cmp) };

    ghost laws = { partial_equiv_from_equiv
        (eq_by_cmp_equiv (on_total (λ k. k.wire) wire_cmp_total)) };

    fn eq(&self, other: &WireKey) -> bool {
        self.cmp(other).is_eq()
    }
}

impl Eq for WireKey {
    ghost laws = { eq_by_cmp_equiv (on_total (λ k. k.wire) wire_cmp_total) };
}

impl PartialOrd for WireKey {
    ghost partial_cmp = { as_partial_cmp (on (λ k. k.wire) wire_cmp) };

    ghost laws = { partial_order_from_total (on_total (λ k. k.wire) wire_cmp_total) };

    fn partial_cmp(&self, other: &WireKey) -> Option<Ordering> {
        Some(self.cmp(other))
    }
}

impl Ord for WireKey {
    ghost cmp = { on (λ k. k.wire) wire_cmp };

    ghost total = { on_total (λ k. k.wire) wire_cmp_total };

    ghost matches_partial_cmp = { λ a b. refl };

    ghost matches_eq = { λ a b. refl };

    fn cmp(&self, other: &WireKey) -> Ordering {
        self.wire.order(&other.wire)
    }
}
