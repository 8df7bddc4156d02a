//! Laws on pins by first fit. Each function does nothing: its contract is the law, and a caller
//! whose proof needs the law calls it.

ghost use Rattle.loom_pins.specs.Laws.{SlotsUsedTogetherAreApart, PinsAreOpen, PinsAreUnique, FirstWithoutIsUnique};

/// Two slots of one coupler that some choice makes used together have different pins, and each pin
/// is one of its coupler's that isn't reserved.
pub fn pins_are_apart()
    ensures apart { SlotsUsedTogetherAreApart }
    ensures open_to_all { PinsAreOpen }
{}

/// First fit has one outcome: one list of pins, or one first slot without a pin.
pub fn outcome_is_unique()
    ensures pins { PinsAreUnique }
    ensures without { FirstWithoutIsUnique }
{}
