ghost use Rattle.l3_base.specs.Filterbank.{SlotsOfWindow, SlotIsBounded};

/// A window has the slots of its granule, and each is bounded.
pub fn filterbank_laws()
    ensures windows { SlotsOfWindow }
    ensures bound { SlotIsBounded }
{}
