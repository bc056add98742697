ghost use Rattle.l3_analysis.specs.Rounds.{AmpsRiseByOne, ChosenHasFewestOver, ChosenIsWithin, RoundsAreFew, RoundsAreWithin};

/// What holds of the rounds of amplification of a spectrum for a budget: no code makes them yet.
///
/// There are 1 to 4. The chosen one has the fewest bands over what is allowed, the first at a tie,
/// and the bits of its scale factors and of its count are together within the budget.
pub fn rounds_of_amplification()
    ensures few { RoundsAreFew }
    ensures fewest { ChosenHasFewestOver }
    ensures all_within { RoundsAreWithin }
    ensures within { ChosenIsWithin }
    ensures amps { AmpsRiseByOne }
{}
