ghost use Rattle.l3_count.specs.Laws.{CountsAtOneGain, CountsTheFewest, CountsWhatIsTaken, EmptyAtTheTop, IsThereFromTheFirstGain, IsThereWhereCodable};

/// A count is there exactly where the spectrum can be coded, and its bits are the fewest that
/// regions and tables give.
pub fn counts_are_least()
    ensures one_gain { CountsAtOneGain }
    ensures codable { IsThereWhereCodable }
    ensures first { IsThereFromTheFirstGain }
    ensures top { EmptyAtTheTop }
    ensures taken { CountsWhatIsTaken }
    ensures fewest { CountsTheFewest }
{}
