ghost use Rattle.l3_guess.specs.Laws.{BestIsFirstOfLeast, KeepsLastEight, WorstIsLastOfGreatest};

/// The places of the best and of the worst score are what their names say.
pub fn places_of_scores()
    ensures best { BestIsFirstOfLeast }
    ensures worst { WorstIsLastOfGreatest }
{}

/// Whoever keeps the last eight after each number has the last eight of all.
pub fn last_eight_kept()
    ensures { KeepsLastEight }
{}
