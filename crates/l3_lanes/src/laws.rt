ghost use Rattle.l3_lanes.specs.Laws.{DeskKnows, CellWords, OneClaim, LostByCounts};
ghost use Rattle.l3_lanes.specs.HistoryLaws.{HistoryIsRun, RuleHasRun};

use l3_board::Numbered;

/// What the rule of the board without locks says of its cells, its desk and its claims.
pub fn laws_of_the_rule<T: Numbered>()
    ensures desk { DeskKnows T.number_of }
    ensures words { CellWords T.number_of }
    ensures claims { OneClaim T.number_of }
    ensures lost { LostByCounts }
{}

/// What the history of the board without locks is: a run of the board machine of `l3_board` over
/// granules' numbers.
pub fn laws_of_the_history<T: Numbered>()
    ensures run { HistoryIsRun }
    ensures rule { RuleHasRun T.number_of }
{}
