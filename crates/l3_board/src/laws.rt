ghost use Rattle.l3_board.specs.Offers.{FreshDesksGo};
ghost use Rattle.l3_board.specs.Laws.{RepliesRun, OneOutcome, CellsStay, HandedOutOnce, ItemsPass, ItemsStay};

use crate::item::Numbered;

/// A desk that begins has nothing on its board: so offers begin beside it.
pub fn fresh_desks()
    ensures { FreshDesksGo }
{}

/// What holds of every run, whatever the events.
pub fn laws_of_runs<T: Numbered>()
    ensures replies { RepliesRun T.number_of }
    ensures answers { OneOutcome T.number_of }
    ensures cells { CellsStay T.number_of }
    ensures once { HandedOutOnce T.number_of }
    ensures late { ItemsPass T.number_of }
    ensures items { ItemsStay T.number_of }
{}
