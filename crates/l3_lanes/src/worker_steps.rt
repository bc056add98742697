// The steps of a worker's seat. Each keeps the rule of the board.
ghost use Rattle.std.specs.Prelude.{◌≡◌, ◌==◌, ℕ, Option, ◌+◌, ◌*◌, ◌^◌, ◌<◌, ◌∷◌, None, Some, MatchBool, true, false};
ghost use Rattle.atomic_table.specs.Table.{step};
ghost use mathlib.Core.Option.{none};
ghost use Rattle.l3_board.specs.declared.event.Event.TheVariants as event;
ghost use Rattle.l3_board.specs.declared.event.Answer.TheVariants as answer;
ghost use Rattle.l3_board.specs.declared.event.Claim.TheVariants.{Job};
ghost use Rattle.l3_board.specs.declared.event.Deposit.TheVariants.{Kept, Late};
ghost use Rattle.l3_lanes.specs.Words.{IsFull, HasNumber};
ghost use Rattle.l3_lanes.specs.History.{Extends, Sees, HasSeenOpen, bare};
ghost use Rattle.l3_lanes.specs.Steps.{Loads, Claims, Deposits, Frees};

use crate::plays::{Claiming, Depositing, Freeing, Loading, Row, Token};
use l3_board::Numbered;

// A worker's load of any word.
pub(crate) fn load<T: Numbered>(row: &Row<T>, seat: &mut Token<T>, word: usize) -> u64
    requires fits { (seat.old.table_id ≡ row.now.table_id) × (row.now.table_id.words ≡ row.now.table_id.slots + 2) }
    requires word { word < row.now.table_id.words }
    requires worker { seat.old.me.0.view.desk ≡ false }
    ensures same { (seat.new.table_id ≡ seat.old.table_id) × (seat.new.id ≡ seat.old.id) }
    ensures told { Loads T.number_of (step row.now.table_id.slots word 0 0 none) (bare seat.old.me) result (bare seat.new.me) }
    ensures looked { MatchBool (word == row.now.table_id.slots) (Sees row.now.table_id.slots (result == 1) seat.old.me.0.past seat.new.me.0.past) (seat.new.me.0.past ≡ seat.old.me.0.past) }
{
    row.load::<Loading<T>>(seat, word)
}

// Claims an offered granule.
pub(crate) fn claim<T: Numbered>(row: &Row<T>, seat: &mut Token<T>, cell: usize, number: u64) -> u64
    requires fits { (seat.old.table_id ≡ row.now.table_id) × (row.now.table_id.words ≡ row.now.table_id.slots + 2) }
    requires cell { cell < row.now.table_id.slots }
    requires number { number < 2 ^ 61 }
    requires worker { (seat.old.me.0.view.desk ≡ false) × (seat.old.me.0.view.claim ≡ None) × (seat.old.me.0.view.late ≡ false) }
    requires seen_open { HasSeenOpen row.now.table_id.slots seat.old.me.0.past }
    ensures same { (seat.new.table_id ≡ seat.old.table_id) × (seat.new.id ≡ seat.old.id) }
    ensures told { Claims T.number_of (step row.now.table_id.slots cell (8 * number + 1) (8 * number + 2) none) (bare seat.old.me) result (bare seat.new.me) }
    ensures moved { MatchBool (result == 8 * number + 1) (Extends row.now.table_id.slots seat.old.me.0.past event.Claim (answer.Claim (Job number)) seat.new.me.0.past) (seat.new.me.0.past ≡ seat.old.me.0.past) }
{
    row.compare_exchange::<Claiming<T>>(seat, cell, 8 * number + 1, 8 * number + 2)
}

// Deposits what is in the slot of the claim.
pub(crate) fn deposit<T: Numbered>(
    row: &Row<T>,
    seat: &mut Token<T>,
    cell: usize,
    number: u64,
) -> u64
    requires fits { (seat.old.table_id ≡ row.now.table_id) × (row.now.table_id.words ≡ row.now.table_id.slots + 2) }
    requires cell { cell < row.now.table_id.slots }
    requires number { number < 2 ^ 61 }
    requires worker { (seat.old.me.0.view.desk ≡ false) × (seat.old.me.0.view.claim ≡ Some (cell, number)) }
    requires item { (y : Option T) × (r : _) × (seat.old.me.1 ≡ (cell, y) ∷ r) × HasNumber T.number_of number y }
    ensures same { (seat.new.table_id ≡ seat.old.table_id) × (seat.new.id ≡ seat.old.id) }
    ensures told { Deposits T.number_of (step row.now.table_id.slots cell (8 * number + 2) (8 * number + 3) none) (bare seat.old.me) result (bare seat.new.me) }
    ensures moved { MatchBool (result == 8 * number + 2) (Extends row.now.table_id.slots seat.old.me.0.past (event.Deposit number) (answer.Deposit Kept) seat.new.me.0.past) (seat.new.me.0.past ≡ seat.old.me.0.past) }
{
    row.compare_exchange::<Depositing<T>>(seat, cell, 8 * number + 2, 8 * number + 3)
}

// Gives a withdrawn cell free.
pub(crate) fn free<T: Numbered>(row: &Row<T>, seat: &mut Token<T>, cell: usize, number: u64)
    requires fits { (seat.old.table_id ≡ row.now.table_id) × (row.now.table_id.words ≡ row.now.table_id.slots + 2) }
    requires cell { cell < row.now.table_id.slots }
    requires number { number < 2 ^ 61 }
    requires worker { (seat.old.me.0.view.desk ≡ false) × (seat.old.me.0.view.claim ≡ Some (cell, number)) × (seat.old.me.0.view.late ≡ true) }
    requires item { (y : Option T) × (r : _) × (seat.old.me.1 ≡ (cell, y) ∷ r) × IsFull y }
    ensures same { (seat.new.table_id ≡ seat.old.table_id) × (seat.new.id ≡ seat.old.id) }
    ensures told { Frees T.number_of (step row.now.table_id.slots cell 0 0 none) (bare seat.old.me) 0 (bare seat.new.me) }
    ensures moved { Extends row.now.table_id.slots seat.old.me.0.past (event.Deposit number) (answer.Deposit Late) seat.new.me.0.past }
{
    row.store::<Freeing<T>>(seat, cell, 0)
}
