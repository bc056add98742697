// The steps of the desk. Each keeps the rule of the board.
ghost use Rattle.std.specs.Prelude.{◌≡◌, ◌==◌, ℕ, Option, ◌+◌, ◌*◌, ◌%◌, ◌^◌, ◌<◌, ◌∷◌, Some, MatchBool, true, false};
ghost use Rattle.atomic_table.specs.Table.{step};
ghost use mathlib.Core.Option.{none, some};
ghost use lib.ListN.{get_elem?};
ghost use Rattle.l3_board.specs.declared.event.Event.TheVariants as event;
ghost use Rattle.l3_board.specs.declared.event.Answer.TheVariants as answer;
ghost use Rattle.l3_board.specs.declared.event.Offer.TheVariants.{Placed, Busy};
ghost use Rattle.l3_board.specs.declared.event.Take.TheVariants.{Got, Revoked, InWork};
ghost use Rattle.l3_lanes.specs.Words.{IsFull, HasNumber};
ghost use Rattle.l3_lanes.specs.declared.view.Tell.TheVariants.{Held, ToldClaimed, ToldReady};
ghost use Rattle.l3_lanes.specs.Views.{Knows};
ghost use Rattle.l3_lanes.specs.History.{Extends, Answers, bare};
ghost use Rattle.l3_lanes.specs.Steps.{Looks, Offers, Revokes, Withdraws, Takes, Returns, Shuts, Rings};

use crate::plays::{
    Looking, Offering, Returning, Revoking, Ringing, Row, Shutting, Taking, Token, Withdrawing,
};
use l3_board::Numbered;

// The desk's load of a cell, which takes the slot of an empty one.
pub(crate) fn look<T: Numbered>(row: &Row<T>, seat: &mut Token<T>, cell: usize) -> u64
    requires fits { (seat.old.table_id ≡ row.now.table_id) × (row.now.table_id.words ≡ row.now.table_id.slots + 2) }
    requires cell { cell < row.now.table_id.slots }
    requires desk { (seat.old.me.0.view.desk ≡ true) × ((o : Option ℕ) × Knows seat.old.me.0.view cell o) }
    ensures same { (seat.new.table_id ≡ seat.old.table_id) × (seat.new.id ≡ seat.old.id) }
    ensures told { Looks T.number_of (step row.now.table_id.slots cell 0 0 none) (bare seat.old.me) result (bare seat.new.me) }
    ensures looked { MatchBool (result == 0) (seat.new.me.0.past ≡ seat.old.me.0.past) ((i : ℕ) → i % row.now.table_id.slots ≡ cell → Answers row.now.table_id.slots seat.old.me.0.past (event.Offer i) (answer.Offer (Busy i)) seat.new.me.0.past) }
{
    row.load::<Looking<T>>(seat, cell)
}

// Offers what is in the slot that the desk holds.
pub(crate) fn put_offer<T: Numbered>(row: &Row<T>, seat: &mut Token<T>, cell: usize, number: u64)
    requires fits { (seat.old.table_id ≡ row.now.table_id) × (row.now.table_id.words ≡ row.now.table_id.slots + 2) }
    requires cell { cell < row.now.table_id.slots }
    requires number { number < 2 ^ 61 }
    requires place { number % row.now.table_id.slots ≡ cell }
    requires desk { (seat.old.me.0.view.desk ≡ true) × (get_elem? seat.old.me.0.view.tells cell ≡ some Held) }
    requires not_shut { seat.old.me.0.view.shut ≡ false }
    requires item { (y : Option T) × (r : _) × (seat.old.me.1 ≡ (cell, y) ∷ r) × HasNumber T.number_of number y }
    ensures same { (seat.new.table_id ≡ seat.old.table_id) × (seat.new.id ≡ seat.old.id) }
    ensures told { Offers T.number_of (step row.now.table_id.slots cell (8 * number + 1) 0 none) (bare seat.old.me) (8 * number + 1) (bare seat.new.me) }
    ensures moved { (spent : ℕ) × Extends row.now.table_id.slots seat.old.me.0.past (event.Offer number) (answer.Offer (Placed spent)) seat.new.me.0.past }
{
    row.store::<Offering<T>>(seat, cell, 8 * number + 1)
}

// Takes back an offered granule.
pub(crate) fn revoke<T: Numbered>(
    row: &Row<T>,
    seat: &mut Token<T>,
    cell: usize,
    number: u64,
) -> u64
    requires fits { (seat.old.table_id ≡ row.now.table_id) × (row.now.table_id.words ≡ row.now.table_id.slots + 2) }
    requires cell { cell < row.now.table_id.slots }
    requires number { number < 2 ^ 61 }
    requires desk { (seat.old.me.0.view.desk ≡ true) × Knows seat.old.me.0.view cell (Some number) }
    ensures same { (seat.new.table_id ≡ seat.old.table_id) × (seat.new.id ≡ seat.old.id) }
    ensures told { Revokes T.number_of (step row.now.table_id.slots cell (8 * number + 1) 0 none) (bare seat.old.me) result (bare seat.new.me) }
    ensures moved { MatchBool (result == 8 * number + 1) (Extends row.now.table_id.slots seat.old.me.0.past (event.Take number 0) (answer.Take (Revoked number)) seat.new.me.0.past) (seat.new.me.0.past ≡ seat.old.me.0.past) }
{
    row.compare_exchange::<Revoking<T>>(seat, cell, 8 * number + 1, 0)
}

// Withdraws a claimed granule.
pub(crate) fn withdraw<T: Numbered>(
    row: &Row<T>,
    seat: &mut Token<T>,
    cell: usize,
    number: u64,
) -> u64
    requires fits { (seat.old.table_id ≡ row.now.table_id) × (row.now.table_id.words ≡ row.now.table_id.slots + 2) }
    requires cell { cell < row.now.table_id.slots }
    requires number { number < 2 ^ 61 }
    requires desk { (seat.old.me.0.view.desk ≡ true) × (get_elem? seat.old.me.0.view.tells cell ≡ some (ToldClaimed number)) }
    ensures same { (seat.new.table_id ≡ seat.old.table_id) × (seat.new.id ≡ seat.old.id) }
    ensures told { Withdraws T.number_of (step row.now.table_id.slots cell (8 * number + 2) (8 * number + 4) none) (bare seat.old.me) result (bare seat.new.me) }
    ensures moved { MatchBool (result == 8 * number + 2) (Extends row.now.table_id.slots seat.old.me.0.past (event.Take number 0) (answer.Take (InWork 0)) seat.new.me.0.past) (seat.new.me.0.past ≡ seat.old.me.0.past) }
{
    row.compare_exchange::<Withdrawing<T>>(seat, cell, 8 * number + 2, 8 * number + 4)
}

// Takes a ready granule.
pub(crate) fn take_ready<T: Numbered>(row: &Row<T>, seat: &mut Token<T>, cell: usize, number: u64)
    requires fits { (seat.old.table_id ≡ row.now.table_id) × (row.now.table_id.words ≡ row.now.table_id.slots + 2) }
    requires cell { cell < row.now.table_id.slots }
    requires number { number < 2 ^ 61 }
    requires desk { (seat.old.me.0.view.desk ≡ true) × (get_elem? seat.old.me.0.view.tells cell ≡ some (ToldReady number)) }
    ensures same { (seat.new.table_id ≡ seat.old.table_id) × (seat.new.id ≡ seat.old.id) }
    ensures told { Takes T.number_of number (step row.now.table_id.slots cell 0 0 none) (bare seat.old.me) 0 (bare seat.new.me) }
    ensures moved { Extends row.now.table_id.slots seat.old.me.0.past (event.Take number 0) (answer.Take (Got number)) seat.new.me.0.past }
{
    row.store::<Taking<T>>(seat, cell, 0)
}

// Gives the slot of an empty cell back.
pub(crate) fn give_back<T: Numbered>(row: &Row<T>, seat: &mut Token<T>, cell: usize) -> u64
    requires fits { (seat.old.table_id ≡ row.now.table_id) × (row.now.table_id.words ≡ row.now.table_id.slots + 2) }
    requires cell { cell < row.now.table_id.slots }
    requires desk { (seat.old.me.0.view.desk ≡ true) × (get_elem? seat.old.me.0.view.tells cell ≡ some Held) }
    requires item { (y : Option T) × (r : _) × (seat.old.me.1 ≡ (cell, y) ∷ r) × IsFull y }
    ensures same { (seat.new.table_id ≡ seat.old.table_id) × (seat.new.id ≡ seat.old.id) }
    ensures told { Returns T.number_of (step row.now.table_id.slots cell 0 0 none) (bare seat.old.me) result (bare seat.new.me) }
    ensures unmoved { seat.new.me.0.past ≡ seat.old.me.0.past }
{
    row.load::<Returning<T>>(seat, cell)
}

// Shuts the board.
pub(crate) fn shut<T: Numbered>(row: &Row<T>, seat: &mut Token<T>, word: usize)
    requires fits { (seat.old.table_id ≡ row.now.table_id) × (row.now.table_id.words ≡ row.now.table_id.slots + 2) }
    requires word { word ≡ row.now.table_id.slots }
    requires desk { seat.old.me.0.view.desk ≡ true }
    ensures same { (seat.new.table_id ≡ seat.old.table_id) × (seat.new.id ≡ seat.old.id) }
    ensures told { Shuts T.number_of (step row.now.table_id.slots word 1 0 none) (bare seat.old.me) 1 (bare seat.new.me) }
    ensures moved { Extends row.now.table_id.slots seat.old.me.0.past event.Shut answer.Shut seat.new.me.0.past }
{
    row.store::<Shutting<T>>(seat, word, 1)
}

// Raises the bell.
pub(crate) fn ring<T: Numbered>(row: &Row<T>, seat: &mut Token<T>, word: usize) -> u64
    requires fits { (seat.old.table_id ≡ row.now.table_id) × (row.now.table_id.words ≡ row.now.table_id.slots + 2) }
    requires word { word ≡ row.now.table_id.slots + 1 }
    requires desk { seat.old.me.0.view.desk ≡ true }
    ensures same { (seat.new.table_id ≡ seat.old.table_id) × (seat.new.id ≡ seat.old.id) }
    ensures told { Rings T.number_of (step row.now.table_id.slots word 1 0 none) (bare seat.old.me) result (bare seat.new.me) }
    ensures unmoved { seat.new.me.0.past ≡ seat.old.me.0.past }
{
    row.fetch_add::<Ringing<T>>(seat, word, 1)
}
