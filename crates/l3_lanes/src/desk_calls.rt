// What the desk does with one cell.
ghost use Rattle.std.specs.Prelude.{◌≡◌, ℕ, Option, ◌+◌, ◌%◌, ◌^◌, ◌<◌, [], ◌∷◌, None, Some, true, false, length, slice_index_or};
ghost use mathlib.Core.Option.{some};
ghost use lib.ListN.{get_elem?};
ghost use Rattle.l3_board.specs.declared.event.Event.TheVariants as event;
ghost use Rattle.l3_board.specs.declared.event.Answer.TheVariants as answer;
ghost use Rattle.l3_board.specs.declared.event.Offer.TheVariants.{Busy};
ghost use Rattle.l3_board.specs.declared.event.Take.TheVariants.{Got, Revoked, InWork, NotOffered};
ghost use Rattle.l3_lanes.specs.declared.view.Tell.{Tell};
ghost use Rattle.l3_lanes.specs.declared.view.Tell.TheVariants.{Free, Held, ToldReady};
ghost use Rattle.l3_lanes.specs.Words.{IsFull};
ghost use Rattle.l3_lanes.specs.Views.{Knows, HasTold, Notes, known, is_held};
ghost use Rattle.l3_lanes.specs.History.{Extends};
ghost use Rattle.l3_lanes.specs.Calls.{OfferNotes, TakeNotes, OfferMoves, TakeMoves, granule_offered};

use crate::desk_steps::{give_back, look, put_offer, revoke, ring, take_ready, withdraw};
use crate::plays::{Row, Token};
use l3_board::{Numbered, Offer, Take};

// Offers the item where the cell is empty, and wakes those who wait.
pub(crate) fn place<T: Numbered>(
    row: &Row<T>,
    token: &mut Token<T>,
    cell: usize,
    bell: usize,
    number: u64,
    item: T,
) -> Offer<T>
    requires fits { (token.old.table_id ≡ row.now.table_id) × (row.now.table_id.words ≡ row.now.table_id.slots + 2) }
    requires cell { (cell < row.now.table_id.slots) × (number % row.now.table_id.slots ≡ cell) }
    requires bell { bell ≡ row.now.table_id.slots + 1 }
    requires number { (number < 2 ^ 61) × (number ≡ T.number_of item) }
    requires desk { (token.old.me.0.view.desk ≡ true) × (token.old.me.1 ≡ []) × ((o : Option ℕ) × Knows token.old.me.0.view cell o) }
    requires not_shut { token.old.me.0.view.shut ≡ false }
    requires places { length token.old.me.0.view.notes ≡ row.now.table_id.slots + 1 }
    ensures same { (token.new.table_id ≡ token.old.table_id) × (token.new.id ≡ token.old.id) }
    ensures no_slot { token.new.me.1 ≡ [] }
    ensures busy { (x : T) → result ≡ Busy x → x ≡ item }
    ensures after { (t : Tell) × HasTold token.old.me.0.view cell t token.new.me.0.view × (known t ≡ granule_offered number (known (slice_index_or token.old.me.0.view.tells cell Free)) result) × (is_held t ≡ false) }
    ensures notes { (words : _) × OfferNotes false number result words × Notes cell words token.old.me.0.view token.new.me.0.view }
    ensures moved { OfferMoves row.now.table_id.slots false number result token.old.me.0.past token.new.me.0.past }
{
    if look(row, token, cell) != 0 {
        return Offer::Busy(item);
    }
    let spent = row.exchange(token, cell, Some(item));
    put_offer(row, token, cell, number);
    ring(row, token, bell);
    row.wake_all(bell);
    match spent {
        Some(x) => Offer::Placed(x),
        None => unreachable!(),
    }
}

// Exchanges what is in the slot of an empty cell, and gives the slot back.
fn swap_out<T: Numbered>(row: &Row<T>, token: &mut Token<T>, cell: usize, spare: T) -> T
    requires fits { (token.old.table_id ≡ row.now.table_id) × (row.now.table_id.words ≡ row.now.table_id.slots + 2) }
    requires cell { cell < row.now.table_id.slots }
    requires desk { (token.old.me.0.view.desk ≡ true) × (get_elem? token.old.me.0.view.tells cell ≡ some Held) }
    requires item { (y : Option T) × (token.old.me.1 ≡ (cell, y) ∷ []) × IsFull y }
    requires places { length token.old.me.0.view.notes ≡ row.now.table_id.slots + 1 }
    ensures same { (token.new.table_id ≡ token.old.table_id) × (token.new.id ≡ token.old.id) }
    ensures no_slot { token.new.me.1 ≡ [] }
    ensures item { token.old.me.1 ≡ (cell, Some result) ∷ [] }
    ensures after { HasTold token.old.me.0.view cell Free token.new.me.0.view }
    ensures notes { Notes cell (0 ∷ []) token.old.me.0.view token.new.me.0.view }
    ensures unmoved { token.new.me.0.past ≡ token.old.me.0.past }
{
    let found = row.exchange(token, cell, Some(spare));
    give_back(row, token, cell);
    match found {
        Some(x) => x,
        None => unreachable!(),
    }
}

// Takes a ready granule out.
fn collect<T: Numbered>(row: &Row<T>, token: &mut Token<T>, cell: usize, number: u64, spare: T) -> T
    requires fits { (token.old.table_id ≡ row.now.table_id) × (row.now.table_id.words ≡ row.now.table_id.slots + 2) }
    requires cell { cell < row.now.table_id.slots }
    requires number { number < 2 ^ 61 }
    requires desk { (token.old.me.0.view.desk ≡ true) × (token.old.me.1 ≡ []) × (get_elem? token.old.me.0.view.tells cell ≡ some (ToldReady number)) }
    requires places { length token.old.me.0.view.notes ≡ row.now.table_id.slots + 1 }
    ensures same { (token.new.table_id ≡ token.old.table_id) × (token.new.id ≡ token.old.id) }
    ensures no_slot { token.new.me.1 ≡ [] }
    ensures item { T.number_of result ≡ number }
    ensures after { HasTold token.old.me.0.view cell Free token.new.me.0.view }
    ensures notes { Notes cell (0 ∷ 0 ∷ []) token.old.me.0.view token.new.me.0.view }
    ensures moved { Extends row.now.table_id.slots token.old.me.0.past (event.Take number 0) (answer.Take (Got number)) token.new.me.0.past }
{
    take_ready(row, token, cell, number);
    swap_out(row, token, cell, spare)
}

// Takes the granule out, or leaves it to its worker. It decides by at most three steps on the cell.
pub(crate) fn fetch<T: Numbered>(
    row: &Row<T>,
    token: &mut Token<T>,
    cell: usize,
    number: u64,
    spare: T,
) -> Take<T>
    requires fits { (token.old.table_id ≡ row.now.table_id) × (row.now.table_id.words ≡ row.now.table_id.slots + 2) }
    requires cell { cell < row.now.table_id.slots }
    requires number { number < 2 ^ 61 }
    requires desk { (token.old.me.0.view.desk ≡ true) × (token.old.me.1 ≡ []) × Knows token.old.me.0.view cell (Some number) }
    requires places { length token.old.me.0.view.notes ≡ row.now.table_id.slots + 1 }
    ensures same { (token.new.table_id ≡ token.old.table_id) × (token.new.id ≡ token.old.id) }
    ensures no_slot { token.new.me.1 ≡ [] }
    ensures got { (x : T) → result ≡ Got x → T.number_of x ≡ number }
    ensures revoked { (x : T) → result ≡ Revoked x → T.number_of x ≡ number }
    ensures in_work { (x : T) → result ≡ InWork x → x ≡ spare }
    ensures offered { (x : T) → result ≡ NotOffered x → x ≡ spare }
    ensures after { (t : Tell) × HasTold token.old.me.0.view cell t token.new.me.0.view × (known t ≡ None) × (is_held t ≡ false) }
    ensures notes { (words : _) × TakeNotes (Some number) number result words × Notes cell words token.old.me.0.view token.new.me.0.view }
    ensures moved { TakeMoves row.now.table_id.slots number result token.old.me.0.past token.new.me.0.past }
{
    let found = revoke(row, token, cell, number);
    if found == 8 * number + 1 {
        return Take::Revoked(swap_out(row, token, cell, spare));
    }
    if found == 8 * number + 3 {
        return Take::Got(collect(row, token, cell, number, spare));
    }
    if withdraw(row, token, cell, number) == 8 * number + 2 {
        return Take::InWork(spare);
    }
    Take::Got(collect(row, token, cell, number, spare))
}
