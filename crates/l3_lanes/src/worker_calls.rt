// What a worker's seat does with one cell.
ghost use Rattle.std.specs.Prelude.{◌≡◌, ◌≢◌, ℕ, Option, ◌+◌, ◌%◌, ◌^◌, ◌<◌, [], ◌∷◌, None, Some, true, false, length, IfSome, IfNone};
ghost use Rattle.l3_board.specs.declared.event.Event.TheVariants as event;
ghost use Rattle.l3_board.specs.declared.event.Answer.TheVariants as answer;
ghost use Rattle.l3_board.specs.declared.event.Claim.TheVariants.{Job};
ghost use Rattle.l3_board.specs.declared.event.Deposit.TheVariants.{Stray};
ghost use Rattle.l3_lanes.specs.Words.{offered_word, claimed_word};
ghost use Rattle.l3_lanes.specs.Views.{Notes};
ghost use Rattle.l3_lanes.specs.History.{Extends, HasSeenOpen};
ghost use Rattle.l3_lanes.specs.Calls.{DepositNotes, DepositMoves};

use crate::plays::{Row, Token};
use crate::worker_steps::{claim, deposit, free};
use l3_board::{Deposit, Numbered};

// Claims the granule that the cell's word was read to offer.
pub(crate) fn claim_offered<T: Numbered>(
    row: &Row<T>,
    token: &mut Token<T>,
    cell: usize,
    number: u64,
) -> Option<T>
    requires fits { (token.old.table_id ≡ row.now.table_id) × (row.now.table_id.words ≡ row.now.table_id.slots + 2) }
    requires cell { cell < row.now.table_id.slots }
    requires number { number < 2 ^ 61 }
    requires seat { (token.old.me.0.view.desk ≡ false) × (token.old.me.0.view.late ≡ false) × (token.old.me.0.view.claim ≡ None) × (token.old.me.1 ≡ []) }
    requires seen_open { HasSeenOpen row.now.table_id.slots token.old.me.0.past }
    requires places { length token.old.me.0.view.notes ≡ row.now.table_id.slots + 1 }
    ensures same { (token.new.table_id ≡ token.old.table_id) × (token.new.id ≡ token.old.id) }
    ensures worker { (token.new.me.0.view.desk ≡ false) × (token.new.me.0.view.late ≡ false) }
    ensures job { IfSome result (λ x. (T.number_of x ≡ number) × (number % row.now.table_id.slots ≡ cell) × (token.new.me.0.view.claim ≡ Some (cell, number)) × ((y : Option T) × (token.new.me.1 ≡ (cell, y) ∷ []))) }
    ensures nothing { IfNone result ((token.new.me.0.view.claim ≡ None) × (token.new.me.1 ≡ [])) }
    ensures claimed { IfSome result (λ _. Notes cell (claimed_word number ∷ []) token.old.me.0.view token.new.me.0.view) }
    ensures lost { IfNone result ((n : ℕ) × (n ≢ offered_word number) × Notes cell (n ∷ []) token.old.me.0.view token.new.me.0.view) }
    ensures moved { IfSome result (λ x. Extends row.now.table_id.slots token.old.me.0.past event.Claim (answer.Claim (Job (T.number_of x))) token.new.me.0.past) }
    ensures unmoved { IfNone result (token.new.me.0.past ≡ token.old.me.0.past) }
{
    if claim(row, token, cell, number) != 8 * number + 1 {
        return None;
    }
    row.exchange(token, cell, None)
}

// Puts the item into the slot of the claim, and ends the claim.
pub(crate) fn hand_in<T: Numbered>(
    row: &Row<T>,
    token: &mut Token<T>,
    cell: usize,
    number: u64,
    item: T,
) -> Deposit<T>
    requires fits { (token.old.table_id ≡ row.now.table_id) × (row.now.table_id.words ≡ row.now.table_id.slots + 2) }
    requires cell { cell < row.now.table_id.slots }
    requires number { (number < 2 ^ 61) × (number ≡ T.number_of item) }
    requires seat { (token.old.me.0.view.desk ≡ false) × (token.old.me.0.view.late ≡ false) × (token.old.me.0.view.claim ≡ Some (cell, number)) × ((y : Option T) × (token.old.me.1 ≡ (cell, y) ∷ [])) }
    requires places { length token.old.me.0.view.notes ≡ row.now.table_id.slots + 1 }
    ensures same { (token.new.table_id ≡ token.old.table_id) × (token.new.id ≡ token.old.id) }
    ensures seat { (token.new.me.0.view.desk ≡ false) × (token.new.me.0.view.late ≡ false) × (token.new.me.0.view.claim ≡ None) × (token.new.me.1 ≡ []) }
    ensures notes { (words : _) × DepositNotes number result words × Notes cell words token.old.me.0.view token.new.me.0.view }
    ensures moved { DepositMoves row.now.table_id.slots number result token.old.me.0.past token.new.me.0.past }
{
    // Bound for the proof alone, which names this step by it.
    let _old = row.exchange(token, cell, Some(item));
    if deposit(row, token, cell, number) == 8 * number + 2 {
        return Deposit::Kept;
    }
    free(row, token, cell, number);
    Deposit::Late
}
