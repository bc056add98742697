// The board without locks, by the calls that all boards have. Each has the clauses that all boards
// have, and those that tie its answer to the words that were noted.
ghost use Rattle.std.specs.Prelude.{◌≡◌, ◌≢◌, ℕ, List, ◌%◌, ◌<◌, ◌≤◌, ◌↔◌, [], ◌∷◌, None, Some, true};
ghost use Rattle.l3_board.specs.declared.event.Offer.TheVariants.{Busy};
ghost use Rattle.l3_board.specs.declared.event.Claim.TheVariants.{Job, Nothing, Shut};
ghost use Rattle.l3_board.specs.declared.event.Deposit.TheVariants.{Stray};
ghost use Rattle.l3_board.specs.declared.event.Take.TheVariants.{Got, Revoked, InWork, NotOffered};
ghost use Rattle.l3_board.specs.Desk.{entry_of, last_after_offer, last_after_take, served_after, got_after};
ghost use Rattle.l3_lanes.specs.Words.{offered_word, claimed_word};
ghost use Rattle.l3_lanes.specs.Views.{Notes, words_at};
ghost use Rattle.l3_lanes.specs.Calls.{IsDeskOf, IsSeatOf, OfferNotes, TakeNotes, DepositNotes, WasClaimed, WasLost, ReadsShut, claimed, desk_view, seat_view, granule_at, OfferMoves, ClaimMoves, DepositMoves, TakeMoves, ShutMoves, desk_past, seat_past};

use crate::seats::{LaneBoard, LaneDesk, LaneSeat};
use l3_base::GranuleNo;
use l3_board::{Board, Claim, Deposit, Numbered, Offer, Take};
use std::sync::Wait;

impl<T: Numbered + Send> Board for LaneBoard<T> {
    ghost use Rattle.l3_lanes.specs.Calls.{IsDeskOf, IsSeatOf, claimed};

    type Item = T;

    type Desk = LaneDesk<T>;

    type Seat = LaneSeat<T>;

    ghost cells = { λ board. board.cells };

    ghost has_desk = { λ board desk. IsDeskOf board desk };

    ghost has_seat = { λ board seat. IsSeatOf board seat };

    ghost last = { λ desk. desk.kept.last };

    ghost served = { λ desk. desk.kept.served };

    ghost got = { λ desk. desk.kept.got };

    ghost claimed = { λ seat. claimed seat };

    ghost desk_entries = { λ board desk made. (made.2, board.some) };

    fn ahead(&self) -> u8 {
        self.ahead()
    }

    fn offer(&self, desk: &mut LaneDesk<T>, item: T) -> Offer<T>
        requires made { IsDeskOf self.now desk.old }
        requires number { T.number_of item ≤ 8589934592 }
        ensures made { IsDeskOf self.now desk.new }
        ensures busy { (x : T) → result ≡ Busy x → x ≡ item }
        ensures last { desk.new.kept.last ≡ last_after_offer self.now.cells desk.old.kept.last (T.number_of item) result }
        ensures served { desk.new.kept.served ≡ desk.old.kept.served }
        ensures got { desk.new.kept.got ≡ desk.old.kept.got }
        ensures notes { (words : List ℕ) × OfferNotes desk.old.shut (T.number_of item) result words × Notes (T.number_of item % self.now.cells) words (desk_view desk.old) (desk_view desk.new) }
        ensures moved { OfferMoves self.now.cells desk.old.shut (T.number_of item) result (desk_past desk.old) (desk_past desk.new) }
    {
        self.offer(desk, item)
    }

    fn claim(&self, seat: &mut LaneSeat<T>) -> Claim<T>
        requires made { IsSeatOf self.now seat.old }
        requires free { claimed seat.old ≡ None }
        ensures made { IsSeatOf self.now seat.new }
        ensures job { (x : T) → result ≡ Job x → claimed seat.new ≡ Some (T.number_of x) }
        ensures nothing { result ≡ Nothing → claimed seat.new ≡ None }
        ensures shut { result ≡ Shut → claimed seat.new ≡ None }
        ensures read { (n : ℕ) × ReadsShut self.now.cells [] n (seat_view seat.old) (seat_view seat.new) × ((result ≡ Shut) ↔ (n ≡ 1)) }
        ensures claimed { (x : T) → result ≡ Job x → WasClaimed (T.number_of x % self.now.cells) (T.number_of x) (seat_view seat.old) (seat_view seat.new) }
        ensures lost { result ≡ Nothing → (c : ℕ) → c < self.now.cells → WasLost c (seat_view seat.old) (seat_view seat.new) }
        ensures moved { ClaimMoves self.now.cells T.number_of result (seat_past seat.old) (seat_past seat.new) }
    {
        self.claim(seat)
    }

    fn claim_wait<R: Wait>(&self, rt: &R, seat: &mut LaneSeat<T>) -> Claim<T>
        requires made { IsSeatOf self.now seat.old }
        requires free { claimed seat.old ≡ None }
        ensures made { IsSeatOf self.now seat.new }
        ensures job { (x : T) → result ≡ Job x → claimed seat.new ≡ Some (T.number_of x) }
        ensures something { result ≢ Nothing }
        ensures shut { result ≡ Shut → claimed seat.new ≡ None }
        ensures read { (n : ℕ) × (earlier : List ℕ) × ReadsShut self.now.cells earlier n (seat_view seat.old) (seat_view seat.new) × ((result ≡ Shut) ↔ (n ≡ 1)) }
        ensures claimed { (x : T) → result ≡ Job x → (before : List ℕ) × (words_at (seat_view seat.new) (T.number_of x % self.now.cells) ≡ claimed_word (T.number_of x) ∷ offered_word (T.number_of x) ∷ before) }
        ensures moved { ClaimMoves self.now.cells T.number_of result (seat_past seat.old) (seat_past seat.new) }
    {
        self.claim_wait(rt, seat)
    }

    fn deposit(&self, seat: &mut LaneSeat<T>, item: T) -> Deposit<T>
        requires made { IsSeatOf self.now seat.old }
        requires claim { claimed seat.old ≡ Some (T.number_of item) }
        ensures made { IsSeatOf self.now seat.new }
        ensures free { claimed seat.new ≡ None }
        ensures stray { (x : T) → result ≡ Stray x → x ≡ item }
        ensures notes { (words : List ℕ) × DepositNotes (T.number_of item) result words × Notes (T.number_of item % self.now.cells) words (seat_view seat.old) (seat_view seat.new) }
        ensures moved { DepositMoves self.now.cells (T.number_of item) result (seat_past seat.old) (seat_past seat.new) }
    {
        self.deposit(seat, item)
    }

    fn take(&self, desk: &mut LaneDesk<T>, number: GranuleNo, spare: T) -> Take<T>
        requires made { IsDeskOf self.now desk.old }
        ensures made { IsDeskOf self.now desk.new }
        ensures got_number { (x : T) → result ≡ Got x → T.number_of x ≡ number }
        ensures revoked_number { (x : T) → result ≡ Revoked x → T.number_of x ≡ number }
        ensures in_work { (x : T) → result ≡ InWork x → x ≡ spare }
        ensures not_offered { (x : T) → result ≡ NotOffered x → x ≡ spare }
        ensures last { desk.new.kept.last ≡ last_after_take self.now.cells desk.old.kept.last number result }
        ensures served { desk.new.kept.served ≡ served_after desk.old.kept.served number (entry_of self.now.cells desk.old.kept.last number) }
        ensures got { desk.new.kept.got ≡ got_after T.work_of desk.old.kept.got desk.old.kept.served number (entry_of self.now.cells desk.old.kept.last number) result }
        ensures notes { let cell = number % self.now.cells in (words : List ℕ) × TakeNotes (granule_at desk.old cell) number result words × Notes cell words (desk_view desk.old) (desk_view desk.new) }
        ensures moved { TakeMoves self.now.cells number result (desk_past desk.old) (desk_past desk.new) }
    {
        self.take(desk, number, spare)
    }

    fn shut(&self, desk: &mut LaneDesk<T>)
        requires made { IsDeskOf self.now desk.old }
        ensures made { IsDeskOf self.now desk.new }
        ensures last { desk.new.kept.last ≡ desk.old.kept.last }
        ensures served { desk.new.kept.served ≡ desk.old.kept.served }
        ensures got { desk.new.kept.got ≡ desk.old.kept.got }
        ensures shut { desk.new.shut ≡ true }
        ensures moved { ShutMoves self.now.cells desk.old.shut (desk_past desk.old) (desk_past desk.new) }
    {
        self.shut(desk);
    }
}
