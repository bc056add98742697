ghost use Rattle.std.specs.Prelude.{◌≡◌, ◌≢◌, ℕ, List, Option, ◌+◌, ◌%◌, ◌<◌, ◌≤◌, ◌↔◌, [], ◌∷◌, None, Some, true, if◌then◌else◌, slice_set};
ghost use Rattle.l3_board.specs.declared.event.Offer.TheVariants.{Busy};
ghost use Rattle.l3_board.specs.declared.event.Claim.TheVariants.{Job, Nothing, Shut};
ghost use Rattle.l3_board.specs.declared.event.Deposit.TheVariants.{Stray};
ghost use Rattle.l3_board.specs.declared.event.Take.TheVariants.{Got, Revoked, InWork, NotOffered};
ghost use Rattle.l3_board.specs.Desk.{entry_of, last_after_offer, last_after_take, served_after, got_after};
ghost use Rattle.l3_lanes.specs.Words.{offered_word, claimed_word};
ghost use Rattle.l3_lanes.specs.Views.{Notes, words_at};
ghost use Rattle.l3_lanes.specs.Calls.{IsDeskOf, IsSeatOf, OfferNotes, TakeNotes, DepositNotes, WasClaimed, WasLost, IsTried, ReadsShut, claimed, desk_view, seat_view, granule_at, granule_offered, granule_taken, OfferMoves, ClaimMoves, DepositMoves, TakeMoves, ShutMoves, desk_past, seat_past};

use crate::desk_steps::{ring, shut};
use crate::seats::{LaneBoard, LaneDesk, LaneSeat};
use crate::worker_calls::hand_in;
use crate::worker_steps::load;
use l3_base::GranuleNo;
use l3_board::{Claim, Deposit, Numbered, Offer, Take};
use std::sync::Wait;

impl<T: Numbered> LaneBoard<T> {
    /// The number of cells: how many granules may be on the board at once.
    pub fn ahead(&self) -> u8
        ensures { result ≡ self.now.cells }
    {
        self.cells
    }

    /// Puts an item on offer, and hands out the spent one of its cell, to be loaded anew.
    ///
    /// `Busy` hands the item back: exactly where the desk has shut the board, or the word of the
    /// cell that was read in this call is not that of an empty one.
    pub fn offer(&self, desk: &mut LaneDesk<T>, item: T) -> Offer<T>
        requires made { IsDeskOf self.now desk.old }
        requires number { T.number_of item ≤ 8589934592 }
        ensures made { IsDeskOf self.now desk.new }
        ensures busy { (x : T) → result ≡ Busy x → x ≡ item }
        ensures notes { (words : List ℕ) × OfferNotes desk.old.shut (T.number_of item) result words × Notes (T.number_of item % self.now.cells) words (desk_view desk.old) (desk_view desk.new) }
        ensures moved { OfferMoves self.now.cells desk.old.shut (T.number_of item) result (desk_past desk.old) (desk_past desk.new) }
        ensures granules { let cell = T.number_of item % self.now.cells in desk.new.granules.items ≡ slice_set desk.old.granules.items cell (granule_offered (T.number_of item) (granule_at desk.old cell) result) }
        ensures last { desk.new.kept.last ≡ last_after_offer self.now.cells desk.old.kept.last (T.number_of item) result }
        ensures served { desk.new.kept.served ≡ desk.old.kept.served }
        ensures got { desk.new.kept.got ≡ desk.old.kept.got }
        ensures shut { desk.new.shut ≡ desk.old.shut }
    {
        let number = item.number();
        let answer = self.offer_in(desk, number, item);
        desk.kept.offered(number, &answer);
        answer
    }

    /// Hands out an item on offer, to be handed in again.
    ///
    /// It reads the word for shut once, and answers `Shut` exactly where that is 1. Else it tries
    /// each cell, by at most one load and one exchange. `Nothing` comes only where each cell was
    /// not on offer, or no longer held the word on offer that was read there.
    pub fn claim(&self, seat: &mut LaneSeat<T>) -> Claim<T>
        requires made { IsSeatOf self.now seat.old }
        requires free { claimed seat.old ≡ None }
        ensures made { IsSeatOf self.now seat.new }
        ensures job { (x : T) → result ≡ Job x → claimed seat.new ≡ Some (T.number_of x) }
        ensures nothing { result ≡ Nothing → claimed seat.new ≡ None }
        ensures shut { result ≡ Shut → claimed seat.new ≡ None }
        ensures read { (n : ℕ) × ReadsShut self.now.cells [] n (seat_view seat.old) (seat_view seat.new) × ((result ≡ Shut) ↔ (n ≡ 1)) }
        ensures unread { result ≡ Shut → (c : ℕ) → c < self.now.cells → words_at (seat_view seat.new) c ≡ words_at (seat_view seat.old) c }
        ensures tried { (c : ℕ) → c < self.now.cells → IsTried c (seat_view seat.old) (seat_view seat.new) }
        ensures claimed { (x : T) → result ≡ Job x → WasClaimed (T.number_of x % self.now.cells) (T.number_of x) (seat_view seat.old) (seat_view seat.new) }
        ensures lost { result ≡ Nothing → (c : ℕ) → c < self.now.cells → WasLost c (seat_view seat.old) (seat_view seat.new) }
        ensures moved { ClaimMoves self.now.cells T.number_of result (seat_past seat.old) (seat_past seat.new) }
    {
        let row = &self.lanes.shared;
        if load(row, &mut seat.token, usize::from(self.cells)) == 1 {
            return Claim::Shut;
        }
        match self.try_all(seat) {
            Some(job) => Claim::Job(job),
            None => Claim::Nothing,
        }
    }

    /// Waits until an item could be claimed, or the board is shut. It never answers `Nothing`, and
    /// answers `Shut` exactly where it read 1 in the word for shut.
    pub fn claim_wait<R: Wait>(&self, rt: &R, seat: &mut LaneSeat<T>) -> Claim<T>
        requires made { IsSeatOf self.now seat.old }
        requires free { claimed seat.old ≡ None }
        ensures made { IsSeatOf self.now seat.new }
        ensures job { (x : T) → result ≡ Job x → claimed seat.new ≡ Some (T.number_of x) }
        ensures something { result ≢ Nothing }
        ensures shut { result ≡ Shut → claimed seat.new ≡ None }
        ensures read { (n : ℕ) × (earlier : List ℕ) × ReadsShut self.now.cells earlier n (seat_view seat.old) (seat_view seat.new) × ((result ≡ Shut) ↔ (n ≡ 1)) }
        ensures claimed { (x : T) → result ≡ Job x → (before : List ℕ) × (words_at (seat_view seat.new) (T.number_of x % self.now.cells) ≡ claimed_word (T.number_of x) ∷ offered_word (T.number_of x) ∷ before) }
        ensures moved { ClaimMoves self.now.cells T.number_of result (seat_past seat.old) (seat_past seat.new) }
    {
        let bell = usize::from(self.cells) + 1;
        for _ in rt.forever() {
            let seen = self.lanes.shared.peek(bell);
            match self.claim(seat) {
                Claim::Job(job) => return Claim::Job(job),
                Claim::Shut => return Claim::Shut,
                Claim::Nothing => self
                    .lanes
                    .shared
                    .park(rt, bell, (seen & 0xffff_ffff) as u32),
            }
        }
        unreachable!()
    }

    /// Hands in the item of the granule that the seat has claimed: `Kept` where the granule waits
    /// to be taken then, `Late` where it was withdrawn, so that the item stays as a spent one. It
    /// never answers `Stray`.
    pub fn deposit(&self, seat: &mut LaneSeat<T>, item: T) -> Deposit<T>
        requires made { IsSeatOf self.now seat.old }
        requires claim { claimed seat.old ≡ Some (T.number_of item) }
        ensures made { IsSeatOf self.now seat.new }
        ensures free { claimed seat.new ≡ None }
        ensures never_stray { (x : T) → result ≢ Stray x }
        ensures notes { (words : List ℕ) × DepositNotes (T.number_of item) result words × Notes (T.number_of item % self.now.cells) words (seat_view seat.old) (seat_view seat.new) }
        ensures moved { DepositMoves self.now.cells (T.number_of item) result (seat_past seat.old) (seat_past seat.new) }
    {
        let Some((cell, number)) = seat.claim else {
            unreachable!()
        };
        let answer = hand_in(&self.lanes.shared, &mut seat.token, cell, number, item);
        seat.claim = None;
        answer
    }

    /// Takes a granule off the board. The spare stays where an item goes out, and comes back else;
    /// its own number is never looked at.
    ///
    /// At most three steps on the cell decide. `NotOffered` comes without a step, exactly where the
    /// desk does not know the granule there.
    pub fn take(&self, desk: &mut LaneDesk<T>, number: GranuleNo, spare: T) -> Take<T>
        requires made { IsDeskOf self.now desk.old }
        ensures made { IsDeskOf self.now desk.new }
        ensures got_number { (x : T) → result ≡ Got x → T.number_of x ≡ number }
        ensures revoked_number { (x : T) → result ≡ Revoked x → T.number_of x ≡ number }
        ensures in_work { (x : T) → result ≡ InWork x → x ≡ spare }
        ensures not_offered { (x : T) → result ≡ NotOffered x → x ≡ spare }
        ensures notes { let cell = number % self.now.cells in (words : List ℕ) × TakeNotes (granule_at desk.old cell) number result words × Notes cell words (desk_view desk.old) (desk_view desk.new) }
        ensures moved { TakeMoves self.now.cells number result (desk_past desk.old) (desk_past desk.new) }
        ensures granules { let cell = number % self.now.cells in desk.new.granules.items ≡ slice_set desk.old.granules.items cell (granule_taken (granule_at desk.old cell) result) }
        ensures last { desk.new.kept.last ≡ last_after_take self.now.cells desk.old.kept.last number result }
        ensures served { desk.new.kept.served ≡ served_after desk.old.kept.served number (entry_of self.now.cells desk.old.kept.last number) }
        ensures got { desk.new.kept.got ≡ got_after T.work_of desk.old.kept.got desk.old.kept.served number (entry_of self.now.cells desk.old.kept.last number) result }
        ensures shut { desk.new.shut ≡ desk.old.shut }
    {
        let answer = self.take_in(desk, number.get(), spare);
        desk.kept.taken(number, &answer);
        answer
    }

    /// Shuts the board for good: nothing is put on offer or claimed from then on. It takes no step
    /// where the desk has shut the board before.
    pub fn shut(&self, desk: &mut LaneDesk<T>)
        requires made { IsDeskOf self.now desk.old }
        ensures made { IsDeskOf self.now desk.new }
        ensures shut { desk.new.shut ≡ true }
        ensures granules { desk.new.granules ≡ desk.old.granules }
        ensures kept { desk.new.kept ≡ desk.old.kept }
        ensures notes { Notes self.now.cells (if desk.old.shut then [] else 1 ∷ []) (desk_view desk.old) (desk_view desk.new) }
        ensures moved { ShutMoves self.now.cells desk.old.shut (desk_past desk.old) (desk_past desk.new) }
    {
        if desk.shut {
            return;
        }
        let row = &self.lanes.shared;
        let word = usize::from(self.cells);
        shut(row, &mut desk.token, word);
        desk.shut = true;
        ring(row, &mut desk.token, word + 1);
        row.wake_all(word + 1);
    }
}
