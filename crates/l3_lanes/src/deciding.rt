// How the desk's calls decide.
ghost use Rattle.std.specs.Prelude.{◌≡◌, ℕ, List, ◌%◌, ◌<◌, ◌≤◌, Some, None, slice_set};
ghost use Rattle.l3_board.specs.declared.event.Offer.TheVariants.{Busy};
ghost use Rattle.l3_board.specs.declared.event.Take.TheVariants.{Got, Revoked, InWork, NotOffered};
ghost use Rattle.l3_lanes.specs.Views.{Notes};
ghost use Rattle.l3_lanes.specs.Calls.{IsDeskOf, OfferNotes, TakeNotes, OfferMoves, TakeMoves, desk_view, desk_past, granule_at, granule_offered, granule_taken};

use crate::desk_calls::{fetch, place};
use crate::seats::{LaneBoard, LaneDesk};
use l3_board::{Numbered, Offer, Take};

impl<T: Numbered> LaneBoard<T> {
    // Offers the item, where the desk has not shut the board and the cell is empty.
    pub(crate) fn offer_in(&self, desk: &mut LaneDesk<T>, number: u64, item: T) -> Offer<T>
        requires made { IsDeskOf self.now desk.old }
        requires number { (number ≡ T.number_of item) × (number ≤ 8589934592) }
        ensures made { IsDeskOf self.now desk.new }
        ensures busy { (x : T) → result ≡ Busy x → x ≡ item }
        ensures notes { (words : List ℕ) × OfferNotes desk.old.shut number result words × Notes (number % self.now.cells) words (desk_view desk.old) (desk_view desk.new) }
        ensures moved { OfferMoves self.now.cells desk.old.shut number result (desk_past desk.old) (desk_past desk.new) }
        ensures granules { let cell = number % self.now.cells in desk.new.granules.items ≡ slice_set desk.old.granules.items cell (granule_offered number (granule_at desk.old cell) result) }
        ensures kept { desk.new.kept ≡ desk.old.kept }
        ensures shut { desk.new.shut ≡ desk.old.shut }
    {
        if desk.shut {
            return Offer::Busy(item);
        }
        let cell = self.cell(number);
        let bell = usize::from(self.cells) + 1;
        let row = &self.lanes.shared;
        match place(row, &mut desk.token, cell, bell, number, item) {
            Offer::Placed(spent) => {
                desk.granules[cell] = Some(number);
                Offer::Placed(spent)
            }
            Offer::Busy(item) => Offer::Busy(item),
        }
    }

    // Takes the granule, where the desk knows it in its cell.
    pub(crate) fn take_in(&self, desk: &mut LaneDesk<T>, number: u64, spare: T) -> Take<T>
        requires made { IsDeskOf self.now desk.old }
        requires number { number ≤ 8589934592 }
        ensures made { IsDeskOf self.now desk.new }
        ensures got_number { (x : T) → result ≡ Got x → T.number_of x ≡ number }
        ensures revoked_number { (x : T) → result ≡ Revoked x → T.number_of x ≡ number }
        ensures in_work { (x : T) → result ≡ InWork x → x ≡ spare }
        ensures not_offered { (x : T) → result ≡ NotOffered x → x ≡ spare }
        ensures notes { let cell = number % self.now.cells in (words : List ℕ) × TakeNotes (granule_at desk.old cell) number result words × Notes cell words (desk_view desk.old) (desk_view desk.new) }
        ensures moved { TakeMoves self.now.cells number result (desk_past desk.old) (desk_past desk.new) }
        ensures granules { let cell = number % self.now.cells in desk.new.granules.items ≡ slice_set desk.old.granules.items cell (granule_taken (granule_at desk.old cell) result) }
        ensures kept { desk.new.kept ≡ desk.old.kept }
        ensures shut { desk.new.shut ≡ desk.old.shut }
    {
        let cell = self.cell(number);
        let Some(granule) = desk.granules[cell] else {
            return Take::NotOffered(spare);
        };
        if granule != number {
            return Take::NotOffered(spare);
        }
        let answer = fetch(&self.lanes.shared, &mut desk.token, cell, number, spare);
        desk.granules[cell] = None;
        answer
    }

    // The cell of a granule.
    fn cell(&self, number: u64) -> usize
        ensures place { result ≡ number % self.now.cells }
        ensures bound { result < self.now.cells }
    {
        (number % u64::from(self.cells)) as usize
    }
}
