ghost use Rattle.std.specs.Prelude.{◌≡◌, ◌≢◌, ◌+◌, ◌%◌, ◌<◌, ◌≤◌, ℕ, true, false, Some, None, IfOk, is_some, length, slice_set};
ghost use Rattle.l3_board.specs.declared.entry.Entry.TheVariants.{Told};
ghost use Rattle.l3_board.specs.Desk.{entry_of, is_offered};
ghost use Rattle.l3_board.specs.Offers.{told_of, no_offers, placed_at, AreAhead, IsNear, GoesWith, IsOfferedAnew, OthersStay, HasEnded};

use crate::board::Board;
use crate::event::{Offer, Take};
use crate::item::Numbered;
use l3_base::GranuleNo;
use std::alloc::{AllocError, Global};
use std::marker::Model;

/// The granules that a desk has on its board: offered ahead of the next one, at most one for each
/// cell, and taken in order.
#[derive(Drop)]
pub struct Offers {
    placed: Vec<Option<u64>>,
    next: u64,
}

impl Model for Offers {
    ghost use Rattle.l3_board.specs.Offers.{OffersView, AreAhead};

    ghost Value = { OffersView };

    ghost view = { λ o. record { placed = o.placed.items; next = o.next } };

    ghost invariant = { λ o. AreAhead record { placed = o.placed.items; next = o.next } };
}

impl Offers {
    /// Nothing is on offer yet, on a board of so many cells, and granule 0 is to be taken next.
    /// Where there is no board there are 0 cells. After this no memory is taken.
    pub fn new(alloc: Global, cells: u8) -> Result<Offers, AllocError>
        ensures { IfOk result (λ o. o ≡ no_offers cells) }
    {
        let placed = vec![in alloc; None; usize::from(cells)]?;
        Ok(Offers { placed, next: 0 })
    }

    /// How many cells the board has.
    pub fn cells(&self) -> usize
        ensures { result ≡ length self.now.placed }
    {
        self.placed.len()
    }

    /// The granule that is to be taken next.
    pub fn next(&self) -> u64
        ensures value { result ≡ self.now.next }
        ensures ahead { AreAhead self.now }
    {
        self.next
    }

    /// Whether a granule, which is one of the next ones, is on offer.
    pub fn has(&self, number: u64) -> bool
        requires some { 0 < length self.now.placed }
        requires near { IsNear self.now number }
        ensures there { result ≡ true → placed_at self.now.placed number ≡ Some number }
        ensures absent { result ≡ false → placed_at self.now.placed number ≡ None }
    {
        let _next = self.next();
        self.is_taken(number)
    }

    // Whether the cell of a granule has one on offer.
    fn is_taken(&self, number: u64) -> bool
        requires { 0 < length self.now.placed }
        ensures { result ≡ is_some (placed_at self.now.placed number) }
    {
        self.placed[(number % self.placed.len() as u64) as usize].is_some()
    }

    /// Offers an item of a granule that is not on offer, and gives the item that comes back: a
    /// spent one, or where the cell is taken the same.
    pub fn offer<T: Numbered, B: Board<Item = T>>(
        &mut self,
        board: &B,
        desk: &mut B::Desk,
        item: T,
    ) -> T
        requires made { B.has_desk board.now desk.old }
        requires cells { length self.old.placed ≡ B.cells board.now }
        requires goes { GoesWith (B.last desk.old) self.old }
        requires limit { T.number_of item ≤ 8589934592 }
        requires near { IsNear self.old (T.number_of item) }
        requires absent { placed_at self.old.placed (T.number_of item) ≡ None }
        ensures made { B.has_desk board.now desk.new }
        ensures cells { length self.new.placed ≡ B.cells board.now }
        ensures next { self.new.next ≡ self.old.next }
        ensures goes { GoesWith (B.last desk.new) self.new }
        ensures offered { IsOfferedAnew (B.cells board.now) (B.last desk.old) (B.last desk.new) (T.number_of item) }
        ensures others { OthersStay (B.cells board.now) (B.last desk.old) (B.last desk.new) (T.number_of item) }
        ensures served { B.served desk.new ≡ B.served desk.old }
        ensures got { B.got desk.new ≡ B.got desk.old }
    {
        let number = item.number();
        let cell = (number % self.placed.len() as u64) as usize;
        match board.offer(desk, item) {
            Offer::Placed(spent) => {
                self.placed[cell] = Some(number);
                spent
            }
            Offer::Busy(back) => back,
        }
    }

    /// Takes the next granule off the board, with a spare, and gives the item that comes back: that
    /// of the granule where the board hands it out, and else the spare.
    pub fn take<T: Numbered, B: Board<Item = T>>(
        &mut self,
        board: &B,
        desk: &mut B::Desk,
        spare: T,
    ) -> T
        requires made { B.has_desk board.now desk.old }
        requires cells { length self.old.placed ≡ B.cells board.now }
        requires goes { GoesWith (B.last desk.old) self.old }
        requires limit { self.old.next ≤ 8589934592 }
        ensures made { B.has_desk board.now desk.new }
        ensures cells { length self.new.placed ≡ B.cells board.now }
        ensures next { self.new.next ≡ self.old.next + 1 }
        ensures goes { GoesWith (B.last desk.new) self.new }
        ensures ended { entry_of (B.cells board.now) (B.last desk.old) self.old.next ≡ Told self.old.next → HasEnded self.old.next (entry_of (B.cells board.now) (B.last desk.new) self.old.next) }
        ensures others { OthersStay (B.cells board.now) (B.last desk.old) (B.last desk.new) self.old.next }
        ensures served { B.served desk.old ≡ self.old.next → is_offered self.old.next (entry_of (B.cells board.now) (B.last desk.old) self.old.next) ≡ true
            → (B.served desk.new ≡ self.old.next + 1) × (B.got desk.new ≢ 0 → (T.number_of result ≡ self.old.next) × (T.work_of result ≡ B.got desk.new)) }
    {
        let Some(number) = GranuleNo::new(self.next) else {
            unreachable!();
        };
        let cell = (self.next % self.placed.len() as u64) as usize;
        self.placed[cell] = None;
        self.next += 1;
        match board.take(desk, number, spare) {
            Take::Got(item) | Take::Revoked(item) => item,
            Take::InWork(back) | Take::NotOffered(back) => back,
        }
    }
}
