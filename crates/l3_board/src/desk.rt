ghost use Rattle.std.specs.Prelude.{◌≡◌, ◌<◌, ◌%◌, IfOk, length};
ghost use Rattle.l3_board.specs.Desk.{fresh_desk, entry_of, last_after_offer, last_after_take, served_after, got_after, work_got};

use crate::entry::Entry;
use crate::event::{Offer, Take};
use crate::item::Numbered;
use l3_base::GranuleNo;
use std::alloc::{AllocError, Global};
use std::marker::Model;

/// What a desk of any board keeps: an entry for each cell, and how far it was served.
///
/// Granule i has the entry of cell `i mod L`, L being the number of cells. A take serves its
/// granule where all before it were served and that entry is of an offer of it. Only `new` takes
/// memory.
#[derive(Debug, Drop)]
pub struct DeskRecord {
    last: Vec<Entry>,
    served: u64,
    got: u64,
}

impl Model for DeskRecord {
    ghost use Rattle.std.specs.Prelude.{◌<◌, length};
    ghost use Rattle.l3_board.specs.Desk.{DeskState};

    ghost Value = { DeskState };

    ghost view = { λ desk. record { last = desk.last.items; served = desk.served; got = desk.got } };

    ghost invariant = { λ desk. 0 < length desk.last.items };
}

impl DeskRecord {
    /// The record that begins, of a board of so many cells: each entry is free, and nothing was
    /// served.
    pub fn new(alloc: Global, cells: u8) -> Result<DeskRecord, AllocError>
        requires some { 0 < cells }
        ensures { IfOk result (λ desk. desk ≡ fresh_desk cells) }
    {
        let last = vec![in alloc; Entry::Free; usize::from(cells)]?;
        Ok(DeskRecord {
            last,
            served: 0,
            got: 0,
        })
    }

    /// The number of cells.
    pub fn cells(&self) -> usize
        ensures cells { result ≡ length self.now.last }
        ensures some { 0 < result }
    {
        self.last.len()
    }

    /// The entry of a granule's cell.
    pub fn entry(&self, number: u64) -> Entry
        ensures { result ≡ entry_of (length self.now.last) self.now.last number }
    {
        self.last[self.place_of(number)]
    }

    /// The number up to which granules were served, in order from 0.
    pub fn served(&self) -> u64
        ensures { result ≡ self.now.served }
    {
        self.served
    }

    /// The work of the item that the last granule served came with, and 0 where it came with none.
    pub fn got(&self) -> u64
        ensures { result ≡ self.now.got }
    {
        self.got
    }

    /// Notes an answer to an offer of a granule.
    pub fn offered<T>(&mut self, number: u64, answer: &Offer<T>)
        ensures last { self.new.last ≡ last_after_offer (length self.old.last) self.old.last number answer.now }
        ensures served { self.new.served ≡ self.old.served }
        ensures got { self.new.got ≡ self.old.got }
    {
        let place = self.place_of(number);
        self.last[place] = self.last[place].after_offer(number, answer);
    }

    /// Notes an answer to a take of a granule.
    pub fn taken<T: Numbered>(&mut self, number: GranuleNo, answer: &Take<T>)
        ensures last { self.new.last ≡ last_after_take (length self.old.last) self.old.last number answer.now }
        ensures served { self.new.served ≡ served_after self.old.served number (entry_of (length self.old.last) self.old.last number) }
        ensures got { self.new.got ≡ got_after T.work_of self.old.got self.old.served number (entry_of (length self.old.last) self.old.last number) answer.now }
    {
        let number = number.get();
        let place = self.place_of(number);
        let before = self.last[place];
        if self.served == number && before.is_offered(number) {
            self.served = number + 1;
            self.got = work_of(answer);
        }
        self.last[place] = before.after_take(number, answer);
    }

    // The cell of a granule.
    fn place_of(&self, number: u64) -> usize
        ensures place { result ≡ number % length self.now.last }
        ensures bound { result < length self.now.last }
    {
        (number % self.last.len() as u64) as usize
    }
}

fn work_of<T: Numbered>(answer: &Take<T>) -> u64
    ensures { result ≡ work_got T.work_of answer.now }
{
    match answer {
        Take::Got(item) | Take::Revoked(item) => item.work(),
        Take::InWork(_) | Take::NotOffered(_) => 0,
    }
}
