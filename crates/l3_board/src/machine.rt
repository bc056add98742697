ghost use Rattle.std.specs.Prelude.{◌≡◌, ℕ, ◌≤◌, ◌<◌, ◌%◌, true, Some, None, [], IfOk, IfSome, IfNone, length, map, count_by, flat_map, slice_get, vec_len, vec_capacity};
ghost use Rattle.std.specs.Option.{option_map};
ghost use Rattle.l3_board.specs.declared.cell.Content.TheVariants.{Empty, Offered};
ghost use Rattle.l3_board.specs.declared.event.Event.TheVariants as event;
ghost use Rattle.l3_board.specs.declared.event.Answer.TheVariants as answer;
ghost use Rattle.l3_board.specs.declared.event.Claim.TheVariants.{Job};
ghost use Rattle.l3_board.specs.Machine.{IsSound, Step, Run, fresh, held_of, is_held, state_of};
ghost use Rattle.l3_board.specs.Replies.{offer_outcome, claim_outcome, deposit_outcome, take_outcome, reply, after_event, replies, state_after, claimed_least, IsLeastOffered};

use crate::cell::{Cell, Content};
use crate::event::{Answer, Claim, Deposit, Event, Offer, Take};
use crate::item::Numbered;
use crate::least::least_offered;
use std::alloc::{AllocError, Global};
use std::marker::Model;

/// A board of 1 to 64 cells, each of whose calls is one event of the machine.
///
/// Granule i stands in cell `i mod L` alone, L being the number of cells. An empty cell keeps a
/// spent item, which only a placed offer hands out, to be loaded anew. Only `new` takes memory.
#[derive(Drop)]
pub struct Core<T: Numbered> {
    cells: Vec<Content<T>>,
    shut: bool,
}

impl<T: Numbered> Model for Core<T> {
    ghost use Rattle.l3_board.specs.Machine.{BoardState, IsSound};

    ghost Value = { BoardState T };

    ghost view = { λ c. record { cells = c.cells.items; shut = c.shut } };

    ghost invariant = { λ c. IsSound T.number_of record { cells = c.cells.items; shut = c.shut } };
}

impl<T: Numbered> Core<T> {
    /// A board of as many empty cells as there are blanks.
    pub fn new(alloc: Global, blanks: Vec<T>) -> Result<Core<T>, AllocError>
        requires some { 0 < vec_len blanks }
        requires limit { vec_len blanks ≤ 64 }
        ensures { IfOk result (λ board. board ≡ fresh blanks.items) }
    {
        let cells = emptied(alloc, blanks)?;
        Ok(Core { cells, shut: false })
    }

    /// The number of cells.
    pub fn ahead(&self) -> u8
        ensures cells { result ≡ length self.now.cells }
        ensures sound { IsSound T.number_of self.now }
    {
        self.cells.len() as u8
    }

    /// How many cells aren't empty.
    pub fn held(&self) -> usize
        ensures count { result ≡ held_of self.now }
        ensures limit { result ≤ length self.now.cells }
    {
        count_held(&self.cells)
    }

    /// The state of a cell.
    pub fn state(&self, cell: usize) -> Cell
        requires { cell < length self.now.cells }
        ensures { Some result ≡ option_map (state_of T.number_of) (slice_get self.now.cells cell) }
    {
        self.cells[cell].state()
    }

    /// Puts an item on offer, and hands out the spent one that stood in its cell.
    pub fn offer(&mut self, item: T) -> Offer<T>
        ensures exact { (result, self.new) ≡ offer_outcome T.number_of self.old item }
        ensures step { Step T.number_of self.old (event.Offer item) (answer.Offer result) self.new }
    {
        let at = place_of(item.number(), self.cells.len());
        match &self.cells[at] {
            Content::Empty(_) if !self.shut => {
                Offer::Placed(self.cells[at].exchange(Content::Offered(item)))
            }
            _ => Offer::Busy(item),
        }
    }

    /// Hands out the item of the least number on offer.
    pub fn claim(&mut self) -> Claim<T>
        ensures exact { (result, self.new) ≡ claim_outcome T.number_of self.old }
        ensures step { Step T.number_of self.old event.Claim (answer.Claim result) self.new }
        ensures least { (x : T) → result ≡ Job x → IsLeastOffered T.number_of self.old x }
    {
        if self.shut {
            return Claim::Shut;
        }
        let Some((at, number)) = least_offered(&self.cells) else {
            return Claim::Nothing;
        };
        Claim::Job(self.cells[at].exchange(Content::Claimed(number)))
    }

    /// Takes back the item of a claimed granule.
    pub fn deposit(&mut self, item: T) -> Deposit<T>
        ensures exact { (result, self.new) ≡ deposit_outcome T.number_of self.old item }
        ensures step { Step T.number_of self.old (event.Deposit item) (answer.Deposit result) self.new }
    {
        let number = item.number();
        let at = place_of(number, self.cells.len());
        match &self.cells[at] {
            Content::Claimed(granule) if *granule == number => {
                self.cells[at] = Content::Ready(item);
                Deposit::Kept
            }
            Content::Withdrawn(granule) if *granule == number => {
                self.cells[at] = Content::Empty(item);
                Deposit::Late
            }
            _ => Deposit::Stray(item),
        }
    }

    /// Takes a granule off the board. The spare stays where an item goes out, and comes back else;
    /// its own number is never looked at.
    pub fn take(&mut self, number: u64, spare: T) -> Take<T>
        ensures exact { (result, self.new) ≡ take_outcome T.number_of self.old number spare }
        ensures step { Step T.number_of self.old (event.Take number spare) (answer.Take result) self.new }
    {
        let at = place_of(number, self.cells.len());
        match &self.cells[at] {
            Content::Ready(item) if item.number() == number => {
                Take::Got(self.cells[at].exchange(Content::Empty(spare)))
            }
            Content::Offered(item) if item.number() == number => {
                Take::Revoked(self.cells[at].exchange(Content::Empty(spare)))
            }
            Content::Claimed(granule) if *granule == number => {
                self.cells[at] = Content::Withdrawn(number);
                Take::InWork(spare)
            }
            _ => Take::NotOffered(spare),
        }
    }

    /// Shuts the board for good: from then on nothing is put on offer or claimed.
    pub fn shut(&mut self)
        ensures { self.new ≡ record { cells = self.old.cells; shut = true } }
    {
        self.shut = true;
    }

    // One event is one call.
    fn serve(&mut self, event: Event<T>) -> Answer<T>
        ensures answer { result ≡ reply T.number_of self.old event }
        ensures after { self.new ≡ after_event T.number_of self.old event }
        ensures step { Step T.number_of self.old event result self.new }
    {
        match event {
            Event::Offer(item) => Answer::Offer(self.offer(item)),
            Event::Claim => Answer::Claim(self.claim()),
            Event::Deposit(item) => Answer::Deposit(self.deposit(item)),
            Event::Take(number, spare) => Answer::Take(self.take(number, spare)),
            Event::Shut => {
                self.shut();
                Answer::Shut
            }
        }
    }

    /// Serves events in order, each as the one call that it names.
    pub fn run(&mut self, events: Vec<Event<T>>, answers: &mut Vec<Answer<T>>)
        requires empty { answers.old.items ≡ [] }
        requires room { vec_len events ≤ vec_capacity answers.old }
        ensures replies { answers.new.items ≡ replies T.number_of self.old events.items }
        ensures after { self.new ≡ state_after T.number_of self.old events.items }
        ensures run { Run T.number_of self.old events.items answers.new.items self.new }
    {
        for event in events {
            answers.push_reserved(self.serve(event));
        }
    }
}

// The cell of a granule.
fn place_of(number: u64, cells: usize) -> usize
    requires { (0 < cells) × (cells ≤ 64) }
    ensures { result ≡ number % cells }
{
    (number % cells as u64) as usize
}

fn emptied<T: Numbered>(alloc: Global, blanks: Vec<T>) -> Result<Vec<Content<T>>, AllocError>
    ensures { IfOk result (λ cells. cells.items ≡ map Empty blanks.items) }
{
    blanks
        .into_iter()
        .map(|blank| Content::Empty(blank))
        .collect(alloc)
}

fn count_held<T: Numbered>(cells: &[Content<T>]) -> usize
    ensures { result ≡ count_by is_held cells.now }
{
    cells.iter().filter(|content| content.is_held()).count()
}
