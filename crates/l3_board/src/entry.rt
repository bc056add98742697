ghost use Rattle.std.specs.Prelude.{◌≡◌};
ghost use Rattle.l3_board.specs.Desk.{offer_entry, take_entry, taken_entry, is_offered};

use crate::event::{Offer, Take};

/// What a desk was last told of a cell, with the number of the granule that it was about.
#[derive(Clone, Copy, Debug, PartialEq, Eq)]
pub enum Entry {
    /// Nothing is on offer there for this desk.
    Free,
    /// The granule was put on offer.
    Told(u64),
    /// The cell was busy. The turn changes each time that the same granule is offered again.
    Busied(u64, bool),
    /// The granule was taken while a worker had its item.
    Left(u64),
    /// The granule was taken where the board had nothing of it.
    Gone(u64),
}

impl Entry {
    // The entry after this answer to an offer of a granule.
    pub(crate) fn after_offer<T>(self, number: u64, answer: &Offer<T>) -> Entry
        ensures { result ≡ offer_entry number answer.now self }
    {
        match answer {
            Offer::Placed(_) => Entry::Told(number),
            Offer::Busy(_) => match self {
                Entry::Told(_) => self,
                Entry::Busied(other, turn) if other == number => Entry::Busied(number, !turn),
                _ => Entry::Busied(number, false),
            },
        }
    }

    // The entry after this answer to a take of a granule.
    pub(crate) fn after_take<T>(self, number: u64, answer: &Take<T>) -> Entry
        ensures { result ≡ take_entry number answer.now self }
    {
        match self {
            Entry::Told(other) if other != number => self,
            _ => taken(number, answer),
        }
    }

    // Whether the entry is of an offer of the granule.
    pub(crate) fn is_offered(self, number: u64) -> bool
        ensures { result ≡ is_offered number self }
    {
        match self {
            Entry::Told(other) | Entry::Busied(other, _) => other == number,
            _ => false,
        }
    }
}

fn taken<T>(number: u64, answer: &Take<T>) -> Entry
    ensures { result ≡ taken_entry number answer.now }
{
    match answer {
        Take::Got(_) | Take::Revoked(_) => Entry::Free,
        Take::InWork(_) => Entry::Left(number),
        Take::NotOffered(_) => Entry::Gone(number),
    }
}
