ghost use Rattle.std.specs.Prelude.{◌≡◌, ◌∷◌, [], length};
ghost use Rattle.l3_board.specs.Machine.{state_of, is_held};
ghost use Rattle.l3_board.specs.Items.{items_of};

use crate::item::Numbered;
use std::mem;

/// The state of a cell, with the number of the granule that it is about.
#[derive(Clone, Copy, Debug, PartialEq, Eq)]
pub enum Cell {
    Empty,
    /// The granule waits for a claim.
    Offered(u64),
    /// A claimant has the granule's item.
    Claimed(u64),
    /// The granule's item was handed in and waits to be taken.
    Ready(u64),
    /// The granule was taken while a claimant had its item, which is late from then on.
    Withdrawn(u64),
}

/// What a cell holds: its state, and its item unless a claimant has it. The item of an empty cell
/// is a spent one.
/// Contracts see a board as the list of these and whether it is shut.
#[derive(Drop)]
pub enum Content<T> {
    Empty(T),
    Offered(T),
    Claimed(u64),
    Ready(T),
    Withdrawn(u64),
}

impl<T: Numbered> Content<T> {
    /// The state without the item.
    pub fn state(&self) -> Cell
        ensures { result ≡ state_of T.number_of self.now }
    {
        match self {
            Content::Empty(_) => Cell::Empty,
            Content::Offered(item) => Cell::Offered(item.number()),
            Content::Claimed(number) => Cell::Claimed(*number),
            Content::Ready(item) => Cell::Ready(item.number()),
            Content::Withdrawn(number) => Cell::Withdrawn(*number),
        }
    }

    /// Leaves another content, and gives the item that was there.
    pub fn exchange(&mut self, left: Content<T>) -> T
        requires { length (items_of self.old) ≡ 1 }
        ensures item { items_of self.old ≡ result ∷ [] }
        ensures left { self.new ≡ left }
    {
        match mem::replace(self, left) {
            Content::Empty(item) | Content::Offered(item) | Content::Ready(item) => item,
            Content::Claimed(_) | Content::Withdrawn(_) => unreachable!(),
        }
    }

    /// Whether the cell is about a granule.
    pub fn is_held(&self) -> bool
        ensures { result ≡ is_held self.now }
    {
        !matches!(self, Content::Empty(_))
    }
}
