// What a seat knows of the board. These types serve the clauses alone: no value of them is made
// when the program runs.
use l3_board::{Answer, Event};
use std::collections::LinkedList;

/// What the desk knows of a cell.
pub enum Tell {
    /// The cell is empty, and its slot is at home.
    Free,
    /// The cell is empty, and the desk holds its slot, only within one call.
    Held,
    /// The granule was offered.
    Told(u64),
    /// The granule was offered, and the cell's last word that was read is that of a claimed
    /// granule.
    ToldClaimed(u64),
    /// The granule was offered, and the cell's last word that was read is that of a ready granule.
    ToldReady(u64),
    /// The granule was left to the worker that has it.
    Left(u64),
}

/// What the desk or a worker's seat knows.
pub struct View {
    /// It is the desk's.
    pub desk: bool,
    /// The desk has shut the board.
    pub shut: bool,
    /// What the desk knows of each cell.
    pub tells: LinkedList<Tell>,
    /// The cell and the number of the granule that the worker has claimed.
    pub claim: Option<(u64, u64)>,
    /// The worker has read that its claim is withdrawn.
    pub late: bool,
    /// The words noted at each cell and at the word for shut, the newest first. A place's count of
    /// readings is how many there are.
    pub notes: LinkedList<LinkedList<u64>>,
}

/// A move on the board: a call that changed it, with its answer. An item stands as the number of
/// its granule, and a spent one as any number.
pub struct Move {
    /// The number of the seat that made it.
    pub seat: u64,
    pub event: Event<u64>,
    pub answer: Answer<u64>,
}

/// What a seat knows of the moves on the board.
pub struct Past {
    /// The moves of all seats, in their order, up to the last of its own.
    pub seen: LinkedList<Move>,
    /// Its own moves, in their order.
    pub mine: LinkedList<Move>,
}

/// What a seat knows: its view, and the moves on the board.
pub struct Knowledge {
    pub view: View,
    pub past: Past,
}
