// The board, its desk and its seats.
ghost use Rattle.std.specs.Prelude.{◌≡◌, ◌+◌, ◌<◌, ◌≤◌};

use crate::plays::{Lanes, Token};
use l3_board::{DeskRecord, Numbered};

/// A board without locks, of 1 to 64 cells, for one desk and 1 to 16 workers' seats.
///
/// Granule i stands in cell `i mod L` alone, L being the number of cells. A cell has one word,
/// which tells its state, and one slot for an item; an empty cell keeps a spent item. No call but
/// `claim_wait` waits, and only `new` takes memory.
///
/// The calls that change the board make one history of moves, which is a run of the board machine
/// of `l3_board`.
#[derive(Drop)]
pub struct LaneBoard<T: Numbered> {
    pub(crate) lanes: Lanes<T>,
    pub(crate) cells: u8,
    ghost some: { 0 < cells },
    ghost limit: { cells ≤ 64 },
    ghost slots: { lanes.shared.table_id.slots ≡ cells },
    ghost words: { lanes.shared.table_id.words ≡ cells + 2 },
}

/// The token of the one who offers granules and takes them.
#[derive(Drop)]
pub struct LaneDesk<T: Numbered> {
    pub(crate) token: Token<T>,
    // The granule of each cell that was offered and not taken.
    pub(crate) granules: Vec<Option<u64>>,
    pub(crate) shut: bool,
    // What it was told of each cell, and how far it was served.
    pub(crate) kept: DeskRecord,
}

/// The token of a worker.
#[derive(Drop)]
pub struct LaneSeat<T: Numbered> {
    pub(crate) token: Token<T>,
    // The cell and the number of the granule that was claimed and not handed in.
    pub(crate) claim: Option<(usize, u64)>,
}

impl<T: Numbered> LaneDesk<T> {
    /// What the desk was told of each cell, and how far it was served.
    pub fn record(&self) -> &DeskRecord
        ensures { result.now ≡ self.now.kept }
    {
        &self.kept
    }
}
