//! The board without locks.

ghost use Rattle.std.specs.Prelude.{◌≡◌, ◌<◌, ◌≤◌, All, IfOk, None};
ghost use Rattle.l3_lanes.specs.Calls.{IsDeskOf, IsSeatOf, claimed};

use crate::calls::check;
use crate::item::{Item, blanks};
use crate::rows::{FOUR_CELLS, ONE_CELL, Row};
use crate::sharing::{Plan, Sharing, Tally, share_all};
use l3_lanes::{LaneBoard, LaneDesk, LaneSeat};
use std::alloc::{AllocError, Global};
use std::process::Abort;
use std::sync::Wait;
use std::thread::Threads;

// A board of so many cells, its desk and its seats.
fn board(
    alloc: Global,
    workers: u8,
    cells: u8,
) -> Result<(LaneBoard<Item>, LaneDesk<Item>, Vec<LaneSeat<Item>>), AllocError>
    requires workers { (0 < workers) × (workers ≤ 16) }
    requires cells { (0 < cells) × (cells ≤ 64) }
    ensures desk { IfOk result (λ made. IsDeskOf made.0 made.1) }
    ensures seats { IfOk result (λ made. All (λ seat. IsSeatOf made.0 seat × (claimed seat ≡ None)) made.2.items) }
{
    LaneBoard::new(alloc, workers, blanks(alloc, cells)?)
}

// Checks the calls of these rows on a board of so many cells.
fn check_rows<R: Abort + Wait>(
    rt: &R,
    alloc: Global,
    cells: u8,
    rows: &[Row],
) -> Result<(), AllocError>
    requires { (0 < cells) × (cells ≤ 64) }
{
    check(rt, board(alloc, 1, cells)?, cells, rows);
    Ok(())
}

#[test]
fn board_rows(rt: HostRuntime) -> Result<(), AllocError> {
    check_rows(&rt, rt.alloc(), 4, &FOUR_CELLS)
}

#[test]
fn board_of_one_cell(rt: HostRuntime) -> Result<(), AllocError> {
    check_rows(&rt, rt.alloc(), 1, &ONE_CELL)
}

// Whether four at least are placed, all that are placed are found, and the sum is right.
//
// Granule n becomes 7 n + 3, so all from 0 to 99 come to 7 * 4950 + 300, on one thread as on any
// number.
fn is_right(tally: &Tally) -> bool {
    (tally.placed >= 4, tally.found, tally.sum) == (true, tally.placed, 34950)
}

// Whether a desk that offers and takes granules 0 to 99 beside so many workers has the right tally at
// the end.
fn shares_all<R: Threads + Wait + Sync>(
    rt: &R,
    alloc: Global,
    workers: u8,
) -> Result<bool, AllocError>
    requires { (0 < workers) × (workers ≤ 16) }
{
    let sharing = Sharing::new(Plan::ThreeAhead, 100);
    Ok(is_right(&share_all(rt, board(alloc, workers, 4)?, &sharing)))
}

#[test]
fn workers_beside_the_desk(rt: HostRuntime) {
    assert!(rt; shares_all(&rt, rt.alloc(), 1) == Ok(true));
    assert!(rt; shares_all(&rt, rt.alloc(), 3) == Ok(true));
}
