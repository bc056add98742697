//! The board under a lock.

ghost use Rattle.std.specs.Prelude.{◌≡◌, ◌<◌, ◌≤◌, All, IfOk, None};
ghost use Rattle.l3_board.specs.Desk.{fresh_desk};

use crate::calls::check;
use crate::item::{Item, blanks};
use crate::rows::{FOUR_CELLS, ONE_CELL, Row};
use l3_board::{LockBoard, LockDesk, LockSeat};
use std::alloc::{AllocError, Global};
use std::process::Abort;
use std::sync::Wait;

/// A board of so many cells, its desk and its seats.
pub fn board<'a, R: Wait>(
    rt: &'a R,
    alloc: Global,
    workers: u8,
    cells: u8,
) -> Result<(LockBoard<'a, Item, R>, LockDesk, Vec<LockSeat>), AllocError>
    requires workers { (0 < workers) × (workers ≤ 16) }
    requires cells { (0 < cells) × (cells ≤ 64) }
    ensures cells { IfOk result (λ made. made.0 ≡ cells) }
    ensures desk { IfOk result (λ made. made.1 ≡ fresh_desk cells) }
    ensures seats { IfOk result (λ made. All (λ seat. seat ≡ None) made.2.items) }
{
    LockBoard::new(rt, alloc, workers, blanks(alloc, cells)?)
}

// Checks the calls of these rows on a board of so many cells.
fn check_rows<R: Abort + Wait>(
    rt: &R,
    alloc: Global,
    cells: u8,
    rows: &[Row],
) -> Result<(), AllocError>
    requires { (0 < cells) × (cells ≤ 64) }
{
    check(rt, board(rt, alloc, 1, cells)?, cells, rows);
    Ok(())
}

#[test]
fn board_rows(rt: HostRuntime) -> Result<(), AllocError> {
    check_rows(&rt, rt.alloc(), 4, &FOUR_CELLS)
}

#[test]
fn board_of_one_cell(rt: HostRuntime) -> Result<(), AllocError> {
    check_rows(&rt, rt.alloc(), 1, &ONE_CELL)
}
