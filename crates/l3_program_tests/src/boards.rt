//! Boards under a lock, for the tests over boards.

ghost use Rattle.std.specs.Prelude.{◌≡◌, ◌<◌, ◌≤◌, All, IfSome, None, vec_len};
ghost use Rattle.l3_board.specs.Desk.{fresh_desk};

use l3_analysis::PieceBox;
use l3_base::Settings;
use l3_board::{LockBoard, LockDesk, LockSeat};
use std::alloc::Global;
use std::sync::Wait;

// So many pieces, blank.
fn blanks(alloc: Global, settings: Settings, count: u8) -> Option<Vec<PieceBox>>
    ensures { IfSome result (λ blanks. vec_len blanks ≡ count) }
{
    let mut blanks = Vec::new(alloc);
    for _ in 0..count {
        let Ok(blank) = PieceBox::new(alloc, settings) else {
            return None;
        };
        if blanks.push(blank).is_err() {
            return None;
        }
    }
    Some(blanks)
}

/// A board under a lock with so many cells, its desk, and a seat for each of so many workers.
pub fn lock_board<R: Wait>(
    rt: &R,
    alloc: Global,
    settings: Settings,
    workers: u8,
    cells: u8,
) -> Option<(LockBoard<'_, PieceBox, R>, LockDesk, Vec<LockSeat>)>
    requires workers { (0 < workers) × (workers ≤ 16) }
    requires cells { (0 < cells) × (cells ≤ 64) }
    ensures cells { IfSome result (λ made. made.0 ≡ cells) }
    ensures desk { IfSome result (λ made. made.1 ≡ fresh_desk cells) }
    ensures seats { IfSome result (λ made. All (λ seat. seat ≡ None) made.2.items) }
{
    match blanks(alloc, settings, cells) {
        Some(blanks) => LockBoard::new(rt, alloc, workers, blanks).ok(),
        None => None,
    }
}
