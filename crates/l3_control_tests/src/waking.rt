//! Workers that wait at a board are woken: by an offer, before anything is shut, and by the shut.

ghost use Rattle.std.specs.Prelude.{◌<◌, ◌≤◌};

use crate::board::board;
use crate::sharing::{Plan, Sharing, share_all};
use std::alloc::{AllocError, Global};
use std::sync::Wait;
use std::thread::Threads;

// How many granules were claimed and how many workers are gone, where a desk offers so many one by
// one, and shuts the board.
fn counts<R: Threads + Wait + Sync>(
    rt: &R,
    alloc: Global,
    workers: u8,
    granules: u32,
) -> Result<(u64, u64), AllocError>
    requires { (0 < workers) × (workers ≤ 16) }
{
    let sharing = Sharing::new(Plan::OneByOne, granules);
    share_all(rt, board(rt, alloc, workers, 4)?, &sharing);
    Ok(sharing.counts())
}

// The four cells take an offer each, and no other call of the desk rings before the last is
// claimed: where an offer rings no bell the desk waits for ever, and the time limit ends the test.
#[test]
fn an_offer_wakes_a_worker_that_waits(rt: HostRuntime) {
    assert!(rt; counts(&rt, rt.alloc(), 1, 4) == Ok((4, 1)));
    assert!(rt; counts(&rt, rt.alloc(), 3, 4) == Ok((4, 3)));
}

// Where the shut wakes one worker alone, the others wait for ever.
#[test]
fn the_shut_wakes_every_worker(rt: HostRuntime) {
    assert!(rt; counts(&rt, rt.alloc(), 3, 0) == Ok((0, 3)));
}
