ghost use Rattle.std.specs.Prelude.{◌≡◌, ◌<◌, All, None, length};

use crate::boxed::PieceBox;
use crate::gate::Gate;
use crate::job::analysed;
use l3_base::Steps;
use l3_board::{Board, Claim};
use l3_transform::Kept;
use std::marker::Brand;
use std::sync::Wait;
use std::sync::ledger::{Blank, Ledger};
use std::thread::{Threads, for_each_mut};

// Works at a seat, with a counter made of the blank.
fn work_counted<B: Board<Item = PieceBox>, T: Gate, R: Wait, L: Ledger + Send>(
    rt: &R,
    board: &B,
    gate: &T,
    seat: &mut B::Seat,
    blank: Blank,
)
    requires made { B.has_seat board.now seat.old }
    requires free { B.claimed seat.old ≡ None }
    requires name { blank.name ≡ L.name }
    requires parts { blank.parts ≡ L.parts }
    requires some { 0 < blank.parts }
    ensures made { B.has_seat board.now seat.new }
    ensures free { B.claimed seat.new ≡ None }
{
    let mut steps: Steps<L> = Steps::start(blank);
    let mut left = Kept::zero();
    let mut right = Kept::zero();
    for _ in rt.forever() {
        match board.claim_wait(rt, seat) {
            Claim::Job(job) => {
                let job = analysed(gate, job, &mut left, &mut right, &mut steps);
                board.deposit(seat, job);
            }
            Claim::Nothing => unreachable!(),
            Claim::Shut => return,
        }
    }
    unreachable!()
}

/// Works at a seat until the board is shut: claims a granule, lets the gate know, makes of it what
/// [`analyse`](crate::analyse) does, and hands it in.
///
/// At the end the seat has handed in what it claimed, if the call returns: it may wait for ever.
/// What was counted is read by nobody.
pub fn work<B: Board<Item = PieceBox>, T: Gate, R: Wait>(
    rt: &R,
    board: &B,
    gate: &T,
    seat: &mut B::Seat,
)
    requires made { B.has_seat board.now seat.old }
    requires free { B.claimed seat.old ≡ None }
    ensures made { B.has_seat board.now seat.new }
    ensures free { B.claimed seat.new ≡ None }
{
    work_counted::<B, T, R, Brand>(rt, board, gate, seat, Blank::new(1));
}

/// Works at all seats side by side, on a thread for each where threads can be had, until the board
/// is shut.
pub fn work_all<B: Board<Item = PieceBox> + Sync, T: Gate + Sync, R: Threads + Wait + Sync>(
    rt: &R,
    board: &B,
    gate: &T,
    seats: &mut [B::Seat],
)
    requires seats { All (λ seat. B.has_seat board.now seat × (B.claimed seat ≡ None)) seats.old }
    ensures seats { All (λ seat. B.has_seat board.now seat × (B.claimed seat ≡ None)) seats.new }
    ensures count { length seats.new ≡ length seats.old }
{
    if seats.is_empty() {
        return;
    }
    let count = seats.len();
    for_each_mut(
        rt,
        seats,
        count,
        &|_, seat|
            requires { B.has_seat board.now seat.old × (B.claimed seat.old ≡ None) }
            ensures { B.has_seat board.entry.now seat.new × (B.claimed seat.new ≡ None) }
        { work(rt, board, gate, seat) },
    );
}
