//! Workers, each on a thread of its own, beside the desk of any board.

ghost use Rattle.std.specs.Prelude.{◌≡◌, ◌≤◌, All, None, true};
ghost use Rattle.std.specs.Thread.{IsSync};

use crate::item::{Item, marked};
use l3_base::GranuleNo;
use l3_board::{Board, Claim, Offer, Take};
use std::sync::Wait;
use std::sync::atomic::{AtomicU64, Ordering};
use std::thread::{Threads, for_each_mut, join_mut, yield_now};

/// What a desk does, and how the workers go about theirs.
#[derive(Clone, Copy)]
pub enum Plan {
    /// The desk offers each granule once the one before was claimed and the workers wait again, and
    /// takes none. The workers hand in at once.
    OneByOne,
    /// The desk offers granules, up to three beyond the next, and takes them in order. The workers
    /// take a while.
    ThreeAhead,
}

/// How many granules are shared out and how, and what the workers have done: how many granules were
/// claimed, and how many workers are gone.
#[derive(Drop)]
pub struct Sharing {
    plan: Plan,
    granules: u32,
    claimed: AtomicU64,
    gone: AtomicU64,
}

impl Sharing {
    pub fn new(plan: Plan, granules: u32) -> Sharing {
        Sharing {
            plan,
            granules,
            claimed: AtomicU64::new(0),
            gone: AtomicU64::new(0),
        }
    }

    pub fn counts(&self) -> (u64, u64) {
        (
            self.claimed.load(Ordering::SeqCst),
            self.gone.load(Ordering::SeqCst),
        )
    }
}

/// What a desk has placed, what it has found on the board, and the sum of what became of all that
/// it took.
#[derive(Drop)]
pub struct Tally {
    pub placed: u64,
    pub found: u64,
    pub sum: u64,
}

impl Tally {
    fn add(&mut self, placed: u64, found: u64, mark: u64) {
        self.placed = self.placed.saturating_add(placed);
        self.found = self.found.saturating_add(found);
        self.sum = self.sum.saturating_add(mark);
    }
}

// Lets the others get on for a while.
fn pause() {
    for _ in 0..1000 {
        yield_now();
    }
}

// What becomes of a granule, whoever works on it. It takes a while, so that the others get on.
fn worked(number: u64) -> u64 {
    pause();
    number.saturating_mul(7).saturating_add(3)
}

// An item once a worker has worked on it by the plan.
fn done(plan: Plan, item: &Item) -> Item
    ensures { result.number ≡ item.now.number }
{
    let mark = match plan {
        Plan::OneByOne => item.mark,
        Plan::ThreeAhead => worked(item.number),
    };
    marked(item.number, mark)
}

// Claims a granule, counts it, works and hands in, unless the board is shut: whether it is not.
fn does_a_job<B: Board<Item = Item>, R: Wait>(
    rt: &R,
    board: &B,
    seat: &mut B::Seat,
    sharing: &Sharing,
) -> bool
    requires made { B.has_seat board.now seat.old }
    requires free { B.claimed seat.old ≡ None }
    ensures made { B.has_seat board.now seat.new }
    ensures free { result ≡ true → B.claimed seat.new ≡ None }
{
    let Claim::Job(item) = board.claim_wait(rt, seat) else {
        return false;
    };
    sharing.claimed.fetch_add(1, Ordering::SeqCst);
    board.deposit(seat, done(sharing.plan, &item));
    true
}

// A worker, which does jobs until the board is shut.
fn work<B: Board<Item = Item>, R: Wait>(rt: &R, board: &B, seat: &mut B::Seat, sharing: &Sharing)
    requires made { B.has_seat board.now seat.old }
    requires free { B.claimed seat.old ≡ None }
{
    for _ in rt.forever() {
        if !does_a_job(rt, board, seat, sharing) {
            break;
        }
    }
    sharing.gone.fetch_add(1, Ordering::SeqCst);
}

// A worker for each seat.
fn work_all<B: Board<Item = Item> + Sync, R: Threads + Wait + Sync>(
    rt: &R,
    board: &B,
    seats: &mut [B::Seat],
    sharing: &Sharing,
)
    requires { All (λ seat. B.has_seat board.now seat × (B.claimed seat ≡ None)) seats.old }
{
    if seats.is_empty() {
        return;
    }
    let count = seats.len();
    for_each_mut(
        rt,
        seats,
        count,
        &|_, seat|
            requires { B.has_seat board.now seat.old × (B.claimed seat.old ≡ None) }
        { work(rt, board, seat, sharing) },
    );
}

// Returns once so many granules were claimed.
fn await_claims(sharing: &Sharing, count: u64) {
    for _ in 0..u64::MAX {
        if sharing.claimed.load(Ordering::SeqCst) >= count {
            return;
        }
        yield_now();
    }
}

fn offer_one_by_one<B: Board<Item = Item>>(board: &B, desk: &mut B::Desk, sharing: &Sharing)
    requires made { B.has_desk board.now desk.old }
    ensures made { B.has_desk board.now desk.new }
{
    for number in 0..sharing.granules {
        let number = u64::from(number);
        pause();
        board.offer(desk, marked(number, 0));
        await_claims(sharing, number + 1);
    }
    pause();
}

// Offers a granule, which nobody has worked on: how many are placed.
fn offer_next<B: Board<Item = Item>>(board: &B, desk: &mut B::Desk, number: u64) -> u64
    requires made { B.has_desk board.now desk.old }
    requires limit { number ≤ 8589934592 }
    ensures made { B.has_desk board.now desk.new }
{
    match board.offer(desk, marked(number, 0)) {
        Offer::Placed(_) => 1,
        Offer::Busy(_) => 0,
    }
}

// Takes a granule, and works on it where no worker has done so: how many are found, and what it
// becomes.
fn take_next<B: Board<Item = Item>>(board: &B, desk: &mut B::Desk, number: GranuleNo) -> (u64, u64)
    requires made { B.has_desk board.now desk.old }
    ensures made { B.has_desk board.now desk.new }
{
    match board.take(desk, number, marked(0, 0)) {
        Take::Got(item) => (1, item.mark),
        Take::Revoked(_) | Take::InWork(_) => (1, worked(number.get())),
        Take::NotOffered(_) => (0, worked(number.get())),
    }
}

fn offer_three_ahead<B: Board<Item = Item>>(
    board: &B,
    desk: &mut B::Desk,
    sharing: &Sharing,
    tally: &mut Tally,
)
    requires made { B.has_desk board.now desk.old }
    ensures made { B.has_desk board.now desk.new }
{
    let granules = u64::from(sharing.granules);
    for number in 0..granules + 3 {
        if number < granules {
            tally.add(offer_next(board, desk, number), 0, 0);
        }
        if let Some(next) = number.checked_sub(3).and_then(GranuleNo::new) {
            let (found, mark) = take_next(board, desk, next);
            tally.add(0, found, mark);
        }
    }
}

// A desk: it goes by the plan, and then shuts the board.
fn serve<B: Board<Item = Item>>(board: &B, desk: &mut B::Desk, sharing: &Sharing) -> Tally
    requires { B.has_desk board.now desk.old }
{
    let mut tally = Tally {
        placed: 0,
        found: 0,
        sum: 0,
    };
    match sharing.plan {
        Plan::OneByOne => offer_one_by_one(board, desk, sharing),
        Plan::ThreeAhead => offer_three_ahead(board, desk, sharing, &mut tally),
    }
    board.shut(desk);
    tally
}

// The desk beside a worker for each seat, up to the last to end.
fn share<B: Board<Item = Item> + Sync, R: Threads + Wait + Sync>(
    rt: &R,
    board: &B,
    desk: &mut B::Desk,
    seats: Vec<B::Seat>,
    sharing: &Sharing,
) -> Tally
    requires desk { B.has_desk board.now desk.old }
    requires seats { All (λ seat. B.has_seat board.now seat × (B.claimed seat ≡ None)) seats.items }
{
    let mut seats = seats;
    let row = seats.as_mut_slice();
    let (_, tally) = join_mut(
        rt,
        &mut ||
            requires { IsSync R.row × IsSync B.row
                × All (λ seat. B.has_seat board.now seat × (B.claimed seat ≡ None)) row.now }
        { work_all(rt, board, row, sharing) },
        &mut || -> Tally
            requires { B.has_desk board.now desk.now }
        { serve(board, desk, sharing) },
    );
    tally
}

/// The desk of a board beside a worker for each of its seats, up to the last to end.
pub fn share_all<B: Board<Item = Item> + Sync + Drop, R: Threads + Wait + Sync>(
    rt: &R,
    made: (B, B::Desk, Vec<B::Seat>),
    sharing: &Sharing,
) -> Tally
    requires desk { B.has_desk made.0 made.1 }
    requires seats { All (λ seat. B.has_seat made.0 seat × (B.claimed seat ≡ None)) made.2.items }
{
    let (board, mut desk, seats) = made;
    share(rt, &board, &mut desk, seats, sharing)
}
