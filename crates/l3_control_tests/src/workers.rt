//! Workers at the board under a lock.

ghost use Rattle.std.specs.Prelude.{◌≡◌, ◌<◌, ◌≤◌, All, IfOk, None, true, vec_len};
ghost use Rattle.std.specs.Thread.{IsSync};
ghost use Rattle.l3_board.specs.Desk.{fresh_desk};

use crate::pieces::{blank, load};
use l3_analysis::{Gate, OpenGate, PieceBox, Stage, analyse, work, work_all};
use l3_base::{GranuleNo, Steps};
use l3_board::{Board, Claim, Deposit, LockBoard, LockDesk, LockSeat, Offer, Take};
use l3_transform::Kept;
use std::alloc::{AllocError, Global};
use std::marker::Brand;
use std::sync::Wait;
use std::sync::atomic::{AtomicU64, Ordering};
use std::sync::ledger::{Blank, Ledger};
use std::thread::{Threads, join_mut, yield_now};

// Blanks for four cells.
fn blanks(alloc: Global) -> Result<Vec<PieceBox>, AllocError>
    ensures { IfOk result (λ blanks. vec_len blanks ≡ 4) }
{
    let mut blanks = Vec::new(alloc);
    for _ in 0..4u8 {
        blanks.push(blank(alloc)?)?;
    }
    Ok(blanks)
}

// A board of four cells, its desk and its seats.
fn board<'a, R: Wait>(
    rt: &'a R,
    alloc: Global,
    workers: u8,
) -> Result<(LockBoard<'a, PieceBox, R>, LockDesk, Vec<LockSeat>), AllocError>
    requires workers { (0 < workers) × (workers ≤ 16) }
    ensures cells { IfOk result (λ made. made.0 ≡ 4) }
    ensures desk { IfOk result (λ made. made.1 ≡ fresh_desk 4) }
    ensures seats { IfOk result (λ made. All (λ seat. seat ≡ None) made.2.items) }
{
    LockBoard::new(rt, alloc, workers, blanks(alloc)?)
}

// The piece with a granule whose samples are zeros.
fn loaded(mut piece: PieceBox, number: GranuleNo) -> PieceBox
    ensures number { result.number ≡ number }
    ensures bound { result.number ≤ 8589934592 }
{
    let _bound = number.get();
    load(piece.piece_mut(), number);
    piece
}

// Offers a granule, and gives the piece that comes back, and whether it is a spent one.
fn offered<B: Board<Item = PieceBox>>(
    board: &B,
    desk: &mut B::Desk,
    number: GranuleNo,
    piece: PieceBox,
) -> (PieceBox, bool)
    requires { B.has_desk board.now desk.old }
    ensures { B.has_desk board.now desk.new }
{
    match board.offer(desk, loaded(piece, number)) {
        Offer::Placed(spent) => (spent, true),
        Offer::Busy(back) => (back, false),
    }
}

// Takes a granule, and tells whether it came presumed.
fn taken<B: Board<Item = PieceBox>>(
    board: &B,
    desk: &mut B::Desk,
    number: GranuleNo,
    spare: PieceBox,
) -> (PieceBox, bool)
    requires { B.has_desk board.now desk.old }
    ensures { B.has_desk board.now desk.new }
{
    match board.take(desk, number, spare) {
        Take::Got(piece) => {
            let presumed = piece.piece().stage() == Stage::Presumed;
            (piece, presumed)
        }
        Take::Revoked(back) | Take::InWork(back) | Take::NotOffered(back) => (back, false),
    }
}

// Makes of a piece what a worker makes of it.
fn make<L: Ledger + Send>(blank: Blank, job: &mut PieceBox)
    requires name { blank.name ≡ L.name }
    requires parts { blank.parts ≡ L.parts }
    requires some { 0 < blank.parts }
    ensures { job.new.number ≡ job.old.number }
{
    let mut steps: Steps<L> = Steps::start(blank);
    let mut left = Kept::zero();
    let mut right = Kept::zero();
    analyse(job.piece_mut(), &mut left, &mut right, &mut steps);
}

// Claims a granule, makes what a worker makes of it, and hands it in: whether it came loaded and
// was kept.
fn makes_a_job<B: Board<Item = PieceBox>>(board: &B, seat: &mut B::Seat) -> bool
    requires made { B.has_seat board.now seat.old }
    requires free { B.claimed seat.old ≡ None }
    ensures made { B.has_seat board.now seat.new }
    ensures free { result ≡ true → B.claimed seat.new ≡ None }
{
    let Claim::Job(mut job) = board.claim(seat) else {
        return false;
    };
    let stage = job.piece().stage();
    make::<Brand>(Blank::new(1), &mut job);
    let kept = matches!(board.deposit(seat, job), Deposit::Kept);
    kept && stage == Stage::Loaded
}

// The same at a seat of a board that is shut before the next claim.
fn works_at_a_seat<B: Board<Item = PieceBox>, R: Wait>(
    rt: &R,
    board: &B,
    desk: &mut B::Desk,
    seats: Vec<B::Seat>,
) -> bool
    requires desk { B.has_desk board.now desk.old }
    requires seats { All (λ seat. B.has_seat board.now seat × (B.claimed seat ≡ None)) seats.items }
    ensures desk { B.has_desk board.now desk.new }
{
    let mut seats = seats;
    let Some(mut seat) = seats.pop() else {
        return false;
    };
    if !makes_a_job(board, &mut seat) {
        return false;
    }
    board.shut(desk);
    work(rt, board, &OpenGate, &mut seat);
    true
}

// Offers a granule, has it made, and takes it: whether it came presumed.
fn comes_presumed<B: Board<Item = PieceBox> + Drop, R: Wait>(
    rt: &R,
    made: (B, B::Desk, Vec<B::Seat>),
    piece: PieceBox,
) -> bool
    requires desk { B.has_desk made.0 made.1 }
    requires seats { All (λ seat. B.has_seat made.0 seat × (B.claimed seat ≡ None)) made.2.items }
{
    let Some(first) = GranuleNo::new(0) else {
        return false;
    };
    let (board, mut desk, seats) = made;
    let (spare, placed) = offered(&board, &mut desk, first, piece);
    let made = placed && works_at_a_seat(rt, &board, &mut desk, seats);
    made && taken(&board, &mut desk, first, spare).1
}

// The same on a board under a lock.
fn a_job_comes_presumed<R: Wait>(rt: &R, alloc: Global) -> Result<bool, AllocError> {
    let piece = blank(alloc)?;
    Ok(comes_presumed(rt, board(rt, alloc, 1)?, piece))
}

#[test]
fn a_job_comes_back_presumed(rt: HostRuntime) {
    assert!(rt; a_job_comes_presumed(&rt, rt.alloc()) == Ok(true));
}

// Counts the jobs.
#[derive(Drop)]
struct Counting {
    jobs: AtomicU64,
}

impl Gate for Counting {
    fn between(&self, _number: GranuleNo) {
        self.jobs.fetch_add(1, Ordering::SeqCst);
    }

    fn before_take(&self, _number: GranuleNo) {}
}

// Returns once there were so many jobs.
fn await_jobs(gate: &Counting, count: u64) {
    for _ in 0..u64::MAX {
        if gate.jobs.load(Ordering::SeqCst) >= count {
            return;
        }
        yield_now();
    }
}

// Offers granules 0 to 3, and gives the piece that is left.
fn offer_four<B: Board<Item = PieceBox>>(board: &B, desk: &mut B::Desk, piece: PieceBox) -> PieceBox
    requires { B.has_desk board.now desk.old }
    ensures { B.has_desk board.now desk.new }
{
    let mut spare = piece;
    for n in 0..4 {
        if let Some(number) = GranuleNo::new(n) {
            spare = offered(board, desk, number, spare).0;
        }
    }
    spare
}

// Takes granules 0 to 3, and counts those that came presumed.
fn take_four<B: Board<Item = PieceBox>>(board: &B, desk: &mut B::Desk, piece: PieceBox) -> u64
    requires { B.has_desk board.now desk.old }
    ensures { B.has_desk board.now desk.new }
{
    let mut spare = piece;
    let mut count: u64 = 0;
    for n in 0..4 {
        if let Some(number) = GranuleNo::new(n) {
            let (left, presumed) = taken(board, desk, number, spare);
            spare = left;
            count = count.saturating_add(u64::from(presumed));
        }
    }
    count
}

// Offers four granules, takes them once all were claimed, and shuts the board. Counts those that
// came presumed.
fn serve_four<B: Board<Item = PieceBox>>(
    board: &B,
    desk: &mut B::Desk,
    gate: &Counting,
    piece: PieceBox,
) -> u64
    requires { B.has_desk board.now desk.old }
    ensures { B.has_desk board.now desk.new }
{
    let spare = offer_four(board, desk, piece);
    await_jobs(gate, 4);
    let count = take_four(board, desk, spare);
    board.shut(desk);
    count
}

// The same beside a worker for each seat.
fn serve_beside<B: Board<Item = PieceBox> + Sync, R: Threads + Wait + Sync>(
    rt: &R,
    board: &B,
    desk: &mut B::Desk,
    seats: Vec<B::Seat>,
    gate: &Counting,
    piece: PieceBox,
) -> u64
    requires desk { B.has_desk board.now desk.old }
    requires seats { All (λ seat. B.has_seat board.now seat × (B.claimed seat ≡ None)) seats.items }
{
    let mut seats = seats;
    let row = seats.as_mut_slice();
    let mut piece = Some(piece);
    let (_, count) = join_mut(
        rt,
        &mut ||
            requires { IsSync R.row × IsSync B.row
                × All (λ seat. B.has_seat board.now seat × (B.claimed seat ≡ None)) row.now }
        { work_all(rt, board, gate, row) },
        &mut || -> u64
            requires { B.has_desk board.now desk.now }
        {
            match piece.take() {
                Some(piece) => serve_four(board, desk, gate, piece),
                None => 0,
            }
        },
    );
    count
}

// The same of a board with its desk and its seats.
fn serve_all<B: Board<Item = PieceBox> + Sync + Drop, R: Threads + Wait + Sync>(
    rt: &R,
    made: (B, B::Desk, Vec<B::Seat>),
    gate: &Counting,
    piece: PieceBox,
) -> u64
    requires desk { B.has_desk made.0 made.1 }
    requires seats { All (λ seat. B.has_seat made.0 seat × (B.claimed seat ≡ None)) made.2.items }
{
    let (board, mut desk, seats) = made;
    serve_beside(rt, &board, &mut desk, seats, gate, piece)
}

// Whether two at least of four granules come presumed from two workers, and how many jobs these
// have had.
fn presumed_ahead<R: Threads + Wait + Sync>(
    rt: &R,
    alloc: Global,
) -> Result<(bool, u64), AllocError> {
    let piece = blank(alloc)?;
    let made = board(rt, alloc, 2)?;
    let gate = Counting {
        jobs: AtomicU64::new(0),
    };
    let count = serve_all(rt, made, &gate, piece);
    Ok((count >= 2, gate.jobs.load(Ordering::SeqCst)))
}

// A worker hands in what it has before its next claim. So once two workers, or one alone, have had
// four jobs, two at least are handed in, and none of these is other than presumed.
#[test]
fn two_workers_presume_ahead(rt: HostRuntime) {
    assert!(rt; presumed_ahead(&rt, rt.alloc()) == Ok((true, 4)));
}
