//! Calls of any board in turn, by its desk and by one seat.

ghost use Rattle.std.specs.Prelude.{◌≡◌, All, None};

use crate::answers::{Shown, of_claim, of_deposit, of_offer, of_take};
use crate::item::{Item, marked};
use crate::rows::{Call, Row};
use l3_base::GranuleNo;
use l3_board::{Board, Claim, DeskRecord, Entry, LockDesk};
use l3_lanes::LaneDesk;
use std::process::Abort;
use std::sync::Wait;

/// A desk that shows what it keeps.
pub trait Keeps: Send + Drop {
    fn kept(&self) -> &DeskRecord;
}

impl Keeps for LockDesk {
    fn kept(&self) -> &DeskRecord {
        self.record()
    }
}

impl Keeps for LaneDesk<Item> {
    fn kept(&self) -> &DeskRecord {
        self.record()
    }
}

// The entry of cell 0, the number served and the work got.
fn entry<D: Keeps>(desk: &D) -> (Entry, u64, u64) {
    let record = desk.kept();
    (record.entry(0), record.served(), record.got())
}

fn offered<B: Board<Item = Item>>(board: &B, desk: &mut B::Desk, number: u32, mark: u64) -> Shown
    requires { B.has_desk board.now desk.old }
    ensures { B.has_desk board.now desk.new }
{
    of_offer(&board.offer(desk, marked(u64::from(number), mark)))
}

fn taken<B: Board<Item = Item>>(board: &B, desk: &mut B::Desk, number: u32, mark: u64) -> Shown
    requires { B.has_desk board.now desk.old }
    ensures { B.has_desk board.now desk.new }
{
    match GranuleNo::new(u64::from(number)) {
        Some(number) => of_take(&board.take(desk, number, marked(0, mark))),
        None => ("no number", 0, 0),
    }
}

// Claims, where the seat has claimed nothing, and notes which granule it has then.
fn claimed<B: Board<Item = Item>, R: Wait>(
    rt: &R,
    board: &B,
    seat: &mut B::Seat,
    job: &mut Option<u64>,
    waits: bool,
) -> Shown
    requires seat { B.has_seat board.now seat.old }
    requires job { B.claimed seat.old ≡ job.old }
    ensures seat { B.has_seat board.now seat.new }
    ensures job { B.claimed seat.new ≡ job.new }
{
    if job.is_some() {
        return ("at work", 0, 0);
    }
    let answer = if waits {
        board.claim_wait(rt, seat)
    } else {
        board.claim(seat)
    };
    if let Claim::Job(item) = &answer {
        *job = Some(item.number);
    }
    of_claim(&answer)
}

// Hands in an item, where it is of the granule that the seat has claimed.
fn handed_in<B: Board<Item = Item>>(
    board: &B,
    seat: &mut B::Seat,
    job: &mut Option<u64>,
    item: Item,
) -> Shown
    requires seat { B.has_seat board.now seat.old }
    requires job { B.claimed seat.old ≡ job.old }
    ensures seat { B.has_seat board.now seat.new }
    ensures job { B.claimed seat.new ≡ job.new }
{
    match *job {
        Some(number) if number == item.number => {
            *job = None;
            of_deposit(&board.deposit(seat, item))
        }
        _ => ("not claimed", 0, 0),
    }
}

// Makes one call.
fn shown<B: Board<Item = Item>, R: Wait>(
    rt: &R,
    board: &B,
    desk: &mut B::Desk,
    seat: &mut B::Seat,
    job: &mut Option<u64>,
    call: Call,
) -> Shown
    requires desk { B.has_desk board.now desk.old }
    requires seat { B.has_seat board.now seat.old }
    requires job { B.claimed seat.old ≡ job.old }
    ensures desk { B.has_desk board.now desk.new }
    ensures seat { B.has_seat board.now seat.new }
    ensures job { B.claimed seat.new ≡ job.new }
{
    match call {
        Call::Offer(number, mark) => offered(board, desk, number, mark),
        Call::Claim => claimed(rt, board, seat, job, false),
        Call::ClaimWait => claimed(rt, board, seat, job, true),
        Call::Deposit(number, mark) => {
            handed_in(board, seat, job, marked(u64::from(number), mark))
        }
        Call::Take(number, mark) => taken(board, desk, number, mark),
        Call::Shut => {
            board.shut(desk);
            ("shut", 0, 0)
        }
    }
}

/// Asserts this of the row of a number, which a failure names.
pub fn check_that<R: Abort>(rt: &R, right: bool, number: usize) {
    assert!(rt; right, "number {number}");
}

// Makes the call of a row, and asserts what it shows and what the desk keeps then.
fn check_call<D: Keeps, B: Board<Item = Item, Desk = D>, R: Abort + Wait>(
    rt: &R,
    board: &B,
    desk: &mut D,
    seat: &mut B::Seat,
    job: &mut Option<u64>,
    at: usize,
    row: &Row,
)
    requires desk { B.has_desk board.now desk.old }
    requires seat { B.has_seat board.now seat.old }
    requires job { B.claimed seat.old ≡ job.old }
    ensures desk { B.has_desk board.now desk.new }
    ensures seat { B.has_seat board.now seat.new }
    ensures job { B.claimed seat.new ≡ job.new }
{
    let shown = shown(rt, board, desk, seat, job, row.0);
    check_that(rt, (shown, entry(desk)) == (row.1, row.2), at);
}

fn check_each<D: Keeps, B: Board<Item = Item, Desk = D>, R: Abort + Wait>(
    rt: &R,
    board: &B,
    desk: &mut D,
    seat: &mut B::Seat,
    rows: &[Row],
)
    requires desk { B.has_desk board.now desk.old }
    requires seat { B.has_seat board.now seat.old }
    requires free { B.claimed seat.old ≡ None }
{
    let mut job = None;
    for (at, row) in rows.iter().enumerate() {
        check_call(rt, board, desk, seat, &mut job, at, row);
    }
}

// Asserts how a board of so many cells begins.
fn check_start<D: Keeps, B: Board<Item = Item, Desk = D>, R: Abort>(
    rt: &R,
    board: &B,
    desk: &D,
    cells: u8,
) {
    assert!(rt; (board.ahead(), entry(desk)) == (cells, (Entry::Free, 0, 0)));
}

/// Checks a board of so many cells as it begins, and then the calls of these rows, by its desk and
/// one of its seats.
pub fn check<D: Keeps, B: Board<Item = Item, Desk = D> + Drop, R: Abort + Wait>(
    rt: &R,
    made: (B, D, Vec<B::Seat>),
    cells: u8,
    rows: &[Row],
)
    requires desk { B.has_desk made.0 made.1 }
    requires seats { All (λ seat. B.has_seat made.0 seat × (B.claimed seat ≡ None)) made.2.items }
{
    let (board, mut desk, mut seats) = made;
    check_start(rt, &board, &desk, cells);
    let Some(mut seat) = seats.pop() else {
        panic!(rt; "no seat")
    };
    check_each(rt, &board, &mut desk, &mut seat, rows);
}
