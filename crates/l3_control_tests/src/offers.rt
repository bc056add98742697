//! Granules that a desk has on its board.

ghost use Rattle.std.specs.Prelude.{◌≡◌, ◌+◌, ◌<◌, ◌≤◌, All, None, length};
ghost use Rattle.l3_board.specs.Offers.{GoesWith};

use crate::board::board;
use crate::calls::check_that;
use crate::item::{Item, marked};
use l3_board::{Board, Claim, Deposit, Offers, fresh_desks};
use std::alloc::AllocError;
use std::process::Abort;

// The mark of what comes back for an item of a granule, or none where it is on offer or far ahead.
fn offered<B: Board<Item = Item>>(
    offers: &mut Offers,
    board: &B,
    desk: &mut B::Desk,
    item: Item,
) -> Option<u64>
    requires made { B.has_desk board.now desk.old }
    requires cells { length offers.old.placed ≡ B.cells board.now }
    requires some { 0 < length offers.old.placed }
    requires goes { GoesWith (B.last desk.old) offers.old }
    requires number { item.number ≤ 255 }
    ensures made { B.has_desk board.now desk.new }
    ensures cells { length offers.new.placed ≡ B.cells board.now }
    ensures goes { GoesWith (B.last desk.new) offers.new }
    ensures next { offers.new.next ≡ offers.old.next }
{
    let next = offers.next();
    let number = item.number;
    if number < next || number - next >= offers.cells() as u64 || offers.has(number) {
        return None;
    }
    Some(offers.offer(board, desk, item).mark)
}

// Offers items of these numbers and marks, and asserts which marks come back.
fn check_offers<B: Board<Item = Item>, R: Abort>(
    rt: &R,
    offers: &mut Offers,
    board: &B,
    desk: &mut B::Desk,
    rows: &[(u8, u64, Option<u64>)],
)
    requires made { B.has_desk board.now desk.old }
    requires cells { length offers.old.placed ≡ B.cells board.now }
    requires goes { GoesWith (B.last desk.old) offers.old }
    ensures made { B.has_desk board.now desk.new }
    ensures cells { length offers.new.placed ≡ B.cells board.now }
    ensures goes { GoesWith (B.last desk.new) offers.new }
    ensures next { offers.new.next ≡ offers.old.next }
{
    if offers.cells() == 0 {
        return;
    }
    for row in rows {
        let back = offered(offers, board, desk, marked(u64::from(row.0), row.1));
        check_that(rt, back == row.2, usize::from(row.0));
    }
}

// Claims twice at a seat, and hands in the first of the two granules alone.
fn one_of_two_is_handed_in<B: Board<Item = Item>>(board: &B, seats: Vec<B::Seat>) -> bool
    requires { All (λ seat. B.has_seat board.now seat × (B.claimed seat ≡ None)) seats.items }
{
    let mut seats = seats;
    let Some(mut seat) = seats.pop() else {
        return false;
    };
    let Claim::Job(job) = board.claim(&mut seat) else {
        return false;
    };
    let kept = matches!(board.deposit(&mut seat, job), Deposit::Kept);
    kept && matches!(board.claim(&mut seat), Claim::Job(_))
}

// Number and mark of what comes back for a spare, and the granule that is to be taken next.
fn taken<B: Board<Item = Item>>(
    offers: &mut Offers,
    board: &B,
    desk: &mut B::Desk,
    mark: u64,
) -> (u64, u64, u64)
    requires made { B.has_desk board.now desk.old }
    requires cells { length offers.old.placed ≡ B.cells board.now }
    requires goes { GoesWith (B.last desk.old) offers.old }
    requires limit { offers.old.next ≤ 255 }
    ensures made { B.has_desk board.now desk.new }
    ensures cells { length offers.new.placed ≡ B.cells board.now }
    ensures goes { GoesWith (B.last desk.new) offers.new }
    ensures next { offers.new.next ≡ offers.old.next + 1 }
{
    let back = offers.take(board, desk, marked(0, mark));
    (back.number, back.mark, offers.next())
}

// Two cells: granules 0 and 1 are on offer, and granule 2 is far ahead.
static AHEAD: [(u8, u64, Option<u64>); 4] = [
    (0, 10, Some(100)),
    (0, 11, None),
    (1, 12, Some(101)),
    (2, 13, None),
];

// The cell of granule 3 is busy, since granule 1 was left there; that of granule 2 is free.
static BEHIND: [(u8, u64, Option<u64>); 3] = [
    (3, 14, Some(14)),
    (3, 15, Some(15)),
    (2, 16, Some(20)),
];

// Granule 0 was handed in, granule 1 is in a worker's hand.
fn check_takes<B: Board<Item = Item>, R: Abort>(
    rt: &R,
    offers: &mut Offers,
    board: &B,
    desk: &mut B::Desk,
)
    requires made { B.has_desk board.now desk.old }
    requires cells { length offers.old.placed ≡ B.cells board.now }
    requires goes { GoesWith (B.last desk.old) offers.old }
    requires next { offers.old.next ≡ 0 }
    ensures made { B.has_desk board.now desk.new }
    ensures cells { length offers.new.placed ≡ B.cells board.now }
    ensures goes { GoesWith (B.last desk.new) offers.new }
{
    assert!(rt; taken(offers, board, desk, 20) == (0, 10, 1));
    assert!(rt; taken(offers, board, desk, 21) == (0, 21, 2));
}

// Offers ahead, takes, and offers behind that, where the worker at the seat hands in one of two.
fn check_all<B: Board<Item = Item> + Drop, R: Abort>(
    rt: &R,
    mut offers: Offers,
    made: (B, B::Desk, Vec<B::Seat>),
)
    requires made { B.has_desk made.0 made.1 }
    requires cells { length offers.placed ≡ B.cells made.0 }
    requires goes { GoesWith (B.last made.1) offers }
    requires next { offers.next ≡ 0 }
    requires seats { All (λ seat. B.has_seat made.0 seat × (B.claimed seat ≡ None)) made.2.items }
{
    let (board, mut desk, seats) = made;
    check_offers(rt, &mut offers, &board, &mut desk, &AHEAD);
    assert!(rt; one_of_two_is_handed_in(&board, seats));
    check_takes(rt, &mut offers, &board, &mut desk);
    check_offers(rt, &mut offers, &board, &mut desk, &BEHIND);
}

#[test]
fn offered_ahead_and_taken_in_order(rt: HostRuntime) -> Result<(), AllocError> {
    let offers = Offers::new(rt.alloc(), 2)?;
    let made = board(&rt, rt.alloc(), 1, 2)?;
    fresh_desks();
    check_all(&rt, offers, made);
    Ok(())
}
