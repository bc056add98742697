//! Calls of a board in turn, each with what it shows: the same of the machine, of the board under a
//! lock and of the board without locks.

use crate::answers::Shown;
use l3_board::{Cell, Entry};

/// A call: an item is given by its granule's number and its mark, and so is a take's spare.
#[derive(Clone, Copy)]
pub enum Call {
    Offer(u32, u64),
    Claim,
    ClaimWait,
    Deposit(u32, u64),
    Take(u32, u64),
    Shut,
}

/// A call, its answer, and what holds afterwards: the desk's entry of cell 0 with the number served
/// and the work got, and the state of that cell.
pub type Row = (Call, Shown, (Entry, u64, u64), Cell);

/// On a board of four cells, whose blanks are marked from 100 on.
pub static FOUR_CELLS: [Row; 12] = [
    (
        Call::Claim,
        ("nothing", 0, 0),
        (Entry::Free, 0, 0),
        Cell::Empty,
    ),
    (
        Call::Offer(0, 1),
        ("placed", 0, 100),
        (Entry::Told(0), 0, 0),
        Cell::Offered(0),
    ),
    (
        Call::Claim,
        ("job", 0, 1),
        (Entry::Told(0), 0, 0),
        Cell::Claimed(0),
    ),
    (
        Call::Take(0, 2),
        ("in work", 0, 2),
        (Entry::Left(0), 1, 0),
        Cell::Withdrawn(0),
    ),
    (
        Call::Offer(4, 3),
        ("busy", 4, 3),
        (Entry::Busied(4, false), 1, 0),
        Cell::Withdrawn(0),
    ),
    (
        Call::Deposit(0, 1),
        ("late", 0, 0),
        (Entry::Busied(4, false), 1, 0),
        Cell::Empty,
    ),
    (
        Call::Offer(4, 3),
        ("placed", 0, 1),
        (Entry::Told(4), 1, 0),
        Cell::Offered(4),
    ),
    (
        Call::Take(4, 2),
        ("revoked", 4, 3),
        (Entry::Free, 1, 0),
        Cell::Empty,
    ),
    (
        Call::Take(4, 5),
        ("not offered", 0, 5),
        (Entry::Gone(4), 1, 0),
        Cell::Empty,
    ),
    (
        Call::Shut,
        ("shut", 0, 0),
        (Entry::Gone(4), 1, 0),
        Cell::Empty,
    ),
    (
        Call::Claim,
        ("claims shut", 0, 0),
        (Entry::Gone(4), 1, 0),
        Cell::Empty,
    ),
    (
        Call::Offer(8, 6),
        ("busy", 8, 6),
        (Entry::Busied(8, false), 1, 0),
        Cell::Empty,
    ),
];

/// On a board of one cell, whose blank is marked 100. A granule that is served brings its work.
pub static ONE_CELL: [Row; 8] = [
    (
        Call::Offer(1, 1),
        ("placed", 0, 100),
        (Entry::Told(1), 0, 0),
        Cell::Offered(1),
    ),
    (
        Call::ClaimWait,
        ("job", 1, 1),
        (Entry::Told(1), 0, 0),
        Cell::Claimed(1),
    ),
    (
        Call::Deposit(1, 7),
        ("kept", 0, 0),
        (Entry::Told(1), 0, 0),
        Cell::Ready(1),
    ),
    (
        Call::Take(1, 2),
        ("got", 1, 7),
        (Entry::Free, 0, 0),
        Cell::Empty,
    ),
    (
        Call::Offer(0, 3),
        ("placed", 0, 2),
        (Entry::Told(0), 0, 0),
        Cell::Offered(0),
    ),
    (
        Call::Take(0, 4),
        ("revoked", 0, 3),
        (Entry::Free, 1, 3),
        Cell::Empty,
    ),
    (Call::Shut, ("shut", 0, 0), (Entry::Free, 1, 3), Cell::Empty),
    (
        Call::ClaimWait,
        ("claims shut", 0, 0),
        (Entry::Free, 1, 3),
        Cell::Empty,
    ),
];
