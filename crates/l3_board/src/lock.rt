ghost use Rattle.std.specs.Prelude.{◌≡◌, ◌<◌, ◌≤◌, IfOk, All, None, vec_len};
ghost use Rattle.l3_board.specs.Desk.{fresh_desk};

use crate::board::Board;
use crate::desk::DeskRecord;
use crate::event::{Claim, Deposit, Offer, Take};
use crate::item::Numbered;
use crate::machine::Core;
use l3_base::GranuleNo;
use std::alloc::{AllocError, Global};
use std::marker::Model;
use std::sync::{Condvar, Mutex, Wait};

/// A board under one lock: each call but `ahead` is one call of `Core`, for which it takes the lock
/// and so may wait.
///
/// Contracts see it as the number of its cells. Which answer it gives is tied to nothing but tests.
/// Only `new` takes memory.
#[derive(Drop)]
pub struct LockBoard<'a, T: Numbered, R: Wait> {
    core: Mutex<Core<T>>,
    moved: Condvar,
    rt: &'a R,
    cells: u8,
}

impl<'a, T: Numbered, R: Wait> Model for LockBoard<'a, T, R> {
    ghost use Rattle.std.specs.Prelude.{ℕ, ◌<◌};

    ghost Value = { ℕ };

    ghost view = { λ board. board.cells };

    ghost invariant = { λ board. 0 < board.cells };
}

/// The desk of a `LockBoard`. Contracts see what it keeps.
#[derive(Debug, Drop)]
pub struct LockDesk {
    record: DeskRecord,
}

impl Model for LockDesk {
    ghost use Rattle.l3_board.specs.Desk.{DeskState};

    ghost Value = { DeskState };

    ghost view = { λ desk. desk.«record» };
}

impl LockDesk {
    /// What the desk keeps.
    pub fn record(&self) -> &DeskRecord
        ensures { result.now ≡ self.now }
    {
        &self.record
    }
}

/// The seat of a worker at a `LockBoard`. Contracts see the number of the granule that it has
/// claimed.
#[derive(Debug, Drop)]
pub struct LockSeat {
    claim: Option<u64>,
}

impl Model for LockSeat {
    ghost use Rattle.std.specs.Prelude.{ℕ, Option};

    ghost Value = { Option ℕ };

    ghost view = { λ seat. seat.claim };
}

impl<'a, T: Numbered, R: Wait> LockBoard<'a, T, R> {
    /// A board of as many empty cells as there are blanks, its desk, and a seat for each worker.
    pub fn new(
        rt: &'a R,
        alloc: Global,
        workers: u8,
        blanks: Vec<T>,
    ) -> Result<(LockBoard<'a, T, R>, LockDesk, Vec<LockSeat>), AllocError>
        requires workers { (0 < workers) × (workers ≤ 16) }
        requires some { 0 < vec_len blanks }
        requires limit { vec_len blanks ≤ 64 }
        ensures cells { IfOk result (λ made. made.0 ≡ vec_len blanks) }
        ensures desk { IfOk result (λ made. made.1 ≡ fresh_desk (vec_len blanks)) }
        ensures seats { IfOk result (λ made. (vec_len made.2 ≡ workers) × All (λ seat. seat ≡ None) made.2.items) }
    {
        let cells = blanks.len() as u8;
        let record = DeskRecord::new(alloc, cells)?;
        let seats = free_seats(alloc, workers)?;
        let core = Core::new(alloc, blanks)?;
        let board = LockBoard {
            core: Mutex::new(core),
            moved: Condvar::new(),
            rt,
            cells,
        };
        Ok((board, LockDesk { record }, seats))
    }
}

impl<'a, T: Numbered, R: Wait> Board for LockBoard<'a, T, R> {
    ghost use Rattle.std.specs.Prelude.{◌≡◌, ◌<◌, length};

    type Item = T;

    type Desk = LockDesk;

    type Seat = LockSeat;

    ghost cells = { λ board. board };

    ghost has_desk = { λ board desk. (length desk.last ≡ board) × (0 < board) };

    ghost has_seat = { λ board seat. Unit {0} };

    ghost last = { λ desk. desk.last };

    ghost served = { λ desk. desk.served };

    ghost got = { λ desk. desk.got };

    ghost claimed = { λ seat. seat };

    ghost desk_entries = { λ board desk made. made };

    fn ahead(&self) -> u8 {
        self.cells
    }

    fn offer(&self, desk: &mut LockDesk, item: T) -> Offer<T> {
        let number = item.number();
        let answer = self.core.lock(self.rt).offer(item);
        if let Offer::Placed(_) = &answer {
            self.moved.notify_one();
        }
        desk.record.offered(number, &answer);
        answer
    }

    fn claim(&self, seat: &mut LockSeat) -> Claim<T> {
        let answer = self.core.lock(self.rt).claim();
        if let Claim::Job(item) = &answer {
            seat.claim = Some(item.number());
        }
        answer
    }

    fn claim_wait<W: Wait>(&self, rt: &W, seat: &mut LockSeat) -> Claim<T> {
        let mut core = self.core.lock(self.rt);
        for _ in rt.forever() {
            match core.claim() {
                Claim::Job(item) => {
                    seat.claim = Some(item.number());
                    return Claim::Job(item);
                }
                Claim::Nothing => core = self.moved.wait(rt, core),
                Claim::Shut => return Claim::Shut,
            }
        }
        unreachable!()
    }

    fn deposit(&self, seat: &mut LockSeat, item: T) -> Deposit<T> {
        seat.claim = None;
        self.core.lock(self.rt).deposit(item)
    }

    fn take(&self, desk: &mut LockDesk, number: GranuleNo, spare: T) -> Take<T> {
        let answer = self.core.lock(self.rt).take(number.get(), spare);
        desk.record.taken(number, &answer);
        answer
    }

    fn shut(&self, _desk: &mut LockDesk) {
        self.core.lock(self.rt).shut();
        self.moved.notify_all();
    }
}

fn free_seats(alloc: Global, workers: u8) -> Result<Vec<LockSeat>, AllocError>
    ensures { IfOk result (λ seats. (vec_len seats ≡ workers) × All (λ seat. seat ≡ None) seats.items) }
{
    let mut seats = Vec::new(alloc);
    for _ in 0..workers {
        seats.push(LockSeat { claim: None })?;
    }
    Ok(seats)
}
