//! The board as a machine.

use crate::answers::{Shown, of_claim, of_deposit, of_offer, of_take};
use crate::calls::check_that;
use crate::item::{Item, blanks, marked};
use crate::rows::{Call, FOUR_CELLS, ONE_CELL, Row};
use l3_board::{Answer, Cell, Core, Event};
use std::alloc::{AllocError, Global};
use std::process::Abort;

// The event of a call.
fn event(call: Call) -> Event<Item> {
    match call {
        Call::Offer(number, mark) => Event::Offer(marked(u64::from(number), mark)),
        Call::Claim | Call::ClaimWait => Event::Claim,
        Call::Deposit(number, mark) => Event::Deposit(marked(u64::from(number), mark)),
        Call::Take(number, mark) => Event::Take(u64::from(number), marked(0, mark)),
        Call::Shut => Event::Shut,
    }
}

fn events(alloc: Global, rows: &[Row]) -> Result<Vec<Event<Item>>, AllocError> {
    let mut events = Vec::new(alloc);
    for row in rows {
        events.push(event(row.0))?;
    }
    Ok(events)
}

// Serves one event by the call that it names.
fn served(board: &mut Core<Item>, event: Event<Item>) -> Shown {
    match event {
        Event::Offer(item) => of_offer(&board.offer(item)),
        Event::Claim => of_claim(&board.claim()),
        Event::Deposit(item) => of_deposit(&board.deposit(item)),
        Event::Take(number, spare) => of_take(&board.take(number, spare)),
        Event::Shut => {
            board.shut();
            ("shut", 0, 0)
        }
    }
}

fn shown(answer: &Answer<Item>) -> Shown {
    match answer {
        Answer::Offer(answer) => of_offer(answer),
        Answer::Claim(answer) => of_claim(answer),
        Answer::Deposit(answer) => of_deposit(answer),
        Answer::Take(answer) => of_take(answer),
        Answer::Shut => ("shut", 0, 0),
    }
}

// The state of cell 0, and how many cells are held.
fn state(board: &Core<Item>) -> (Cell, usize) {
    let _sound = board.ahead();
    (board.state(0), board.held())
}

// The same where cell 0 alone may be held, and is in this state.
fn wanted(cell: Cell) -> (Cell, usize) {
    (cell, usize::from(cell != Cell::Empty))
}

// Makes the call of a row, and asserts what it shows and what becomes of cell 0.
fn check_call<R: Abort>(rt: &R, board: &mut Core<Item>, at: usize, row: &Row) {
    let shown = served(board, event(row.0));
    check_that(rt, (shown, state(board)) == (row.1, wanted(row.3)), at);
}

fn check_each<R: Abort>(rt: &R, board: &mut Core<Item>) {
    for (at, row) in FOUR_CELLS.iter().enumerate() {
        check_call(rt, board, at, row);
    }
}

// The number of cells of a new board, and what a deposit at it shows.
fn start(board: &mut Core<Item>) -> (u8, Shown) {
    (board.ahead(), served(board, event(Call::Deposit(5, 9))))
}

fn check<R: Abort>(rt: &R, mut board: Core<Item>) {
    assert!(rt; start(&mut board) == (4, ("stray", 5, 9)));
    check_each(rt, &mut board);
}

#[test]
fn board_rows(rt: HostRuntime) -> Result<(), AllocError> {
    check(&rt, Core::new(rt.alloc(), blanks(rt.alloc(), 4)?)?);
    Ok(())
}

// The answers of a board to these events.
fn answers_of(
    alloc: Global,
    mut board: Core<Item>,
    events: Vec<Event<Item>>,
) -> Result<Vec<Answer<Item>>, AllocError> {
    let mut answers = Vec::with_capacity(alloc, events.len())?;
    board.run(events, &mut answers);
    Ok(answers)
}

// Those of a board of one cell to these calls.
fn answers(alloc: Global, rows: &[Row]) -> Result<Vec<Answer<Item>>, AllocError> {
    let events = events(alloc, rows)?;
    answers_of(alloc, Core::new(alloc, blanks(alloc, 1)?)?, events)
}

fn check_answers<R: Abort>(rt: &R, answers: Vec<Answer<Item>>, rows: &[Row]) {
    for (at, row) in rows.iter().enumerate() {
        let answer = answers.get(at).map(|answer| shown(answer));
        check_that(rt, answer == Some(row.1), at);
    }
}

#[test]
fn board_of_one_cell(rt: HostRuntime) -> Result<(), AllocError> {
    check_answers(&rt, answers(rt.alloc(), &ONE_CELL)?, &ONE_CELL);
    Ok(())
}
