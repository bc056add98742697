// How a board begins.
ghost use Rattle.std.specs.Prelude.{◌≡◌, ◌+◌, ◌<◌, ◌≤◌, [], None, Some, false, length, vec_len, IfOk, All, map, replicate};
ghost use Rattle.l3_board.specs.Desk.{fresh_desk};
ghost use Rattle.l3_lanes.specs.History.{bare};
ghost use Rattle.l3_lanes.specs.Moves.{no_past, opening_knowledge};
ghost use Rattle.l3_lanes.specs.Calls.{IsDeskOf, IsSeat, IsSeatOf, claimed, desk_past, seat_past};

use crate::plays::{Hire, Lanes, Row, Token};
use crate::seats::{LaneBoard, LaneDesk, LaneSeat};
use l3_board::{DeskRecord, Numbered};
use std::alloc::{AllocError, Global};

impl<T: Numbered> LaneBoard<T> {
    /// A board of as many empty cells as there are blanks, its desk, and a seat for each worker.
    pub fn new(
        alloc: Global,
        workers: u8,
        blanks: Vec<T>,
    ) -> Result<(LaneBoard<T>, LaneDesk<T>, Vec<LaneSeat<T>>), AllocError>
        requires workers { (0 < workers) × (workers ≤ 16) }
        requires some { 0 < vec_len blanks }
        requires limit { vec_len blanks ≤ 64 }
        ensures cells { IfOk result (λ made. made.0.cells ≡ vec_len blanks) }
        ensures desk { IfOk result (λ made. IsDeskOf made.0 made.1) }
        ensures opening { IfOk result (λ made. (made.1.granules.items ≡ replicate (vec_len blanks) None) × (made.1.shut ≡ false)) }
        ensures kept { IfOk result (λ made. made.1.kept ≡ fresh_desk (vec_len blanks)) }
        ensures seats { IfOk result (λ made. vec_len made.2 ≡ workers) }
        ensures desk_past { IfOk result (λ made. desk_past made.1 ≡ no_past) }
        ensures seat_pasts { IfOk result (λ made. All (λ seat. seat_past seat ≡ no_past) made.2.items) }
        ensures made { IfOk result (λ made. All (λ seat. IsSeatOf made.0 seat × (claimed seat ≡ None)) made.2.items) }
    {
        let cells = blanks.len() as u8;
        let (kept, granules) = nothing_told(alloc, cells)?;
        let (lanes, mut token) = empty_lanes(alloc, blanks)?;
        let seats = hired(alloc, &lanes.shared, &mut token, workers)?;
        let desk = LaneDesk {
            token,
            granules,
            shut: false,
            kept,
        };
        Ok((LaneBoard { lanes, cells }, desk, seats))
    }
}

// What a desk keeps at the start: that each cell is free, and that it has offered no granule.
fn nothing_told(alloc: Global, cells: u8) -> Result<(DeskRecord, Vec<Option<u64>>), AllocError>
    requires some { 0 < cells }
    ensures { IfOk result (λ made. (made.0 ≡ fresh_desk cells) × (made.1.items ≡ replicate cells None)) }
{
    let kept = DeskRecord::new(alloc, cells)?;
    let granules = nones(alloc, usize::from(cells))?;
    Ok((kept, granules))
}

fn nones(alloc: Global, count: usize) -> Result<Vec<Option<u64>>, AllocError>
    ensures { IfOk result (λ granules. granules.items ≡ replicate count None) }
{
    vec![in alloc; None; count]
}

// Lanes of as many empty cells as there are blanks, and the token of their desk.
fn empty_lanes<T: Numbered>(
    alloc: Global,
    blanks: Vec<T>,
) -> Result<(Lanes<T>, Token<T>), AllocError>
    requires limit { vec_len blanks ≤ 64 }
    ensures { IfOk result (λ made. (made.0.shared.table_id.slots ≡ vec_len blanks) × (made.0.shared.table_id.words ≡ vec_len blanks + 2) × (made.1.table_id ≡ made.0.shared.table_id) × (made.1.me ≡ (opening_knowledge (vec_len blanks), []))) }
{
    let cells = blanks.len();
    let words = zeros(alloc, cells + 2)?;
    let slots = filled(alloc, blanks)?;
    let Ok(made) = Lanes::<T>::new(alloc, words.as_slice(), slots, &cells) else {
        return Err(AllocError);
    };
    Ok(made)
}

fn zeros(alloc: Global, count: usize) -> Result<Vec<u64>, AllocError>
    ensures { IfOk result (λ words. words.items ≡ replicate count 0) }
{
    vec![in alloc; 0u64; count]
}

fn filled<T: Numbered>(alloc: Global, blanks: Vec<T>) -> Result<Vec<Option<T>>, AllocError>
    ensures { IfOk result (λ slots. slots.items ≡ map Some blanks.items) }
{
    blanks.into_iter().map(|blank| Some(blank)).collect(alloc)
}

// A seat for each worker, split from the desk's.
fn hired<T: Numbered>(
    alloc: Global,
    row: &Row<T>,
    token: &mut Token<T>,
    workers: u8,
) -> Result<Vec<LaneSeat<T>>, AllocError>
    requires table { token.old.table_id ≡ row.now.table_id }
    requires words { row.now.table_id.words ≡ row.now.table_id.slots + 2 }
    requires places { length token.old.me.0.view.notes ≡ row.now.table_id.slots + 1 }
    ensures same { (token.new.table_id ≡ token.old.table_id) × (token.new.id ≡ token.old.id) × (token.new.me ≡ token.old.me) }
    ensures seats { IfOk result (λ seats. vec_len seats ≡ workers) }
    ensures pasts { IfOk result (λ seats. All (λ seat. seat_past seat ≡ no_past) seats.items) }
    ensures made { IfOk result (λ seats. All (λ seat. (seat.token.table_id ≡ row.now.table_id) × IsSeat row.now.table_id.slots (bare seat.token.me) seat.claim × (seat.claim ≡ None)) seats.items) }
{
    let mut seats = Vec::new(alloc);
    for _ in 0..workers {
        let token = row.split_seat::<Hire>(token);
        seats.push(LaneSeat { token, claim: None })?;
    }
    Ok(seats)
}
