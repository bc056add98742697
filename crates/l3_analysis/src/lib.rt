//! A granule's window and a guess of the reserve -> its spectra, demands and counts: one piece,
//! right by its type. Granules on a board -> the same granules, analysed by workers.
//!
//! What a piece holds is that of its own window, whoever had it in between, so nothing that a board
//! hands out has to be trusted.
//! The contract of [`analyse`] pins what a worker makes of a piece. Those of [`work`] and
//! [`work_all`] say that at the end each seat has handed in what it claimed. None says that a job
//! comes, nor that what is handed in is what [`analyse`] made: tests show it.
//! Before: `l3_transform` and `l3_search`, and `l3_board`, on whose boards pieces lie. After:
//! `l3_commit`, whose track commits pieces under the reserve that it knows, and `l3_encoder`, whose
//! loop tells the gate, and which runs a worker for each seat beside its committer. The workers are
//! this project's own.
#![tactic(auto)]

mod analysis;
mod boxed;
mod gate;
mod job;
mod lanes;
mod piece;
mod rounds;
mod stage;
mod worker;

pub use boxed::PieceBox;
pub use gate::{Gate, OpenGate};
pub use job::analyse;
pub use l3_search::{Count, Memo, Picked};
pub use lanes::Lanes;
pub use piece::Piece;
pub use rounds::rounds_of_amplification;
pub use stage::Stage;
pub use worker::{work, work_all};
