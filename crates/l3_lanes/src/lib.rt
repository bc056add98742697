//! A board that threads share without a lock: the calls of the desk and of the workers' seats ->
//! their answers.
//!
//! One word and one slot for each cell, a word for shut, and a bell that is raised for those who
//! wait. Each call decides by single steps on one word. The board is this project's own.
//! Before: `l3_board`, the same board as a machine over events, and the trait. After: `l3_encoder`,
//! whose committer and workers share it.
#![tactic(auto)]

mod as_board;
mod board;
mod claiming;
mod deciding;
mod desk_calls;
mod desk_steps;
mod laws;
mod opening;
mod plays;
mod seats;
mod view;
mod worker_calls;
mod worker_steps;

pub use crate::laws::{laws_of_the_history, laws_of_the_rule};
pub use crate::seats::{LaneBoard, LaneDesk, LaneSeat};
pub use crate::view::{Knowledge, Move, Past, Tell, View};
