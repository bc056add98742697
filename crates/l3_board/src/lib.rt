//! Analysed granules, offered by one desk -> shared out to workers, each with a seat, and taken
//! back in order.
//!
//! The rule is a machine over events, with no thread in it ([`Core`]): granule i stands in cell
//! `i mod L` of L cells, and each event has one answer. A [`Board`] is what threads share, each of
//! whose calls is one event.
//! Before: `l3_base`, numbers of granules. After: `l3_lanes`, the same trait without locks;
//! `l3_analysis`, whose pieces lie on a board; `l3_commit`, whose committer has the desk and an
//! [`Offers`] beside it, which knows what is on the board. All of it is this project's own.
//!
//! Contracts say what an answer means: which item it hands out or back, and how it moves the desk's
//! record and a seat's claim. Which answer a `LockBoard` gives, and that its bells wake those who
//! wait, is tied to nothing but tests, since contracts know nothing of what stands under a lock.
#![tactic(auto)]

mod board;
mod cell;
mod desk;
mod entry;
mod event;
mod item;
mod laws;
mod least;
mod lock;
mod machine;
mod placed;

pub use board::Board;
pub use cell::Cell;
pub use desk::DeskRecord;
pub use entry::Entry;
pub use event::{Answer, Claim, Deposit, Event, Offer, Take};
pub use item::Numbered;
pub use laws::{fresh_desks, laws_of_runs};
pub use lock::{LockBoard, LockDesk, LockSeat};
pub use machine::Core;
pub use placed::Offers;
