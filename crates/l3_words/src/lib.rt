//! The words of the command line -> the command that they ask for, or why they ask for none.
//!
//! Before: `l3_base`, and `clap`, whose rule for simple commands decides. After: the program.
#![tactic(auto)]

mod command;
mod parsers;
mod reading;
mod values;

pub use command::{Command, DemoWords, EncodeWords, EncoderOptions, NoCommand};
pub use reading::read_command;
