//! What the tests of tables end with.

use std::process::Abort;

/// Ends the test where a row of its table does not hold, and names it by a number of it. A message
/// in each test would be proved for each.
pub fn check_row(rt: &impl Abort, row: u32, holds: bool) {
    assert!(rt; holds, "at {row}");
}
