//! Spectra and amplifications, and what the tests of tables end with.

use l3_base::{Amp, Spectrum};
use std::process::Abort;

/// Ends the test where a row of its table does not hold, and names it by two of its numbers. A
/// message in each test would be proved for each.
pub fn check_row(rt: &impl Abort, row: [i32; 2], holds: bool) {
    assert!(rt; holds, "at {} and {}", row[0], row[1]);
}

/// One of 1 in band 0 alone, or none. It is two steps of gain there.
pub fn amplification(first: bool) -> Amp {
    let mut amp = Amp::zero();
    if first {
        amp.set(0, 1);
    }
    amp
}

/// Some lines, each with its value, and zeros. Values are below 2^29 either way.
pub fn spectrum(places: &[(usize, i32)]) -> Spectrum {
    let mut spec = Spectrum::zero();
    for (place, line) in places {
        if *place < 576 && line.unsigned_abs() < 1 << 29 {
            spec.set(*place, *line);
        }
    }
    spec
}
