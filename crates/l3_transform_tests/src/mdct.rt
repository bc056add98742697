//! Lines of a few slots, and slots folded.

use l3_base::{Slots36, Spectrum};
use l3_transform::{fold36, spectrum};

#[test]
fn line_of_a_slot(rt: HostRuntime) {
    let mut slots = Slots36::zero();
    slots.set(0, 17, 1048576);
    let mut out = Spectrum::zero();
    spectrum(&slots, &mut out);
    assert!(rt; out.lines()[0] == -78638);
}

#[test]
fn lines_of_two_subbands(rt: HostRuntime) {
    let mut slots = Slots36::zero();
    slots.set(3, 5, 1000000);
    slots.set(3, 30, -2000000);
    slots.set(4, 20, 3000000);
    let mut out = Spectrum::zero();
    spectrum(&slots, &mut out);
    let lines = out.lines();
    assert!(rt; (lines[62], lines[71], lines[72], lines[79]) == (1873, 156708, -226047, 198510));
}

// The squares of 1 to 36.
#[rattlefmt::skip]
static SQUARES: [i64; 36] = [
    1, 4, 9, 16, 25, 36, 49, 64, 81, 100, 121, 144,
    169, 196, 225, 256, 289, 324, 361, 400, 441, 484, 529, 576,
    625, 676, 729, 784, 841, 900, 961, 1024, 1089, 1156, 1225, 1296,
];

// 1 - 324, 81 - 100, 361 + 1296 and 729 + 784.
#[test]
fn slots_folded(rt: HostRuntime) {
    let mut t = [0i64; 18];
    fold36(&SQUARES, &mut t);
    assert!(rt; (t[0], t[8], t[9], t[17]) == (-323, -19, 1657, 1513));
}
