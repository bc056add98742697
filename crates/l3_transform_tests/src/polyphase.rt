//! Slots of an impulse, of neighbouring windows, and columns folded.

ghost use Rattle.std.specs.Prelude.{◌<◌, ◌≤◌};

use l3_base::Slots36;
use l3_transform::{Kept, fold64, slot, slots36};

// Subbands 0 and 1 of the slot of samples that are 0 but for one of 16384.
fn slot_of_an_impulse(at: usize) -> (i32, i32)
    requires { at < 512 }
{
    let mut newest = [0i16; 512];
    newest[at] = 16384;
    let mut out = [0i32; 32];
    slot(&newest, &mut out);
    (out[0], out[1])
}

// Samples 16384, 0, 0 and so on: the first one is 31 before the newest of slot 0, and 287 before
// that of slot 8.
#[test]
fn slots_of_an_impulse(rt: HostRuntime) {
    assert!(rt; slot_of_an_impulse(31) == (-77, 62));
    assert!(rt; slot_of_an_impulse(287).0 == 116582);
}

// The same samples: granule 1 begins at sample 576, its window 480 + 576 samples before that, and
// its slots at slot 0.
#[test]
fn slots_of_a_window(rt: HostRuntime) {
    let mut window = [0i16; 1632];
    window[480] = 16384;
    let mut slots = Slots36::zero();
    slots36(&window, &mut slots);
    let first = (slots.get(0, 0), slots.get(1, 0), slots.get(0, 8));
    assert!(rt; first == (-77, 62, 116582));
}

// A window of a ramp that begins at this value.
fn ramp(first: usize) -> [i16; 1632]
    requires { first ≤ 576 }
{
    let mut window = [0i16; 1632];
    for n in 0..1632 {
        window[n] = (first + n) as i16;
    }
    window
}

// Whether the slots are the same.
fn are_same(left: &Slots36, right: &Slots36) -> bool {
    for i in 0..32 {
        for k in 0..36 {
            if left.get(i, k) != right.get(i, k) {
                return false;
            }
        }
    }
    true
}

// The windows of two neighbouring granules of a ramp: the slots of the second one, half of them
// kept, are those made from nothing.
#[test]
fn neighbouring_granules_of_a_ramp(rt: HostRuntime) {
    let mut kept = Kept::zero();
    kept.go_on(&ramp(0));
    kept.go_on(&ramp(576));
    let mut anew = Slots36::zero();
    slots36(&ramp(576), &mut anew);
    assert!(rt; are_same(kept.slots(), &anew));
}

// k (k + 1) for k from 0 to 63.
#[rattlefmt::skip]
static COLUMNS: [i64; 64] = [
    0, 2, 6, 12, 20, 30, 42, 56, 72, 90, 110, 132, 156, 182, 210, 240,
    272, 306, 342, 380, 420, 462, 506, 552, 600, 650, 702, 756, 812, 870, 930, 992,
    1056, 1122, 1190, 1260, 1332, 1406, 1482, 1560, 1640, 1722, 1806, 1892, 1980, 2070, 2162, 2256,
    2352, 2450, 2550, 2652, 2756, 2862, 2970, 3080, 3192, 3306, 3422, 3540, 3660, 3782, 3906, 4032,
];

// Column 16; 17 + 15, that is 306 + 240; 32 + 0; 33 - 63, that is 1122 - 4032; 47 - 49.
#[test]
fn columns_folded(rt: HostRuntime) {
    let mut u = [0i64; 32];
    fold64(&COLUMNS, &mut u);
    assert!(rt; (u[0], u[1], u[16], u[17], u[31]) == (272, 546, 1056, -2910, -194));
}
