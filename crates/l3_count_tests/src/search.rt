ghost use Rattle.std.specs.Prelude.{◌≡◌, ◌<◌};

use crate::inputs::{amplification, check_row, spectrum};
use l3_base::{Amp, SampleRate, Steps};
use l3_search::{Memo, Picked, pick};
use std::marker::Brand;
use std::sync::ledger::{Blank, Ledger};

// Gain, bits, and how many counts were made.
fn numbers(picked: &Picked) -> (u8, u32, u16) {
    (picked.count.gain(), picked.count.bits(), picked.made)
}

// What is picked at 44100 Hz for two budgets in turn with one memo.
fn picks<L: Ledger + Send>(blank: Blank, line: i32, budget: u32, next: u32) -> [(u8, u32, u16); 2]
    requires name { blank.name ≡ L.name }
    requires parts { blank.parts ≡ L.parts }
    requires some { 0 < blank.parts }
{
    let spec = spectrum(&[(0, line)]);
    let mut memo = Memo::new();
    let mut steps: Steps<L> = Steps::start(blank);
    let amp = Amp::zero();
    let rate = SampleRate::Hz44100;
    let first = pick(&spec, rate, &amp, 0, budget, &mut memo, &mut steps);
    let second = pick(&spec, rate, &amp, 0, next, &mut memo, &mut steps);
    [numbers(&first), numbers(&second)]
}

// What is picked at 44100 Hz for 21 bits in lane 0 without amplification, then in lane 1 with 1 in
// band 0, which is two steps of gain, and then in lane 0 again.
fn picks_in_two_lanes<L: Ledger + Send>(blank: Blank) -> [(u8, u32, u16); 3]
    requires name { blank.name ≡ L.name }
    requires parts { blank.parts ≡ L.parts }
    requires some { 0 < blank.parts }
{
    let spec = spectrum(&[(0, 16777216)]);
    let mut memo = Memo::new();
    let mut steps: Steps<L> = Steps::start(blank);
    let zero = Amp::zero();
    let amp = amplification(true);
    let rate = SampleRate::Hz44100;
    let first = pick(&spec, rate, &zero, 0, 21, &mut memo, &mut steps);
    memo.turn_to(1, &amp);
    let second = pick(&spec, rate, &amp, 1, 21, &mut memo, &mut steps);
    let third = pick(&spec, rate, &zero, 0, 21, &mut memo, &mut steps);
    [numbers(&first), numbers(&second), numbers(&third)]
}

#[test]
fn pick_with_a_memo(rt: HostRuntime) {
    for (line, budget, next, picked) in [
        (16777216, 21, 4095, [(152, 20, 12), (141, 22, 0)]),
        (0, 4095, 0, [(0, 0, 1), (0, 0, 0)]),
    ] {
        let found = picks::<Brand>(Blank::new(1), line, budget, next);
        check_row(&rt, [line, 0], found == picked);
    }
}

#[test]
fn pick_in_lane_1_after_lane_0(rt: HostRuntime) {
    let picked = picks_in_two_lanes::<Brand>(Blank::new(1));
    assert!(rt; picked == [(152, 20, 12), (154, 20, 12), (152, 20, 0)]);
}
