ghost use Rattle.std.specs.Prelude.{◌≡◌, ◌<◌, ◌+◌};

use crate::inputs::{amplification, check_row, spectrum};
use l3_base::{Amp, SampleRate, Spectrum, Steps};
use l3_count::{Count, Memo, Regions, Split, count_at};
use l3_quant::all_amp;
use l3_region::{best, split_of};
use std::marker::Brand;
use std::sync::ledger::{Blank, Ledger};

// Two counts are two steps.
fn count_twice<L: Ledger + Send>(
    line: i32,
    amp: &Amp,
    gain: u8,
    steps: &mut Steps<L>,
) -> Option<Count>
    ensures { steps.new ≡ steps.old + 2 }
{
    let spec = spectrum(&[(0, line)]);
    let _first = count_at(&spec, SampleRate::Hz44100, amp, gain, steps);
    count_at(&spec, SampleRate::Hz44100, amp, gain, steps)
}

fn count_one_line<L: Ledger + Send>(blank: Blank, line: i32, first: bool, gain: u8) -> Option<Count>
    requires name { blank.name ≡ L.name }
    requires parts { blank.parts ≡ L.parts }
    requires some { 0 < blank.parts }
{
    let mut steps: Steps<L> = Steps::start(blank);
    count_twice(line, &amplification(first), gain, &mut steps)
}

fn bits_of(count: Option<Count>) -> Option<u32> {
    match count {
        Some(count) => Some(count.bits()),
        None => None,
    }
}

// An amplification of 1 is two steps of gain.
#[test]
fn bits_of_one_line(rt: HostRuntime) {
    for (line, first, gain, bits) in [
        (16777216, false, 152, Some(20)),
        (16777216, false, 141, Some(22)),
        (16777216, false, 140, None),
        (16777216, true, 154, Some(20)),
        (16777216, true, 143, Some(22)),
        (16777216, true, 142, None),
        (0, true, 0, Some(0)),
    ] {
        let count = count_one_line::<Brand>(Blank::new(1), line, first, gain);
        check_row(&rt, [line, i32::from(gain)], bits_of(count) == bits);
    }
}

// The split and the regions as they are defined, by the values themselves, or `None` where one is
// above 8191.
fn plain(spec: &Spectrum, rate: SampleRate, amp: &Amp, gain: u8) -> Option<(Split, Regions)> {
    let mut values = [0i16; 576];
    if all_amp(spec, rate, amp, gain, &mut values) {
        let split = split_of(&values);
        Some((split, best(&values, split, rate)))
    } else {
        None
    }
}

// The same over planes.
fn over_planes<L: Ledger + Send>(
    blank: Blank,
    spec: &Spectrum,
    rate: SampleRate,
    amp: &Amp,
    gain: u8,
) -> Option<(Split, Regions)>
    requires name { blank.name ≡ L.name }
    requires parts { blank.parts ≡ L.parts }
    requires some { 0 < blank.parts }
{
    let mut steps: Steps<L> = Steps::start(blank);
    match count_at(spec, rate, amp, gain, &mut steps) {
        Some(count) => Some((count.split(), count.regions())),
        None => None,
    }
}

// Whether both are the same.
fn agree(spec: &Spectrum, rate: SampleRate, first: bool, gain: u8) -> bool {
    let amp = amplification(first);
    let counted = over_planes::<Brand>(Blank::new(1), spec, rate, &amp, gain);
    counted == plain(spec, rate, &amp, gain)
}

// The same at 44100, 48000 and 32000 Hz.
fn agree_at_all_rates(places: &[(usize, i32)], first: bool, gain: u8) -> [bool; 3] {
    let spec = spectrum(places);
    [
        agree(&spec, SampleRate::Hz44100, first, gain),
        agree(&spec, SampleRate::Hz48000, first, gain),
        agree(&spec, SampleRate::Hz32000, first, gain),
    ]
}

// Bands begin at line 30 at all three sampling frequencies, and at 418, 384 and 550; the lines of
// the cases are quantised to 13 and 15 and more, to 14, 15 and 16, to 8191 and 8190, and to 8192.
#[test]
fn over_planes_and_plain(rt: HostRuntime) {
    let one = 1 << 24;
    for (places, first, gain) in [
        ([(0, one), (29, -one), (30, one), (575, 1)], false, 190),
        ([(383, one), (384, -one), (418, one), (550, one)], true, 189),
        (
            [(0, 8845261), (1, 9697540), (6, 10568984), (9, 0)],
            true,
            186,
        ),
        (
            [(3, 14944368), (30, 14941935), (99, 0), (9, 999)],
            false,
            140,
        ),
        (
            [(3, 14944368), (30, 14946800), (99, 0), (9, 999)],
            false,
            140,
        ),
    ] {
        let agreed = agree_at_all_rates(&places, first, gain);
        check_row(&rt, [places[0].1, places[1].1], agreed == [true; 3]);
    }
}

// Puts a count into a lane that has its amplification.
fn put(memo: &mut Memo, lane: u8, count: &Option<Count>) {
    if lane < 4 {
        if let Some(count) = count {
            if count.amp() == memo.amp(lane) {
                memo.put(lane, *count);
            }
        }
    }
}

// The bits that lane 0 has at the gains 152 and 153, and lane 3 at 152.
fn held(memo: &Memo) -> [Option<u32>; 3] {
    [
        bits_of(memo.get(0, 152)),
        bits_of(memo.get(0, 153)),
        bits_of(memo.get(3, 152)),
    ]
}

// What a memo holds at first, with a count in lane 0, after a turn of the lane to the amplification
// that it has, and after one to another.
fn held_in_turn(count: &Option<Count>) -> [[Option<u32>; 3]; 4] {
    let mut memo = Memo::new();
    let new = held(&memo);
    put(&mut memo, 0, count);
    let with_one = held(&memo);
    memo.turn_to(0, &Amp::zero());
    let same = held(&memo);
    memo.turn_to(0, &amplification(true));
    [new, with_one, same, held(&memo)]
}

// The count at gain 152 of lane 0, and what it and lane 3 have at it and beside it.
#[test]
fn a_count_in_a_memo(rt: HostRuntime) {
    let count = count_one_line::<Brand>(Blank::new(1), 16777216, false, 152);
    let none = [None; 3];
    let one = [Some(20), None, None];
    assert!(rt; held_in_turn(&count) == [none, one, one, none]);
}

// A memo whose lane 0 is amplified and whose lane 3 has a count, if there is one.
fn filled(count: &Option<Count>) -> Memo {
    let mut memo = Memo::new();
    memo.turn_to(0, &amplification(true));
    put(&mut memo, 3, count);
    memo
}

#[test]
fn a_cleared_memo(rt: HostRuntime) {
    let count = count_one_line::<Brand>(Blank::new(1), 16777216, false, 152);
    let mut memo = filled(&count);
    assert!(rt; held(&memo) == [None, None, Some(20)]);
    memo.clear();
    assert!(rt; held(&memo) == [None; 3] && memo.amp(0) == Amp::zero());
}

#[test]
fn the_size_of_a_memo(rt: HostRuntime) {
    assert!(rt; size_of_val(&Memo::new()) <= 16384);
}
