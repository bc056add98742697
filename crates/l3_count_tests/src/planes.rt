use crate::inputs::{amplification, check_row, spectrum};
use l3_base::SampleRate;
use l3_count::{Planes, classes_at, is_codable_at, no_planes, pairs_at, set, split_at};
use l3_quant::line_peaks;

// The planes of a spectrum of the line 1 alone, as 2^24, are made.
fn set_one_line(planes: &mut Planes) {
    let spec = spectrum(&[(0, 1 << 24)]);
    set(planes, &spec, &line_peaks(&spec, SampleRate::Hz44100));
}

// The first pair of planes at a gain.
fn pair_at(planes: &Planes, first: bool, gain: u8) -> u8 {
    let mut pairs = [0u8; 288];
    pairs_at(
        planes,
        SampleRate::Hz44100,
        &amplification(first),
        gain,
        &mut pairs,
    );
    pairs[0]
}

// The first pair, the class of the first band, and how many pairs and quadruples there are without
// amplification; or `None` where not all can be coded.
fn numbers_at(planes: &Planes, first: bool, gain: u8) -> Option<[u16; 4]> {
    let amp = amplification(first);
    if is_codable_at(planes, &amp, gain) {
        let classes = classes_at(planes, &amp, gain);
        let split = split_at(planes, gain);
        let pair = pair_at(planes, first, gain);
        Some([
            u16::from(pair),
            u16::from(classes[0]),
            split.big,
            split.quads,
        ])
    } else {
        None
    }
}

// 15 is reached from 2^(20.6 / 4) on, 1 from 2^(-4.01 / 4) on; an amplification of 1 is two steps.
#[test]
fn one_line(rt: HostRuntime) {
    let mut planes = no_planes();
    set_one_line(&mut planes);
    for (first, gain, wanted) in [
        (false, 189, [240, 6, 1, 0]),
        (false, 190, [208, 6, 1, 0]),
        (false, 214, [16, 1, 1, 0]),
        (false, 215, [0, 0, 0, 0]),
        (true, 191, [240, 6, 1, 0]),
        (true, 216, [16, 1, 0, 0]),
        (true, 217, [0, 0, 0, 0]),
    ] {
        let numbers = numbers_at(&planes, first, gain);
        check_row(
            &rt,
            [i32::from(first), i32::from(gain)],
            numbers == Some(wanted),
        );
    }
}

#[test]
fn the_first_gain_of_one_line(rt: HostRuntime) {
    let mut planes = no_planes();
    set_one_line(&mut planes);
    let zero = amplification(false);
    assert!(rt; !is_codable_at(&planes, &zero, 140) && is_codable_at(&planes, &zero, 141));
}

#[test]
fn the_size_of_planes(rt: HostRuntime) {
    assert!(rt; size_of_val(&no_planes()) <= 16384);
}
