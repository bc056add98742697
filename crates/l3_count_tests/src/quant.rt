ghost use Rattle.std.specs.Prelude.{◌<◌, ◌≤◌, ◌^◌, ◌≤ℤ◌, pos, negsuc};

use crate::inputs::{check_row, spectrum};
use crate::quant_plain::{plain_line, plain_values};
use l3_base::{Amp, SampleRate, Spectrum, edge};
use l3_quant::{all, all_amp, first_gain, first_gain_amp, line, line_peaks, reconstruct};

// The quantised value of a line, by the crate and by the plain program.
fn values_of(x: i32, gain: u8) -> [Option<u16>; 2] {
    let gain = i16::from(gain);
    if x.unsigned_abs() < 1 << 29 {
        [line(x, gain), plain_line(x, gain)]
    } else {
        [None; 2]
    }
}

#[test]
fn quantised_lines(rt: HostRuntime) {
    for (x, gain, value) in [
        (16777216, 210, Some(1)),
        (268435456, 210, Some(8)),
        (16777216, 209, Some(1)),
        (536870911, 255, Some(0)),
        (16777216, 0, None),
        (8376320, 210, Some(1)),
        (8376319, 210, Some(0)),
    ] {
        check_row(&rt, [x, i32::from(gain)], values_of(x, gain) == [value; 2]);
    }
}

// The first gain of a spectrum at 44100 Hz, where bands 0 and 1 are amplified so.
fn amplified_gain(lines: &[(usize, i32)], first: u8, second: u8) -> u8 {
    let mut amp = Amp::zero();
    amp.set(0, first.min(3));
    amp.set(1, second.min(3));
    first_gain_amp(&spectrum(lines), SampleRate::Hz44100, &amp)
}

#[test]
fn first_gains(rt: HostRuntime) {
    let one = [(0, 16777216)];
    assert!(rt; [first_gain(&spectrum(&[])), first_gain(&spectrum(&one))] == [0, 141]);
    assert!(rt; [amplified_gain(&[], 0, 0), amplified_gain(&one, 0, 0)] == [0, 141]);
}

// Half the line needs 4 steps of gain less, but its band is amplified by 6 steps.
#[test]
fn first_gains_of_amplified_bands(rt: HostRuntime) {
    let two = [(0, 16777216), (4, 8388608)];
    assert!(rt; [amplified_gain(&two, 0, 3), amplified_gain(&two, 2, 3)] == [143, 145]);
}

#[test]
fn reconstructed_lines(rt: HostRuntime) {
    let lines = [
        reconstruct(1, 210),
        reconstruct(8, 210),
        reconstruct(1, 206),
        reconstruct(0, 0),
    ];
    assert!(rt; lines == [16777216, 268435456, 8388608, 0]);
}

#[test]
fn greatest_lines(rt: HostRuntime) {
    let spec = spectrum(&[(575, 16777216), (23, -16777216)]);
    let lines = line_peaks(&spec, SampleRate::Hz44100);
    assert!(rt; [lines[4], lines[5], lines[21]] == [0, 16777216, 16777216]);
}

fn no_values() -> [i16; 576] {
    [0; 576]
}

// How great a line may be in the falling spectrum.
fn limit_at(line: usize) -> u32
    ensures some { 0 < result }
    ensures small { result ≤ 2 ^ 28 }
{
    if line < 64 {
        1 << 28
    } else if line < 300 {
        1 << 22
    } else {
        1 << 16
    }
}

// A falling spectrum with random signs, in which about one line of `gap` is not 0.
fn falling(gap: u32) -> Spectrum
    requires { 0 < gap }
{
    let mut spec = Spectrum::zero();
    let mut seed = gap;
    for i in 0..576 {
        seed = seed.wrapping_mul(1664525).wrapping_add(1013904223);
        let size = ((seed >> 3) % limit_at(i)) as i32;
        if (seed >> 9) % gap == 0 {
            spec.set(i, if seed & 4 == 0 { size } else { -size });
        }
    }
    spec
}

// Whether `all` gives what the plain program does line by line.
fn agrees(spec: &Spectrum, gain: i16) -> bool
    requires low { negsuc 63 ≤ℤ gain }
    requires high { gain ≤ℤ pos 255 }
{
    let mut out = no_values();
    let whole = all(spec, gain, &mut out);
    match plain_values(spec.lines(), &[gain; 576]) {
        None => !whole,
        Some(values) => whole && out == values,
    }
}

#[test]
fn thresholds_and_halving_agree(rt: HostRuntime) {
    for gap in [1, 2, 40] {
        let spec = falling(gap);
        for gain in [-64, 41, 42, 141, 150, 160, 170, 200, 210, 255] {
            check_row(&rt, [gap as i32, i32::from(gain)], agrees(&spec, gain));
        }
    }
}

// The gain of each line: that of the band whose edges it lies between.
fn line_gains(amp: &Amp, rate: SampleRate, gain: u8) -> [i16; 576] {
    let mut gains = [i16::from(gain); 576];
    let rate = rate.index();
    for band in 0..21 {
        let to = usize::from(edge(rate, band + 1));
        for line in usize::from(edge(rate, band))..to {
            gains[line] = i16::from(gain) - 2 * i16::from(amp.get(band));
        }
    }
    gains
}

// Whether `all_amp` gives what the plain program does line by line.
fn values_agree(spec: &Spectrum, rate: SampleRate, amp: &Amp, gain: u8) -> bool {
    let mut out = no_values();
    let whole = all_amp(spec, rate, amp, gain, &mut out);
    match plain_values(spec.lines(), &line_gains(amp, rate, gain)) {
        None => !whole,
        Some(values) => whole && out == values,
    }
}

// Amplifications of 0 to 3 in turn, so many bands each.
fn amplified(bands: usize) -> Amp
    requires { 0 < bands }
{
    let mut amp = Amp::zero();
    for band in 0..21 {
        amp.set(band, ((band / bands) % 4) as u8);
    }
    amp
}

#[test]
fn amplified_values_and_halving_agree(rt: HostRuntime) {
    let rates = [
        SampleRate::Hz44100,
        SampleRate::Hz48000,
        SampleRate::Hz32000,
    ];
    let spec = falling(1);
    for rate in rates {
        for bands in [1, 2, 21] {
            let amp = amplified(bands);
            for gain in [0, 130, 147, 160, 181, 223, 255] {
                let agree = values_agree(&spec, rate, &amp, gain);
                check_row(&rt, [bands as i32, i32::from(gain)], agree);
            }
        }
    }
}
