ghost use Rattle.std.specs.Prelude.{◌≡◌, ◌<◌, ◌≤◌};

use crate::inputs::{check_row, spectrum};
use l3_base::{Amp, SampleRate, Spectrum, Steps};
use l3_count::count_at;
use l3_search::{Part2, allowed, noise, over, part2_of, raise};
use l3_transform::energies;
use std::marker::Brand;
use std::sync::ledger::{Blank, Ledger};

// So many bands from one on amplified alike.
fn amplified(from: usize, to: usize, value: u8) -> Amp
    requires bands { to ≤ 21 }
    requires value { value ≤ 3 }
{
    let mut amp = Amp::zero();
    for band in from..to {
        amp.set(band, value);
    }
    amp
}

#[test]
fn scalefactor_lengths(rt: HostRuntime) {
    for (from, to, value, compress, bits) in [
        (0, 0, 0, 0, 0),
        (0, 1, 1, 5, 21),
        (11, 12, 1, 1, 10),
        (0, 1, 2, 8, 32),
        (0, 21, 3, 9, 42),
    ] {
        let part2 = part2_of(&amplified(from, to, value));
        check_row(
            &rt,
            [from as i32, to as i32],
            part2 == Part2 { compress, bits },
        );
    }
}

fn no_noise() -> [u128; 22] {
    [0; 22]
}

fn no_energies() -> [u64; 22] {
    [0; 22]
}

// What is allowed in the bands of a spectrum at 44100 Hz.
fn limits_of(spec: &Spectrum) -> [u64; 22] {
    let mut energy = no_energies();
    energies(spec, SampleRate::Hz44100, &mut energy);
    let mut limits = no_energies();
    allowed(&energy, SampleRate::Hz44100, &mut limits);
    limits
}

// The amplification of bands 0 and 1, raised from none, or `None`.
fn raised(noises: &[u128; 22], limits: &[u64; 22]) -> Option<[u8; 2]> {
    match raise(&Amp::zero(), noises, limits) {
        None => None,
        Some(next) => Some([next.get(0), next.get(1)]),
    }
}

// The noise of a spectrum's bands at a gain and 44100 Hz without amplification, or none where it
// cannot be coded.
fn noises_of<L: Ledger + Send>(blank: Blank, spec: &Spectrum, gain: u8) -> Option<[u128; 22]>
    requires name { blank.name ≡ L.name }
    requires parts { blank.parts ≡ L.parts }
    requires some { 0 < blank.parts }
{
    let amp = Amp::zero();
    let mut steps: Steps<L> = Steps::start(blank);
    match count_at(spec, SampleRate::Hz44100, &amp, gain, &mut steps) {
        None => None,
        Some(count) => {
            let mut noises = no_noise();
            noise(spec, SampleRate::Hz44100, &count, &mut noises);
            Some(noises)
        }
    }
}

// In a spectrum that is 0 but for line 0: the noise of band 0, what is allowed there, how many
// bands are over, and the raised amplification.
fn found(line: i32, gain: u8) -> Option<(u128, u64, u8, Option<[u8; 2]>)> {
    let spec = spectrum(&[(0, line)]);
    let limits = limits_of(&spec);
    match noises_of::<Brand>(Blank::new(1), &spec, gain) {
        None => None,
        Some(noises) => Some((
            noises[0],
            limits[0],
            over(&noises, &limits),
            raised(&noises, &limits),
        )),
    }
}

#[test]
fn noise_of_one_line(rt: HostRuntime) {
    for (line, gain, noise, over, raised) in [
        (16777216, 210, 0, 0, None),
        (16777216, 218, 4294967296, 1, Some([1, 0])),
        (-16777216, 210, 0, 0, None),
        (-16777216, 218, 4294967296, 1, Some([1, 0])),
    ] {
        let wanted = (noise, 134217732, over, raised);
        check_row(
            &rt,
            [line, i32::from(gain)],
            found(line, gain) == Some(wanted),
        );
    }
}
