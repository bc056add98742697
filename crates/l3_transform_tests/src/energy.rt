//! Energies of bands, and the demand of one line.

ghost use Rattle.std.specs.Prelude.{◌<◌, ◌^◌, unsigned_abs};

use l3_base::{SampleRate, Spectrum};
use l3_transform::{demand, energies};

// A spectrum that is 0 but for this line.
fn one_line(at: usize, x: i32) -> Spectrum
    requires place { at < 576 }
    requires small { unsigned_abs x < 2 ^ 29 }
{
    let mut spec = Spectrum::zero();
    spec.set(at, x);
    spec
}

fn energies_of(spec: &Spectrum) -> [u64; 22] {
    let mut out = [0; 22];
    energies(spec, SampleRate::Hz44100, &mut out);
    out
}

#[test]
fn demand_of_one_line(rt: HostRuntime) {
    assert!(rt; demand(&Spectrum::zero(), SampleRate::Hz44100) == 0);
    let spec = one_line(0, 65536);
    assert!(rt; demand(&spec, SampleRate::Hz44100) == 7);
    let mut wanted = [0; 22];
    wanted[0] = 65536;
    assert!(rt; energies_of(&spec) == wanted);
}

#[test]
fn demand_of_the_last_line(rt: HostRuntime) {
    let spec = one_line(575, -65536);
    let demands = [
        demand(&spec, SampleRate::Hz44100),
        demand(&spec, SampleRate::Hz48000),
        demand(&spec, SampleRate::Hz32000),
    ];
    assert!(rt; demands == [177, 216, 39]);
}
