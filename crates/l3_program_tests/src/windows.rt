ghost use Rattle.std.specs.Prelude.{◌≡◌, ◌+◌, ◌<◌, ◌≤◌, ◌⊎◌, true, false, None, OnOk};
ghost use Rattle.std.proofs.Common.{rules};

use l3_base::{Channels, Failed, GranuleNo, ReadFault, SampleRate, Window};
use l3_io::{MemSource, Source};
use l3_wav::{Samples, WavHead, Windows};
use std::alloc::Global;

// Samples of each channel in a ramp: six frames, and so twelve granules, of which the samples of
// eight are taken out at once.
const COUNT: u16 = 5000;

// The bytes of a ramp: sample n is n to the left and -1 - n to the right.
fn ramp() -> [u8; 20000] {
    let mut bytes = [0; 20000];
    for n in 0..COUNT {
        let at = 4 * usize::from(n);
        bytes[at..at + 2].copy_from_slice(&n.to_le_bytes());
        bytes[at + 2..at + 4].copy_from_slice(&(u16::MAX - n).to_le_bytes());
    }
    bytes
}

// The bytes of its left samples alone.
fn left_ramp() -> [u8; 10000] {
    let mut bytes = [0; 10000];
    for n in 0..COUNT {
        let at = 2 * usize::from(n);
        bytes[at..at + 2].copy_from_slice(&n.to_le_bytes());
    }
    bytes
}

// A source of a ramp, which gives so many bytes a read. This read fails.
fn source_of(alloc: Global, channels: Channels, step: usize, fails: u64) -> Option<MemSource>
    requires { 0 < step }
{
    match channels {
        Channels::Mono => MemSource::new(alloc, &left_ramp(), step, &[fails]).ok(),
        Channels::Stereo => MemSource::new(alloc, &ramp(), step, &[fails]).ok(),
    }
}

// Whether a window of this granule has these samples of the ramp: sample 576 * number - 1056 first.
fn is_of_ramp(window: &Window, channels: Channels, number: u64) -> bool
    requires { number ≤ 100 }
{
    for n in 0..1632_usize {
        let place = 576 * number + n as u64;
        let is_there = place >= 1056 && place - 1056 < u64::from(COUNT);
        let left = if is_there { (place - 1056) as i16 } else { 0 };
        let right = match channels {
            Channels::Mono => 0,
            Channels::Stereo => if is_there { -1 - left } else { 0 },
        };
        if window.left[n] != left || window.right[n] != right {
            return false;
        }
    }
    true
}

// All samples of data whose size is not known.
fn samples(channels: Channels) -> Samples
    ensures { (result.channels ≡ channels) × (result.failed ≡ false) × (result.remaining ≡ 4294967295) }
{
    Samples::new(&WavHead {
        channels,
        rate: SampleRate::Hz44100,
        data_bytes: u32::MAX,
    })
}

// Reads on to a granule, the base or the next, and gives its window.
fn window_at<S: Source>(
    windows: &mut Windows,
    base: u64,
    source: &mut S,
) -> Result<Window, ReadFault>
    requires turn { (base ≡ windows.old.base) ⊎ (base ≡ windows.old.base + 1) }
    requires ahead { 0 < windows.old.ahead }
    requires limit { base ≤ 100 }
    requires sound { windows.old.samples.failed ≡ false }
    ensures base { OnOk result (windows.new.base ≡ base) }
    ensures ahead { windows.new.ahead ≡ windows.old.ahead }
    ensures sound { OnOk result (windows.new.samples.failed ≡ false) }
{
    windows.read_ahead(base, source)?;
    let mut window = Window {
        left: [1; 1632],
        right: [1; 1632],
    };
    if let Some(number) = GranuleNo::new(base) {
        windows.window(number, &mut window);
    }
    Ok(window)
}

// Whether the window of a granule of the ramp, the base or the next, is right.
fn is_next_right<S: Source>(
    windows: &mut Windows,
    base: u64,
    source: &mut S,
    channels: Channels,
) -> bool
    requires turn { (base ≡ windows.old.base) ⊎ (base ≡ windows.old.base + 1) }
    requires ahead { 0 < windows.old.ahead }
    requires limit { base ≤ 100 }
    requires sound { windows.old.samples.failed ≡ false }
    ensures base { result ≡ true → windows.new.base ≡ base }
    ensures ahead { windows.new.ahead ≡ windows.old.ahead }
    ensures sound { result ≡ true → windows.new.samples.failed ≡ false }
{
    let Ok(window) = window_at(windows, base, source) else {
        return false;
    };
    is_of_ramp(&window, channels, base)
}

// Whether the number of granules is known once the first one's window is at hand, if the twelve
// windows of a ramp are right and it is known at the end.
fn is_known_at_first<S: Source>(
    windows: &mut Windows,
    source: &mut S,
    channels: Channels,
) -> Option<bool>
    requires start { windows.old.base ≡ 0 }
    requires ahead { 0 < windows.old.ahead }
    requires sound { windows.old.samples.failed ≡ false }
{
    let mut is_known = false;
    for base in 0..12 {
        if !is_next_right(windows, base, source, channels) {
            return None;
        }
        if base == 0 {
            is_known = windows.total().is_some();
        }
    }
    match windows.total() {
        Some(12) => Some(is_known),
        _ => None,
    }
}

// The same for a ramp that comes in so many bytes a read.
fn is_ramp_known(alloc: Global, channels: Channels, ahead: u8, step: usize) -> Option<bool>
    requires ahead { (0 < ahead) × (ahead ≤ 64) }
    requires step { 0 < step }
{
    let Some(mut source) = source_of(alloc, channels, step, 100000) else {
        return None;
    };
    let Ok(mut windows) = Windows::open(alloc, channels, ahead, samples(channels)) else {
        return None;
    };
    is_known_at_first(&mut windows, &mut source, channels)
}

// It is known at first where the first read ahead was short.
#[test]
fn windows_of_a_ramp(rt: HostRuntime) {
    for (channels, ahead, step, is_known) in [
        (Channels::Mono, 1, 1, false),
        (Channels::Mono, 64, 4096, true),
        (Channels::Stereo, 1, 3, false),
        (Channels::Stereo, 64, 1, true),
        (Channels::Stereo, 1, 4096, false),
    ] {
        assert!(rt; is_ramp_known(rt.alloc(), channels, ahead, step) == Some(is_known));
    }
}

// Reads on to granule 0 and to granule 1, which meets a fault, so that the number of granules is
// not known: the two bytes behind the fault.
fn behind_fault(windows: &mut Windows, source: &mut MemSource) -> Option<[u8; 2]>
    requires start { windows.old.base ≡ 0 }
    requires ahead { 0 < windows.old.ahead }
    requires sound { windows.old.samples.failed ≡ false }
{
    let Ok(()) = windows.read_ahead(0, source) else {
        return None;
    };
    let Err(ReadFault) = windows.read_ahead(1, source) else {
        return None;
    };
    let mut rest = [7; 2];
    match (windows.total(), source.read(&mut rest)) {
        (None, Ok(2)) => Some(rest),
        _ => None,
    }
}

// The same for a ramp, the second read of which fails.
fn behind_second_read(alloc: Global) -> Option<[u8; 2]> {
    let Some(mut source) = source_of(alloc, Channels::Mono, 4096, 1) else {
        return None;
    };
    let Ok(mut windows) = Windows::open(alloc, Channels::Mono, 1, samples(Channels::Mono)) else {
        return None;
    };
    behind_fault(&mut windows, &mut source)
}

// The first granule has its 576 samples by the first read, and the second read fails. After the
// fault no byte more is gone.
#[test]
fn a_read_fails_in_mid_stream(rt: HostRuntime) {
    assert!(rt; behind_second_read(rt.alloc()) == Some(576_u16.to_le_bytes()));
}

// Silence without an end, of which nothing is told.
#[derive(Drop)]
struct Silence;

impl Source for Silence {
    ghost left = { λ _. None };

    ghost faults = { λ _. 0 };

    fn read(&mut self, buf: &mut [u8]) -> Result<usize, Failed> {
        buf.fill(0);
        Ok(buf.len())
    }

    ghost possible = { λ s. Prim.search rules };
}

// How many of the first 100 granules were read.
fn read_on<S: Source>(windows: &mut Windows, source: &mut S) -> u64
    requires start { windows.old.base ≡ 0 }
    requires ahead { 0 < windows.old.ahead }
    requires sound { windows.old.samples.failed ≡ false }
{
    for base in 0..100 {
        let Ok(_) = window_at(windows, base, source) else {
            return base;
        };
    }
    100
}

// How many of the first 100 granules of silence were read, if it is not known how many there are.
fn read_silence(alloc: Global) -> Option<u64> {
    let samples = samples(Channels::Stereo);
    let Ok(mut windows) = Windows::open(alloc, Channels::Stereo, 64, samples) else {
        return None;
    };
    let count = read_on(&mut windows, &mut Silence);
    match windows.total() {
        None => Some(count),
        Some(_) => None,
    }
}

#[test]
fn long_silence(rt: HostRuntime) {
    assert!(rt; read_silence(rt.alloc()) == Some(100));
}
