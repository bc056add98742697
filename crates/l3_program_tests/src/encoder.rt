ghost use Rattle.std.specs.Prelude.{◌≡◌, ◌<◌};

use l3_base::{Rate, Steps};
use l3_encoder::{EncodeFault, Report, encode_alone};
use l3_io::{MemSink, MemSource, read_full};
use l3_wav::WavFault;
use std::alloc::Global;
use std::marker::Brand;
use std::sync::ledger::{Blank, Ledger};

// Files up to the size of their data, one channel at 44100 Hz and two at 48000.
pub const MONO: [u8; 40] =
    *b"RIFF\x24\0\0\0WAVEfmt \x10\0\0\0\x01\0\x01\0\x44\xAC\0\0\x88\x58\x01\0\x02\0\x10\0data";

const STEREO: [u8; 40] =
    *b"RIFF\x24\0\0\0WAVEfmt \x10\0\0\0\x01\0\x02\0\x80\xBB\0\0\0\xEE\x02\0\x04\0\x10\0data";

// A file that begins so and has so many bytes of data, with 46080 zeros.
fn zeros(front: &[u8; 40], size: u32) -> [u8; 46124] {
    let mut file = [0; 46124];
    file[..40].copy_from_slice(front);
    file[40..44].copy_from_slice(&size.to_le_bytes());
    file
}

// Whether these bytes stand at each of these places.
fn stand(bytes: &[u8], fronts: &[(usize, [u8; 6])]) -> bool {
    for (at, front) in fronts {
        if !bytes.get(*at..).unwrap_or(&[]).starts_with(front) {
            return false;
        }
    }
    true
}

// What the encoder answers for a source, by a counter of its own.
fn counted<L: Ledger + Send>(
    blank: Blank,
    alloc: Global,
    rate: Rate,
    source: &mut MemSource,
    sink: &mut MemSink,
) -> Result<Report, EncodeFault>
    requires name { blank.name ≡ L.name }
    requires parts { blank.parts ≡ L.parts }
    requires some { 0 < blank.parts }
{
    let mut steps: Steps<L> = Steps::start(blank);
    encode_alone(alloc, rate, source, sink, &mut steps)
}

// What the encoder answers for a file, and how many bytes of it are left, 100 at most. This read
// fails.
fn encoded(
    alloc: Global,
    bytes: &[u8],
    rate: Rate,
    fails: u64,
    sink: &mut MemSink,
) -> Option<(Result<Report, EncodeFault>, usize)> {
    let Ok(mut source) = MemSource::new(alloc, bytes, 100, &[fails]) else {
        return None;
    };
    let answer = counted::<Brand>(Blank::new(1), alloc, rate, &mut source, sink);
    let Ok(left) = read_full(&mut source, &mut [0; 100]) else {
        return None;
    };
    Some((answer, left))
}

// What the encoder answers for a file without a fault, and a sink with its stream.
pub fn whole(alloc: Global, bytes: &[u8], rate: Rate) -> Option<(Report, MemSink)> {
    let Ok(mut sink) = MemSink::new(alloc, 10000, 300, &[]) else {
        return None;
    };
    match encoded(alloc, bytes, rate, 1000, &mut sink) {
        Some((Ok(report), _)) => Some((report, sink)),
        _ => None,
    }
}

// Of the stream of such a file of zeros the frames, the gains tried, each of which is counted anew,
// and its length, if these bytes stand at these places.
fn zeros_encoded(
    alloc: Global,
    front: &[u8; 40],
    size: u32,
    rate: Rate,
    fronts: &[(usize, [u8; 6])],
) -> Option<(u32, u64, usize)> {
    let file = zeros(front, size);
    let Some((report, sink)) = whole(alloc, file.get(..44 + size as usize).unwrap_or(&[]), rate)
    else {
        return None;
    };
    if report.made == report.tried && stand(sink.bytes(), fronts) {
        Some((report.frames, report.tried, sink.bytes().len()))
    } else {
        None
    }
}

#[test]
fn no_samples(rt: HostRuntime) {
    assert!(rt; zeros_encoded(rt.alloc(), &MONO, 0, Rate::K128, &[]) == Some((0, 0, 0)));
}

#[test]
fn zeros_over_two_frames(rt: HostRuntime) {
    const FRONTS: [(usize, [u8; 6]); 3] = [
        (0, [0xFF, 0xFB, 0x90, 0xC0, 0x00, 0x00]),
        (417, [0xFF, 0xFB, 0x92, 0xC0, 0xC6, 0x00]),
        (835, [0xFF, 0xFB, 0x92, 0xC0, 0xFF, 0x80]),
    ];
    let found = zeros_encoded(rt.alloc(), &MONO, 2306, Rate::K128, &FRONTS);
    assert!(rt; found == Some((3, 6, 417 + 418 + 418)));
}

#[test]
fn no_reservoir_at_320_kbit(rt: HostRuntime) {
    const FRONTS: [(usize, [u8; 6]); 2] = [
        (0, [0xFF, 0xFB, 0xE0, 0xC0, 0x00, 0x00]),
        (1044, [0xFF, 0xFB, 0xE2, 0xC0, 0x00, 0x00]),
    ];
    let found = zeros_encoded(rt.alloc(), &MONO, 2, Rate::K320, &FRONTS);
    assert!(rt; found == Some((2, 4, 1044 + 1045)));
}

#[test]
fn reservoir_fills_at_32_kbit(rt: HostRuntime) {
    const FRONTS: [(usize, [u8; 6]); 5] = [
        (0, [0xFF, 0xFB, 0x14, 0x00, 0x00, 0x00]),
        (96, [0xFF, 0xFB, 0x14, 0x00, 0x1E, 0x00]),
        (768, [0xFF, 0xFB, 0x14, 0x00, 0xF0, 0x00]),
        (864, [0xFF, 0xFB, 0x14, 0x00, 0xFF, 0x80]),
        (960, [0xFF, 0xFB, 0x14, 0x00, 0xFF, 0x80]),
    ];
    let found = zeros_encoded(rt.alloc(), &STEREO, 46080, Rate::K32, &FRONTS);
    assert!(rt; found == Some((11, 44, 11 * 96)));
}

// The stream of one sample of zero.
fn one_zero_stream() -> [u8; 835] {
    let mut stream = [0; 835];
    stream[..4].copy_from_slice(&[0xFF, 0xFB, 0x90, 0xC0]);
    stream[417..423].copy_from_slice(&[0xFF, 0xFB, 0x92, 0xC0, 0xC6, 0x00]);
    stream
}

// A file of one sample of zero, and four bytes behind it.
fn one_zero_file() -> [u8; 50] {
    let mut file = [0; 50];
    file[..40].copy_from_slice(&MONO);
    file[40] = 2;
    file[46..].copy_from_slice(b"rest");
    file
}

// Encodes that file, cut to this length, where this read fails, to a sink of so much room: what is
// answered, how many bytes are left of the file, and how many of the stream's were written, if no
// others were.
fn one_zero_encoded(
    alloc: Global,
    there: usize,
    fails: u64,
    room: usize,
) -> Option<(Result<Report, EncodeFault>, usize, usize)> {
    let Ok(mut sink) = MemSink::new(alloc, room, 300, &[]) else {
        return None;
    };
    let file = one_zero_file();
    let Some((answer, left)) = encoded(
        alloc,
        file.get(..there).unwrap_or(&[]),
        Rate::K128,
        fails,
        &mut sink,
    ) else {
        return None;
    };
    if one_zero_stream().starts_with(sink.bytes()) {
        Some((answer, left, sink.bytes().len()))
    } else {
        None
    }
}

#[test]
fn one_zero_sample_and_faults(rt: HostRuntime) {
    let whole = Ok(Report {
        frames: 2,
        tried: 4,
        made: 4,
    });

    // The file cut to this length, the read that fails, room in the sink, the answer, how many
    // bytes are left and how many were written.
    for (there, fails, room, answer, left, written) in [
        (50, 1000, 10000, whole, 4, 835),
        (
            11,
            1000,
            10000,
            Err(EncodeFault::Wav(WavFault::HeaderEnds)),
            0,
            0,
        ),
        (50, 0, 10000, Err(EncodeFault::Read), 50, 0),
        (50, 4, 10000, Err(EncodeFault::Read), 6, 0),
        (50, 1000, 100, Err(EncodeFault::Write), 4, 100),
    ] {
        let found = one_zero_encoded(rt.alloc(), there, fails, room);
        assert!(rt; found == Some((answer, left, written)));
    }
}

// Encodes 4000 samples of zero, where this read fails: the answer, and how many bytes of the whole
// stream were written, if no others were.
fn zeros_cut_short(alloc: Global, fails: u64) -> Option<(Result<Report, EncodeFault>, usize)> {
    let file = zeros(&MONO, 8000);
    let Some(bytes) = file.get(..8044) else {
        return None;
    };
    let Some((_, stream)) = whole(alloc, bytes, Rate::K128) else {
        return None;
    };
    let Ok(mut sink) = MemSink::new(alloc, 10000, 300, &[]) else {
        return None;
    };
    let Some((answer, _)) = encoded(alloc, bytes, Rate::K128, fails, &mut sink) else {
        return None;
    };
    if stream.bytes().starts_with(sink.bytes()) {
        Some((answer, sink.bytes().len()))
    } else {
        None
    }
}

// The first 3456 samples were read when the read fails: of the frames that were pushed just the
// first is given, since no later one's main data can reach into its slot.
#[test]
fn failed_read_in_mid_stream_leaves_a_front(rt: HostRuntime) {
    assert!(rt; zeros_cut_short(rt.alloc(), 76) == Some((Err(EncodeFault::Read), 417)));
}
