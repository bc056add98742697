//! Heads of WAV files, taken and refused, and samples, with reads that fail.

use crate::memory::from_memory;
use l3_base::{Channels, Failed, ReadFault, SampleRate};
use l3_io::{MemSource, Source};
use l3_wav::{Samples, WavFault, WavHead, open};
use std::alloc::{AllocError, Global};

// One zero sample, mono, 44100 Hz.
const ONE_ZERO_SAMPLE: [u8; 46] =
    *b"RIFF\x26\0\0\0WAVEfmt \x10\0\0\0\x01\0\x01\0\x44\xAC\0\0\x88\x58\x01\0\x02\0\x10\0data\x02\0\0\0\0\0";

// A comment of 27 bytes and a pad byte; the size of the data is unknown.
const ODD_CHUNK: &[u8] =
    b"RIFF\x4A\0\0\0WAVELIST\x1B\0\0\0INFOICMT\x0F\0\0\0fifteen letters\0fmt \x10\0\0\0\x01\0\x01\0\x44\xAC\0\0\x88\x58\x01\0\x02\0\x10\0data\x02\0\0\0\x07\x09";

// As ffmpeg writes to a pipe.
const FROM_A_PIPE: &[u8] =
    b"RIFF\xFF\xFF\xFF\xFFWAVEfmt \x10\0\0\0\x01\0\x02\0\x44\xAC\0\0\x10\xB1\x02\0\x04\0\x10\0LIST\x1A\0\0\0INFOISFT\x0E\0\0\0Lavf59.27.100\0data\xFF\xFF\xFF\xFF\x07\x09";

// As sox writes the extensible form.
const EXTENSIBLE: &[u8] =
    b"RIFF\x4A\0\0\0WAVEfmt \x28\0\0\0\xFE\xFF\x02\0\x80\xBB\0\0\0\xEE\x02\0\x04\0\x10\0\x16\0\x10\0\x03\0\0\0\x01\0\0\0\0\0\x10\0\x80\0\0\xAA\0\x38\x9B\x71fact\x04\0\0\0\0\0\0\0data\x04\0\0\0\x07\x09";

// The same with the subformat of floats.
const FLOATS: &[u8] =
    b"RIFF\x4A\0\0\0WAVEfmt \x28\0\0\0\xFE\xFF\x02\0\x80\xBB\0\0\0\xEE\x02\0\x04\0\x10\0\x16\0\x10\0\x03\0\0\0\x03\0\0\0\0\0\x10\0\x80\0\0\xAA\0\x38\x9B\x71fact\x04\0\0\0\0\0\0\0data\x04\0\0\0\x07\x09";

// A format, then one of other channels and another rate.
const TWO_FORMATS: &[u8] =
    b"RIFF\x40\0\0\0WAVEfmt \x12\0\0\0\x01\0\x02\0\x00\x7D\0\0\0\xF4\x01\0\x04\0\x10\0\0\0fmt \x10\0\0\0\x01\0\x01\0\x44\xAC\0\0\x88\x58\x01\0\x02\0\x08\0data\x09\0\0\0\x07\x09";

const fn head(channels: Channels, rate: SampleRate, data_bytes: u32) -> WavHead {
    WavHead {
        channels,
        rate,
        data_bytes,
    }
}

// A file is opened in reads of at most 7 bytes, of which these fail: the answer, and what a read
// of eight bytes gives after it.
fn opened(
    alloc: Global,
    bytes: &[u8],
    fails: &[u64],
) -> Result<(Result<WavHead, WavFault>, Result<usize, Failed>, [u8; 8]), AllocError> {
    let mut source = MemSource::new(alloc, bytes, 7, fails)?;
    let answer = open(&mut source);
    let mut rest = [1; 8];
    let count = source.read(&mut rest);
    Ok((answer, count, rest))
}

// Two bytes, 7 and 9, are left of each file.
static ACCEPTED: [(&[u8], Channels, SampleRate, u32); 4] = [
    (ODD_CHUNK, Channels::Mono, SampleRate::Hz44100, 2),
    (
        FROM_A_PIPE,
        Channels::Stereo,
        SampleRate::Hz44100,
        4294967295,
    ),
    (EXTENSIBLE, Channels::Stereo, SampleRate::Hz48000, 4),
    (TWO_FORMATS, Channels::Stereo, SampleRate::Hz32000, 9),
];

#[test]
fn accepted_heads(rt: HostRuntime) {
    for row in 0..4 {
        let (bytes, channels, rate, data_bytes) = ACCEPTED[row];
        let seen = opened(rt.alloc(), bytes, &[]);
        let accepted = Ok(head(channels, rate, data_bytes));
        assert!(rt;
            seen == Ok((accepted, Ok(2), [7, 9, 1, 1, 1, 1, 1, 1])),
            "row {row}"
        );
    }
}

static REFUSED_BEFORE_TWO_BYTES: [(&[u8], WavFault); 3] = [
    (b"RIFX\x26\0\0\0WAVE\x07\x09", WavFault::NotRiff),
    (
        b"RIFF\x26\0\0\0WAVEdata\0\0\0\0\x07\x09",
        WavFault::NoFmtBeforeData,
    ),
    (
        b"RIFF\x26\0\0\0WAVEfmt \x01\0\0\0\0\0\x07\x09",
        WavFault::UnsupportedFormat,
    ),
];

#[test]
fn nothing_is_read_after_a_refusal(rt: HostRuntime) {
    for row in 0..3 {
        let (bytes, fault) = REFUSED_BEFORE_TWO_BYTES[row];
        let seen = opened(rt.alloc(), bytes, &[]);
        assert!(rt;
            seen == Ok((Err(fault), Ok(2), [7, 9, 1, 1, 1, 1, 1, 1])),
            "row {row}"
        );
    }
}

// Why a file is refused where its reads of at most 7 bytes fail at these numbers; `None` where it
// is opened.
fn refusal(alloc: Global, bytes: &[u8], fails: &[u64]) -> Result<Option<WavFault>, AllocError> {
    let mut source = MemSource::new(alloc, bytes, 7, fails)?;
    Ok(open(&mut source).err())
}

static REFUSED: [(&[u8], WavFault); 9] = [
    (b"", WavFault::HeaderEnds),
    (b"RIFF\x26\0\0\0WAV", WavFault::HeaderEnds),
    (b"RIFX\x26\0\0\0WAVE", WavFault::NotRiff),
    (b"RIFF\x26\0\0\0AVI ", WavFault::NotRiff),
    (b"RIFF\x26\0\0\0WAVEdata\0\0\0", WavFault::HeaderEnds),
    (b"RIFF\x26\0\0\0WAVEdata\0\0\0\0", WavFault::NoFmtBeforeData),
    // 20 + 1048558 bytes, and 20 + 1048556.
    (
        b"RIFF\x26\0\0\0WAVELIST\xED\xFF\x0F\0",
        WavFault::HeaderTooLong,
    ),
    (
        b"RIFF\x26\0\0\0WAVELIST\xEC\xFF\x0F\0",
        WavFault::HeaderEnds,
    ),
    (FLOATS, WavFault::UnsupportedFormat),
];

#[test]
fn refused_heads(rt: HostRuntime) {
    for row in 0..9 {
        let (bytes, fault) = REFUSED[row];
        assert!(rt;
            refusal(rt.alloc(), bytes, &[]) == Ok(Some(fault)),
            "row {row}"
        );
    }
}

// The head of one zero sample, two bytes of which are others.
fn with_others(at: usize, others: [u8; 2]) -> [u8; 46] {
    let mut bytes = ONE_ZERO_SAMPLE;
    if let Some(field) = bytes.get_mut(at..at.saturating_add(2)) {
        field.copy_from_slice(&others);
    }
    bytes
}

static OTHERS: [(usize, [u8; 2], WavFault); 7] = [
    (16, [14, 0], WavFault::UnsupportedFormat),
    (20, [3, 0], WavFault::UnsupportedFormat),
    (22, [0, 0], WavFault::UnsupportedChannels),
    (22, [3, 0], WavFault::UnsupportedChannels),
    (24, [0x22, 0x56], WavFault::UnsupportedRate),
    (34, [8, 0], WavFault::UnsupportedDepth),
    (32, [4, 0], WavFault::BadBlockAlign),
];

#[test]
fn refused_fields(rt: HostRuntime) {
    for row in 0..7 {
        let (at, others, fault) = OTHERS[row];
        let bytes = with_others(at, others);
        assert!(rt;
            refusal(rt.alloc(), &bytes, &[]) == Ok(Some(fault)),
            "row {row}"
        );
    }
}

// Nine reads of at most 7 bytes give the head.
static FAILS: [u64; 5] = [0, 1, 3, 6, 8];

#[test]
fn a_read_fails_in_the_head(rt: HostRuntime) {
    for row in 0..5 {
        let refused = refusal(rt.alloc(), &ONE_ZERO_SAMPLE, &[FAILS[row]]);
        assert!(rt; refused == Ok(Some(WavFault::Read)), "row {row}");
    }
}

// After the fault of the fourth read, of the 8 bytes of a chunk, no other byte is gone.
#[test]
fn a_failed_read_leaves_the_rest(rt: HostRuntime) {
    let seen = opened(rt.alloc(), &ONE_ZERO_SAMPLE, &[3]);
    let rest = [0, 1, 0, 1, 0, 0x44, 0xAC, 1];
    assert!(rt; seen == Ok((Err(WavFault::Read), Ok(7), rest)));
}

// The tenth read, the first of the data, fails.
#[test]
fn a_read_fails_behind_the_head(rt: HostRuntime) {
    let seen = opened(rt.alloc(), &ONE_ZERO_SAMPLE, &[9]);
    let accepted = head(Channels::Mono, SampleRate::Hz44100, 2);
    assert!(rt; seen == Ok((Ok(accepted), Err(Failed), [1; 8])));
}

// Two samples and then four are asked for, of a head that declares 10 bytes of stereo: what is
// given of the first two, of the others, and of the bytes behind them.
fn stereo_values<S: Source>(source: &mut S) -> Option<([i16; 2], usize, [i16; 4], usize)> {
    let mut samples = Samples::new(&head(Channels::Stereo, SampleRate::Hz44100, 10));
    let mut first = [7; 2];
    if samples.next(source, &mut first) != Ok(2) {
        return None;
    }
    let mut second = [7; 4];
    let count = samples.next(source, &mut second).ok()?;
    let rest = source.read(&mut [0; 4]).ok()?;
    Some((first, count, second, rest))
}

// Two samples of stereo and a rest of three bytes, of which the head declares two; then a byte of
// another chunk.
#[test]
fn samples_in_order(rt: HostRuntime) {
    let bytes = b"\x01\0\xFF\xFF\0\x80\xFF\x7F\x05\x05\x05";
    let seen = from_memory(rt.alloc(), bytes, 3, &[], |source| stereo_values(source));
    assert!(rt; seen == Ok(Some(([1, -1], 2, [-32768, 32767, 7, 7], 1))));
}

// Two values are asked for twice: what is answered the second time, where the first two are given,
// and whether a read has failed then.
fn second_values<S: Source>(source: &mut S) -> Option<(Result<usize, ReadFault>, bool)> {
    let mut samples = Samples::new(&head(Channels::Mono, SampleRate::Hz44100, 6));
    let mut out = [0; 2];
    if samples.next(source, &mut out) != Ok(2) {
        return None;
    }
    let answer = samples.next(source, &mut out);
    Some((answer, samples.failed()))
}

#[test]
fn a_read_fails_in_the_data(rt: HostRuntime) {
    let bytes = b"\x01\0\x02\0\x03\0";
    let seen = from_memory(rt.alloc(), bytes, 2, &[2], |source| second_values(source));
    assert!(rt; seen == Ok(Some((Err(ReadFault), true))));
}
