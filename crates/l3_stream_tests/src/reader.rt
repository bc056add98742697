use crate::rows::check_row;
use l3_frames::{FrameReader, StreamFault, read_stream};
use l3_io::{MemSource, Source, SteadySource, read_full};
use std::alloc::Global;

// Sets bytes at places.
fn set(bytes: &mut [u8; 835], changes: &[(usize, u8)]) {
    for (at, value) in changes {
        if *at < 835 {
            bytes[*at] = *value;
        }
    }
}

// The stream of one zero sample, with some bytes changed: mono, 44100 Hz, 128 kbit/s;
// main_data_begin of the second frame is 396.
fn zero_sample_with(changes: &[(usize, u8)]) -> [u8; 835] {
    let mut bytes = [0; 835];
    set(&mut bytes, &[(0, 0xFF), (1, 0xFB), (2, 0x90), (3, 0xC0)]);
    set(
        &mut bytes,
        &[
            (417, 0xFF),
            (418, 0xFB),
            (419, 0x92),
            (420, 0xC0),
            (421, 0xC6),
        ],
    );
    set(&mut bytes, changes);
    bytes
}

// How many bytes a source has left, at most 3000 here, or `None` where a read fails.
fn bytes_left<S: Source>(source: &mut S) -> Option<usize> {
    let mut rest = [0; 3000];
    read_full(source, &mut rest).ok()
}

// How many frames a source has, and how many bytes are left then.
fn frames_in<S: Source>(
    alloc: Global,
    limit: u16,
    source: &mut S,
) -> (Result<usize, StreamFault>, Option<usize>) {
    let read = match read_stream(alloc, u32::from(limit), source) {
        Ok(stream) => Ok(stream.frames.len()),
        Err(fault) => Err(fault),
    };
    (read, bytes_left(source))
}

// The same of bytes.
fn frames_read(
    alloc: Global,
    limit: u16,
    bytes: &[u8],
) -> (Result<usize, StreamFault>, Option<usize>) {
    match SteadySource::new(alloc, bytes) {
        Ok(mut source) => frames_in(alloc, limit, &mut source),
        Err(_) => (Err(StreamFault::Memory), None),
    }
}

// The same of the first bytes of one zero sample.
fn front_read(
    alloc: Global,
    limit: u16,
    length: usize,
) -> (Result<usize, StreamFault>, Option<usize>) {
    let whole = zero_sample_with(&[]);
    frames_read(alloc, limit, whole.get(..length).unwrap_or(&[]))
}

#[test]
fn one_zero_sample(rt: HostRuntime) {
    assert!(rt; front_read(rt.alloc(), 2, 835) == (Ok(2), Some(0)));
    assert!(rt; front_read(rt.alloc(), 2, 0) == (Ok(0), Some(0)));
}

#[test]
fn one_frame_too_many(rt: HostRuntime) {
    let fault = Err(StreamFault::TooLong(417));
    assert!(rt; front_read(rt.alloc(), 1, 835) == (fault, Some(414)));
}

#[test]
fn a_frame_that_is_cut(rt: HostRuntime) {
    let fault = Err(StreamFault::ShortFrame(417));
    assert!(rt; front_read(rt.alloc(), 2, 834) == (fault, Some(0)));
}

// One byte is changed: the last one, the first, the first frame's padding, the second header, a
// begin of 397, a private bit. Behind a header that refuses its frame 4 bytes of the frame are
// gone, behind any other fault all of them.
// Last the first unit's part2_3_length is 1, and the bit 0 is no whole code. Just the first frame
// is gone then.
#[test]
fn deviations_of_one_zero_sample(rt: HostRuntime) {
    for (at, value, fault, left) in [
        (834u16, 0x01, StreamFault::NotZero(6343), 0),
        (0, 0x00, StreamFault::BadHeader(0), 831),
        (2, 0x92, StreamFault::BadHeader(0), 831),
        (417, 0x00, StreamFault::BadHeader(417), 414),
        (422, 0x80, StreamFault::BadBegin(417), 0),
        (422, 0x40, StreamFault::BadSide(417), 0),
        (7, 0x04, StreamFault::BadCode(0), 418),
    ] {
        let bytes = zero_sample_with(&[(usize::from(at), value)]);
        let found = frames_read(rt.alloc(), 2, &bytes);
        check_row(&rt, u32::from(at), found == (Err(fault), Some(left)));
    }
}

// The same where pieces of 100 bytes are read and read 7 fails.
fn frames_before_a_fault(alloc: Global) -> (Result<usize, StreamFault>, Option<usize>) {
    match MemSource::new(alloc, &zero_sample_with(&[]), 100, &[7]) {
        Ok(mut source) => frames_in(alloc, 2, &mut source),
        Err(_) => (Err(StreamFault::Memory), None),
    }
}

// The first frame takes 6 reads, the second header one, and the next one fails.
#[test]
fn a_read_fails_in_mid_stream(rt: HostRuntime) {
    let fault = Err(StreamFault::Read);
    assert!(rt; frames_before_a_fault(rt.alloc()) == (fault, Some(414)));
}

// Whether a reader knows the settings, and then the begin of the next frame.
fn next_begin(
    reader: &mut FrameReader,
    source: &mut SteadySource,
) -> (bool, Result<Option<u16>, StreamFault>) {
    let known = reader.settings().is_some();
    let next = match reader.next(source) {
        Ok(Some(frame)) => Ok(Some(frame.begin)),
        Ok(None) => Ok(None),
        Err(fault) => Err(fault),
    };
    (known, next)
}

// What four calls in turn answer.
fn four_begins(source: &mut SteadySource) -> [(bool, Result<Option<u16>, StreamFault>); 4] {
    let mut reader = FrameReader::new(2);
    let first = next_begin(&mut reader, source);
    let second = next_begin(&mut reader, source);
    let third = next_begin(&mut reader, source);
    let fourth = next_begin(&mut reader, source);
    [first, second, third, fourth]
}

#[test]
fn one_frame_after_the_other(rt: HostRuntime) {
    let mut source = SteadySource::new(rt.alloc(), &zero_sample_with(&[])).expect(&rt, "memory");
    let end = (true, Ok(None));
    let wanted = [(false, Ok(Some(0))), (true, Ok(Some(396))), end, end];
    assert!(rt; four_begins(&mut source) == wanted);
}

#[test]
fn reading_stops_at_a_fault(rt: HostRuntime) {
    let bytes = zero_sample_with(&[(417, 0x00)]);
    let mut source = SteadySource::new(rt.alloc(), &bytes).expect(&rt, "memory");
    let fault = (true, Err(StreamFault::BadHeader(417)));
    let wanted = [(false, Ok(Some(0))), fault, fault, fault];
    assert!(rt; four_begins(&mut source) == wanted);
    assert!(rt; bytes_left(&mut source) == Some(414));
}
