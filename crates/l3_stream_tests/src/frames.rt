ghost use Rattle.std.specs.Prelude.{◌+◌, ◌≤◌, length, IfSome};

use l3_base::{Channels, Rate, SampleRate, Settings};
use l3_frames::FrameWriter;
use l3_io::MemSink;
use l3_stream::{ChosenFrame, Unit};
use std::alloc::Global;

const COMMON: Settings = Settings {
    rate: Rate::K128,
    sample_rate: SampleRate::Hz44100,
    channels: Channels::Mono,
};

const LOWEST: Settings = Settings {
    rate: Rate::K32,
    sample_rate: SampleRate::Hz48000,
    channels: Channels::Stereo,
};

const HIGHEST: Settings = Settings {
    rate: Rate::K320,
    sample_rate: SampleRate::Hz44100,
    channels: Channels::Mono,
};

// A unit of one pair of table 1, or of none where its first line is 0.
fn unit_of(first: i16) -> Unit {
    let mut unit = Unit::blank();
    if first != 0 {
        unit.length = 3;
        unit.big = 1;
        unit.tables[0] = 1;
        unit.lines[0] = first;
    }
    unit
}

fn frame_of(begin: u16, first: i16) -> ChosenFrame {
    let none = Unit::blank();
    ChosenFrame {
        begin,
        units: [[unit_of(first), none], [none; 2]],
    }
}

// Pushes a frame, where it fits, and says whether it does and no write failed.
fn push_fitting(writer: &mut FrameWriter, frame: &ChosenFrame, sink: &mut MemSink) -> bool
    requires { writer.old.frames ≤ 20 }
    ensures { writer.new.frames ≤ writer.old.frames + 1 }
{
    if writer.failed() || !writer.fits(frame) {
        return false;
    }
    writer.push(frame, sink).is_ok()
}

// A writer with these frames, each by its begin and first line, or `None` where one does not fit or
// a write fails.
fn writer_with(settings: Settings, frames: &[(u16, i16)], sink: &mut MemSink) -> Option<FrameWriter>
    requires { length frames.now ≤ 20 }
    ensures { IfSome result (λ writer. writer.frames ≤ 20) }
{
    let mut writer = FrameWriter::new(settings);
    for (begin, first) in frames {
        if !push_fitting(&mut writer, &frame_of(*begin, *first), sink) {
            return None;
        }
    }
    Some(writer)
}

// Writes these frames to their end, and says whether no write failed.
fn is_written(settings: Settings, frames: &[(u16, i16)], sink: &mut MemSink) -> bool
    requires { length frames.now ≤ 20 }
{
    match writer_with(settings, frames, sink) {
        None => false,
        Some(mut writer) => !writer.failed() && writer.finish(sink).is_ok(),
    }
}

// The first place at which the bytes are not these.
fn first_other(bytes: &[u8], pieces: &[(usize, [u8; 6])]) -> Option<usize> {
    for (at, piece) in pieces {
        if !bytes.get(*at..).unwrap_or(&[]).starts_with(piece) {
            return Some(*at);
        }
    }
    None
}

// The length of a stream of frames, and the first place at which it has other bytes than these;
// `None` where it is not written.
fn compared(
    alloc: Global,
    settings: Settings,
    frames: &[(u16, i16)],
    pieces: &[(usize, [u8; 6])],
) -> Option<(usize, Option<usize>)>
    requires { length frames.now ≤ 20 }
{
    let Ok(mut sink) = MemSink::new(alloc, 4096, 500, &[]) else {
        return None;
    };
    if is_written(settings, frames, &mut sink) {
        Some((sink.bytes().len(), first_other(sink.bytes(), pieces)))
    } else {
        None
    }
}

// From these places on stand these bytes: the header of a frame, and its begin in the 9 bits after
// it.
#[test]
fn silent_frames(rt: HostRuntime) {
    let fronts = [
        (0, [0xFF, 0xFB, 0x90, 0xC0, 0x00, 0x00]),
        (417, [0xFF, 0xFB, 0x92, 0xC0, 0xC6, 0x00]),
        (835, [0xFF, 0xFB, 0x92, 0xC0, 0xFF, 0x80]),
    ];
    let frames = [(0, 0), (396, 0), (511, 0)];
    assert!(rt; compared(rt.alloc(), COMMON, &frames, &fronts) == Some((1253, None)));
}

#[test]
fn silent_frames_at_the_lowest_rate(rt: HostRuntime) {
    let fronts = [
        (0, [0xFF, 0xFB, 0x14, 0x00, 0x00, 0x00]),
        (96, [0xFF, 0xFB, 0x14, 0x00, 0x1E, 0x00]),
        (768, [0xFF, 0xFB, 0x14, 0x00, 0xF0, 0x00]),
        (864, [0xFF, 0xFB, 0x14, 0x00, 0xFF, 0x80]),
        (960, [0xFF, 0xFB, 0x14, 0x00, 0xFF, 0x80]),
    ];
    let frames = [
        (0, 0),
        (60, 0),
        (120, 0),
        (180, 0),
        (240, 0),
        (300, 0),
        (360, 0),
        (420, 0),
        (480, 0),
        (511, 0),
        (511, 0),
    ];
    assert!(rt; compared(rt.alloc(), LOWEST, &frames, &fronts) == Some((1056, None)));
}

// Header, main_data_begin and the first unit's fields; the codes 010 and 011, each from a whole
// byte on, and zeros.
#[test]
fn two_frames_share_a_slot(rt: HostRuntime) {
    let pieces = [
        (0, [0xFF, 0xFB, 0x90, 0xC0, 0, 0]),
        (6, [0, 12, 2, 0, 0, 0x80]),
        (21, [0x40, 0x60, 0, 0, 0, 0]),
        (27, [0; 6]),
        (417, [0xFF, 0xFB, 0x92, 0xC0, 0xC5, 0x80]),
        (423, [0, 12, 2, 0, 0, 0x80]),
        (438, [0; 6]),
        (444, [0; 6]),
    ];
    let frames = [(0, 1), (395, -1)];
    assert!(rt; compared(rt.alloc(), COMMON, &frames, &pieces) == Some((835, None)));
}

// Whether frames of this first line fit behind others with these begins.
fn fit_behind(
    alloc: Global,
    frames: &[(u16, i16)],
    begins: [u16; 2],
    first: i16,
) -> Option<[bool; 2]>
    requires { length frames.now ≤ 20 }
{
    let Ok(mut sink) = MemSink::new(alloc, 4096, 500, &[]) else {
        return None;
    };
    match writer_with(COMMON, frames, &mut sink) {
        None => None,
        Some(writer) => Some(begins.map(|begin| writer.fits(&frame_of(begin, first)))),
    }
}

// The codes so far end in byte 0 of 396.
#[test]
fn what_fits_behind_codes(rt: HostRuntime) {
    let one = [(0, 1)];
    assert!(rt; fit_behind(rt.alloc(), &one, [397, 396], 1) == Some([false, false]));
    assert!(rt; fit_behind(rt.alloc(), &one, [395, 0], 1) == Some([true, true]));
}

// Without codes the whole tape is open, but for the 9 bits of main_data_begin.
#[test]
fn what_fits_behind_silence(rt: HostRuntime) {
    assert!(rt; fit_behind(rt.alloc(), &[], [1, 0], 0) == Some([false, true]));
    let two = [(0, 0), (396, 0)];
    assert!(rt; fit_behind(rt.alloc(), &two, [511, 512], 0) == Some([true, false]));
}

// Pushes three silent frames: how many bytes the sink has after each, whether each push was well,
// and whether the writer has failed then.
fn three_pushes(sink: &mut MemSink) -> ([usize; 3], [bool; 3], bool) {
    let mut writer = FrameWriter::new(HIGHEST);
    let frame = frame_of(0, 0);
    let mut lengths = [0; 3];
    let mut well = [false; 3];
    for push in 0..3 {
        well[push] = push_fitting(&mut writer, &frame, sink);
        lengths[push] = sink.bytes().len();
    }
    (lengths, well, writer.failed())
}

// Whether three pushes into a sink of 1054 bytes end so. The first frame has 1044 bytes, and is
// given with the second one's push.
fn fails_in_the_second_frame(alloc: Global) -> bool {
    let Ok(mut sink) = MemSink::new(alloc, 1054, 500, &[]) else {
        return false;
    };
    let pushes = three_pushes(&mut sink);
    let fronts = [
        (0, [0xFF, 0xFB, 0xE0, 0xC0, 0, 0]),
        (1044, [0xFF, 0xFB, 0xE2, 0xC0, 0, 0]),
        (1048, [0; 6]),
    ];
    pushes == ([0, 1044, 1054], [true, true, false], true)
        && first_other(sink.bytes(), &fronts) == None
}

#[test]
fn a_write_fails_in_the_second_frame(rt: HostRuntime) {
    assert!(rt; fails_in_the_second_frame(rt.alloc()));
}

// Whether a new writer has failed, its end is written well, it has failed then, and no byte is.
fn finished(alloc: Global) -> Option<[bool; 4]> {
    let Ok(mut sink) = MemSink::new(alloc, 4096, 500, &[]) else {
        return None;
    };
    let mut writer = FrameWriter::new(COMMON);
    let before = writer.failed();
    let well = writer.finish(&mut sink).is_ok();
    Some([before, well, writer.failed(), sink.bytes().is_empty()])
}

#[test]
fn a_finished_writer_has_ended(rt: HostRuntime) {
    assert!(rt; finished(rt.alloc()) == Some([false, true, true, true]));
}
