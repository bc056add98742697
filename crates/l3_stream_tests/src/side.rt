ghost use Rattle.std.specs.Prelude.{◌≡◌, ◌≤◌, length};
ghost use Rattle.l3_stream.specs.Side.{side_bytes};

use crate::rows::check_row;
use l3_base::{Channels, Rate, SampleRate, Settings};
use l3_bits::put_bits;
use l3_stream::{
    ChosenFrame, QuadTable, Unit, is_coded, read_header, read_side, write_header, write_side,
};

fn settings_of(rate: Rate, sample_rate: SampleRate, channels: Channels) -> Settings
    ensures { result.channels ≡ channels }
{
    Settings {
        rate,
        sample_rate,
        channels,
    }
}

fn settings(channels: Channels) -> Settings
    ensures { result.channels ≡ channels }
{
    settings_of(Rate::K128, SampleRate::Hz44100, channels)
}

// Whether these are the bytes of a header, read and written: frame 0 is never padded, and at 44100
// Hz frame 1 is.
fn are_header(settings: &Settings, padded: bool, bytes: [u8; 4]) -> bool {
    write_header(settings, u64::from(padded)) == bytes
        && read_header(&bytes) == Some((*settings, padded))
}

#[test]
fn headers_both_ways(rt: HostRuntime) {
    let common = settings(Channels::Mono);
    assert!(rt; are_header(&common, false, [0xFF, 0xFB, 0x90, 0xC0]));
    assert!(rt; are_header(&common, true, [0xFF, 0xFB, 0x92, 0xC0]));
    let highest = settings_of(Rate::K320, SampleRate::Hz44100, Channels::Mono);
    assert!(rt; are_header(&highest, false, [0xFF, 0xFB, 0xE0, 0xC0]));
    assert!(rt; are_header(&highest, true, [0xFF, 0xFB, 0xE2, 0xC0]));
}

// No frame at 48000 Hz is padded, but the header alone does not tell.
#[test]
fn headers_that_are_never_padded(rt: HostRuntime) {
    let lowest = settings_of(Rate::K32, SampleRate::Hz48000, Channels::Stereo);
    assert!(rt; are_header(&lowest, false, [0xFF, 0xFB, 0x14, 0x00]));
    assert!(rt; read_header(&[0xFF, 0xFB, 0x16, 0x00]) == Some((lowest, true)));
}

// Whether the header FF FB 90 C0 is read with one byte changed.
fn is_header_with(at: usize, value: u8) -> bool {
    let mut bytes = [0xFF, 0xFB, 0x90, 0xC0];
    if at < 4 {
        bytes[at] = value;
    }
    read_header(&bytes).is_some()
}

// One field each: sync, ID, layer, protection_bit, bitrate_index 0 and 15, sampling_frequency,
// private, mode 01 and 10, mode_extension, copyright, original, emphasis.
#[test]
fn refused_headers(rt: HostRuntime) {
    for (at, value) in [
        (0, 0x00),
        (1, 0xF3),
        (1, 0xFD),
        (1, 0xFA),
        (2, 0x00),
        (2, 0xF0),
        (2, 0x9C),
        (2, 0x91),
        (3, 0x40),
        (3, 0x80),
        (3, 0xE0),
        (3, 0xC8),
        (3, 0xC4),
        (3, 0xC1),
    ] {
        check_row(&rt, u32::from(value), !is_header_with(at, value));
    }
}

// A unit of zero lines. `counts` are its bits, pairs and quadruples, `regions` its region counts.
fn unit_of(counts: [u16; 3], gain: u8, tables: [u8; 3], regions: [u8; 2], quad: QuadTable) -> Unit {
    let mut unit = Unit::blank();
    unit.length = counts[0];
    unit.big = counts[1];
    unit.quads = counts[2];
    unit.gain = gain;
    unit.tables = tables;
    unit.region0 = regions[0];
    unit.region1 = regions[1];
    unit.quad = quad;
    unit
}

fn number_of(table: QuadTable) -> u16 {
    match table {
        QuadTable::A => 0,
        QuadTable::B => 1,
    }
}

// The fields of a unit that side information has.
fn fields_of(unit: &Unit) -> [u16; 9] {
    [
        unit.length,
        unit.big,
        u16::from(unit.gain),
        u16::from(unit.region0),
        u16::from(unit.region1),
        u16::from(unit.tables[0]),
        u16::from(unit.tables[1]),
        u16::from(unit.tables[2]),
        number_of(unit.quad),
    ]
}

// The same of all units of a frame.
fn all_fields_of(frame: &ChosenFrame) -> [[u16; 9]; 4] {
    let [[a, b], [c, d]] = &frame.units;
    [fields_of(a), fields_of(b), fields_of(c), fields_of(d)]
}

// Whether no unit of a frame has quadruples.
fn has_no_quads(frame: &ChosenFrame) -> bool {
    let [[a, b], [c, d]] = &frame.units;
    [a.quads, b.quads, c.quads, d.quads] == [0; 4]
}

// Whether the frame is coded and its side information is just these bytes.
fn is_written(settings: &Settings, frame: &ChosenFrame, bytes: &[u8]) -> bool
    requires begin { frame.now.begin ≤ 511 }
{
    if !is_coded(settings, frame) {
        return false;
    }
    let mut out = [0xAA; 32];
    let size = write_side(settings, frame, &mut out);
    out.get(..size) == Some(bytes)
}

// Whether these bytes are read to the frame's fields, and to no quadruples.
fn is_read(settings: &Settings, frame: &ChosenFrame, bytes: &[u8]) -> bool
    requires size { length bytes.now ≡ side_bytes settings.now.channels }
{
    match read_side(settings, bytes) {
        None => false,
        Some(read) => {
            read.begin == frame.begin
                && has_no_quads(&read)
                && all_fields_of(&read) == all_fields_of(frame)
        },
    }
}

// The codes of a pair of zeros have 1 bit in the tables 1, 7 and 10, 2 in table 11, 4 in table 24,
// and a quadruple of zeros has 4 in table B.
#[test]
fn a_mono_frame_both_ways(rt: HostRuntime) {
    let first = unit_of([9, 5, 1], 150, [7, 10, 24], [1, 2], QuadTable::B);
    let second = unit_of([10, 5, 0], 210, [11, 6, 31], [3, 5], QuadTable::A);
    let frame = ChosenFrame {
        begin: 257,
        units: [[first, Unit::blank()], [second, Unit::blank()]],
    };
    let bytes = [
        0x80, 0x80, 0x00, 0x24, 0x0B, 0x2C, 0x03, 0xAB, 0x02, 0x88, 0x05, 0x01, 0x74, 0x80, 0xB3,
        0x7C, 0xE8,
    ];
    assert!(rt; is_written(&settings(Channels::Mono), &frame, &bytes));
    assert!(rt; is_read(&settings(Channels::Mono), &frame, &bytes));
}

#[test]
fn a_stereo_frame_both_ways(rt: HostRuntime) {
    let first = unit_of([9, 5, 1], 150, [7, 10, 24], [1, 2], QuadTable::B);
    let second = unit_of([10, 5, 0], 210, [11, 6, 31], [3, 5], QuadTable::A);
    let third = unit_of([4, 1, 0], 77, [24, 3, 9], [4, 6], QuadTable::A);
    let fourth = unit_of([6, 2, 1], 255, [1, 12, 2], [15, 5], QuadTable::B);
    let frame = ChosenFrame {
        begin: 511,
        units: [[first, second], [third, fourth]],
    };
    let bytes = [
        0xFF, 0x80, 0x00, 0x09, 0x02, 0xCB, 0x00, 0xEA, 0xC0, 0xA2, 0x01, 0x40, 0x5D, 0x20, 0x2C,
        0xDF, 0x3A, 0x00, 0x10, 0x02, 0x9A, 0x0C, 0x0D, 0x29, 0x80, 0x03, 0x00, 0xBF, 0xC0, 0x16,
        0x0B, 0xE9,
    ];
    assert!(rt; is_written(&settings(Channels::Stereo), &frame, &bytes));
    assert!(rt; is_read(&settings(Channels::Stereo), &frame, &bytes));
}

// Whether side information of zeros is read in mono with so many bits, of at most 9, from bit `at`
// on changed.
fn is_read_with(at: u32, value: u64, width: u32) -> bool {
    let mut bytes = [0; 17];
    put_bits(&mut bytes, u64::from(at.min(127)), value, width.min(9));
    read_side(&settings(Channels::Mono), &bytes).is_some()
}

// private_bits, scfsi, then of the first unit scalefac_compress, window_switching_flag, preflag and
// scalefac_scale.
#[test]
fn fields_that_must_be_zero(rt: HostRuntime) {
    for at in [13, 17, 50, 51, 74, 75] {
        check_row(&rt, at, !is_read_with(at, 1, 1));
    }
}

// The three of table_select, big_values, and the counts of regions.
#[test]
fn fields_out_of_range(rt: HostRuntime) {
    for (at, value, width) in [
        (52, 4, 5),
        (57, 14, 5),
        (62, 13, 5),
        (30, 289, 9),
        (67, 0b1111_110, 7),
    ] {
        check_row(&rt, at, !is_read_with(at, value, width));
    }
}

// main_data_begin, part2_3_length in part, big_values, and the counts of regions.
#[test]
fn greatest_fields(rt: HostRuntime) {
    for (at, value, width) in [(0, 511, 9), (18, 511, 9), (30, 288, 9), (67, 0b1111_101, 7)] {
        check_row(&rt, at, is_read_with(at, value, width));
    }
}
