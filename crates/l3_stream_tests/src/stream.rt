use crate::rows::check_row;
use l3_base::{Channels, Rate, SampleRate, Settings};
use l3_stream::{ChosenFrame, StreamFault, Unit, is_coded};

// The pair (1, 0) in table 1 is 010, and the quadruple (0, 0, 0, -1) in table A is 01011.
fn coded_unit() -> Unit {
    let mut unit = Unit::blank();
    unit.length = 8;
    unit.big = 1;
    unit.quads = 1;
    unit.gain = 150;
    unit.tables = [1, 0, 0];
    unit.lines[0] = 1;
    unit.lines[5] = -1;
    unit
}

fn frame_of(first: Unit, second: Unit) -> ChosenFrame {
    ChosenFrame {
        begin: 0,
        units: [[first, second], [Unit::blank(), Unit::blank()]],
    }
}

fn is_coded_under(channels: Channels, first: Unit, second: Unit) -> bool {
    let settings = Settings {
        rate: Rate::K128,
        sample_rate: SampleRate::Hz44100,
        channels,
    };
    is_coded(&settings, &frame_of(first, second))
}

fn is_coded_in_mono(unit: Unit) -> bool {
    is_coded_under(Channels::Mono, unit, Unit::blank())
}

#[test]
fn zero_frames_are_coded(rt: HostRuntime) {
    assert!(rt; is_coded_in_mono(Unit::blank()));
    assert!(rt; is_coded_under(Channels::Stereo, Unit::blank(), Unit::blank()));
}

#[test]
fn a_second_channel(rt: HostRuntime) {
    assert!(rt; is_coded_under(Channels::Stereo, Unit::blank(), coded_unit()));
    assert!(rt; !is_coded_under(Channels::Mono, Unit::blank(), coded_unit()));
}

// The unit with one field changed: its numbers, the counts of regions, a table, three of its lines.
fn unit_with(field: u8) -> Unit {
    let mut unit = coded_unit();
    match field {
        0 => unit.length = 9,
        1 => unit.big = 0,
        2 => unit.quads = 0,
        3 => unit.region0 = 16,
        4 => unit.region1 = 8,
        5 => unit.tables = [1, 4, 0],
        6 => unit.lines[0] = 2,
        7 => unit.lines[5] = 2,
        _ => unit.lines[6] = 1,
    }
    unit
}

#[test]
fn one_field_off(rt: HostRuntime) {
    for field in 0..9u8 {
        check_row(&rt, u32::from(field), !is_coded_in_mono(unit_with(field)));
    }
}

// The unit with more regions than there are bands.
fn unit_with_regions() -> Unit {
    let mut unit = coded_unit();
    unit.region0 = 15;
    unit.region1 = 7;
    unit
}

#[test]
fn more_regions_than_bands(rt: HostRuntime) {
    assert!(rt; is_coded_in_mono(coded_unit()) && !is_coded_in_mono(unit_with_regions()));
}

#[test]
fn fault_numbers(rt: HostRuntime) {
    let faults = [
        StreamFault::BadHeader(0),
        StreamFault::ShortFrame(0),
        StreamFault::BadSide(0),
        StreamFault::BadBegin(0),
        StreamFault::BadCode(0),
        StreamFault::WrongLength(0),
        StreamFault::NotZero(0),
        StreamFault::Read,
        StreamFault::Memory,
        StreamFault::TooLong(0),
    ];
    let numbers = faults.map(|fault| fault.number());
    assert!(rt; numbers == [1, 2, 3, 4, 5, 6, 7, 8, 9, 10]);
}
