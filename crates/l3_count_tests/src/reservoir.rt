use crate::inputs::check_row;
use l3_base::{Channels, Rate, SampleRate, Settings};
use l3_search::Reserve;

// 44100 Hz, stereo, 128 kbit/s: the mean is 762 bits and main_data_begin at most 511.
fn settings() -> Settings {
    Settings {
        rate: Rate::K128,
        sample_rate: SampleRate::Hz44100,
        channels: Channels::Stereo,
    }
}

// The budget of a demand with such a reserve.
fn budget_with(reserve: u16, demand: u16) -> u32 {
    Reserve::supposed(u32::from(reserve)).budget(&settings(), 0, u32::from(demand))
}

#[test]
fn budgets(rt: HostRuntime) {
    for (reserve, demand, bits) in [
        (0, 1000, 762),
        (1000, 1000, 1000),
        (4088, 0, 1580),
        (1000, 862, 762),
        (1000, 863, 863),
    ] {
        let row = [i32::from(reserve), i32::from(demand)];
        check_row(&rt, row, budget_with(reserve, demand) == bits);
    }
}

// With such a reserve, the end of a frame: the stuffing, main_data_begin, and the reserve after it.
fn end_with(reserve: u16) -> [u32; 3] {
    let mut reserve = Reserve::supposed(u32::from(reserve));
    let end = reserve.frame_end(&settings());
    [end.stuffing, u32::from(end.begin), reserve.bits()]
}

// 511 bytes are 4088 bits: below, at and above them.
#[test]
fn ends_of_frames(rt: HostRuntime) {
    for (reserve, end) in [
        (0, [0, 0, 0]),
        (15, [7, 1, 8]),
        (4087, [7, 510, 4080]),
        (4088, [0, 511, 4088]),
        (4103, [15, 511, 4088]),
    ] {
        check_row(&rt, [i32::from(reserve), 0], end_with(reserve) == end);
    }
}
