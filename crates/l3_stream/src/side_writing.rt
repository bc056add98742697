//! Writing side information: main_data_begin, private_bits and scfsi, then the units granule by
//! granule (ISO/IEC 11172-3, 2.4).

ghost use Rattle.std.specs.Prelude.{◌≡◌, ◌≤◌, ◌<◌, ◌+◌, ◌*◌, ◌^◌, ◌++◌, length, take, drop};
ghost use Rattle.std.specs.List.{AllByRecursion};
ghost use Rattle.l3_bits.specs.Bits.{bits_of};
ghost use Rattle.l3_stream.specs.Units.{HasFields};
ghost use Rattle.l3_stream.specs.Frames.{IsCoded, units_of};
ghost use Rattle.l3_stream.specs.Side.{front_bits, front_width, unit_side, side_bytes, side_of};

use crate::unit::{ChosenFrame, Unit};
use crate::unit_fields::unit_number;
use l3_base::{Channels, Settings};
use l3_bits::put_bits;

/// Writes the side information of a coded frame, and answers with its bytes: 17 in mono, 32 in
/// stereo. The others stay.
pub fn write_side(settings: &Settings, frame: &ChosenFrame, out: &mut [u8; 32]) -> usize
    requires coded { IsCoded settings.now frame.now }
    requires begin { frame.now.begin ≤ 511 }
    ensures size { result ≡ side_bytes settings.now.channels }
    ensures bits { bits_of (take result out.new) ≡ side_of settings.now.channels frame.now }
    ensures rest { drop result out.new ≡ drop result out.old }
{
    match settings.channels {
        Channels::Mono => {
            write_mono(frame, &mut out[..17]);
            17
        },
        Channels::Stereo => {
            write_stereo(frame, out);
            32
        },
    }
}

// Two units after the front.
fn write_mono(frame: &ChosenFrame, out: &mut [u8])
    requires room { length out.old ≡ 17 }
    requires begin { frame.now.begin < 2 ^ 9 }
    requires number { length (units_of Channels.Mono frame.now.units) ≡ 2 }
    requires fields { AllByRecursion HasFields (units_of Channels.Mono frame.now.units) }
    ensures { bits_of out.new ≡ side_of Channels.Mono frame.now }
{
    write_front(Channels::Mono, frame.begin, out);
    write_unit(&frame.units[0][0], out, 18);
    write_unit(&frame.units[1][0], out, 77);
}

// Four units after the front.
fn write_stereo(frame: &ChosenFrame, out: &mut [u8])
    requires room { length out.old ≡ 32 }
    requires begin { frame.now.begin < 2 ^ 9 }
    requires number { length (units_of Channels.Stereo frame.now.units) ≡ 4 }
    requires fields { AllByRecursion HasFields (units_of Channels.Stereo frame.now.units) }
    ensures { bits_of out.new ≡ side_of Channels.Stereo frame.now }
{
    write_front(Channels::Stereo, frame.begin, out);
    write_unit(&frame.units[0][0], out, 20);
    write_unit(&frame.units[0][1], out, 79);
    write_unit(&frame.units[1][0], out, 138);
    write_unit(&frame.units[1][1], out, 197);
}

// `main_data_begin`, and zeros for private_bits and scfsi.
fn write_front(channels: Channels, begin: u16, out: &mut [u8])
    requires begin { begin < 2 ^ 9 }
    requires room { 3 ≤ length out.old }
    ensures { bits_of out.new ≡ front_bits channels begin ++ drop (front_width channels) (bits_of out.old) }
{
    match channels {
        Channels::Mono => put_bits(out, 0, u64::from(begin) * 512, 18),
        Channels::Stereo => put_bits(out, 0, u64::from(begin) * 2048, 20),
    }
}

// The 59 bits of a unit, from bit `at` on.
fn write_unit(unit: &Unit, out: &mut [u8], at: u64)
    requires fields { HasFields unit.now }
    requires within { at + 59 ≤ 8 * length out.old }
    ensures { bits_of out.new ≡ take at (bits_of out.old) ++ unit_side unit.now ++ drop (at + 59) (bits_of out.old) }
{
    put_bits(out, at, unit_number(unit), 59);
}
