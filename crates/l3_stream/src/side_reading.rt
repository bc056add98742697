//! Reading side information: its fields are decoded and tested (ISO/IEC 11172-3, 2.4).

ghost use Rattle.std.specs.Prelude.{◌≡◌, ℕ, ◌≤◌, ◌+◌, ◌*◌, true, false, List, [], ◌∷◌, length, take, drop, replicate, IfSome, IfNone};
ghost use Rattle.std.specs.Option.{option_map};
ghost use Rattle.std.specs.List.{AllByRecursion};
ghost use Rattle.l3_bits.specs.Bits.{bits_of};
ghost use Rattle.l3_stream.specs.declared.unit.Unit.{Unit};
ghost use Rattle.l3_stream.specs.Frames.{blank, placed, units_of};
ghost use Rattle.l3_stream.specs.Fields.{fields_at};
ghost use Rattle.l3_stream.specs.Side.{unit_widths, side_bytes, IsSide};
ghost use Rattle.l3_stream.specs.SideReading.{begin_at, unit_side_of, units_at, PassesRule, SidePassesRule, side_at};
ghost use Rattle.l3_stream.specs.FieldReading.{side_in, IsBare, IsClearFront};

use crate::unit::{ChosenFrame, Unit};
use crate::unit_fields::{passes, set_fields};
use l3_base::{Channels, Settings};
use l3_bits::take_bits;

/// Begin and units of side information, or `None` where a field has a value that the profile does
/// not allow.
///
/// The bytes are 17 in mono and 32 in stereo. Lines and quadruples are not in them: both are 0 in
/// the answer. In mono the second channel's units are zero in every field.
pub fn read_side(settings: &Settings, bytes: &[u8]) -> Option<ChosenFrame>
    requires { length bytes.now ≡ side_bytes settings.now.channels }
    ensures value { side_at settings.now.channels (bits_of bytes.now) ≡ option_map (side_in settings.now.channels) result }
    ensures found { IfSome result (λ f. IsSide settings.now.channels (bits_of bytes.now) f.begin (units_of settings.now.channels f.units)) }
    ensures placed { IfSome result (λ f. f.units ≡ placed settings.now.channels (units_of settings.now.channels f.units)) }
    ensures bare { IfSome result (λ f. AllByRecursion IsBare (units_of settings.now.channels f.units)) }
    ensures none { IfNone result ((begin : ℕ) (us : List Unit) → IsSide settings.now.channels (bits_of bytes.now) begin us → ⊥) }
{
    let unit = Unit::blank();
    let mut frame = ChosenFrame {
        begin: 0,
        units: [[unit; 2]; 2],
    };
    let whole = match settings.channels {
        Channels::Mono => read_mono(bytes, &mut frame),
        Channels::Stereo => read_stereo(bytes, &mut frame),
    };
    if whole { Some(frame) } else { None }
}

// Reads two units after the front into a frame of blank units. Where it answers false the frame is
// of no use.
fn read_mono(bytes: &[u8], frame: &mut ChosenFrame) -> bool
    requires size { length bytes.now ≡ 17 }
    requires empty { frame.old.units ≡ replicate 2 (replicate 2 blank) }
    ensures rule { result ≡ true → SidePassesRule Channels.Mono (bits_of bytes.now) }
    ensures begin { result ≡ true → frame.new.begin ≡ begin_at (bits_of bytes.now) }
    ensures units { result ≡ true → frame.new.units ≡ placed Channels.Mono (units_at 2 (drop 18 (bits_of bytes.now))) }
    ensures refused { result ≡ false → SidePassesRule Channels.Mono (bits_of bytes.now) → ⊥ }
{
    match read_front(Channels::Mono, bytes) {
        None => false,
        Some(begin) => {
            frame.begin = begin;
            read_unit(bytes, 18, &mut frame.units[0][0])
                && read_unit(bytes, 77, &mut frame.units[1][0])
        },
    }
}

// Reads four units after the front into a frame of blank units. Where it answers false the frame is
// of no use.
fn read_stereo(bytes: &[u8], frame: &mut ChosenFrame) -> bool
    requires size { length bytes.now ≡ 32 }
    requires empty { frame.old.units ≡ replicate 2 (replicate 2 blank) }
    ensures rule { result ≡ true → SidePassesRule Channels.Stereo (bits_of bytes.now) }
    ensures begin { result ≡ true → frame.new.begin ≡ begin_at (bits_of bytes.now) }
    ensures units { result ≡ true → frame.new.units ≡ placed Channels.Stereo (units_at 4 (drop 20 (bits_of bytes.now))) }
    ensures refused { result ≡ false → SidePassesRule Channels.Stereo (bits_of bytes.now) → ⊥ }
{
    match read_front(Channels::Stereo, bytes) {
        None => false,
        Some(begin) => {
            frame.begin = begin;
            read_granule(bytes, 20, &mut frame.units[0])
                && read_granule(bytes, 138, &mut frame.units[1])
        },
    }
}

// `main_data_begin`, where private_bits and scfsi are 0.
fn read_front(channels: Channels, bytes: &[u8]) -> Option<u16>
    requires { 3 ≤ length bytes.now }
    ensures value { IfSome result (λ begin. begin ≡ begin_at (bits_of bytes.now)) }
    ensures clear { IfSome result (λ _. IsClearFront channels (bits_of bytes.now)) }
    ensures none { IfNone result (IsClearFront channels (bits_of bytes.now) → ⊥) }
{
    let (private, scfsi) = match channels {
        Channels::Mono => (5, 4),
        Channels::Stereo => (3, 8),
    };
    if take_bits(bytes, 9, private) == 0 && take_bits(bytes, 9 + u64::from(private), scfsi) == 0 {
        Some(take_bits(bytes, 0, 9) as u16)
    } else {
        None
    }
}

// Reads both units of a granule, from bit `at` on, into blank ones.
fn read_granule(bytes: &[u8], at: u64, units: &mut [Unit; 2]) -> bool
    requires place { at ≤ 138 }
    requires within { at + 118 ≤ 8 * length bytes.now }
    requires empty { units.old ≡ replicate 2 blank }
    ensures first { result ≡ true → PassesRule (fields_at unit_widths (take 59 (drop at (bits_of bytes.now)))) }
    ensures second { result ≡ true → PassesRule (fields_at unit_widths (take 59 (drop (at + 59) (bits_of bytes.now)))) }
    ensures units { result ≡ true → units.new ≡ unit_side_of (take 59 (drop at (bits_of bytes.now))) ∷ unit_side_of (take 59 (drop (at + 59) (bits_of bytes.now))) ∷ [] }
    ensures refused { result ≡ false → PassesRule (fields_at unit_widths (take 59 (drop at (bits_of bytes.now)))) → PassesRule (fields_at unit_widths (take 59 (drop (at + 59) (bits_of bytes.now)))) → ⊥ }
{
    read_unit(bytes, at, &mut units[0]) && read_unit(bytes, at + 59, &mut units[1])
}

// Reads the unit from bit `at` on into a blank one, if the profile allows its fields.
fn read_unit(bytes: &[u8], at: u64, unit: &mut Unit) -> bool
    requires within { at + 59 ≤ 8 * length bytes.now }
    requires empty { unit.old ≡ blank }
    ensures rule { result ≡ true → PassesRule (fields_at unit_widths (take 59 (drop at (bits_of bytes.now)))) }
    ensures unit { result ≡ true → unit.new ≡ unit_side_of (take 59 (drop at (bits_of bytes.now))) }
    ensures refused { result ≡ false → PassesRule (fields_at unit_widths (take 59 (drop at (bits_of bytes.now)))) → ⊥ }
{
    let number = take_bits(bytes, at, 59);
    let allowed = passes(number);
    if allowed {
        set_fields(unit, number);
    }
    allowed
}
