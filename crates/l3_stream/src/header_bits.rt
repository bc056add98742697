//! The header of a frame, 32 bits, the first one most significant (ISO/IEC 11172-3, 2.4.1.3).

ghost use Rattle.std.specs.Prelude.{◌≡◌, ◌≤◌, ◌<◌, ◌^◌, Bool, false, IfSome, IfNone};
ghost use Rattle.l3_bits.specs.Bits.{digits, bits_of};
ghost use Rattle.l3_base.specs.declared.settings.Settings.{Settings};
ghost use Rattle.l3_base.specs.declared.rate.Rate.{Rate};
ghost use Rattle.l3_base.specs.declared.rate.SampleRate.{SampleRate};
ghost use Rattle.l3_base.specs.declared.rate.Channels.{Channels};
ghost use Rattle.l3_base.specs.Rates.{index_of, hertz_index_of};
ghost use Rattle.l3_base.specs.Header.{header_bits, mode_of};
ghost use Rattle.l3_stream.specs.Header.{header_at, header_from};
ghost use Rattle.l3_stream.specs.Numbers.{HasHeaderFields};

use l3_base::{Channels, Rate, SampleRate, Settings};
use l3_bits::{put_bits, take_bits};

// The first 16 bits of each header: sync, ID 1, layer `01` and protection_bit 1, which is no CRC.
const SYNC: u64 = 0xFFFB;

/// The header of the frame of this number, padded by the remainder rule.
pub fn write_header(settings: &Settings, frame: u64) -> [u8; 4]
    requires { frame ≤ 2 ^ 32 }
    ensures { bits_of result ≡ header_at settings.now frame }
{
    let padded = settings.frame_bytes(frame) > settings.base_bytes();
    let mut bytes = [0; 4];
    put_bits(&mut bytes, 0, header_number(settings, padded), 32);
    bytes
}

/// The settings of a header and whether the frame is padded, or `None` where the bytes are no
/// header of the profile.
///
/// The padding bit may be either at any sampling frequency: a header alone does not tell the number
/// of its frame.
pub fn read_header(bytes: &[u8; 4]) -> Option<(Settings, bool)>
    ensures value { header_from (bits_of bytes.now) ≡ result }
    ensures found { IfSome result (λ read. bits_of bytes.now ≡ header_bits read.0 read.1 false false) }
    ensures none { IfNone result ((st : Settings) (padded : Bool) → bits_of bytes.now ≡ header_bits st padded false false → ⊥) }
{
    let number = take_bits(bytes, 0, 32);
    let settings = settings_of(number)?;
    let padded = number / 512 % 2 == 1;

    // All other fields are the same in each header.
    if header_number(&settings, padded) == number {
        Some((settings, padded))
    } else {
        None
    }
}

// The header of a frame as a number of 32 bits.
fn header_number(settings: &Settings, padded: bool) -> u64
    ensures digits { digits 32 result ≡ header_bits settings.now padded false false }
    ensures small { result < 2 ^ 32 }
{
    let padding = if padded { 1 } else { 0 };
    let mode = match settings.channels {
        Channels::Mono => 3,
        Channels::Stereo => 0,
    };
    let with_rate = SYNC * 16 + u64::from(settings.rate.index());
    let with_frequency = with_rate * 4 + settings.sample_rate.index() as u64;
    let with_padding = with_frequency * 2 + padding;

    // One private bit before the mode; mode_extension, copyright, original and emphasis after it.
    (with_padding * 8 + mode) * 64
}

// The settings that the fields of a header's number stand for, where there are some.
fn settings_of(number: u64) -> Option<Settings>
    ensures some { IfSome result (λ st. HasHeaderFields st number) }
    ensures none { IfNone result ((st : Settings) → HasHeaderFields st number → ⊥) }
{
    let rate = rate_of(number / 4096 % 16)?;
    let sample_rate = sample_rate_of(number / 1024 % 4)?;
    let channels = channels_of(number / 64 % 4)?;
    Some(Settings {
        rate,
        sample_rate,
        channels,
    })
}

// The rate of a `bitrate_index`: index 0 is the free format, and 15 is forbidden.
fn rate_of(index: u64) -> Option<Rate>
    ensures some { IfSome result (λ rate. index_of rate ≡ index) }
    ensures none { IfNone result ((rate : Rate) → index_of rate ≡ index → ⊥) }
{
    match index {
        1 => Some(Rate::K32),
        2 => Some(Rate::K40),
        3 => Some(Rate::K48),
        4 => Some(Rate::K56),
        5 => Some(Rate::K64),
        6 => Some(Rate::K80),
        7 => Some(Rate::K96),
        8 => Some(Rate::K112),
        9 => Some(Rate::K128),
        10 => Some(Rate::K160),
        11 => Some(Rate::K192),
        12 => Some(Rate::K224),
        13 => Some(Rate::K256),
        14 => Some(Rate::K320),
        _ => None,
    }
}

// The sampling frequency of a field `sampling_frequency`: 3 is reserved.
fn sample_rate_of(index: u64) -> Option<SampleRate>
    ensures some { IfSome result (λ rate. hertz_index_of rate ≡ index) }
    ensures none { IfNone result ((rate : SampleRate) → hertz_index_of rate ≡ index → ⊥) }
{
    match index {
        0 => Some(SampleRate::Hz44100),
        1 => Some(SampleRate::Hz48000),
        2 => Some(SampleRate::Hz32000),
        _ => None,
    }
}

// The channels of a `mode`: the profile has stereo, 0, and single channel, 3.
fn channels_of(mode: u64) -> Option<Channels>
    ensures some { IfSome result (λ channels. mode_of channels false ≡ mode) }
    ensures none { IfNone result ((channels : Channels) → mode_of channels false ≡ mode → ⊥) }
{
    match mode {
        0 => Some(Channels::Stereo),
        3 => Some(Channels::Mono),
        _ => None,
    }
}
