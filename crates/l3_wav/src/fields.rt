ghost use Rattle.std.specs.Prelude.{◌≡◌, ◌≢◌, ◌+◌, ◌≤◌, ◌<◌, true, Err, length};
ghost use Rattle.l3_wav.specs.Wav.{u16_at, u32_at, is_wave_format_extensible, is_pcm, channels_named, rate_named, format_of};

use crate::WavFault;
use l3_base::{Channels, SampleRate};

// The tag of plain PCM.
const WAVE_FORMAT_PCM: u16 = 1;

// The tag of the extensible form, which has a subformat.
const WAVE_FORMAT_EXTENSIBLE: u16 = 0xFFFE;

// The subformat PCM.
const PCM_SUBFORMAT: [u8; 16] = *b"\x01\0\0\0\0\0\x10\0\x80\0\0\xAA\0\x38\x9B\x71";

// Bits of a sample.
const DEPTH: u16 = 16;

/// What a format chunk says.
#[derive(Clone, Copy)]
pub struct Format {
    pub channels: Channels,
    pub rate: SampleRate,
}

// The number of two bytes at a place.
fn u16_at(bytes: &[u8], at: usize) -> u16
    requires { at + 2 ≤ length bytes.now }
    ensures { result ≡ u16_at bytes.now at }
{
    u16::from_le_bytes([bytes[at], bytes[at + 1]])
}

/// The number of four bytes at a place.
pub fn u32_at(bytes: &[u8], at: usize) -> u32
    requires { at + 4 ≤ length bytes.now }
    ensures { result ≡ u32_at bytes.now at }
{
    u32::from_le_bytes([bytes[at], bytes[at + 1], bytes[at + 2], bytes[at + 3]])
}

// Whether the form is the extensible one, of PCM.
fn is_wave_format_extensible(fields: &[u8]) -> bool
    requires { 16 ≤ length fields.now }
    ensures { result ≡ is_wave_format_extensible fields.now }
{
    u16_at(fields, 0) == WAVE_FORMAT_EXTENSIBLE
        && (fields.len() >= 40 && &fields[24..40] == &PCM_SUBFORMAT[..])
}

// Whether these are the fields of PCM.
fn is_pcm(fields: &[u8]) -> bool
    ensures value { result ≡ is_pcm fields.now }
    ensures long { result ≡ true → 16 ≤ length fields.now }
{
    fields.len() >= 16
        && (u16_at(fields, 0) == WAVE_FORMAT_PCM || is_wave_format_extensible(fields))
}

// The channels of which there are so many.
fn channels_named(number: u16) -> Option<Channels>
    ensures { result ≡ channels_named number }
{
    match number {
        1 => Some(Channels::Mono),
        2 => Some(Channels::Stereo),
        _ => None,
    }
}

// The sampling frequency of so many hertz.
fn rate_named(hertz: u32) -> Option<SampleRate>
    ensures { result ≡ rate_named hertz }
{
    match hertz {
        44100 => Some(SampleRate::Hz44100),
        48000 => Some(SampleRate::Hz48000),
        32000 => Some(SampleRate::Hz32000),
        _ => None,
    }
}

/// What the fields of a format say, which are the first bytes of its chunk's body, 40 at most.
pub fn read_format(fields: &[u8]) -> Result<Format, WavFault>
    ensures value { result ≡ format_of fields.now }
    ensures own { result ≢ Err WavFault.Read }
{
    if !is_pcm(fields) {
        return Err(WavFault::UnsupportedFormat);
    }
    let Some(channels) = channels_named(u16_at(fields, 2)) else {
        return Err(WavFault::UnsupportedChannels);
    };
    let Some(rate) = rate_named(u32_at(fields, 4)) else {
        return Err(WavFault::UnsupportedRate);
    };
    if u16_at(fields, 14) != DEPTH {
        return Err(WavFault::UnsupportedDepth);
    }
    if u16_at(fields, 12) != 2 * u16::from(channels.number()) {
        return Err(WavFault::BadBlockAlign);
    }
    Ok(Format { channels, rate })
}
