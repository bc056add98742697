ghost use Rattle.std.specs.Prelude.{◌≡◌, ◌≢◌, ◌-◌, ◌≤◌, List, ℕ, None, Some, Ok, Err, IfSome, IfErr, OnOk, OnErr, length, take, bytes_eq};
ghost use Rattle.std.specs.Io.KnownBytes.{Consumes};
ghost use Rattle.l3_io.specs.Causes.{Rose};
ghost use Rattle.l3_wav.specs.Wav.{is_riff, padded, format_after, fields_in, head_by, chunks_from, most_chunks, head_limit, wav_of, after_head, FaultCause, HasLost, OpenGives};
ghost use Rattle.l3_wav.specs.Steps.{ReadsBody, Opens};

use crate::WavFault;
use crate::fields::{Format, read_format, u32_at};
use crate::reading::{fill, skip};
use l3_base::{Channels, SampleRate};
use l3_io::Source;

/// What the head of a WAV file says.
#[derive(Clone, Copy, Debug, PartialEq, Eq)]
pub struct WavHead {
    pub channels: Channels,
    pub rate: SampleRate,
    /// The size that the data chunk declares; fewer bytes may be there.
    pub data_bytes: u32,
}

// The most bytes that may stand before the chunk `data`: this project's own.
const HEAD_LIMIT: usize = 1048576;

// Bytes of the file's id, its size and its form.
const RIFF_BYTES: usize = 12;

// Bytes of a chunk's id and its size.
const CHUNK_BYTES: usize = 8;

// Bytes of a format's body that have fields.
const FIELD_BYTES: usize = 40;

// Whether a file that begins so is RIFF, of form WAVE.
fn is_riff(head: &[u8]) -> bool
    requires { length head.now ≡ 12 }
    ensures { result ≡ is_riff head.now }
{
    &head[0..4] == b"RIFF".as_slice() && &head[8..12] == b"WAVE".as_slice()
}

// Whether a chunk that begins so has this id.
fn has_id(head: &[u8], id: &[u8]) -> bool
    requires { length head.now ≡ 8 }
    ensures { result ≡ bytes_eq (take 4 head.now) id.now }
{
    &head[..4] == id
}

// The bytes of a body with its pad byte.
fn padded(size: u32) -> usize
    ensures { result ≡ padded size }
{
    size as usize + (size % 2) as usize
}

// Reads a chunk's body with its pad byte, and says which format is known then.
fn read_body<S: Source>(
    source: &mut S,
    format: Option<Format>,
    is_format: bool,
    size: u32,
) -> Result<Option<Format>, WavFault>
    ensures told { IfSome (S.left source.old) (λ bytes.
        ReadsBody (padded size) bytes (S.left source.new) result (format_after format is_format (fields_in size bytes))) }
    ensures some { OnErr result ((bytes : List ℕ) × (length bytes ≤ padded size) × Consumes (S.left source.old) (S.left source.new) bytes) }
    ensures later { S.faults source.old ≤ S.faults source.new }
    ensures served { OnOk result (S.faults source.new ≡ S.faults source.old) }
    ensures cause { IfErr result (FaultCause (S.faults source.old) (S.faults source.new)) }
{
    if format.is_some() || !is_format {
        skip(source, padded(size))?;
        return Ok(format);
    }
    let mut fields = [0; FIELD_BYTES];
    let fields = &mut fields[..(size as usize).min(FIELD_BYTES)];
    fill(source, fields)?;
    skip(source, padded(size) - fields.len())?;
    Ok(Some(read_format(fields)?))
}

// The head where the data begins.
fn data_head(format: Option<Format>, size: u32) -> Result<WavHead, WavFault>
    ensures value { result ≡ head_by format size }
    ensures own { result ≢ Err WavFault.Read }
{
    match format {
        Some(format) => Ok(WavHead {
            channels: format.channels,
            rate: format.rate,
            data_bytes: size,
        }),
        None => Err(WavFault::NoFmtBeforeData),
    }
}

// Reads chunks up to the first byte of the data.
fn read_chunks<S: Source>(source: &mut S) -> Result<WavHead, WavFault>
    ensures told { IfSome (S.left source.old) (λ bytes. Opens bytes result (S.left source.new) (chunks_from most_chunks None 12 bytes)) }
    ensures some { OnErr result ((bytes : List ℕ) × (length bytes ≤ head_limit - 4) × Consumes (S.left source.old) (S.left source.new) bytes) }
    ensures later { S.faults source.old ≤ S.faults source.new }
    ensures served { OnOk result (S.faults source.new ≡ S.faults source.old) }
    ensures cause { IfErr result (FaultCause (S.faults source.old) (S.faults source.new)) }
{
    let mut format = None;
    let mut read = RIFF_BYTES;
    loop {
        let mut head = [0; CHUNK_BYTES];
        fill(source, &mut head)?;
        let size = u32_at(&head, 4);
        if has_id(&head, b"data") {
            return data_head(format, size);
        }
        let end = read + CHUNK_BYTES + padded(size);
        if end > HEAD_LIMIT {
            return Err(WavFault::HeaderTooLong);
        }
        format = read_body(source, format, has_id(&head, b"fmt "), size)?;
        read = end;
    }
}

/// Reads the head of a WAV file, and no byte after it.
///
/// The format is PCM of 16 bits, plain or extensible, with one channel or two, at 44100, 48000 or
/// 32000 Hz. The size of the file and the byte rate may be anything, and the data may declare more
/// bytes than are there, as where it comes from a pipe. A second format chunk and chunks of other
/// kinds are passed over.
pub fn open<S: Source>(source: &mut S) -> Result<WavHead, WavFault>
    ensures told { IfSome (S.left source.old) (λ bytes. OpenGives (S.faults source.old) (S.faults source.new) result (wav_of bytes)) }
    ensures rest { OnOk result (IfSome (S.left source.old) (λ bytes. S.left source.new ≡ Some (after_head bytes))) }
    ensures refused { OnErr result (result ≢ Err WavFault.Read → IfSome (S.left source.old) (λ bytes. S.left source.new ≡ Some (after_head bytes))) }

    // Even where a read failed no more is gone than the longest head and the first bytes of a
    // chunk.
    ensures some { OnErr result ((bytes : List ℕ) × (length bytes ≤ 1048584) × Consumes (S.left source.old) (S.left source.new) bytes) }
    ensures later { S.faults source.old ≤ S.faults source.new }
    ensures read { result ≡ Err WavFault.Read → Rose (S.faults source.old) (S.faults source.new) }

    // Where a read failed it was the last one, and what is left is what the head's bytes leave, or
    // more.
    ensures served { OnOk result (S.faults source.new ≡ S.faults source.old) }
    ensures cause { IfErr result (FaultCause (S.faults source.old) (S.faults source.new)) }
    ensures lost { result ≡ Err WavFault.Read → IfSome (S.left source.old) (λ bytes.
        HasLost (length bytes - length (after_head bytes)) bytes (S.left source.new)) }
{
    let mut head = [0; RIFF_BYTES];
    fill(source, &mut head)?;
    if !is_riff(&head) {
        return Err(WavFault::NotRiff);
    }
    read_chunks(source)
}
