ghost use Rattle.std.specs.Prelude.{◌≡◌, ◌<◌, ◌≤◌, ◌-◌, ◌*◌, ◌%◌, true, false, nat_lt, if◌then◌else◌, List, All, ℕ, FitsSigned, IfOk, OnErr, IfSome, length, take};
ghost use Rattle.std.specs.Int.{w16};
ghost use Rattle.std.specs.Io.KnownBytes.{Consumes};
ghost use Rattle.l3_base.specs.Rates.{channels_of};
ghost use Rattle.l3_io.specs.Causes.{HasCause};
ghost use Rattle.l3_wav.specs.Samples.{value_of, values_of, unread, whole_bytes, samples_after, ReadsValues, ReadsBlock};

use crate::WavHead;
use crate::block::{BLOCK, empty_block};
use l3_base::{Channels, ReadFault};
use l3_io::{Source, read_full};
use std::marker::Model;

/// The samples of a WAV file's data, given in order.
///
/// Shape: one value of each channel in turn, left before right. Range: 16 bits. The data ends with
/// the bytes that the head declares or with the source, whichever comes first; a rest of less than
/// one value of each channel is dropped.
#[derive(Drop)]
pub struct Samples {
    channels: Channels,
    remaining: u32,
    failed: bool,
}

impl Model for Samples {
    ghost use Rattle.l3_wav.specs.Samples.{SamplesState};

    ghost Value = { SamplesState };

    ghost view = { λ s. record { channels = s.channels; remaining = s.remaining; failed = s.failed } };
}

impl Samples {
    /// All samples of the data whose head this is.
    pub fn new(head: &WavHead) -> Samples
        ensures { result ≡ unread head.now.channels head.now.data_bytes }
    {
        Samples {
            channels: head.channels,
            remaining: head.data_bytes,
            failed: false,
        }
    }

    /// Reads the next values into the front of `out` and says how many: a number of whole samples,
    /// below the length of `out` only where the data has ended.
    pub fn next<S: Source>(&mut self, source: &mut S, out: &mut [i16]) -> Result<usize, ReadFault>
        requires room { 0 < length out.old }
        requires whole { length out.old % channels_of self.old.channels ≡ 0 }
        requires sound { self.old.failed ≡ false }
        ensures content { IfOk result (λ n. IfSome (S.left source.old) (λ left. ReadsValues self.old left n out.new (S.left source.new))) }
        ensures state { IfOk result (λ n. self.new ≡ samples_after self.old n (length out.new)) }
        ensures range { IfOk result (λ n. All (FitsSigned w16) (take n out.new)) }
        ensures bound { IfOk result (λ n. n ≤ length out.new) }
        ensures declared { IfOk result (λ n. 2 * n ≤ self.old.remaining) }
        ensures samples { IfOk result (λ n. n % channels_of self.old.channels ≡ 0) }
        ensures failed { OnErr result (self.new.failed ≡ true) }

        // At a fault no byte after the data is gone.
        ensures some { OnErr result ((bytes : List ℕ) × (length bytes ≤ self.old.remaining)
            × Consumes (S.left source.old) (S.left source.new) bytes) }
        ensures cause { HasCause (S.faults source.old) (S.faults source.new) result }
    {
        match read_values(source, self.channels, self.remaining, out) {
            Ok(values) => {
                self.remaining = values.remaining;
                Ok(values.count)
            }
            Err(fault) => {
                self.failed = true;
                Err(fault)
            }
        }
    }

    /// Whether a read failed. Then no more samples may be asked for.
    pub fn failed(&self) -> bool
        ensures { result ≡ self.now.failed }
    {
        self.failed
    }
}

// The value of two bytes.
fn value(low: u8, high: u8) -> i16
    ensures { result ≡ value_of low high }
{
    i16::from_le_bytes([low, high])
}

// The values of bytes, two for each.
fn decode(bytes: &[u8], out: &mut [i16])
    requires { length bytes.now ≡ 2 * length out.old }
    ensures values { out.new ≡ values_of bytes.now }
    ensures range { All (FitsSigned w16) out.new }
{
    let mut rest = bytes;
    for slot in out.iter_mut() {
        if let [low, high, after @ ..] = rest {
            *slot = value(*low, *high);
            rest = after;
        }
    }
}

// What reading gave: how many values, and the declared bytes that are still to be read.
#[derive(Drop)]
struct Values {
    count: usize,
    remaining: u32,
}

// How many values a block had, and whether all its bytes were there.
#[derive(Drop)]
struct Block {
    count: usize,
    is_whole: bool,
}

// Reads the values of `want` bytes, or of what is there.
fn read_block<S: Source>(
    source: &mut S,
    channels: Channels,
    want: usize,
    out: &mut [i16],
) -> Result<Block, ReadFault>
    requires block { want ≤ 4096 }
    requires room { want ≤ 2 * length out.old }
    ensures content { IfOk result (λ block. IfSome (S.left source.old) (λ left.
        ReadsBlock channels want left block.count block.is_whole out.new (S.left source.new))) }
    ensures range { IfOk result (λ block. All (FitsSigned w16) (take block.count out.new)) }
    ensures bound { IfOk result (λ block. 2 * block.count ≤ want) }
    ensures samples { IfOk result (λ block. block.count % channels_of channels ≡ 0) }
    ensures whole { IfOk result (λ block. block.is_whole ≡ true → 2 * block.count ≡ whole_bytes channels want) }
    ensures short { IfOk result (λ block. block.is_whole ≡ false → 2 * block.count < want) }
    ensures some { (bytes : List ℕ) × (length bytes ≤ want) × Consumes (S.left source.old) (S.left source.new) bytes }
    ensures cause { HasCause (S.faults source.old) (S.faults source.new) result }
{
    let mut block = empty_block();
    let bytes = &mut block[..want];
    let there = read_full(source, bytes)?;
    let channels = usize::from(channels.number());
    let count = there / (2 * channels) * channels;
    decode(&bytes[..2 * count], &mut out[..count]);
    Ok(Block {
        count,
        is_whole: there == want,
    })
}

// Reads values until there is no more room for them or the data has ended.
fn read_values<S: Source>(
    source: &mut S,
    channels: Channels,
    declared: u32,
    out: &mut [i16],
) -> Result<Values, ReadFault>
    requires { length out.old % channels_of channels ≡ 0 }
    ensures content { IfOk result (λ values. IfSome (S.left source.old) (λ left.
        ReadsValues (unread channels declared) left values.count out.new (S.left source.new))) }
    ensures range { IfOk result (λ values. All (FitsSigned w16) (take values.count out.new)) }
    ensures bound { IfOk result (λ values. values.count ≤ length out.new) }
    ensures declared { IfOk result (λ values. 2 * values.count ≤ declared) }
    ensures samples { IfOk result (λ values. values.count % channels_of channels ≡ 0) }
    ensures remaining { IfOk result (λ values. values.remaining ≡ (if nat_lt values.count (length out.new) then 0 else declared - 2 * values.count)) }
    ensures some { OnErr result ((bytes : List ℕ) × (length bytes ≤ declared)
        × Consumes (S.left source.old) (S.left source.new) bytes) }
    ensures cause { HasCause (S.faults source.old) (S.faults source.new) result }
{
    let mut count = 0;
    let mut remaining = declared;
    while count < out.len() {
        let room = 2 * (out.len() - count).min(BLOCK / 2);
        let want = room.min(remaining as usize);
        let block = read_block(source, channels, want, &mut out[count..])?;
        count += block.count;
        if !block.is_whole || want == remaining as usize {
            return Ok(Values {
                count,
                remaining: 0,
            });
        }
        remaining -= want as u32;
    }
    Ok(Values { count, remaining })
}
