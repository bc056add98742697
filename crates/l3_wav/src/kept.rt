ghost use Rattle.std.specs.Prelude.{◌≡◌, ◌+◌, ◌-◌, ◌*◌, ◌/◌, ◌%◌, ◌≤◌, ◌++◌, IfOk, drop, length, replicate, pos, vec_len, vec_capacity};
ghost use Rattle.l3_base.specs.Rates.{channels_of};
ghost use Rattle.l3_wav.specs.Pcm.{firsts, seconds, left_of, right_of};
ghost use Rattle.l3_wav.specs.ReadingOn.{right_zeros, InStereo};

use l3_base::Channels;
use std::alloc::{AllocError, Global};

/// The 1056 zeros before the first sample, with room for so many samples in all.
pub fn silence(alloc: Global, room: usize) -> Result<Vec<i16>, AllocError>
    requires { 1056 ≤ room }
    ensures zeros { IfOk result (λ kept. kept.items ≡ replicate 1056 (pos 0)) }
    ensures room { IfOk result (λ kept. room ≤ vec_capacity kept) }
{
    let mut kept = Vec::with_capacity(alloc, room)?;
    kept.resize(1056, 0)?;
    Ok(kept)
}

/// The same for the right channel, which in mono keeps none and needs no room.
pub fn right_silence(alloc: Global, channels: Channels, room: usize) -> Result<Vec<i16>, AllocError>
    requires { 1056 ≤ room }
    ensures zeros { IfOk result (λ kept. kept.items ≡ right_zeros channels) }
    ensures room { IfOk result (λ kept. InStereo channels (room ≤ vec_capacity kept)) }
{
    match channels {
        Channels::Mono => Ok(Vec::new(alloc)),
        Channels::Stereo => silence(alloc, room),
    }
}

// Takes out the first 4608 samples, those of eight granules.
fn take_out(kept: &mut Vec<i16>)
    ensures items { kept.new.items ≡ drop 4608 kept.old.items }
    ensures capacity { vec_capacity kept.new ≡ vec_capacity kept.old }
{
    let count = kept.len();
    if count <= 4608 {
        kept.clear();
        return;
    }
    kept.copy_within(4608.., 0);
    kept.truncate(count - 4608);
}

/// Forgets the samples of one more granule, where those of so many, at most 7, are forgotten and
/// still stand in front, and says of how many they stand there then: those of eight are taken out
/// at once.
pub fn forget(stale: usize, left: &mut Vec<i16>, right: &mut Vec<i16>) -> usize
    requires { stale ≤ 7 }
    ensures few { result ≤ 7 }
    ensures left { drop (576 * result) left.new.items ≡ drop 576 (drop (576 * stale) left.old.items) }
    ensures right { drop (576 * result) right.new.items ≡ drop 576 (drop (576 * stale) right.old.items) }
    ensures left_capacity { vec_capacity left.new ≡ vec_capacity left.old }
    ensures right_capacity { vec_capacity right.new ≡ vec_capacity right.old }
{
    if stale < 7 {
        return stale + 1;
    }
    take_out(left);
    take_out(right);
    0
}

// Adds the values of whole samples of two channels, the first of each to `left` and the second to
// `right`.
fn add_pairs(values: &[i16], left: &mut Vec<i16>, right: &mut Vec<i16>)
    requires whole { length values.now % 2 ≡ 0 }
    requires left_room { vec_len left.old + length values.now / 2 ≤ vec_capacity left.old }
    requires right_room { vec_len right.old + length values.now / 2 ≤ vec_capacity right.old }
    ensures left { left.new.items ≡ left.old.items ++ firsts values.now }
    ensures right { right.new.items ≡ right.old.items ++ seconds values.now }
    ensures left_capacity { vec_capacity left.new ≡ vec_capacity left.old }
    ensures right_capacity { vec_capacity right.new ≡ vec_capacity right.old }
{
    for i in 0..values.len() / 2 {
        left.push_reserved(values[2 * i]);
        right.push_reserved(values[2 * i + 1]);
    }
}

// Adds the values of samples of one channel.
fn add_all(values: &[i16], left: &mut Vec<i16>)
    requires { vec_len left.old + length values.now ≤ vec_capacity left.old }
    ensures left { left.new.items ≡ left.old.items ++ values.now }
    ensures left_capacity { vec_capacity left.new ≡ vec_capacity left.old }
{
    for i in 0..values.len() {
        left.push_reserved(values[i]);
    }
}

/// Adds the values of whole samples, for which there is room.
pub fn add_samples(channels: Channels, values: &[i16], left: &mut Vec<i16>, right: &mut Vec<i16>)
    requires whole { length values.now % channels_of channels ≡ 0 }
    requires left_room { vec_len left.old + length values.now / channels_of channels ≤ vec_capacity left.old }
    requires right_room { InStereo channels (vec_len right.old + length values.now / channels_of channels ≤ vec_capacity right.old) }
    ensures left { left.new.items ≡ left.old.items ++ left_of channels values.now }
    ensures right { right.new.items ≡ right.old.items ++ right_of channels values.now }
    ensures left_capacity { vec_capacity left.new ≡ vec_capacity left.old }
    ensures right_capacity { vec_capacity right.new ≡ vec_capacity right.old }
{
    match channels {
        Channels::Mono => add_all(values, left),
        Channels::Stereo => add_pairs(values, left, right),
    }
}
