ghost use Rattle.std.specs.Prelude.{◌≡◌, ◌+◌, ◌*◌, ◌<◌, ◌≤◌, true, false, nat_lt, IfOk, IfSome, IsSomeAnd, OnErr, OnOk, length, vec_len, vec_capacity};
ghost use Rattle.l3_io.specs.Causes.{HasCause};
ghost use Rattle.l3_wav.specs.Pcm.{right_count};
ghost use Rattle.l3_wav.specs.ReadingOn.{AreGone, InStereo, ReadsOn};

use crate::kept::add_samples;
use crate::samples::Samples;
use l3_base::{Channels, ReadFault};
use l3_io::Source;

// A block before it is read: 576 samples of two channels.
fn empty_block() -> [i16; 1152] {
    [0; 1152]
}

/// Reads so many samples of each channel, or what is there of them, behind those that are kept, and
/// says how many.
pub fn read_block<S: Source>(
    samples: &mut Samples,
    channels: Channels,
    room: usize,
    source: &mut S,
    left: &mut Vec<i16>,
    right: &mut Vec<i16>,
) -> Result<usize, ReadFault>
    requires room { (0 < room) × (room ≤ 576) }
    requires channels { samples.old.channels ≡ channels }
    requires sound { samples.old.failed ≡ false }
    requires left_room { vec_len left.old + room ≤ vec_capacity left.old }
    requires right_room { InStereo channels (vec_len right.old + room ≤ vec_capacity right.old) }
    ensures content { IfOk result (λ count. IfSome (S.left source.old) (λ bytes. IsSomeAnd (S.left source.new) (λ bytes_now.
        ReadsOn channels count (nat_lt count room) samples.old samples.new bytes bytes_now left.old.items left.new.items right.old.items right.new.items))) }
    ensures state { IfOk result (λ count. (samples.new.channels ≡ channels) × (samples.new.failed ≡ false)) }
    ensures bound { IfOk result (λ count. count ≤ room) }
    ensures declared { IfOk result (λ count. 2 * count + samples.new.remaining ≤ samples.old.remaining) }
    ensures ended { IfOk result (λ count. count < room → samples.new.remaining ≡ 0) }
    ensures left_long { IfOk result (λ count. length left.new.items ≡ length left.old.items + count) }
    ensures right_long { IfOk result (λ count. length right.new.items ≡ length right.old.items + right_count channels count) }
    ensures left_capacity { vec_capacity left.new ≡ vec_capacity left.old }
    ensures right_capacity { vec_capacity right.new ≡ vec_capacity right.old }
    ensures gone { OnOk result (AreGone samples.old.remaining samples.new.remaining (S.left source.old) (S.left source.new)) }
    ensures some { OnErr result (AreGone samples.old.remaining 0 (S.left source.old) (S.left source.new)) }
    ensures failed { OnErr result (samples.new.failed ≡ true) }
    ensures kept { OnErr result ((left.new.items ≡ left.old.items) × (right.new.items ≡ right.old.items)) }
    ensures cause { HasCause (S.faults source.old) (S.faults source.new) result }
{
    let number = usize::from(channels.number());
    let mut block = empty_block();
    let out = &mut block[..room * number];
    let there = samples.next(source, out)?;
    add_samples(channels, &out[..there], left, right);
    Ok(there / number)
}
