//! The frames that are not given yet: their heads, at most 10 at once, and the bytes of the tape in
//! their slots.

ghost use Rattle.std.specs.Prelude.{◌≡◌, ◌+◌, ◌-◌, ◌≤◌, ◌^◌, ◌++◌, [], false, length, drop, OnOk, OnErr};
ghost use Rattle.l3_base.specs.Lengths.{slots_before};
ghost use Rattle.l3_io.specs.Causes.{HasCause};
ghost use Rattle.l3_io.specs.Taken.{Writes};
ghost use Rattle.l3_stream.specs.Tape.{FitsAt, joined};
ghost use Rattle.l3_frames.specs.Pending.{AreSettled, Gives, GivesPart, IsPending, IsPushed, IsShort, writing_of};

use crate::head::Head;
use crate::slots::Slots;
use arrayvec::ArrayVec;
use l3_base::{Settings, WriteFault};
use l3_io::{Sink, write_all};
use l3_stream::ChosenFrame;

// The greatest `main_data_begin`: the field has 9 bits (ISO/IEC 11172-3, 2.4).
pub(crate) const BEGIN_LIMIT: u16 = 511;

// Frames that are pushed and not given.
#[derive(Drop)]
pub(crate) struct Pending {
    pub(crate) settings: Settings,
    // How many frames were pushed, the slot bytes of these, and the tape bit behind their codes.
    pub(crate) frames: u64,
    pub(crate) before: u64,
    pub(crate) end: u64,
    pub(crate) heads: ArrayVec<Head, 12>,
    pub(crate) slots: Slots,
}

// Before the first frame.
pub(crate) fn nothing_pending(settings: Settings) -> Pending
    ensures settings { result.settings ≡ settings }
    ensures frames { (result.frames ≡ 0) × (result.before ≡ 0) × (result.end ≡ 0) }
    ensures heads { result.heads.items ≡ [] }
    ensures slots { result.slots ≡ [] }
{
    Pending {
        settings,
        frames: 0,
        before: 0,
        end: 0,
        heads: ArrayVec::new(),
        slots: Slots::new(),
    }
}

// Notes a frame that fits: its head, its slot, and its codes over the bits from where its main data
// begins.
pub(crate) fn note(pending: &mut Pending, frame: &ChosenFrame)
    requires kept { IsPending pending.old }
    requires short { IsShort (writing_of pending.old false) }
    requires count { pending.old.frames ≤ 2 ^ 32 }
    requires fits { FitsAt pending.old.settings pending.old.frames pending.old.end frame.now }
    ensures noted { IsPushed (writing_of pending.old false) frame.now (writing_of pending.new false) }
    ensures before { pending.new.before ≡ slots_before pending.new.settings pending.new.frames }
{
    let slot = pending.settings.slot_bytes(pending.frames);
    let begin = u64::from(frame.begin);
    let at = 8 * (pending.slots.bytes().len() as u64 - begin);
    pending
        .heads
        .push(Head::of(&pending.settings, pending.frames, frame));
    pending.slots.append(slot as usize);
    pending.slots.lay(&pending.settings, frame, at);
    pending.end = 8 * (pending.before - begin) + frame.main_data_length();
    pending.before += u64::from(slot);
    pending.frames += 1;
}

// How many of `count` frames from frame `first` on are settled, and their slot bytes: no later
// frame's main data reaches into these.
// `length` are the slot bytes of all.
fn settled(settings: &Settings, first: u64, count: usize, length: usize) -> (usize, usize)
    requires numbers { first + count ≤ 2 ^ 32 + 1 }
    requires slots { slots_before settings.now first + length ≡ slots_before settings.now (first + count) }
    requires near { slots_before settings.now first ≤ slots_before settings.now (first + count) - 511 }
    requires room { length ≤ 2 ^ 16 }
    ensures { AreSettled settings.now first count result.0 result.1 }
{
    let mut bytes = 0;
    for k in 0..count {
        let next = bytes + settings.slot_bytes(first + k as u64) as usize;
        if next + usize::from(BEGIN_LIMIT) > length {
            return (k, bytes);
        }
        bytes = next;
    }
    (count, bytes)
}

// Gives frames from frame `first` on, each with its slot, which is cut from the tape's bytes.
pub(crate) fn give<K: Sink>(
    settings: &Settings,
    first: u64,
    heads: &[Head],
    tape: &[u8],
    sink: &mut K,
) -> Result<(), WriteFault>
    requires numbers { first + length heads.now ≤ 2 ^ 32 + 1 }
    requires slots { slots_before settings.now (first + length heads.now) ≤ slots_before settings.now first + length tape.now }
    requires room { length tape.now ≤ 2 ^ 16 }
    ensures bytes { Writes (K.taken sink.old) (K.taken sink.new) result (joined settings.now first heads.now tape.now) }
    ensures cause { HasCause (K.faults sink.old) (K.faults sink.new) result }
{
    let mut at = 0;
    for k in 0..heads.len() {
        let next = at + settings.slot_bytes(first + k as u64) as usize;
        give_frame(heads[k].bytes(), &tape[at..next], sink)?;
        at = next;
    }
    Ok(())
}

// Gives a head, and the slot behind it.
fn give_frame<K: Sink>(head: &[u8], slot: &[u8], sink: &mut K) -> Result<(), WriteFault>
    ensures bytes { Writes (K.taken sink.old) (K.taken sink.new) result (head.now ++ slot.now) }
    ensures cause { HasCause (K.faults sink.old) (K.faults sink.new) result }
{
    write_all(sink, head)?;
    write_all(sink, slot)
}

// Forgets the first heads.
fn forget(heads: &mut ArrayVec<Head, 12>, count: usize)
    requires { count ≤ length heads.old.items }
    ensures { heads.new.items ≡ drop count heads.old.items }
{
    for _ in 0..count {
        heads.remove(0);
    }
}

// Gives the frames that are settled, and forgets them, also where a write fails.
pub(crate) fn give_settled<K: Sink>(pending: &mut Pending, sink: &mut K) -> Result<(), WriteFault>
    requires kept { IsPending pending.old }
    ensures ok { OnOk result (Gives (K.taken sink.old) (K.taken sink.new) (writing_of pending.old false) (writing_of pending.new false)) }
    ensures front { OnErr result (GivesPart (K.taken sink.old) (K.taken sink.new) (writing_of pending.old false)) }
    ensures kept { IsPending pending.new }
    ensures short { IsShort (writing_of pending.new false) }
    ensures settings { pending.new.settings ≡ pending.old.settings }
    ensures frames { pending.new.frames ≡ pending.old.frames }
    ensures end { pending.new.end ≡ pending.old.end }
    ensures cause { HasCause (K.faults sink.old) (K.faults sink.new) result }
{
    let count = pending.heads.len();
    let first = pending.frames - count as u64;
    let tape = pending.slots.bytes();
    let (settled, bytes) = settled(&pending.settings, first, count, tape.len());
    let heads = &pending.heads.as_slice()[..settled];
    let result = give(&pending.settings, first, heads, tape, sink);
    forget(&mut pending.heads, settled);
    pending.slots.forget(bytes);
    result
}
