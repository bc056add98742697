ghost use Rattle.std.specs.Prelude.{◌≡◌, ◌+◌, ◌-◌, ◌*◌, ◌≤◌, ◌↔◌, ◌^◌, [], ◌++◌, ℕ, List, true, false, IsErr, OnOk, OnErr};
ghost use Rattle.l3_base.specs.Lengths.{slots_before};
ghost use Rattle.l3_io.specs.Causes.{HasCause};
ghost use Rattle.l3_io.specs.Taken.{Writes};
ghost use Rattle.l3_stream.specs.declared.unit.ChosenFrame.{ChosenFrame};
ghost use Rattle.l3_stream.specs.Tape.{FitsAt, end_of, stream_of};
ghost use Rattle.l3_frames.specs.Writing.{owed};
ghost use Rattle.l3_frames.specs.Pending.{IsPending, writing_of};

use crate::pending::{BEGIN_LIMIT, Pending, give, give_settled, note, nothing_pending};
use l3_base::{Settings, WriteFault};
use l3_io::Sink;
use l3_stream::{ChosenFrame, is_coded};
use std::marker::Model;

/// Takes frames in order, and gives the bytes that they spell to a sink.
///
/// A frame's main data begins up to 511 bytes before its own slot, so the slots of the last frames
/// are still open: at most 9 frames are pending after a push. No call takes memory.
#[derive(Drop)]
pub struct FrameWriter {
    pending: Pending,
    failed: bool,
}

impl Model for FrameWriter {
    ghost use Rattle.std.specs.Prelude.{false};
    ghost use Rattle.l3_frames.specs.Writing.{Writing};
    ghost use Rattle.l3_frames.specs.Pending.{IsPending, IsShort, writing_of};

    ghost Value = { Writing };

    ghost view = { λ w. writing_of w.pending w.failed };

    ghost invariant = { λ w. IsPending w.pending × IsShort (writing_of w.pending false) };
}

impl FrameWriter {
    ghost use Rattle.l3_frames.specs.Writing.{GivesFirst, GivesFront};

    /// Before the first frame.
    pub fn new(settings: Settings) -> FrameWriter
        ensures value { result ≡ record { settings = settings; frames = 0; end = 0; heads = []; slots = []; failed = false } }
        ensures owes { (fs : List ChosenFrame) → owed result fs ≡ stream_of settings fs }
    {
        FrameWriter {
            pending: nothing_pending(settings),
            failed: false,
        }
    }

    /// Whether a write failed, or the writer was finished.
    pub fn failed(&self) -> bool
        ensures { result ≡ self.now.failed }
    {
        self.failed
    }

    /// Whether the frame may be pushed next: it is coded, its main data begins at most 511 bytes
    /// before its own slot, within the tape so far and not before the end of the codes so far, and
    /// its codes end within its own slot.
    pub fn fits(&self, frame: &ChosenFrame) -> bool
        requires { self.now.frames ≤ 2 ^ 32 }
        ensures fits { result ≡ true → FitsAt self.now.settings self.now.frames self.now.end frame.now }
        ensures refused { result ≡ false → FitsAt self.now.settings self.now.frames self.now.end frame.now → ⊥ }
    {
        fits_behind(&self.pending, frame)
    }

    /// Takes the next frame, and gives the frames that no later one's main data can reach into,
    /// each whole.
    ///
    /// Errors: a write of the sink failed, or took nothing. Then no more may be pushed.
    pub fn push<K: Sink>(&mut self, frame: &ChosenFrame, sink: &mut K) -> Result<(), WriteFault>
        requires count { self.old.frames ≤ 2 ^ 32 }
        requires fits { FitsAt self.old.settings self.old.frames self.old.end frame.now }
        requires open { self.old.failed ≡ false }
        ensures ok { OnOk result (GivesFirst (K.taken sink.old) (K.taken sink.new) self.old self.new frame.now) }
        ensures front { OnErr result (GivesFront (K.taken sink.old) (K.taken sink.new) self.old frame.now) }
        ensures settings { self.new.settings ≡ self.old.settings }
        ensures frames { self.new.frames ≡ self.old.frames + 1 }
        ensures end { self.new.end ≡ end_of self.old.settings self.old.frames frame.now }
        ensures failed { IsErr result ↔ (self.new.failed ≡ true) }
        ensures cause { HasCause (K.faults sink.old) (K.faults sink.new) result }
    {
        note(&mut self.pending, frame);
        let result = give_settled(&mut self.pending, sink);
        self.failed = result.is_err();
        result
    }

    /// Gives the frames that are pending. Afterwards no more may be pushed.
    ///
    /// Errors: a write of the sink failed, or took nothing.
    pub fn finish<K: Sink>(&mut self, sink: &mut K) -> Result<(), WriteFault>
        requires { self.old.failed ≡ false }
        ensures bytes { Writes (K.taken sink.old) (K.taken sink.new) result (owed self.old []) }
        ensures failed { self.new ≡ record self.old { failed = true } }
        ensures cause { HasCause (K.faults sink.old) (K.faults sink.new) result }
    {
        self.failed = true;
        give_all(&self.pending, sink)
    }
}

// Whether the frame fits behind those that were pushed.
fn fits_behind(pending: &Pending, frame: &ChosenFrame) -> bool
    requires kept { IsPending pending.now }
    requires count { pending.now.frames ≤ 2 ^ 32 }
    ensures fits { result ≡ true → FitsAt pending.now.settings pending.now.frames pending.now.end frame.now }
    ensures refused { result ≡ false → FitsAt pending.now.settings pending.now.frames pending.now.end frame.now → ⊥ }
{
    let begin = u64::from(frame.begin);
    if frame.begin > BEGIN_LIMIT || begin > pending.before || !is_coded(&pending.settings, frame) {
        return false;
    }
    let start = 8 * (pending.before - begin);
    let slot = u64::from(pending.settings.slot_bytes(pending.frames));
    let before = pending.end;
    before <= start && start + frame.main_data_length() <= 8 * (pending.before + slot)
}

// Gives all frames that are pending.
fn give_all<K: Sink>(pending: &Pending, sink: &mut K) -> Result<(), WriteFault>
    requires { IsPending pending.now }
    ensures bytes { Writes (K.taken sink.old) (K.taken sink.new) result (owed (writing_of pending.now false) []) }
    ensures cause { HasCause (K.faults sink.old) (K.faults sink.new) result }
{
    let heads = pending.heads.as_slice();
    let first = pending.frames - heads.len() as u64;
    give(&pending.settings, first, heads, pending.slots.bytes(), sink)
}
