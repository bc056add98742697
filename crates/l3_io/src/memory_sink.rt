ghost use Rattle.std.specs.Prelude.{◌≡◌, ◌<◌, ◌-◌, ◌↔◌, [], Ok, min, length, IfOk, OnOk, OnErr, IsErr, Contains};
ghost use Rattle.std.specs.Io.{WritesAtMost};
ghost use Rattle.l3_io.specs.Causes.{WriteHasCause, count_after, last_count};
ghost use Rattle.std.proofs.Common.{rules};
ghost use Rattle.l3_io.specs.Taken.{WriteTakes};

use crate::Sink;
use l3_base::Failed;
use std::alloc::{AllocError, Global};
use std::marker::Model;

/// Bytes taken into memory, in small pieces, with limited room and writes that fail: for tests.
#[derive(Drop)]
pub struct MemSink {
    bytes: Vec<u8>,
    room: usize,
    step: usize,
    fails: Vec<u64>,
    writes: u64,
    faults: u64,
}

impl Model for MemSink {
    ghost use Rattle.std.specs.Prelude.{◌<◌, ◌≤◌, vec_len, vec_capacity};
    ghost use Rattle.l3_io.specs.Memory.{SinkState};

    ghost Value = { SinkState };

    ghost view = { λ s. record { bytes = s.bytes.items; room = s.room; step = s.step; fails = s.fails.items; writes = s.writes; faults = s.faults } };

    ghost invariant = { λ s. (0 < s.step) × (vec_len s.bytes ≤ s.room) × (s.room ≤ vec_capacity s.bytes) };
}

impl MemSink {
    /// A write takes at most `step` bytes, and no more than the room left. Writes of some bytes are
    /// numbered from 0, and just those named in `fails` fail.
    pub fn new(
        alloc: Global,
        room: usize,
        step: usize,
        fails: &[u64],
    ) -> Result<MemSink, AllocError>
        requires { 0 < step }
        ensures { IfOk result (λ s. s ≡ record { bytes = []; room = room; step = step; fails = fails.now; writes = 0; faults = 0 }) }
    {
        Ok(MemSink {
            bytes: Vec::with_capacity(alloc, room)?,
            room,
            step,
            fails: fails.to_vec(alloc)?,
            writes: 0,
            faults: 0,
        })
    }

    /// The bytes taken so far.
    pub fn bytes(&self) -> &[u8]
        ensures { result.now ≡ self.now.bytes }
    {
        &self.bytes
    }
}

impl Sink for MemSink {
    ghost taken = { λ s list. list ≡ s.bytes };

    ghost faults = { λ s. min s.faults last_count };

    fn write(&mut self, piece: &[u8]) -> Result<usize, Failed>
        ensures bound { WritesAtMost result piece.now }
        ensures bytes { WriteTakes (λ list. list ≡ self.old.bytes) (λ list. list ≡ self.new.bytes) result piece.now }
        ensures cause { WriteHasCause (min self.old.faults last_count) (min self.new.faults last_count) result piece.now }
        ensures no_bytes { length piece.now ≡ 0 → (result ≡ Ok 0) × (self.new ≡ self.old) }

        // Just the writes that were named fail. Each of them, and each that takes nothing of some
        // bytes, counts once.
        ensures fails { 0 < length piece.now → (IsErr result ↔ Contains self.old.fails self.old.writes) }
        ensures counted { OnErr result (self.new.faults ≡ count_after self.old.faults) }
        ensures full { IfOk result (λ n. n ≡ 0 → 0 < length piece.now → self.new.faults ≡ count_after self.old.faults) }
        ensures steady { IfOk result (λ n. 0 < n → self.new.faults ≡ self.old.faults) }
        ensures count { IfOk result (λ n. n ≡ min (min (self.old.room - length self.old.bytes) self.old.step) (length piece.now)) }
        ensures number { 0 < length piece.now → self.new.writes ≡ count_after self.old.writes }
        ensures same { (self.new.room ≡ self.old.room) × (self.new.step ≡ self.old.step) × (self.new.fails ≡ self.old.fails) }
    {
        if piece.is_empty() {
            return Ok(0);
        }
        let number = self.writes;
        self.writes = number.saturating_add(1);
        if self.fails.contains(&number) {
            self.faults = self.faults.saturating_add(1);
            return Err(Failed);
        }
        let count = (self.room - self.bytes.len())
            .min(self.step)
            .min(piece.len());
        if count == 0 {
            self.faults = self.faults.saturating_add(1);
        }
        if self.bytes.extend_from_slice(&piece[..count]).is_err() {
            unreachable!()
        }
        Ok(count)
    }

    ghost possible = { λ s. Prim.search rules };
}
