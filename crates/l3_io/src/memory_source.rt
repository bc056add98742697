ghost use Rattle.std.specs.Prelude.{◌≡◌, ◌<◌, ◌+◌, ◌↔◌, List, ℕ, Ok, min, take, length, Some, IfOk, OnOk, OnErr, IsErr, IsOk, Contains};
ghost use Rattle.std.specs.Io.{ReadsAtMost};
ghost use Rattle.std.specs.Io.KnownBytes.{ReadConsumes};
ghost use Rattle.l3_io.specs.Causes.{HasCause, count_after, last_count};
ghost use Rattle.std.proofs.Common.{rules};

use crate::Source;
use l3_base::Failed;
use std::alloc::{AllocError, Global};
use std::marker::Model;

// Copies the first bytes of `rest`, at most `most` of them, into the front of `buf`.
fn give(rest: &[u8], most: usize, buf: &mut [u8]) -> usize
    ensures count { result ≡ min (min (length rest.now) most) (length buf.old) }
    ensures bytes { take result buf.new ≡ take result rest.now }
{
    let count = rest.len().min(most).min(buf.len());
    buf[..count].copy_from_slice(&rest[..count]);
    count
}

/// Bytes in memory, given in small pieces, with reads that fail: for tests.
#[derive(Drop)]
pub struct MemSource {
    bytes: Vec<u8>,
    at: usize,
    step: usize,
    fails: Vec<u64>,
    reads: u64,
    faults: u64,
}

impl Model for MemSource {
    ghost use Rattle.std.specs.Prelude.{◌<◌, ◌≤◌, vec_len, drop};
    ghost use Rattle.l3_io.specs.Memory.{SourceState};

    ghost Value = { SourceState };

    ghost view = { λ s. record { left = drop s.at s.bytes.items; step = s.step; fails = s.fails.items; reads = s.reads; faults = s.faults } };

    ghost invariant = { λ s. (s.at ≤ vec_len s.bytes) × (0 < s.step) };
}

impl MemSource {
    /// A read gives at most `step` bytes. Reads into some room are numbered from 0, and just those
    /// named in `fails` fail.
    pub fn new(
        alloc: Global,
        bytes: &[u8],
        step: usize,
        fails: &[u64],
    ) -> Result<MemSource, AllocError>
        requires { 0 < step }
        ensures { IfOk result (λ s. s ≡ record { left = bytes.now; step = step; fails = fails.now; reads = 0; faults = 0 }) }
    {
        Ok(MemSource {
            bytes: bytes.to_vec(alloc)?,
            at: 0,
            step,
            fails: fails.to_vec(alloc)?,
            reads: 0,
            faults: 0,
        })
    }
}

impl Source for MemSource {
    ghost left = { λ s. Some s.left };

    ghost faults = { λ s. min s.faults last_count };

    fn read(&mut self, buf: &mut [u8]) -> Result<usize, Failed>
        ensures bound { ReadsAtMost result buf.new }
        ensures bytes { ReadConsumes (Some self.old.left) (Some self.new.left) result buf.new }
        ensures cause { HasCause (min self.old.faults last_count) (min self.new.faults last_count) result }
        ensures no_room { length buf.old ≡ 0 → (result ≡ Ok 0) × (self.new ≡ self.old) }

        // Just the reads that were named fail, and each of them counts once.
        ensures fails { 0 < length buf.old → (IsErr result ↔ Contains self.old.fails self.old.reads) }
        ensures counted { OnErr result (self.new.faults ≡ count_after self.old.faults) }
        ensures steady { OnOk result (self.new.faults ≡ self.old.faults) }
        ensures piece { IfOk result (λ n. n ≡ min (min (length self.old.left) self.old.step) (length buf.old)) }
        ensures number { 0 < length buf.old → self.new.reads ≡ count_after self.old.reads }
        ensures same { (self.new.step ≡ self.old.step) × (self.new.fails ≡ self.old.fails) }
    {
        if buf.is_empty() {
            return Ok(0);
        }
        let number = self.reads;
        self.reads = number.saturating_add(1);
        if self.fails.contains(&number) {
            self.faults = self.faults.saturating_add(1);
            return Err(Failed);
        }
        let count = give(&self.bytes[self.at..], self.step, buf);
        self.at += count;
        Ok(count)
    }

    ghost possible = { λ s. Prim.search rules };
}

/// Bytes in memory, whose reads never fail and give as much as there is room for.
#[derive(Drop)]
pub struct SteadySource {
    bytes: Vec<u8>,
    at: usize,
}

impl Model for SteadySource {
    ghost use Rattle.std.specs.Prelude.{◌≤◌, List, ℕ, vec_len, drop};

    ghost Value = { List ℕ };

    ghost view = { λ s. drop s.at s.bytes.items };

    ghost invariant = { λ s. s.at ≤ vec_len s.bytes };
}

impl SteadySource {
    /// All of these bytes are still to come.
    pub fn new(alloc: Global, bytes: &[u8]) -> Result<SteadySource, AllocError>
        ensures { IfOk result (λ s. s ≡ bytes.now) }
    {
        Ok(SteadySource {
            bytes: bytes.to_vec(alloc)?,
            at: 0,
        })
    }
}

impl Source for SteadySource {
    ghost left = { λ s. Some s };

    ghost faults = { λ _. 0 };

    fn read(&mut self, buf: &mut [u8]) -> Result<usize, Failed>
        ensures bound { ReadsAtMost result buf.new }
        ensures bytes { ReadConsumes (Some self.old) (Some self.new) result buf.new }
        ensures cause { HasCause 0 0 result }
        ensures no_room { length buf.old ≡ 0 → (result ≡ Ok 0) × (self.new ≡ self.old) }
        ensures served { IsOk result }
        ensures piece { IfOk result (λ n. n ≡ min (length self.old) (length buf.old)) }
    {
        let count = give(&self.bytes[self.at..], usize::MAX, buf);
        self.at += count;
        Ok(count)
    }

    ghost possible = { λ s. Prim.search rules };
}
