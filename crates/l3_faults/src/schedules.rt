//! Guesses that are wild, and workers that are held.

ghost use Rattle.std.specs.Prelude.{◌≡◌, ◌%◌, if◌then◌else◌, nat_eq};

use crate::running::{demo, demo_stream, encoded, frames_of, wide_sink};
use l3_base::GranuleNo;
use l3_encoder::{Gate, OpenGate};
use l3_guess::{Guesser, Last};
use std::alloc::Global;
use std::sync::Wait;
use std::sync::atomic::{AtomicU64, Ordering};
use std::thread::{Threads, yield_now};

// Guesses no reserve and the greatest number in turn, whatever it is told.
#[derive(Drop)]
struct Wild;

impl Guesser for Wild {
    ghost guesses = { λ _ number. if nat_eq (number % 2) 0 then 0 else 4294967295 };

    ghost guesses_after = { λ _ _ _ number. if nat_eq (number % 2) 0 then 0 else 4294967295 };

    fn tell(&mut self, _number: GranuleNo, _reserve: u32) {}

    fn guess(&self, number: GranuleNo) -> u32 {
        if number.get() % 2 == 0 { 0 } else { u32::MAX }
    }
}

// Encodes the demo's file two granules ahead: how many frames were given, if the bytes are those of
// one thread.
fn frames_beside<G: Guesser, T: Gate + Sync, R: Threads + Wait + Sync>(
    rt: &R,
    alloc: Global,
    guesser: &mut G,
    gate: &T,
) -> Option<u32> {
    let Some(mut sink) = wide_sink(alloc) else {
        return None;
    };
    let Some(stream) = demo_stream(rt, alloc) else {
        return None;
    };
    let answer = encoded(rt, alloc, 2, guesser, gate, &mut demo(), &mut sink);
    if sink.bytes() == stream.bytes() {
        frames_of(answer).ok()
    } else {
        None
    }
}

#[test]
fn wild_guesses_change_no_byte(rt: HostRuntime) {
    assert!(rt; frames_beside(&rt, rt.alloc(), &mut Wild, &OpenGate) == Some(9));
}

// Holds the committer before it takes granule 0 until two workers have claimed a granule, and these
// until it is about to take granule 4.
#[derive(Drop)]
struct Holding {
    claimed: AtomicU64,
    freed: AtomicU64,
    late: AtomicU64,
}

impl Holding {
    fn nobody() -> Holding {
        Holding {
            claimed: AtomicU64::new(0),
            freed: AtomicU64::new(0),
            late: AtomicU64::new(0),
        }
    }

    // Returns once a count is so high; where it never is, it counts that and returns too.
    fn wait(&self, count: &AtomicU64, height: u64) {
        for _ in 0..100000000 {
            if count.load(Ordering::SeqCst) >= height {
                return;
            }
            yield_now();
        }
        self.late.fetch_add(1, Ordering::SeqCst);
    }
}

impl Gate for Holding {
    fn between(&self, _number: GranuleNo) {
        self.claimed.fetch_add(1, Ordering::SeqCst);
        self.wait(&self.freed, 1);
    }

    fn before_take(&self, number: GranuleNo) {
        match number.get() {
            0 => self.wait(&self.claimed, 2),
            4 => self.freed.store(1, Ordering::SeqCst),
            _ => {}
        }
    }
}

// Both cells are claimed and no piece comes back, so the committer makes each of the first four
// granules alone. The call returns only once both workers have ended.
#[test]
fn held_workers_change_no_byte(rt: HostRuntime) {
    let gate = Holding::nobody();
    let frames = frames_beside(&rt, rt.alloc(), &mut Last::new(), &gate);
    assert!(rt; frames == Some(9));
    assert!(rt; gate.late.load(Ordering::SeqCst) == 0);
}
