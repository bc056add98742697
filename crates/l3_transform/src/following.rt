//! Slots that two windows share: the later one begins with the last 1056 samples of the other, as
//! those of neighbouring granules do, so that its first 18 slots are the last 18 of the other.

ghost use Rattle.std.specs.Prelude.{◌≡◌, ◌≢◌, ◌<◌, ◌+◌, ◌^◌, ℕ, All};
ghost use Rattle.std.specs.Bool.{OnTrue};
ghost use Rattle.l3_base.specs.Slots.{slot_in};
ghost use Rattle.l3_base.specs.Lists.{entry};
ghost use Rattle.l3_base.specs.Sums.{IsWithin};
ghost use Rattle.l3_base.specs.Filterbank.{slots_of};
ghost use Rattle.l3_transform.specs.Samples.{HasShape};

use crate::filterbank::{fill_from, slots36};
use l3_base::Slots36;

// The slots of a window, where `slots` has those of another one before it: slots that the two share
// are taken over.
pub(crate) fn slots36_after(before: &[i16; 1632], window: &[i16; 1632], slots: &mut Slots36)
    requires value { slots.old ≡ slots_of before.now }
    requires bound { All (All (IsWithin 44598016)) slots.old }
    ensures value { slots.new ≡ slots_of window.now }
    ensures bound { All (All (IsWithin 44598016)) slots.new }
{
    if follows(before, window) {
        keep(slots);
        fill_from(window, 18, slots);
    } else {
        slots36(window, slots);
    }
}

// Whether a window begins with the last 1056 samples of the one before.
//
// All of them are compared, eight at once.
fn follows(before: &[i16; 1632], window: &[i16; 1632]) -> bool
    ensures { OnTrue result ((n : ℕ) → n < 1056 → entry window.now n ≡ entry before.now (n + 576)) }
{
    let mut same = true;
    for n in 0..1056 {
        if window[n] != before[n + 576] {
            same = false;
        }
    }
    same
}

// Moves the last 18 slots of each subband to its front.
//
// Their signs stay: 18 is even.
fn keep(slots: &mut Slots36)
    requires shape { HasShape slots.old }
    requires small { (i k : ℕ) → i < 32 → k < 36 → IsWithin 44598016 (slot_in slots.old i k) }
    ensures shape { HasShape slots.new }
    ensures kept { (i k : ℕ) → i < 32 → k < 18 → slot_in slots.new i k ≡ slot_in slots.old i (k + 18) }
{
    for i in 0..32 {
        keep_subband(slots, i);
    }
}

// Moves the last 18 slots of a subband to its front.
#[inline(always)]
fn keep_subband(slots: &mut Slots36, i: usize)
    requires subband { i < 32 }
    requires shape { HasShape slots.old }
    requires small { (k : ℕ) → k < 36 → IsWithin 44598016 (slot_in slots.old i k) }
    ensures shape { HasShape slots.new }
    ensures kept { (k : ℕ) → k < 18 → slot_in slots.new i k ≡ slot_in slots.old i (k + 18) }
    ensures others { (m k : ℕ) → m ≢ i → slot_in slots.new m k ≡ slot_in slots.old m k }
{
    for k in 0..18 {
        slots.set(i, k, slots.get(i, k + 18));
    }
}
