//! A channel's last window with its slots, so that the next window need not make all of its own.

ghost use Rattle.std.specs.Prelude.{◌≡◌, All, replicate, pos};
ghost use Rattle.l3_base.specs.Sums.{IsWithin};
ghost use Rattle.l3_base.specs.Filterbank.{slots_of};

use crate::filterbank::slots36;
use crate::following::slots36_after;
use l3_base::Slots36;
use std::marker::Model;

/// The last window of a channel, and the slots of that window.
///
/// Users see the window: 1632 samples in order of time.
#[derive(Drop)]
pub struct Kept {
    window: [i16; 1632],
    slots: Slots36,
}

impl Model for Kept {
    ghost use Rattle.std.specs.Prelude.{List, ℤ};
    ghost use Rattle.l3_transform.specs.Keeping.{AreSlotsOf};

    ghost Value = { List ℤ };

    ghost view = { λ k. k.window };

    ghost invariant = { λ k. AreSlotsOf k.window k.slots };
}

// A window of zeros.
fn no_window() -> [i16; 1632]
    ensures { result ≡ replicate 1632 (pos 0) }
{
    [0; 1632]
}

impl Kept {
    /// A window of zeros, and its slots.
    pub fn zero() -> Kept
        ensures { result ≡ replicate 1632 (pos 0) }
    {
        let window = no_window();
        let mut slots = Slots36::zero();
        slots36(&window, &mut slots);
        Kept { window, slots }
    }

    /// Goes on to another window.
    ///
    /// Where it begins with the last 1056 samples of the one before, as the window of the next
    /// granule does, only half of its slots are made. Any window may follow any other.
    pub fn go_on(&mut self, window: &[i16; 1632])
        ensures { self.new ≡ window.now }
    {
        slots36_after(&self.window, window, &mut self.slots);
        self.window = *window;
    }

    /// The 36 slots of the 32 subbands of the window.
    ///
    /// Odd slots of odd subbands are negated. Units: 2^-24 of full scale.
    pub fn slots(&self) -> &Slots36
        ensures value { result.now ≡ slots_of self.now }
        ensures bound { All (All (IsWithin 44598016)) result.now }
    {
        &self.slots
    }
}
