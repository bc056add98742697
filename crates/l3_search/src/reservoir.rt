ghost use Rattle.std.specs.Prelude.{◌≡◌, ◌+◌, ◌*◌, ◌≤◌, ◌<◌, ◌^◌, ℕ, min};
ghost use Rattle.l3_base.specs.Lengths.{mean_bits_of, mmax_of};
ghost use Rattle.l3_search.specs.Budget.{budget_of, left_by, begin_after, stuffing_after};

use crate::borrowing::borrow;
use l3_base::Settings;
use std::marker::Model;

// The greatest `part2_3_length` in bits: the field has 12 bits (ISO/IEC 11172-3, 2.4).
const LENGTH_LIMIT: u64 = 4095;

/// The reserve of the bit reservoir in bits, as it stands before a unit.
///
/// ISO/IEC 11172-3, Annex C, C.1.5.4, has the reservoir; how
/// much of it a unit may take is this project's own rule.
#[derive(Clone, Copy, Debug, PartialEq, Eq)]
pub struct Reserve(u64);

impl Model for Reserve {
    ghost Value = { ℕ };

    ghost view = { λ r. r.0 };

    ghost inverse = { λ n. record { 0 = n } };
}

/// What the end of a frame settles.
#[derive(Clone, Copy, Debug, PartialEq, Eq)]
pub struct FrameEnd {
    /// Bits that no unit takes: zeros that stand behind the frame's codes.
    pub stuffing: u32,

    /// `main_data_begin` of the next frame, in bytes.
    pub begin: u16,
}

impl Reserve {
    /// The reserve before the first frame.
    pub fn start() -> Reserve
        ensures { result ≡ 0 }
    {
        Reserve(0)
    }

    /// The reserve that a worker supposes for a granule.
    pub fn supposed(bits: u32) -> Reserve
        ensures { result ≡ bits }
    {
        Reserve(u64::from(bits))
    }

    /// In bits, or 4294967295 where there are more.
    pub fn bits(&self) -> u32
        ensures { result ≡ min self.now 4294967295 }
    {
        self.0.min(u64::from(u32::MAX)) as u32
    }

    /// The bits that the next unit may take, by its demand. The frame's number is at most 2^32.
    pub fn budget(&self, settings: &Settings, frame: u64, demand: u32) -> u32
        requires { frame ≤ 2 ^ 32 }
        ensures value { result ≡ budget_of self.now (mean_bits_of settings.now frame) (mmax_of settings.now) demand }
        ensures limit { result ≤ 4095 }
        ensures covered { result ≤ mean_bits_of settings.now frame + self.now }
    {
        let mean = settings.mean_bits(frame);
        let borrowed = borrow(self.0, mean, settings.mmax(), demand);
        u64::from(mean).saturating_add(borrowed).min(LENGTH_LIMIT) as u32
    }

    /// A unit takes so many bits, of its mean share and the reserve.
    pub fn spend(&mut self, settings: &Settings, frame: u64, used: u32)
        requires number { frame ≤ 2 ^ 32 }
        requires covered { used ≤ mean_bits_of settings.now frame + self.old }
        requires room { self.old + mean_bits_of settings.now frame < 2 ^ 64 }
        ensures { self.new ≡ left_by self.old (mean_bits_of settings.now frame) used }
    {
        self.0 = self.0 + u64::from(settings.mean_bits(frame)) - u64::from(used);
    }

    /// A frame ends: what the next `main_data_begin` cannot reach is stuffed.
    pub fn frame_end(&mut self, settings: &Settings) -> FrameEnd
        requires { self.old ≤ 4294967295 }
        ensures begin { result.begin ≡ begin_after self.old (mmax_of settings.now) }
        ensures limit { result.begin ≤ 511 }
        ensures stuffing { result.stuffing ≡ stuffing_after self.old (mmax_of settings.now) }
        ensures rest { self.new ≡ 8 * result.begin }
    {
        let begin = (self.0 / 8).min(u64::from(settings.mmax()));
        let stuffing = self.0 - 8 * begin;
        self.0 = 8 * begin;
        FrameEnd {
            stuffing: stuffing as u32,
            begin: begin as u16,
        }
    }
}
