ghost use Rattle.std.specs.Prelude.{[], ◌≡◌, ◌+◌, ◌-◌, ◌*◌, ◌<◌, ◌≤◌, ◌⊎◌, ◌^◌, true, false, ℕ, ℤ, List, max, IfOk, IsOk, OnOk, OnErr, IfSome, IfNone};
ghost use Rattle.l3_base.specs.Filterbank.{window_of};
ghost use Rattle.l3_wav.specs.Pcm.{left_of, right_of};
ghost use Rattle.l3_wav.specs.Samples.{coming};
ghost use Rattle.l3_io.specs.Causes.{HasCause};
ghost use Rattle.l3_wav.specs.Holding.{Holds, GoesOn};
ghost use Rattle.l3_wav.specs.ReadingOn.{AreGone};
ghost use Rattle.l3_base.specs.Lengths.{granules_for};
ghost use Rattle.l3_wav.specs.Windows.{window_in};

use crate::filling::fill_window;
use crate::kept::{forget, right_silence, silence};
use crate::reading_on::read_block;
use crate::samples::Samples;
use l3_base::{Channels, GranuleNo, ReadFault, Window};
use l3_io::Source;
use std::alloc::{AllocError, Global};
use std::marker::Model;

/// Samples in a frame, for each channel.
const FRAME: u64 = 1152;

/// The samples of a source as they come, of which those at hand are kept: all that the windows of
/// the next granules cover.
///
/// Only `open` takes memory: room for 1056 samples of each channel and 576 for each granule that is
/// read ahead, and for those of eight granules more, since the next are read before the last are
/// forgotten, and the samples of seven granules that are forgotten may still stand in front. That
/// these samples are numbers of 16 bits is told by `l3_wav`'s law `samples_of_a_file`.
#[derive(Drop)]
pub struct Windows {
    channels: Channels,
    ahead: u64,
    base: u64,
    read: u64,
    ended: bool,
    samples: Samples,

    // Of so many granules, at most 7, the samples are forgotten and still stand in front, in `left`
    // and in `right`.
    stale: usize,
    left: Vec<i16>,
    right: Vec<i16>,
}

impl Model for Windows {
    ghost use Rattle.std.specs.Prelude.{◌*◌, drop, vec_capacity};
    ghost use Rattle.l3_wav.specs.Holding.{WindowsView, AreSound};

    ghost Value = { WindowsView };

    ghost view = { λ w. record {
      channels = w.channels;
      ahead = w.ahead;
      base = w.base;
      read = w.read;
      ended = w.ended;
      samples = w.samples;
      left = drop (576 * w.stale) w.left.items;
      right = drop (576 * w.stale) w.right.items;
    } };

    ghost invariant = { λ w. AreSound
        (record {
          channels = w.channels;
          ahead = w.ahead;
          base = w.base;
          read = w.read;
          ended = w.ended;
          samples = w.samples;
          left = drop (576 * w.stale) w.left.items;
          right = drop (576 * w.stale) w.right.items;
        })
        w.stale (vec_capacity w.left) (vec_capacity w.right) };
}

// Two granules to a frame.
fn granules(samples: u64) -> u64
    requires { 2 * samples < 2 ^ 32 }
    ensures value { result ≡ granules_for samples }
    ensures small { result ≤ 3728274 }
{
    if samples == 0 {
        0
    } else {
        2 * (samples.div_ceil(FRAME) + 1)
    }
}

impl Windows {
    /// Before the first granule of these samples, of which none was read. So many granules are to
    /// be read ahead. 1056 zeros stand before the first sample.
    pub fn open(
        alloc: Global,
        channels: Channels,
        ahead: u8,
        samples: Samples,
    ) -> Result<Windows, AllocError>
        requires ahead { (0 < ahead) × (ahead ≤ 64) }
        requires channels { samples.channels ≡ channels }
        requires sound { samples.failed ≡ false }
        requires declared { samples.remaining < 2 ^ 32 }
        ensures holds { IfOk result (λ w. (bytes : List ℕ) →
            Holds w bytes (left_of channels (coming samples bytes)) (right_of channels (coming samples bytes))) }
        ensures fresh { IfOk result (λ w. (w.base ≡ 0) × (w.read ≡ 0) × (w.ended ≡ false)) }
        ensures given { IfOk result (λ w. (w.channels ≡ channels) × (w.ahead ≡ ahead) × (w.samples ≡ samples)) }
    {
        let ahead = u64::from(ahead);
        let room = (1056 + 576 * (ahead + 8)) as usize;
        let left = silence(alloc, room)?;
        let right = right_silence(alloc, channels, room)?;
        Ok(Windows {
            channels,
            ahead,
            base: 0,
            read: 0,
            ended: false,
            samples,
            stale: 0,
            left,
            right,
        })
    }

    // Reads the next samples, at most 576 of each channel and none past the end.
    fn read_some<S: Source>(&mut self, end: u64, source: &mut S) -> Result<(), ReadFault>
        requires going { self.old.ended ≡ false }
        requires sound { self.old.samples.failed ≡ false }
        requires some { self.old.read < end }
        requires near { end ≤ 576 * (self.old.base + self.old.ahead + 1) }
        ensures content { OnOk result (GoesOn self.old self.new (S.left source.old) (S.left source.new)) }
        ensures same { (self.new.channels ≡ self.old.channels) × (self.new.ahead ≡ self.old.ahead) × (self.new.base ≡ self.old.base) }
        ensures further { OnOk result ((self.new.ended ≡ true) ⊎ (self.old.read < self.new.read)) }
        ensures few { self.new.read ≤ end }
        ensures grows { self.old.read ≤ self.new.read }
        ensures short { OnOk result (self.new.ended ≡ true → self.new.read < end) }
        ensures stays { OnErr result (self.new.ended ≡ false) }
        ensures gone { OnOk result (AreGone self.old.samples.remaining self.new.samples.remaining (S.left source.old) (S.left source.new)) }
        ensures some { OnErr result (AreGone self.old.samples.remaining 0 (S.left source.old) (S.left source.new)) }
        ensures sound { OnOk result (self.new.samples.failed ≡ false) }
        ensures failed { OnErr result (self.new.samples.failed ≡ true) }
        ensures cause { HasCause (S.faults source.old) (S.faults source.new) result }
    {
        let room = (end - self.read).min(576) as usize;
        let count = read_block(
            &mut self.samples,
            self.channels,
            room,
            source,
            &mut self.left,
            &mut self.right,
        )?;
        self.read += count as u64;
        self.ended = count < room;
        Ok(())
    }

    // Reads up to the end, or all samples that there are.
    fn read_to<S: Source>(&mut self, end: u64, source: &mut S) -> Result<(), ReadFault>
        requires sound { self.old.samples.failed ≡ false }
        requires near { end ≤ 576 * (self.old.base + self.old.ahead + 1) }
        ensures content { OnOk result (GoesOn self.old self.new (S.left source.old) (S.left source.new)) }
        ensures same { (self.new.channels ≡ self.old.channels) × (self.new.ahead ≡ self.old.ahead) × (self.new.base ≡ self.old.base) }
        ensures at_hand { OnOk result ((self.new.ended ≡ true) ⊎ (end ≤ self.new.read)) }
        ensures few { self.new.read ≤ max self.old.read end }
        ensures grows { self.old.read ≤ self.new.read }
        ensures short { OnOk result (self.old.ended ≡ false → self.new.ended ≡ true → self.new.read < end) }
        ensures idle { (self.old.ended ≡ true) ⊎ (end ≤ self.old.read) → IsOk result × (self.new ≡ self.old) × (source.new ≡ source.old) }
        ensures stays { OnErr result (self.new.ended ≡ false) }
        ensures gone { OnOk result (AreGone self.old.samples.remaining self.new.samples.remaining (S.left source.old) (S.left source.new)) }
        ensures some { OnErr result (AreGone self.old.samples.remaining 0 (S.left source.old) (S.left source.new)) }
        ensures sound { OnOk result (self.new.samples.failed ≡ false) }
        ensures failed { OnErr result (self.new.samples.failed ≡ true) }
        ensures cause { HasCause (S.faults source.old) (S.faults source.new) result }
    {
        'reading: while !self.ended && self.read < end {
            self.read_some(end, source)?;
        }
        Ok(())
    }

    // Forgets what no window from the next granule on covers.
    fn advance(&mut self)
        requires there { (self.old.ended ≡ true) ⊎ (576 * (self.old.base + 1) ≤ self.old.read) }
        requires limit { self.old.base < 8589934592 }
        ensures holds { (bytes : List ℕ) (left right : List ℤ) → Holds self.old bytes left right → Holds self.new bytes left right }
        ensures base { self.new.base ≡ self.old.base + 1 }
        ensures same { (self.new.channels ≡ self.old.channels) × (self.new.ahead ≡ self.old.ahead) × (self.new.read ≡ self.old.read) × (self.new.ended ≡ self.old.ended) × (self.new.samples ≡ self.old.samples) }
    {
        self.base += 1;
        self.stale = forget(self.stale, &mut self.left, &mut self.right);
    }

    /// Goes to granule `base`, the one of the last call or the next, and reads on until so many
    /// granules from there on as are to be read ahead have all samples of their windows, or the
    /// samples end. That they end is told by a read that gives fewer than it has room for.
    ///
    /// After a fault no more may be read.
    pub fn read_ahead<S: Source>(&mut self, base: u64, source: &mut S) -> Result<(), ReadFault>
        requires turn { (base ≡ self.old.base) ⊎ (base ≡ self.old.base + 1) }
        requires limit { base ≤ 8589934592 }
        requires sound { self.old.samples.failed ≡ false }
        ensures base { OnOk result (self.new.base ≡ base) }
        ensures same { (self.new.channels ≡ self.old.channels) × (self.new.ahead ≡ self.old.ahead) }

        // All that the windows need is at hand, and no sample behind it was read.
        ensures at_hand { OnOk result ((self.new.ended ≡ true) ⊎ (576 * (base + self.old.ahead) ≤ self.new.read)) }
        ensures few { self.new.read ≤ max self.old.read (576 * (base + self.old.ahead)) }
        ensures grows { self.old.read ≤ self.new.read }

        // What is kept is that of the same samples, as far as the source tells its bytes.
        ensures content { OnOk result (GoesOn self.old self.new (S.left source.old) (S.left source.new)) }
        ensures gone { OnOk result (AreGone self.old.samples.remaining self.new.samples.remaining (S.left source.old) (S.left source.new)) }

        // The end is known just where a read was short; then nothing is still to come.
        ensures short { OnOk result (self.old.ended ≡ false → self.new.ended ≡ true → self.new.read < 576 * (base + self.old.ahead)) }
        ensures done { OnOk result (self.new.ended ≡ true → self.new.samples.remaining ≡ 0) }

        // Where all is at hand before, the source is not asked.
        ensures idle { (self.old.ended ≡ true) ⊎ (576 * (base + self.old.ahead) ≤ self.old.read) →
            IsOk result × (source.new ≡ source.old) × (self.new.ended ≡ self.old.ended) × (self.new.read ≡ self.old.read) × (self.new.samples ≡ self.old.samples) }

        // At a fault the base stays, no end was read, and no byte after the data is gone.
        ensures sound { OnOk result (self.new.samples.failed ≡ false) }
        ensures failed { OnErr result (self.new.samples.failed ≡ true) }
        ensures stays { OnErr result ((self.new.base ≡ self.old.base) × (self.new.ended ≡ false)) }
        ensures some { OnErr result (AreGone self.old.samples.remaining 0 (S.left source.old) (S.left source.new)) }
        ensures cause { HasCause (S.faults source.old) (S.faults source.new) result }
    {
        let Ok(()) = self.read_to(576 * (base + self.ahead), source) else {
            return Err(ReadFault);
        };
        if self.base < base {
            self.advance();
        }
        Ok(())
    }

    /// Whether a read has failed. Then no more may be read.
    pub fn failed(&self) -> bool
        ensures { result ≡ self.now.samples.failed }
    {
        self.samples.failed()
    }

    /// How many granules the samples have, two to a frame, once their end was read: no more than
    /// those of 2147483647 samples.
    pub fn total(&self) -> Option<u64>
        ensures some { IfSome result (λ total. (self.now.ended ≡ true) × (total ≡ granules_for self.now.read)) }
        ensures none { IfNone result (self.now.ended ≡ false) }
        ensures small { IfSome result (λ total. total ≤ 3728274) }
        ensures few { 2 * self.now.read < 2 ^ 32 }
    {
        if self.ended {
            Some(granules(self.read))
        } else {
            None
        }
    }

    /// Fills in the window of a granule: 1632 samples of each channel, the first is sample
    /// 576 * number - 1056; 0 where there is none, and to the right in mono.
    pub fn window(&self, number: GranuleNo, out: &mut Window)
        requires near { (self.now.base ≤ number) × (number < self.now.base + self.now.ahead) }
        requires there { (self.now.ended ≡ true) ⊎ (576 * (number + 1) ≤ self.now.read) }
        ensures left { out.new.left ≡ window_in self.now.left (number - self.now.base) }
        ensures right { out.new.right ≡ window_in self.now.right (number - self.now.base) }
        ensures of { (bytes : List ℕ) (left right : List ℤ) → Holds self.now bytes left right →
            (out.new.left ≡ window_of left number) × (out.new.right ≡ window_of right number) }
    {
        let after = number.get() - self.base;
        fill_window(&mut out.left, &self.left, self.stale, after);
        fill_window(&mut out.right, &self.right, self.stale, after);
    }
}
