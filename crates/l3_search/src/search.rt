ghost use Rattle.std.specs.Prelude.{◌≡◌, ◌≤◌, ◌<◌, ◌+◌, ℕ, All, Some, true, false, slice_index};
ghost use Rattle.l3_base.specs.Amp.{IsAmp};
ghost use Rattle.l3_base.specs.Spectrum.{IsLine};
ghost use Rattle.l3_quant.specs.Gains.{first_gain_of};
ghost use Rattle.l3_quant.specs.Magnitudes.{AreLinePeaks};
ghost use Rattle.l3_count.specs.Units.{ArePlanesOf};
ghost use Rattle.l3_count.specs.Bands.{band_edges};
ghost use Rattle.l3_count.specs.Count.{count_of};
ghost use Rattle.l3_count.specs.Memo.{IsLaneOf, lane_of};
ghost use Rattle.l3_search.specs.Gain.{HasLaneTo, IsLeastWithin, lacking, picked, picked_gain, tried_of};

use l3_base::{Amp, SampleRate, Spectrum, Steps};
use l3_count::{Count, Memo, Planes, count_over, count_zeros, no_planes, set};
use l3_quant::{first_gain_with, line_peaks};
use std::sync::ledger::Ledger;

/// What a unit takes within its budget.
#[derive(Clone, Copy, Debug)]
pub struct Picked {
    /// The count at the picked gain.
    pub count: Count,
    /// How many counts were made for it, 0 to 256.
    pub made: u16,
}

// Planes that are made before the first count.
#[derive(Drop)]
struct Prepared {
    made: bool,
    planes: Planes,
}

// Planes that are not made yet.
#[inline(always)]
fn unprepared() -> Prepared
    ensures { result.made ≡ false }
{
    Prepared {
        made: false,
        planes: no_planes(),
    }
}

// Makes the planes of a spectrum, unless they are made.
#[inline(always)]
fn prepare(spec: &Spectrum, peaks: &[u32; 22], rate: SampleRate, prepared: &mut Prepared)
    requires peaks { AreLinePeaks (band_edges rate) spec.now peaks.now }
    requires own { prepared.old.made ≡ true → ArePlanesOf (band_edges rate) spec.now prepared.old.planes }
    ensures { ArePlanesOf (band_edges rate) spec.now prepared.new.planes }
{
    let _rate = rate;
    if !prepared.made {
        set(&mut prepared.planes, spec, peaks);
        prepared.made = true;
    }
}

// Whether the greatest line of each band is 0.
#[inline(always)]
fn is_silent(peaks: &[u32; 22]) -> bool
    ensures { result ≡ true → (b : ℕ) → b < 22 → slice_index peaks.now b ≡ 0 }
{
    for band in 0..22 {
        if peaks[band] > 0 {
            return false;
        }
    }
    true
}

// Makes the count at a gain that is no less than the first one; that of zeros needs no planes.
#[inline(always)]
fn count<L: Ledger + Send>(
    spec: &Spectrum,
    peaks: &[u32; 22],
    rate: SampleRate,
    amp: &Amp,
    gain: u8,
    prepared: &mut Prepared,
    steps: &mut Steps<L>,
) -> Count
    requires peaks { AreLinePeaks (band_edges rate) spec.now peaks.now }
    requires first { first_gain_of (band_edges rate) amp.now spec.now ≤ gain }
    requires own { prepared.old.made ≡ true → ArePlanesOf (band_edges rate) spec.now prepared.old.planes }
    ensures own { prepared.new.made ≡ true → ArePlanesOf (band_edges rate) spec.now prepared.new.planes }
    ensures count { count_of (band_edges rate) amp.now spec.now gain ≡ Some result }
    ensures ticks { steps.new ≡ steps.old + 1 }
{
    if is_silent(peaks) {
        return count_zeros(rate, amp, gain, steps);
    }
    prepare(spec, peaks, rate, prepared);
    count_over(&prepared.planes, rate, amp, gain, steps)
}

// The first gain of a spectrum, whose greatest line of each band is known.
#[inline(always)]
fn start(spec: &Spectrum, peaks: &[u32; 22], rate: SampleRate, amp: &Amp) -> u8
    requires peaks { AreLinePeaks (band_edges rate) spec.now peaks.now }
    ensures value { result ≡ first_gain_of (band_edges rate) amp.now spec.now }
    ensures small { All IsLine spec.now }
    ensures amp { IsAmp amp.now }
{
    // For the proof: lines are in range, and an amplification is 21 numbers of 0 to 3.
    let _lines = spec.lines();
    let _first = amp.get(0);
    let _rate = rate;
    first_gain_with(peaks, amp)
}

// Makes the count at a gain that is no less than the first one, and puts it into the lane.
fn make<L: Ledger + Send>(
    spec: &Spectrum,
    peaks: &[u32; 22],
    rate: SampleRate,
    amp: &Amp,
    lane: u8,
    gain: u8,
    prepared: &mut Prepared,
    memo: &mut Memo,
    steps: &mut Steps<L>,
) -> Count
    requires peaks { AreLinePeaks (band_edges rate) spec.now peaks.now }
    requires lane { lane < 4 }
    requires first { first_gain_of (band_edges rate) amp.now spec.now ≤ gain }
    requires amp { (lane_of memo.old lane).amp ≡ amp.now }
    requires memo { IsLaneOf (band_edges rate) spec.now (lane_of memo.old lane) }
    requires own { prepared.old.made ≡ true → ArePlanesOf (band_edges rate) spec.now prepared.old.planes }
    ensures own { prepared.new.made ≡ true → ArePlanesOf (band_edges rate) spec.now prepared.new.planes }
    ensures count { count_of (band_edges rate) amp.now spec.now gain ≡ Some result }
    ensures ticks { steps.new ≡ steps.old + 1 }
    ensures memo { HasLaneTo (band_edges rate) amp.now spec.now lane gain gain memo.old memo.new }
    ensures kept { IsLaneOf (band_edges rate) spec.now (lane_of memo.new lane) }
{
    let count = count(spec, peaks, rate, amp, gain, prepared, steps);
    memo.put(lane, count);
    count
}

// The lane's count at a gain that is no less than the first one, or where it has none, one that is
// made.
fn look_up<L: Ledger + Send>(
    spec: &Spectrum,
    peaks: &[u32; 22],
    rate: SampleRate,
    amp: &Amp,
    lane: u8,
    gain: u8,
    prepared: &mut Prepared,
    memo: &mut Memo,
    steps: &mut Steps<L>,
) -> Picked
    requires peaks { AreLinePeaks (band_edges rate) spec.now peaks.now }
    requires lane { lane < 4 }
    requires first { first_gain_of (band_edges rate) amp.now spec.now ≤ gain }
    requires amp { (lane_of memo.old lane).amp ≡ amp.now }
    requires memo { IsLaneOf (band_edges rate) spec.now (lane_of memo.old lane) }
    requires own { prepared.old.made ≡ true → ArePlanesOf (band_edges rate) spec.now prepared.old.planes }
    ensures own { prepared.new.made ≡ true → ArePlanesOf (band_edges rate) spec.now prepared.new.planes }
    ensures count { count_of (band_edges rate) amp.now spec.now gain ≡ Some result.count }
    ensures made { result.made ≡ lacking (lane_of memo.old lane).counts gain gain }
    ensures one { result.made ≤ 1 }
    ensures ticks { steps.new ≡ steps.old + result.made }
    ensures memo { HasLaneTo (band_edges rate) amp.now spec.now lane gain gain memo.old memo.new }
    ensures kept { IsLaneOf (band_edges rate) spec.now (lane_of memo.new lane) }
{
    match memo.get(lane, gain) {
        Some(count) => Picked { count, made: 0 },
        None => {
            let count = make(spec, peaks, rate, amp, lane, gain, prepared, memo, steps);
            Picked { count, made: 1 }
        }
    }
}

/// The count at the least gain of 0 to 255 whose bits are at most the budget, under an
/// amplification. There is one for each budget, since at 255 no bits are left.
///
/// The lane has this amplification, and its counts are those of this spectrum. What it lacks up to
/// the picked gain is counted and put into it, one step of the counter each; bits need not fall as
/// the gain rises, so no gain is passed over. That the least gain is taken is this project's own.
pub fn pick<L: Ledger + Send>(
    spec: &Spectrum,
    rate: SampleRate,
    amp: &Amp,
    lane: u8,
    budget: u32,
    memo: &mut Memo,
    steps: &mut Steps<L>,
) -> Picked
    requires lane { lane < 4 }
    requires amp { (lane_of memo.old lane).amp ≡ amp.now }
    requires memo { IsLaneOf (band_edges rate) spec.now (lane_of memo.old lane) }
    ensures count { picked (band_edges rate) amp.now spec.now budget ≡ Some result.count }
    ensures gain { result.count.gain ≡ picked_gain (band_edges rate) amp.now spec.now budget }
    ensures least { IsLeastWithin (band_edges rate) amp.now spec.now budget result.count }
    ensures within { result.count.bits ≤ budget }
    ensures made { result.made ≡ lacking (lane_of memo.old lane).counts (first_gain_of (band_edges rate) amp.now spec.now) (picked_gain (band_edges rate) amp.now spec.now budget) }
    ensures tried { result.made ≤ tried_of (band_edges rate) amp.now spec.now budget }
    ensures limit { result.made ≤ 256 }
    ensures ticks { steps.new ≡ steps.old + result.made }
    ensures memo { HasLaneTo (band_edges rate) amp.now spec.now lane (first_gain_of (band_edges rate) amp.now spec.now) (picked_gain (band_edges rate) amp.now spec.now budget) memo.old memo.new }
    ensures kept { IsLaneOf (band_edges rate) spec.now (lane_of memo.new lane) }
{
    let peaks = line_peaks(spec, rate);
    let mut prepared = unprepared();
    let mut gain = start(spec, &peaks, rate, amp);
    let mut found = look_up(
        spec,
        &peaks,
        rate,
        amp,
        lane,
        gain,
        &mut prepared,
        memo,
        steps,
    );
    let mut made = found.made;
    while found.count.bits() > budget {
        gain += 1;
        found = look_up(
            spec,
            &peaks,
            rate,
            amp,
            lane,
            gain,
            &mut prepared,
            memo,
            steps,
        );
        made += found.made;
    }
    Picked {
        count: found.count,
        made,
    }
}
