ghost use Rattle.std.specs.Prelude.{◌≡◌, ◌<◌, ◌≤◌, ◌+◌, ◌*◌, ℕ, ℤ, List, All, Any, IfNone, IfSome, Some, length, pos, replicate, unsigned_abs};
ghost use Rattle.l3_quant.specs.Quantiser.{IsCodable};
ghost use Rattle.l3_quant.specs.Amplified.{quantised_bands};
ghost use Rattle.l3_region.specs.Bands.{band_edges};
ghost use Rattle.l3_region.specs.Pairs.{ArePairsOf};
ghost use Rattle.l3_region.specs.Split.{split_of};
ghost use Rattle.l3_count.specs.Units.{ArePlanesOf};
ghost use Rattle.l3_count.specs.Count.{count_of};

use crate::count::Count;
use crate::planes::{Planes, classes_at, is_codable_at, no_planes, pairs_at, set, split_at};
use l3_base::{Amp, SampleRate, Spectrum, Steps};
use l3_quant::line_peaks;
use l3_region::{Split, split_of_pairs};
use std::sync::ledger::Ledger;

// Room for 288 pairs.
#[inline(always)]
fn no_pairs() -> [u8; 288]
    ensures { length result ≡ 288 }
{
    [0; 288]
}

// Pairs of zeros.
#[inline(always)]
fn zero_pairs() -> [u8; 288]
    ensures { result ≡ replicate 288 0 }
{
    [0; 288]
}

// The class of zeros, for each band.
#[inline(always)]
fn zero_classes() -> [u8; 32]
    ensures { result ≡ replicate 32 0 }
{
    [0; 32]
}

/// What a unit of zeros costs at a gain under an amplification. It is one step of the counter.
pub fn count_zeros<L: Ledger + Send>(
    rate: SampleRate,
    amp: &Amp,
    gain: u8,
    steps: &mut Steps<L>,
) -> Count
    ensures value { (lines : List ℤ) → length lines ≡ 576 → All (λ x. x ≡ pos 0) lines → count_of (band_edges rate) amp.now lines gain ≡ Some result }
    ensures ticks { steps.new ≡ steps.old + 1 }
{
    steps.tick();
    let pairs = zero_pairs();
    let classes = zero_classes();
    Count::of_pairs(
        &pairs,
        &classes,
        Split { big: 0, quads: 0 },
        rate,
        amp,
        gain,
    )
}

/// What a unit costs at a gain under an amplification, or `None` exactly where a quantised value is
/// above 8191 either way. It is one step of the counter, in both cases.
pub fn count_at<L: Ledger + Send>(
    spec: &Spectrum,
    rate: SampleRate,
    amp: &Amp,
    gain: u8,
    steps: &mut Steps<L>,
) -> Option<Count>
    ensures value { result ≡ count_of (band_edges rate) amp.now spec.now gain }
    ensures some { IfSome result (λ c. IsCodable (quantised_bands (band_edges rate) amp.now (pos gain) spec.now)) }
    ensures none { IfNone result (Any (λ q. 8191 < unsigned_abs q) (quantised_bands (band_edges rate) amp.now (pos gain) spec.now)) }
    ensures ticks { steps.new ≡ steps.old + 1 }
{
    let mut planes = no_planes();
    set(&mut planes, spec, &line_peaks(spec, rate));
    if is_codable_at(&planes, amp, gain) {
        Some(count_over(&planes, rate, amp, gain, steps))
    } else {
        steps.tick();
        None
    }
}

// The split of a unit, whose pairs at the gain are made.
#[inline(always)]
fn split_over(planes: &Planes, pairs: &[u8; 288], amp: &Amp, gain: u8) -> Split
    ensures places { 2 * result.big + 4 * result.quads ≤ 576 }
    ensures value { (rate : SampleRate) (lines : List ℤ) (classes : List ℕ) → ArePlanesOf (band_edges rate) lines planes.now → ArePairsOf (band_edges rate) (quantised_bands (band_edges rate) amp.now (pos gain) lines) pairs.now classes →
        result ≡ split_of (quantised_bands (band_edges rate) amp.now (pos gain) lines) }
{
    if *amp == Amp::zero() {
        split_at(planes, gain)
    } else {
        split_of_pairs(pairs)
    }
}

/// The same over a spectrum's planes, which serve all gains and amplifications, at a gain at which
/// it can be coded.
pub fn count_over<L: Ledger + Send>(
    planes: &Planes,
    rate: SampleRate,
    amp: &Amp,
    gain: u8,
    steps: &mut Steps<L>,
) -> Count
    requires { (lines : List ℤ) × ArePlanesOf (band_edges rate) lines planes.now × IsCodable (quantised_bands (band_edges rate) amp.now (pos gain) lines) }
    ensures value { (lines : List ℤ) → ArePlanesOf (band_edges rate) lines planes.now → IsCodable (quantised_bands (band_edges rate) amp.now (pos gain) lines) → count_of (band_edges rate) amp.now lines gain ≡ Some result }
    ensures ticks { steps.new ≡ steps.old + 1 }
{
    steps.tick();
    let mut pairs = no_pairs();
    pairs_at(planes, rate, amp, gain, &mut pairs);
    let classes = classes_at(planes, amp, gain);
    let split = split_over(planes, &pairs, amp, gain);
    Count::of_pairs(&pairs, &classes, split, rate, amp, gain)
}
