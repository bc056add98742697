ghost use Rattle.std.specs.Prelude.{◌≡◌, ◌+◌, ◌≤◌, ◌<◌, ◌^◌, ◌∷◌, []};
ghost use Rattle.l3_base.specs.Spectrum.{IsSpectrum};
ghost use Rattle.l3_stream.specs.Frames.{blank};
ghost use Rattle.l3_analysis.specs.Piece.{HasSpectra, IsChannel, memo_in, spectrum_in, with_memo};
ghost use Rattle.l3_commit.specs.Choice.{unit_chosen, after_unit, granule_chosen, after_granule, AreOfChannels};
ghost use Rattle.l3_commit.specs.Tried.{unit_tried, granule_tried};
ghost use Rattle.l3_commit.specs.Lacking.{HasUnitCounted, IsCommitted, IsLike, granule_lacking, unit_lacking};

use crate::track::GranuleDone;
use crate::unit::write_unit;
use l3_analysis::Piece;
use l3_base::{Channels, Settings, Steps};
use l3_quant::first_gain;
use l3_search::Reserve;
use l3_stream::Unit;
use std::sync::ledger::Ledger;

// Where a unit's bits come from.
#[derive(Clone, Copy)]
pub(crate) struct Place {
    pub(crate) settings: Settings,
    // The number of its frame, at most 2^32.
    pub(crate) frame: u64,
}

// Writes the unit that a channel of a piece takes under the reserve before it, and takes its bits.
// Counts that the piece has are not made again.
fn choose<L: Ledger + Send>(
    reserve: &mut Reserve,
    place: Place,
    piece: &mut Piece,
    channel: u8,
    steps: &mut Steps<L>,
    unit: &mut Unit,
) -> GranuleDone
    requires number { place.frame ≤ 2 ^ 32 }
    requires room { reserve.old < 2 ^ 40 }
    requires stage { HasSpectra piece.old.stage }
    requires channel { IsChannel piece.old channel }
    requires rate { piece.old.settings.sample_rate ≡ place.settings.sample_rate }
    ensures value { unit.new ≡ unit_chosen place.settings place.frame reserve.old (spectrum_in piece.old channel) }
    ensures spectrum { IsSpectrum (spectrum_in piece.old channel) }
    ensures rest { reserve.new ≡ after_unit place.settings place.frame reserve.old (spectrum_in piece.old channel) }
    ensures small { reserve.new < reserve.old + 2 ^ 32 }
    ensures tried { result.tried ≡ unit_tried place.settings place.frame reserve.old (spectrum_in piece.old channel) }
    ensures few { result.tried ≤ 256 }
    ensures made { result.made ≡ unit_lacking place.settings place.frame reserve.old piece.old channel }
    ensures fewer { result.made ≤ result.tried }
    ensures ticks { steps.new ≡ steps.old + result.made }
    ensures memo { HasUnitCounted place.settings place.frame reserve.old piece.old piece.new channel }
    ensures piece { piece.new ≡ with_memo piece.old channel (memo_in piece.new channel) }
{
    let demand = piece.demand(channel);
    let budget = reserve.budget(&place.settings, place.frame, demand);
    let picked = piece.choose(channel, budget, steps);
    reserve.spend(&place.settings, place.frame, picked.count.bits());
    let spec = piece.spectrum(channel);
    // For the proof alone: that the spectrum has its shape and range.
    let _lines = spec.lines();
    let first = first_gain(spec);
    write_unit(spec, &picked.count, unit);
    let tried = (u32::from(picked.count.gain()) + 1).saturating_sub(u32::from(first));
    GranuleDone {
        made: u32::from(picked.made),
        tried,
    }
}

// Writes the units of a piece's granule under the reserve before it.
pub(crate) fn choose_granule<L: Ledger + Send>(
    reserve: &mut Reserve,
    place: Place,
    piece: &mut Piece,
    steps: &mut Steps<L>,
    units: &mut [Unit; 2],
) -> GranuleDone
    requires number { place.frame ≤ 2 ^ 32 }
    requires room { reserve.old < 2 ^ 36 }
    requires stage { HasSpectra piece.old.stage }
    requires settings { IsLike place.settings piece.old.settings }
    ensures value { units.new ≡ granule_chosen place.settings place.frame reserve.old (spectrum_in piece.old) }
    ensures spectra { AreOfChannels place.settings.channels (spectrum_in piece.old) }
    ensures rest { reserve.new ≡ after_granule place.settings place.frame reserve.old (spectrum_in piece.old) }
    ensures tried { result.tried ≡ granule_tried place.settings place.frame reserve.old (spectrum_in piece.old) }
    ensures few { result.tried ≤ 512 }
    ensures made { result.made ≡ granule_lacking place.settings place.frame reserve.old piece.old }
    ensures fewer { result.made ≤ result.tried }
    ensures ticks { steps.new ≡ steps.old + result.made }
    ensures piece { IsCommitted place.settings place.frame reserve.old piece.old piece.new }
{
    let first = choose(reserve, place, piece, 0, steps, &mut units[0]);
    match place.settings.channels {
        Channels::Mono => {
            units[1] = Unit::blank();
            first
        }
        Channels::Stereo => {
            let second = choose(reserve, place, piece, 1, steps, &mut units[1]);
            GranuleDone {
                made: first.made + second.made,
                tried: first.tried + second.tried,
            }
        }
    }
}

// Units of two granules, all of them blank.
pub(crate) fn no_units() -> [[Unit; 2]; 2]
    ensures { result ≡ (blank ∷ blank ∷ []) ∷ (blank ∷ blank ∷ []) ∷ [] }
{
    [[Unit::blank(); 2]; 2]
}
