ghost use Rattle.std.specs.Prelude.{◌≡◌, ◌+◌, ◌-◌, ◌*◌, ◌≤◌, ◌<◌, ◌^◌, ◌++◌, ◌∷◌, [], ℕ, List, take, length, min};
ghost use Rattle.std.specs.Borrow.{sem};
ghost use Rattle.l3_base.specs.Lengths.{mmax_of, slots_before};
ghost use Rattle.l3_search.specs.Budget.{begin_after};
ghost use Rattle.l3_analysis.specs.Piece.{HasSpectra, spectrum_in};
ghost use Rattle.l3_stream.specs.Tape.{CanFollow};
ghost use Rattle.l3_commit.specs.Lacking.{IsCommitted, IsLike, granule_lacking};
ghost use Rattle.l3_commit.specs.Tried.{granule_tried};

use crate::choosing::{Place, choose_granule, no_units};
use l3_analysis::Piece;
use l3_base::{Settings, Steps};
use l3_search::Reserve;
use l3_stream::ChosenFrame;
use std::marker::Model;
use std::sync::ledger::Ledger;

/// What a granule took.
#[derive(Clone, Copy, Debug, PartialEq, Eq)]
pub struct GranuleDone {
    /// By how much the counter rose: how many counts were made, which the piece lacked.
    pub made: u32,
    /// Gains tried: for each channel those from its first gain to the picked one, at most 512.
    pub tried: u32,
}

/// The choice of frames, granule after granule: in each frame the units of its granules, each under
/// the reserve of the bit reservoir that those before it left (ISO/IEC 11172-3, 2.4 and Annex C;
/// how a unit's budget is found is this project's own).
///
/// What it chooses is a matter of the pieces' windows alone. Counts that a piece brings along spare
/// the making of them, and change nothing else.
#[derive(Drop)]
pub struct Track {
    settings: Settings,
    frame: u64,
    begin: u16,
    reserve: Reserve,
    done: u8,
    current: ChosenFrame,
}

impl Model for Track {
    ghost use Rattle.std.specs.Prelude.{take, length, ◌≤◌, ◌≡◌};
    ghost use Rattle.l3_commit.specs.Tracks.{TrackView, IsTrack};

    ghost Value = { TrackView };

    ghost view = { λ t. record { settings = t.settings; frame = t.frame; begin = t.begin; reserve = t.reserve; granules = take t.done t.current.units } };

    ghost invariant = { λ t. (t.done ≤ 2) × (length t.current.units ≡ 2) × IsTrack (record { settings = t.settings; frame = t.frame; begin = t.begin; reserve = t.reserve; granules = take t.done t.current.units }) };
}

impl Track {
    ghost use Rattle.l3_commit.specs.Tracks.{first_track, next_of, with_granule, with_frame_ended, IsTrack};
    ghost use Rattle.l3_commit.specs.Resting.{RestsTrack};
    ghost use Rattle.l3_stream.specs.declared.unit.ChosenFrame.{ChosenFrame};

    /// Before granule 0, with no frame lent out.
    pub fn new(settings: Settings) -> Track
        ensures value { result ≡ first_track settings }
        ensures follows { CanFollow settings 0 0 [] }
    {
        Track {
            settings,
            frame: 0,
            begin: 0,
            reserve: Reserve::start(),
            done: 0,
            current: ChosenFrame {
                begin: 0,
                units: no_units(),
            },
        }
    }

    // The reserve before the granule that comes next, in bits, and 4294967295 where there is more.
    pub(crate) fn reserve_bits(&self) -> u32
        ensures { result ≡ min self.now.reserve 4294967295 }
    {
        self.reserve.bits()
    }

    /// The number of the granule that comes next.
    pub fn next(&self) -> u64
        ensures value { result ≡ next_of self.now }
        ensures kept { IsTrack self.now }
    {
        2 * self.frame + u64::from(self.done)
    }

    /// `main_data_begin` of the frame that is begun, in bytes: no more than the field and decoders
    /// reach, and than there are slot bytes before the frame.
    pub fn begin(&self) -> u16
        ensures value { result ≡ self.now.begin }
        ensures limit { result ≤ mmax_of self.now.settings }
        ensures reached { result ≤ slots_before self.now.settings self.now.frame }
    {
        self.begin
    }

    /// Chooses the units of granule `next()`, whose piece this is: each channel's unit is the one
    /// picked within its budget under the reserve. The piece is transformed or presumed, and its
    /// settings are the track's but for the rate.
    ///
    /// Counts that the piece lacks are made, one step of the counter each, and put into its memos.
    pub fn commit_granule<L: Ledger + Send>(
        &mut self,
        piece: &mut Piece,
        steps: &mut Steps<L>,
    ) -> GranuleDone
        requires number { piece.old.number ≡ next_of self.old }
        requires turn { length self.old.granules < 2 }
        requires stage { HasSpectra piece.old.stage }
        requires settings { IsLike self.old.settings piece.old.settings }
        ensures value { self.new ≡ with_granule self.old (spectrum_in piece.old) }
        ensures tried { result.tried ≡ granule_tried self.old.settings self.old.frame self.old.reserve (spectrum_in piece.old) }
        ensures few { result.tried ≤ 512 }
        ensures made { result.made ≡ granule_lacking self.old.settings self.old.frame self.old.reserve piece.old }
        ensures fewer { result.made ≤ result.tried }
        ensures ticks { steps.new ≡ steps.old + result.made }
        ensures piece { piece.new ≡ record piece.old { memos = piece.new.memos } }
        ensures memos { IsCommitted self.old.settings self.old.frame self.old.reserve piece.old piece.new }
    {
        // For the proof alone: that a granule with this number is below the limit.
        let _number = piece.number().get();
        let at = usize::from(self.done);
        let place = Place {
            settings: self.settings,
            frame: self.frame,
        };
        let done = choose_granule(
            &mut self.reserve,
            place,
            piece,
            steps,
            &mut self.current.units[at],
        );
        self.done += 1;
        done
    }

    /// Ends the frame whose second granule was committed last, by the rule of the reservoir, and
    /// lends it out. `begin()` is then that of the next frame.
    ///
    /// Whatever frames it can follow, the next frame can follow them and it. So the frames that a
    /// track has lent out fit one behind the other, whatever its pieces held.
    pub fn commit_frame(&mut self) -> &ChosenFrame
        requires { length self.old.granules ≡ 2 }
        ensures frame { result.now ≡ record { begin = self.old.begin; units = self.old.granules } }
        ensures follows { (fs : List ChosenFrame) → CanFollow self.old.settings self.old.frame self.old.begin fs →
            CanFollow self.old.settings (self.old.frame + 1) (begin_after self.old.reserve (mmax_of self.old.settings)) (fs ++ (result.now ∷ [])) }
        ensures* after_borrow { sem 𝓛 (RestsTrack self.entry (λ new. new ≡ with_frame_ended self.old)) }
    {
        let end = self.reserve.frame_end(&self.settings);
        self.current.begin = self.begin;
        self.begin = end.begin;
        self.frame += 1;
        self.done = 0;
        &self.current
    }
}
