ghost use Rattle.std.specs.Prelude.{◌≡◌, ◌≢◌, ◌+◌, ◌*◌, ◌^◌, ◌<◌, ◌≤◌, ◌⊎◌, ◌++◌, ◌∷◌, [], ℕ, ℤ, List, length, max, min, true, false, IfOk, IfSome, IfNone, OnOk, OnErr};
ghost use Rattle.l3_base.specs.declared.settings.Settings.{Settings};
ghost use Rattle.std.specs.Borrow.{sem};
ghost use Rattle.l3_base.specs.Lengths.{granules_for, mmax_of};
ghost use Rattle.l3_io.specs.Causes.{HasCause};
ghost use Rattle.l3_wav.specs.Pcm.{left_of, right_of};
ghost use Rattle.l3_wav.specs.Samples.{coming};
ghost use Rattle.l3_board.specs.declared.entry.Entry.TheVariants.{Told};
ghost use Rattle.l3_board.specs.Desk.{entry_of, is_offered};
ghost use Rattle.l3_board.specs.Offers.{no_offers, GoesWith, HasEnded};
ghost use Rattle.l3_wav.specs.Holding.{GoesOn, Holds};
ghost use Rattle.l3_wav.specs.ReadingOn.{AreGone};
ghost use Rattle.l3_analysis.specs.Piece.{no_memos, spectrum_in, work_at};
ghost use Rattle.l3_search.specs.Budget.{begin_after};
ghost use Rattle.l3_stream.specs.Tape.{CanFollow};
ghost use Rattle.l3_stream.specs.declared.unit.ChosenFrame.{ChosenFrame};
ghost use Rattle.l3_commit.specs.Ahead.{AreOffered, RestStays, IsFit};
ghost use Rattle.l3_commit.specs.Choice.{frame_chosen};
ghost use Rattle.l3_commit.specs.Encoding.{spectra_of};
ghost use Rattle.l3_commit.specs.Lacking.{IsCommitted, granule_lacking};
ghost use Rattle.l3_commit.specs.Standing.{StillStands, StandsFor, StandsOn, offers_end, with_ended};
ghost use Rattle.l3_commit.specs.Tracks.{first_track, next_of, with_granule};
ghost use Rattle.l3_commit.specs.Tried.{tried_at};

use crate::ahead::offer_all;
use crate::fitting::{make, make_fit};
use crate::track::{GranuleDone, Track};
use l3_analysis::{Piece, PieceBox};
use l3_base::{GranuleNo, ReadFault, Settings, Steps, Window};
use l3_board::{Board, Offers};
use l3_guess::Guesser;
use l3_io::Source;
use l3_stream::ChosenFrame;
use l3_transform::Kept;
use l3_wav::{Samples, Windows};
use std::alloc::{AllocError, Global};
use std::marker::Model;
use std::sync::ledger::Ledger;

/// Goes through the granules of samples as they come and gives their chosen frames, in order. It
/// offers granules ahead of the next one on a board, and takes what was made of them there.
///
/// Whatever a board hands out, what is committed is the granule that comes next: a piece that is not
/// fit for it is made anew. A guesser stays with the caller: `fill` asks it, `commit_granule` tells
/// it.
#[derive(Drop)]
pub struct Committer {
    track: Track,
    windows: Windows,
    offers: Offers,
    // Its own piece, which is there between calls.
    own: Option<PieceBox>,
    is_ready: bool,
    settings: Settings,
    window: Window,
    // What is kept of the windows of the granule that it made last.
    left: Kept,
    right: Kept,
}

impl Model for Committer {
    ghost use Rattle.l3_commit.specs.Standing.{IsCommitter, CommitterView, own_in};

    ghost Value = { CommitterView };

    ghost view = { λ r. record {
      track = r.track;
      windows = r.windows;
      offers = r.offers;
      own = own_in r.settings r.own;
      is_ready = r.is_ready;
    } };

    ghost invariant = { λ r. IsCommitter r.settings r.track r.windows r.offers r.own r.is_ready };
}

// A window of zeros.
#[inline(always)]
fn zeros() -> Window {
    Window {
        left: [0; 1632],
        right: [0; 1632],
    }
}

impl Committer {
    ghost use Rattle.l3_commit.specs.Resting.{RestsCommitter};

    /// Before the first granule of these samples, of which none was read. So many granules are to be
    /// offered ahead, 0 to 64: as many as the board has cells, and 0 where there is no board.
    pub fn open(
        alloc: Global,
        settings: Settings,
        ahead: u8,
        samples: Samples,
    ) -> Result<Committer, AllocError>
        requires ahead { ahead ≤ 64 }
        requires channels { samples.channels ≡ settings.channels }
        requires sound { samples.failed ≡ false }
        requires declared { samples.remaining < 2 ^ 32 }
        ensures stands { IfOk result (λ c. (bytes : List ℕ) →
            StandsFor c bytes settings (left_of settings.channels (coming samples bytes)) (right_of settings.channels (coming samples bytes))) }
        ensures first { IfOk result (λ c. (c.track ≡ first_track settings) × (c.is_ready ≡ false) × (c.offers ≡ no_offers ahead)) }
        ensures windows { IfOk result (λ c. (c.windows.base ≡ 0) × (c.windows.ahead ≡ max 1 ahead) × (c.windows.samples ≡ samples)) }
    {
        let windows = Windows::open(alloc, settings.channels, ahead.max(1), samples)?;
        let offers = Offers::new(alloc, ahead)?;
        let own = PieceBox::new(alloc, settings)?;
        Ok(Committer {
            track: Track::new(settings),
            windows,
            offers,
            own: Some(own),
            is_ready: false,
            settings,
            window: zeros(),
            left: Kept::zero(),
            right: Kept::zero(),
        })
    }

    /// How many granules are to be offered ahead.
    pub fn ahead(&self) -> u8
        ensures { result ≡ length self.now.offers.placed }
    {
        self.offers.cells() as u8
    }

    /// Goes to the granule that comes next, and reads on until so many granules from there on as are
    /// to be offered, and at least one, have all samples of their windows, or the samples end.
    ///
    /// After a fault `failed()` is true, and no more may be read.
    pub fn read_ahead<S: Source>(&mut self, source: &mut S) -> Result<(), ReadFault>
        requires turn { (next_of self.old.track ≡ self.old.windows.base) ⊎ (next_of self.old.track ≡ self.old.windows.base + 1) }
        requires limit { next_of self.old.track ≤ 8589934592 }
        requires sound { self.old.windows.samples.failed ≡ false }
        ensures base { OnOk result (self.new.windows.base ≡ next_of self.old.track) }
        ensures at_hand { OnOk result ((self.new.windows.ended ≡ true) ⊎ (576 * (next_of self.old.track + self.old.windows.ahead) ≤ self.new.windows.read)) }
        ensures stands { OnOk result (StandsOn self.old self.new (S.left source.old) (S.left source.new)) }
        ensures few { self.new.windows.read ≤ max self.old.windows.read (576 * (next_of self.old.track + self.old.windows.ahead)) }
        ensures grows { self.old.windows.read ≤ self.new.windows.read }
        ensures content { OnOk result (GoesOn self.old.windows self.new.windows (S.left source.old) (S.left source.new)) }
        ensures done { OnOk result (self.new.windows.ended ≡ true → self.new.windows.samples.remaining ≡ 0) }
        ensures track { self.new.track ≡ self.old.track }
        ensures offers { self.new.offers ≡ self.old.offers }
        ensures own { (self.new.own ≡ self.old.own) × (self.new.is_ready ≡ self.old.is_ready) }
        ensures ahead { self.new.windows.ahead ≡ self.old.windows.ahead }
        ensures gone { OnOk result (AreGone self.old.windows.samples.remaining self.new.windows.samples.remaining (S.left source.old) (S.left source.new)) }

        // At a fault no byte after the data is gone.
        ensures sound { OnOk result (self.new.windows.samples.failed ≡ false) }
        ensures failed { OnErr result (self.new.windows.samples.failed ≡ true) }
        ensures some { OnErr result (AreGone self.old.windows.samples.remaining 0 (S.left source.old) (S.left source.new)) }
        ensures cause { HasCause (S.faults source.old) (S.faults source.new) result }
    {
        self.windows.read_ahead(self.track.next(), source)
    }

    /// Whether a read has failed: true just from a `read_ahead` on that answered a fault.
    pub fn failed(&self) -> bool
        ensures { result ≡ self.now.windows.samples.failed }
    {
        self.windows.failed()
    }

    /// The granule to commit next, or `None` where all of them are committed.
    pub fn next(&self) -> Option<GranuleNo>
        requires there { (self.now.windows.ended ≡ true) ⊎ (576 * (next_of self.now.track + 1) ≤ self.now.windows.read) }
        requires limit { next_of self.now.track ≤ 8589934592 }
        ensures some { IfSome result (λ g. (g ≡ next_of self.now.track) ×
            ((bytes : List ℕ) (left right : List ℤ) → Holds self.now.windows bytes left right → g < granules_for (length left))) }
        ensures small { IfSome result (λ g. g < 3728274) }
        ensures ahead { 0 < length self.now.offers.placed → IfSome result (λ g. g < offers_end self.now) }
        ensures none_left { IfNone result ((self.now.windows.ended ≡ true) × (granules_for self.now.windows.read ≤ next_of self.now.track)) }
        ensures none { IfNone result ((bytes : List ℕ) (left right : List ℤ) → Holds self.now.windows bytes left right → granules_for (length left) ≤ next_of self.now.track) }
    {
        let number = self.track.next();
        match self.windows.total() {
            Some(total) if total <= number => None,
            _ => GranuleNo::new(number),
        }
    }

    // The number behind the last granule that is to be on offer.
    fn end(&self) -> u64
        requires { (self.now.windows.ended ≡ true) ⊎ (576 * (next_of self.now.track + self.now.windows.ahead) ≤ self.now.windows.read) }
        ensures value { result ≡ offers_end self.now }
        ensures near { result ≤ next_of self.now.track + length self.now.offers.placed }
        ensures limit { result ≤ 8589934592 }
    {
        let far = self.track.next() + self.offers.cells() as u64;
        match self.windows.total() {
            Some(total) => total.min(far),
            None => far,
        }
    }

    /// Offers each granule that is to be offered and is not on offer yet, those again whose cell was
    /// busy before. Each piece gets the guess for its granule.
    ///
    /// The board has as many cells as granules are offered ahead, the desk was made with it and goes
    /// with what is on offer; the next granule was not gathered, and `read_ahead` was called for it.
    pub fn fill<G: Guesser, B: Board<Item = PieceBox>>(
        &mut self,
        guesser: &G,
        board: &B,
        desk: &mut B::Desk,
    )
        requires made { B.has_desk board.now desk.old }
        requires cells { length self.old.offers.placed ≡ B.cells board.now }
        requires goes { GoesWith (B.last desk.old) self.old.offers }
        requires some { 0 < length self.old.offers.placed }
        requires waits { self.old.offers.next ≡ next_of self.old.track }
        requires base { self.old.windows.base ≡ next_of self.old.track }
        requires there { (self.old.windows.ended ≡ true) ⊎ (576 * (next_of self.old.track + self.old.windows.ahead) ≤ self.old.windows.read) }
        ensures made { B.has_desk board.now desk.new }
        ensures cells { length self.new.offers.placed ≡ B.cells board.now }
        ensures goes { GoesWith (B.last desk.new) self.new.offers }
        ensures next { self.new.offers.next ≡ self.old.offers.next }
        ensures offered { AreOffered (B.cells board.now) (B.last desk.old) (B.last desk.new) (next_of self.old.track) (offers_end self.old) }
        ensures rest { RestStays (B.cells board.now) (B.last desk.old) (B.last desk.new) (next_of self.old.track) (offers_end self.old) }
        ensures served { B.served desk.new ≡ B.served desk.old }
        ensures got { B.got desk.new ≡ B.got desk.old }
        ensures stands { (bytes : List ℕ) → StillStands self.old self.new bytes bytes }
        ensures ready { self.new.is_ready ≡ false }
        ensures same { (self.new.track ≡ self.old.track) × (self.new.windows ≡ self.old.windows) }
    {
        let end = self.end();
        let Some(own) = self.own.take() else {
            unreachable!();
        };
        let back = offer_all(
            &self.windows,
            &mut self.offers,
            guesser,
            &mut self.window,
            board,
            desk,
            end,
            own,
        );
        self.own = Some(back);
        self.is_ready = false;
    }

    /// Takes the granule that comes next off the board, which keeps the committer's piece where it
    /// hands out one. `prepare` has to follow, since the granule may not be in that piece.
    pub fn gather<B: Board<Item = PieceBox>>(&mut self, board: &B, desk: &mut B::Desk)
        requires made { B.has_desk board.now desk.old }
        requires cells { length self.old.offers.placed ≡ B.cells board.now }
        requires goes { GoesWith (B.last desk.old) self.old.offers }
        requires waits { self.old.offers.next ≡ next_of self.old.track }
        requires limit { next_of self.old.track ≤ 8589934592 }
        ensures made { B.has_desk board.now desk.new }
        ensures cells { length self.new.offers.placed ≡ B.cells board.now }
        ensures goes { GoesWith (B.last desk.new) self.new.offers }
        ensures next { self.new.offers.next ≡ next_of self.old.track + 1 }
        ensures ended { entry_of (B.cells board.now) (B.last desk.old) (next_of self.old.track) ≡ Told (next_of self.old.track) →
            HasEnded (next_of self.old.track) (entry_of (B.cells board.now) (B.last desk.new) (next_of self.old.track)) }
        ensures served { B.served desk.old ≡ next_of self.old.track → is_offered (next_of self.old.track) (entry_of (B.cells board.now) (B.last desk.old) (next_of self.old.track)) ≡ true →
            (B.served desk.new ≡ next_of self.old.track + 1) × (B.got desk.new ≢ 0 → (self.new.own.number ≡ next_of self.old.track) × (work_at self.new.own.stage ≡ B.got desk.new)) }
        ensures stands { (bytes : List ℕ) → StillStands self.old self.new bytes bytes }
        ensures ready { self.new.is_ready ≡ false }
        ensures same { (self.new.track ≡ self.old.track) × (self.new.windows ≡ self.old.windows) }
    {
        let Some(own) = self.own.take() else {
            unreachable!();
        };
        let back = self.offers.take(board, desk, own);
        self.own = Some(back);
        self.is_ready = false;
    }

    /// Its own piece.
    pub fn piece(&self) -> &Piece
        ensures { result.now ≡ self.now.own }
    {
        match &self.own {
            Some(own) => own.piece(),
            None => unreachable!(),
        }
    }

    /// Has the granule that comes next at hand without a board, with no counts.
    pub fn gather_alone(&mut self)
        requires alone { length self.old.offers.placed ≡ 0 }
        requires base { self.old.windows.base ≡ next_of self.old.track }
        requires there { (self.old.windows.ended ≡ true) ⊎ (576 * (next_of self.old.track + 1) ≤ self.old.windows.read) }
        requires limit { next_of self.old.track ≤ 8589934592 }
        ensures fit { IsFit self.old.track.settings self.old.windows (next_of self.old.track) self.new.own }
        ensures fresh { self.new.own.memos ≡ no_memos }
        ensures stands { (bytes : List ℕ) → StillStands self.old self.new bytes bytes }
        ensures ready { self.new.is_ready ≡ true }
        ensures same { (self.new.track ≡ self.old.track) × (self.new.windows ≡ self.old.windows) × (self.new.offers ≡ self.old.offers) }
    {
        let Some(number) = GranuleNo::new(self.track.next()) else {
            unreachable!();
        };
        let Some(mut own) = self.own.take() else {
            unreachable!();
        };
        make(
            &self.windows,
            self.settings,
            number,
            &mut self.window,
            &mut self.left,
            &mut self.right,
            &mut own,
        );
        self.own = Some(own);
        self.is_ready = true;
    }

    /// Has the granule that comes next at hand, after it was taken off the board. A piece that is fit
    /// for it stays as it is, with its counts: it has the granule's number, its window and the
    /// settings, and is transformed or presumed. Any other is loaded and transformed.
    pub fn prepare(&mut self)
        requires base { self.old.windows.base ≡ next_of self.old.track }
        requires there { (self.old.windows.ended ≡ true) ⊎ (576 * (next_of self.old.track + 1) ≤ self.old.windows.read) }
        requires limit { next_of self.old.track ≤ 8589934592 }
        ensures fit { IsFit self.old.track.settings self.old.windows (next_of self.old.track) self.new.own }
        ensures kept { IsFit self.old.track.settings self.old.windows (next_of self.old.track) self.old.own → self.new.own ≡ self.old.own }
        ensures stands { (bytes : List ℕ) → StillStands self.old self.new bytes bytes }
        ensures ready { self.new.is_ready ≡ true }
        ensures same { (self.new.track ≡ self.old.track) × (self.new.windows ≡ self.old.windows) × (self.new.offers ≡ self.old.offers) }
    {
        let Some(number) = GranuleNo::new(self.track.next()) else {
            unreachable!();
        };
        let Some(mut own) = self.own.take() else {
            unreachable!();
        };
        make_fit(
            &self.windows,
            self.settings,
            number,
            &mut self.window,
            &mut self.left,
            &mut self.right,
            &mut own,
        );
        self.own = Some(own);
        self.is_ready = true;
    }

    /// Commits the granule that is at hand, and tells the guesser the reserve before it: each
    /// channel's unit is the one picked within its budget under the reserve. Counts that the piece
    /// has are not made again.
    pub fn commit_granule<G: Guesser, L: Ledger + Send>(
        &mut self,
        guesser: &mut G,
        steps: &mut Steps<L>,
    ) -> GranuleDone
        requires ready { self.old.is_ready ≡ true }
        requires turn { length self.old.track.granules < 2 }
        requires limit { next_of self.old.track ≤ 8589934592 }
        requires below { (bytes : List ℕ) (left right : List ℤ) → Holds self.old.windows bytes left right → next_of self.old.track < granules_for (length left) }
        ensures value { self.new.track ≡ with_granule self.old.track (spectrum_in self.old.own) }
        ensures tried { (bytes : List ℕ) (st : Settings) (left right : List ℤ) → StandsFor self.old bytes st left right →
            result.tried ≡ tried_at st (spectra_of left right) self.old.track.frame (length self.old.track.granules) }
        ensures few { result.tried ≤ 512 }
        ensures made { result.made ≡ granule_lacking self.old.track.settings self.old.track.frame self.old.track.reserve self.old.own }
        ensures fewer { result.made ≤ result.tried }
        ensures alone { self.old.own.memos ≡ no_memos → result.made ≡ result.tried }
        ensures ticks { steps.new ≡ steps.old + result.made }
        ensures told { (n : ℕ) → G.guesses guesser.new n ≡ G.guesses_after guesser.old (next_of self.old.track) (min self.old.track.reserve 4294967295) n }
        ensures memos { IsCommitted self.old.track.settings self.old.track.frame self.old.track.reserve self.old.own self.new.own }
        ensures stands { (bytes : List ℕ) → StillStands self.old self.new bytes bytes }
        ensures ready { self.new.is_ready ≡ false }
        ensures same { (self.new.windows ≡ self.old.windows) × (self.new.offers ≡ self.old.offers) }
    {
        let Some(number) = GranuleNo::new(self.track.next()) else {
            unreachable!();
        };
        let Some(mut own) = self.own.take() else {
            unreachable!();
        };
        guesser.tell(number, self.track.reserve_bits());
        let done = self.track.commit_granule(own.piece_mut(), steps);
        self.own = Some(own);
        self.is_ready = false;
        done
    }

    /// Ends the frame whose second granule was committed last, by the rule of the reservoir, and
    /// lends it out.
    ///
    /// Whatever frames it can follow, the next frame can follow them and it.
    pub fn commit_frame(&mut self) -> &ChosenFrame
        requires ready { self.old.is_ready ≡ false }
        requires turn { length self.old.track.granules ≡ 2 }
        ensures chosen { (bytes : List ℕ) (st : Settings) (left right : List ℤ) → StandsFor self.old bytes st left right →
            result.now ≡ frame_chosen st (spectra_of left right) self.old.track.frame }
        ensures follows { (fs : List ChosenFrame) → CanFollow self.old.track.settings self.old.track.frame self.old.track.begin fs →
            CanFollow self.old.track.settings (self.old.track.frame + 1) (begin_after self.old.track.reserve (mmax_of self.old.track.settings)) (fs ++ (result.now ∷ [])) }
        ensures* after_borrow { sem 𝓛 (RestsCommitter self.entry (λ new. (new ≡ with_ended self.old) × ((bytes : List ℕ) → StillStands self.old new bytes bytes))) }
    {
        self.track.commit_frame()
    }
}
