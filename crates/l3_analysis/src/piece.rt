ghost use Rattle.std.specs.Prelude.{◌≡◌, ◌≤◌, ◌<◌, ◌+◌, Some};
ghost use Rattle.l3_analysis.specs.Piece.{silence};

use crate::analysis::Analysis;
use crate::stage::Stage;
use l3_base::{Channels, GranuleNo, Settings, Spectrum, Steps, Window};
use l3_count::Memo;
use l3_search::{Picked, Reserve};
use l3_transform::Kept;
use std::marker::Model;
use std::sync::ledger::Ledger;

/// One granule: its window, and what was made of it so far. It has at most 48 KB.
///
/// Blank, loaded, transformed, presumed: from transformed on its spectra and demands are those of
/// its own window and settings, and each entry of a memo is the count of its channel's spectrum.
/// Before, the memos are empty. In mono nothing is made of the right channel.
#[derive(Drop)]
pub struct Piece {
    settings: Settings,
    number: GranuleNo,
    stage: Stage,
    guess: u32,
    window: Window,
    left: Analysis,
    right: Analysis,
}

impl Model for Piece {
    ghost use Rattle.std.specs.Prelude.{[], ◌∷◌};
    ghost use Rattle.l3_analysis.specs.Piece.{PieceView};

    ghost Value = { PieceView };

    ghost use Rattle.l3_analysis.specs.Analysis.{AreAnalyses};

    ghost view = { λ p. record { settings = p.settings; number = p.number; stage = p.stage; guess = p.guess; window = p.window; memos = p.left.memo ∷ p.right.memo ∷ [] } };

    ghost invariant = { λ p. AreAnalyses p.settings p.stage p.window p.left p.right };
}

// The number of the first granule.
fn first() -> GranuleNo
    ensures { result ≡ 0 }
{
    match GranuleNo::new(0) {
        Some(number) => number,
        None => unreachable!(),
    }
}

// A window of zeros.
#[inline(always)]
fn zeros() -> Window
    ensures { result ≡ silence }
{
    Window {
        left: [0; 1632],
        right: [0; 1632],
    }
}

impl Piece {
    ghost use Rattle.l3_base.specs.Amp.{no_amp};
    ghost use Rattle.l3_base.specs.declared.rate.Channels.TheVariants.{Mono, Stereo};
    ghost use Rattle.l3_analysis.specs.declared.stage.Stage.TheVariants.{Loaded, Transformed, Presumed};
    ghost use Rattle.l3_count.specs.Gains.{first_gain_of};
    ghost use Rattle.l3_search.specs.Gain.{HasLaneTo, lacking, picked, picked_gain};
    ghost use Rattle.l3_analysis.specs.Piece.{HasSpectra, IsChannel, IsSound, blank_of, counts_in, demand_in, edges_in, loaded_with, memo_in, spectrum_in, with_memo};
    ghost use Rattle.l3_analysis.specs.Presumed.{IsPresumed, presumed_steps};

    /// A piece of no granule yet, with number 0 and a window of zeros.
    pub fn blank(settings: Settings) -> Piece
        ensures { result ≡ blank_of settings }
    {
        Piece {
            settings,
            number: first(),
            stage: Stage::Blank,
            guess: 0,
            window: zeros(),
            left: Analysis::new(),
            right: Analysis::new(),
        }
    }

    /// Takes another granule, its window and a guess of the reserve before it in bits. Nothing that
    /// was made of the last one stays.
    pub fn load(&mut self, number: GranuleNo, window: &Window, guess: u32)
        ensures { self.new ≡ loaded_with self.old number window.now guess }
    {
        self.number = number;
        self.stage = Stage::Loaded;
        self.guess = guess;
        self.window = *window;
        self.left.memo.clear();
        self.right.memo.clear();
    }

    /// Makes the spectra of a loaded piece and their demands.
    pub fn transform(&mut self)
        requires { self.old.stage ≡ Loaded }
        ensures { self.new ≡ record self.old { stage = Transformed } }
    {
        let rate = self.settings.sample_rate;
        self.stage = Stage::Transformed;
        self.left.transform(&self.window.left, rate);
        match self.settings.channels {
            Channels::Mono => {}
            Channels::Stereo => self.right.transform(&self.window.right, rate),
        }
    }

    /// The same, and what is kept of each channel's last window, of whatever granule, goes on to
    /// this one: slots that the two share are not made anew. In mono nothing becomes of `right`.
    pub fn transform_after(&mut self, left: &mut Kept, right: &mut Kept)
        requires { self.old.stage ≡ Loaded }
        ensures piece { self.new ≡ record self.old { stage = Transformed } }
        ensures left { left.new ≡ self.old.window.left }
        ensures right { self.old.settings.channels ≡ Stereo → right.new ≡ self.old.window.right }
        ensures absent { self.old.settings.channels ≡ Mono → right.new ≡ right.old }
    {
        let rate = self.settings.sample_rate;
        self.stage = Stage::Transformed;
        self.left.transform_after(&self.window.left, left, rate);
        match self.settings.channels {
            Channels::Mono => {}
            Channels::Stereo => self.right.transform_after(&self.window.right, right, rate),
        }
    }

    /// Picks the gain of each channel of a transformed piece, under a reserve that starts at the
    /// guess and is spent from channel to channel. So the memos have the counts of all gains from
    /// the first to that pick; one step of the counter for each that is made.
    pub fn presume<L: Ledger + Send>(&mut self, steps: &mut Steps<L>)
        requires { self.old.stage ≡ Transformed }
        ensures presumed { IsPresumed self.old self.new }
        ensures ticks { steps.new ≡ steps.old + presumed_steps self.old }
    {
        let frame = self.number.get() / 2;
        let mut reserve = Reserve::supposed(self.guess);
        self.stage = Stage::Presumed;
        self.left
            .presume(&self.settings, frame, &mut reserve, steps);
        match self.settings.channels {
            Channels::Mono => {}
            Channels::Stereo => self
                .right
                .presume(&self.settings, frame, &mut reserve, steps),
        }
    }

    /// Picks the gain of a channel for a budget in bits: the least whose count is within it. Its
    /// memo gets what it lacks up to there.
    pub fn choose<L: Ledger + Send>(
        &mut self,
        channel: u8,
        budget: u32,
        steps: &mut Steps<L>,
    ) -> Picked
        requires stage { HasSpectra self.old.stage }
        requires channel { IsChannel self.old channel }
        ensures count { picked (edges_in self.old) no_amp (spectrum_in self.old channel) budget ≡ Some result.count }
        ensures gain { result.count.gain ≡ picked_gain (edges_in self.old) no_amp (spectrum_in self.old channel) budget }
        ensures within { result.count.bits ≤ budget }
        ensures made { result.made ≡ lacking (counts_in self.old channel) (first_gain_of (edges_in self.old) no_amp (spectrum_in self.old channel)) (picked_gain (edges_in self.old) no_amp (spectrum_in self.old channel) budget) }
        ensures limit { result.made ≤ 256 }
        ensures ticks { steps.new ≡ steps.old + result.made }
        ensures memo { HasLaneTo (edges_in self.old) no_amp (spectrum_in self.old channel) 0 (first_gain_of (edges_in self.old) no_amp (spectrum_in self.old channel)) (picked_gain (edges_in self.old) no_amp (spectrum_in self.old channel) budget) (memo_in self.old channel) (memo_in self.new channel) }
        ensures rest { self.new ≡ with_memo self.old channel (memo_in self.new channel) }
    {
        let rate = self.settings.sample_rate;
        if channel == 0 {
            self.left.choose(rate, budget, steps)
        } else {
            self.right.choose(rate, budget, steps)
        }
    }

    /// What the encoding is made under.
    pub fn settings(&self) -> &Settings
        ensures value { result.now ≡ self.now.settings }
        ensures sound { IsSound self.now }
    {
        &self.settings
    }

    /// The granule's number.
    pub fn number(&self) -> GranuleNo
        ensures value { result ≡ self.now.number }
        ensures sound { IsSound self.now }
    {
        self.number
    }

    /// How far the piece has come.
    pub fn stage(&self) -> Stage
        ensures value { result ≡ self.now.stage }
        ensures sound { IsSound self.now }
    {
        self.stage
    }

    /// The granule's window.
    pub fn window(&self) -> &Window
        ensures value { result.now ≡ self.now.window }
        ensures sound { IsSound self.now }
    {
        &self.window
    }

    /// The spectrum of a channel, which is that of its window once the piece is transformed.
    pub fn spectrum(&self, channel: u8) -> &Spectrum
        requires { IsChannel self.now channel }
        ensures { HasSpectra self.now.stage → result.now ≡ spectrum_in self.now channel }
    {
        if channel == 0 {
            &self.left.spectrum
        } else {
            &self.right.spectrum
        }
    }

    /// The demand of that spectrum in bits.
    pub fn demand(&self, channel: u8) -> u32
        requires { IsChannel self.now channel }
        ensures { HasSpectra self.now.stage → result ≡ demand_in self.now channel }
    {
        if channel == 0 {
            self.left.demand
        } else {
            self.right.demand
        }
    }

    /// The counts that were made of that spectrum.
    pub fn memo(&self, channel: u8) -> &Memo
        requires { IsChannel self.now channel }
        ensures value { result.now ≡ memo_in self.now channel }
        ensures sound { IsSound self.now }
    {
        if channel == 0 {
            &self.left.memo
        } else {
            &self.right.memo
        }
    }
}
