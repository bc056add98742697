//! Which pieces are fit for the granule that comes next, and how others are made fit.

ghost use Rattle.std.specs.Prelude.{◌≡◌, ◌+◌, ◌*◌, ◌<◌, ◌≤◌, ◌⊎◌, ◌↔◌, true, false, ℕ, ℤ, List};
ghost use Rattle.l3_base.specs.Filterbank.{window_of};
ghost use Rattle.l3_wav.specs.Holding.{Holds};
ghost use Rattle.l3_analysis.specs.declared.stage.Stage.TheVariants.{Transformed};
ghost use Rattle.l3_analysis.specs.Piece.{HasSpectra, no_memos};
ghost use Rattle.l3_commit.specs.Ahead.{IsFit, IsFitTo};

use l3_analysis::{Piece, PieceBox, Stage};
use l3_base::{GranuleNo, Settings, Window};
use l3_transform::Kept;
use l3_wav::Windows;

// Whether two windows of a channel have the same samples.
fn are_same(a: &[i16; 1632], b: &[i16; 1632]) -> bool
    ensures { (result ≡ true) ↔ (a.now ≡ b.now) }
{
    a == b
}

// Whether a piece has its spectra.
fn has_spectra(piece: &Piece) -> bool
    ensures made { result ≡ true → HasSpectra piece.now.stage }
    ensures unmade { result ≡ false → HasSpectra piece.now.stage → ⊥ }
{
    match piece.stage() {
        Stage::Blank | Stage::Loaded => false,
        Stage::Transformed | Stage::Presumed => true,
    }
}

// Whether a piece has the spectra of this granule and window under these settings. In mono the
// windows to the right are compared too; they are zeros.
fn is_fit(piece: &Piece, settings: Settings, number: GranuleNo, window: &Window) -> bool
    ensures fit { result ≡ true → IsFitTo settings number window.now piece.now }
    ensures unfit { result ≡ false → IsFitTo settings number window.now piece.now → ⊥ }
{
    if !has_spectra(piece) {
        return false;
    }
    if *piece.settings() != settings {
        return false;
    }
    if piece.number() != number {
        return false;
    }
    if !are_same(&piece.window().left, &window.left) {
        return false;
    }
    are_same(&piece.window().right, &window.right)
}

// Puts a blank in place of a piece, and so changes its settings. A piece is written by value here
// alone: it is seldom called, and so nobody else has room for one.
#[inline(never)]
fn start_anew(piece: &mut Piece, settings: Settings)
    ensures { piece.new.settings ≡ settings }
{
    *piece = Piece::blank(settings);
}

// Makes a piece one of this granule and window under these settings, with its spectra and no counts.
// Slots that the window shares with what is kept of the last one are not made anew.
fn renew(
    piece: &mut Piece,
    settings: Settings,
    number: GranuleNo,
    window: &Window,
    left: &mut Kept,
    right: &mut Kept,
)
    ensures fit { IsFitTo settings number window.now piece.new }
    ensures fresh { (piece.new.stage ≡ Transformed) × (piece.new.memos ≡ no_memos) }
{
    if settings != *piece.settings() {
        start_anew(piece, settings);
    }
    piece.load(number, window, 0);
    piece.transform_after(left, right);
}

// Makes a piece one of this granule and window, with its spectra and no counts.
pub(crate) fn make(
    windows: &Windows,
    settings: Settings,
    number: GranuleNo,
    window: &mut Window,
    left: &mut Kept,
    right: &mut Kept,
    piece: &mut PieceBox,
)
    requires near { (windows.now.base ≤ number) × (number < windows.now.base + windows.now.ahead) }
    requires there { (windows.now.ended ≡ true) ⊎ (576 * (number + 1) ≤ windows.now.read) }
    ensures fit { IsFit settings windows.now number piece.new }
    ensures of { (bytes : List ℕ) (left right : List ℤ) → Holds windows.now bytes left right →
        (piece.new.window.left ≡ window_of left number) × (piece.new.window.right ≡ window_of right number) }
    ensures fresh { (piece.new.stage ≡ Transformed) × (piece.new.memos ≡ no_memos) }
{
    windows.window(number, window);
    renew(piece.piece_mut(), settings, number, window, left, right);
}

// Leaves a piece that is fit for the granule as it is, and makes any other fit.
pub(crate) fn make_fit(
    windows: &Windows,
    settings: Settings,
    number: GranuleNo,
    window: &mut Window,
    left: &mut Kept,
    right: &mut Kept,
    piece: &mut PieceBox,
)
    requires near { (windows.now.base ≤ number) × (number < windows.now.base + windows.now.ahead) }
    requires there { (windows.now.ended ≡ true) ⊎ (576 * (number + 1) ≤ windows.now.read) }
    ensures fit { IsFit settings windows.now number piece.new }
    ensures of { (bytes : List ℕ) (left right : List ℤ) → Holds windows.now bytes left right →
        (piece.new.window.left ≡ window_of left number) × (piece.new.window.right ≡ window_of right number) }
    ensures kept { IsFit settings windows.now number piece.old → piece.new ≡ piece.old }
{
    windows.window(number, window);
    if !is_fit(piece.piece(), settings, number, window) {
        renew(piece.piece_mut(), settings, number, window, left, right);
    }
}
