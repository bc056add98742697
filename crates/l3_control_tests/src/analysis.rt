//! Pieces that are analysed.

ghost use Rattle.std.specs.Prelude.{◌≡◌, ◌<◌};
ghost use Rattle.l3_base.specs.declared.rate.Channels.TheVariants.{Mono};
ghost use Rattle.l3_analysis.specs.Piece.{HasSpectra, IsChannel};
ghost use Rattle.l3_analysis.specs.declared.stage.Stage.TheVariants.{Transformed};

use crate::pieces::{blank, load, settings};
use l3_analysis::{Piece, PieceBox, Stage};
use l3_base::{GranuleNo, Steps};
use l3_board::Numbered;
use std::alloc::{AllocError, Global};
use std::marker::Brand;
use std::sync::ledger::{Blank, Ledger};

fn transformed(number: GranuleNo) -> Piece
    ensures stage { result.stage ≡ Transformed }
    ensures mono { result.settings.channels ≡ Mono }
{
    let mut piece = Piece::blank(settings());
    load(&mut piece, number);
    piece.transform();
    piece
}

fn has_count(piece: &Piece, gain: u8) -> bool
    requires { piece.now.settings.channels ≡ Mono }
{
    piece.memo(0).get(0, gain).is_some()
}

// Whether the memo of granule 0 has a count at gain 0 and at gain 1 after counting, and at gain 0
// after the next load.
fn counts<L: Ledger + Send>(blank: Blank) -> Option<[bool; 3]>
    requires name { blank.name ≡ L.name }
    requires parts { blank.parts ≡ L.parts }
    requires some { 0 < blank.parts }
{
    let number = GranuleNo::new(0)?;
    let mut steps: Steps<L> = Steps::start(blank);
    let mut piece = transformed(number);
    piece.presume(&mut steps);
    let at_first = has_count(&piece, 0);
    let at_second = has_count(&piece, 1);
    load(&mut piece, number);
    Some([at_first, at_second, has_count(&piece, 0)])
}

// Gain and new counts for a budget of 100 bits.
fn chosen<L: Ledger + Send>(piece: &mut Piece, steps: &mut Steps<L>) -> (u8, u16)
    requires stage { HasSpectra piece.old.stage }
    requires channel { IsChannel piece.old 0 }
{
    let picked = piece.choose(0, 100, steps);
    (picked.count.gain(), picked.made)
}

// The same of a piece of granule 0 that is only transformed and of one that is presumed too.
fn choices<L: Ledger + Send>(blank: Blank) -> Option<[(u8, u16); 2]>
    requires name { blank.name ≡ L.name }
    requires parts { blank.parts ≡ L.parts }
    requires some { 0 < blank.parts }
{
    let number = GranuleNo::new(0)?;
    let mut steps: Steps<L> = Steps::start(blank);
    let anew = chosen(&mut transformed(number), &mut steps);
    let mut presumed = transformed(number);
    presumed.presume(&mut steps);
    Some([anew, chosen(&mut presumed, &mut steps)])
}

#[test]
fn piece_counts_then_load(rt: HostRuntime) {
    assert!(rt; counts::<Brand>(Blank::new(1)) == Some([true, false, false]));
}

#[test]
fn choose_from_counts(rt: HostRuntime) {
    assert!(rt; choices::<Brand>(Blank::new(1)) == Some([(0, 1), (0, 0)]));
}

fn needs_send<T: Send>() {}

// Number and work of a box.
fn shown(boxed: &PieceBox) -> (u64, u64) {
    (boxed.number(), boxed.work())
}

// The same of granule 3 as it comes, after a load and after the transform.
fn transformed_in_a_box(boxed: &mut PieceBox) -> Option<[(u64, u64); 3]> {
    let number = GranuleNo::new(3)?;
    let blank = shown(boxed);
    load(boxed.piece_mut(), number);
    let loaded = shown(boxed);
    boxed.piece_mut().transform();
    Some([blank, loaded, shown(boxed)])
}

// The same of a new box, the stage that its piece comes to, and whether this is small.
fn in_a_new_box(alloc: Global) -> Result<(Option<[(u64, u64); 3]>, Stage, bool), AllocError> {
    let mut boxed = blank(alloc)?;
    let shown = transformed_in_a_box(&mut boxed);
    let piece = boxed.piece();
    Ok((shown, piece.stage(), size_of_val(piece) <= 49152))
}

#[test]
fn box_crosses_threads(rt: HostRuntime) {
    needs_send::<PieceBox>();
    let shown = Some([(0, 0), (3, 0), (3, 1)]);
    assert!(rt; in_a_new_box(rt.alloc()) == Ok((shown, Stage::Transformed, true)));
}
