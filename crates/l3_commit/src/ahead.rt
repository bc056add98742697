//! What is done ahead of the granule that comes next: pieces on a board, loaded and not yet due.

ghost use Rattle.std.specs.Prelude.{◌≡◌, ◌≢◌, ◌+◌, ◌*◌, ◌<◌, ◌≤◌, ◌⊎◌, None, length, true};
ghost use Rattle.l3_board.specs.declared.entry.Entry.TheVariants.{Told};
ghost use Rattle.l3_board.specs.Desk.{entry_of, is_offered};
ghost use Rattle.l3_board.specs.Offers.{placed_at, GoesWith, HasEnded, IsNear, IsOfferedAnew, OthersStay};
ghost use Rattle.l3_commit.specs.Ahead.{AreOffered, RestStays};

use l3_analysis::PieceBox;
use l3_base::{GranuleNo, Window};
use l3_board::{Board, Offers};
use l3_guess::Guesser;
use l3_wav::Windows;

// Loads a piece for a granule that is not on offer, with a guess of its reserve, and offers it. The
// answer is the piece that comes back.
fn offer_one<B: Board<Item = PieceBox>, G: Guesser>(
    windows: &Windows,
    offers: &mut Offers,
    guesser: &G,
    window: &mut Window,
    board: &B,
    desk: &mut B::Desk,
    number: GranuleNo,
    piece: PieceBox,
) -> PieceBox
    requires made { B.has_desk board.now desk.old }
    requires cells { length offers.old.placed ≡ B.cells board.now }
    requires goes { GoesWith (B.last desk.old) offers.old }
    requires near { IsNear offers.old number }
    requires absent { placed_at offers.old.placed number ≡ None }
    requires kept { (windows.now.base ≤ number) × (number < windows.now.base + windows.now.ahead) }
    requires there { (windows.now.ended ≡ true) ⊎ (576 * (number + 1) ≤ windows.now.read) }
    ensures made { B.has_desk board.now desk.new }
    ensures cells { length offers.new.placed ≡ B.cells board.now }
    ensures next { offers.new.next ≡ offers.old.next }
    ensures goes { GoesWith (B.last desk.new) offers.new }
    ensures offered { IsOfferedAnew (B.cells board.now) (B.last desk.old) (B.last desk.new) number }
    ensures others { OthersStay (B.cells board.now) (B.last desk.old) (B.last desk.new) number }
    ensures served { B.served desk.new ≡ B.served desk.old }
    ensures got { B.got desk.new ≡ B.got desk.old }
{
    // For the proof alone: that the number is below its limit.
    let _number = number.get();
    let mut piece = piece;
    windows.window(number, window);
    piece
        .piece_mut()
        .load(number, window, guesser.guess(number));
    offers.offer(board, desk, piece)
}

// Loads a piece for a granule and offers it, unless it is on offer. The answer is the piece that
// comes back.
fn offer_unless_there<B: Board<Item = PieceBox>, G: Guesser>(
    windows: &Windows,
    offers: &mut Offers,
    guesser: &G,
    window: &mut Window,
    board: &B,
    desk: &mut B::Desk,
    number: GranuleNo,
    piece: PieceBox,
) -> PieceBox
    requires made { B.has_desk board.now desk.old }
    requires cells { length offers.old.placed ≡ B.cells board.now }
    requires goes { GoesWith (B.last desk.old) offers.old }
    requires near { IsNear offers.old number }
    requires some { 0 < B.cells board.now }
    requires kept { (windows.now.base ≤ number) × (number < windows.now.base + windows.now.ahead) }
    requires there { (windows.now.ended ≡ true) ⊎ (576 * (number + 1) ≤ windows.now.read) }
    ensures made { B.has_desk board.now desk.new }
    ensures cells { length offers.new.placed ≡ B.cells board.now }
    ensures next { offers.new.next ≡ offers.old.next }
    ensures goes { GoesWith (B.last desk.new) offers.new }
    ensures offered { IsOfferedAnew (B.cells board.now) (B.last desk.old) (B.last desk.new) number }
    ensures others { OthersStay (B.cells board.now) (B.last desk.old) (B.last desk.new) number }
    ensures served { B.served desk.new ≡ B.served desk.old }
    ensures got { B.got desk.new ≡ B.got desk.old }
{
    if offers.has(number.get()) {
        return piece;
    }
    offer_one(windows, offers, guesser, window, board, desk, number, piece)
}

// Offers each granule from the next one to below `end` that is not on offer, by way of one piece.
// The answer is the piece that comes back last.
pub(crate) fn offer_all<B: Board<Item = PieceBox>, G: Guesser>(
    windows: &Windows,
    offers: &mut Offers,
    guesser: &G,
    window: &mut Window,
    board: &B,
    desk: &mut B::Desk,
    end: u64,
    piece: PieceBox,
) -> PieceBox
    requires made { B.has_desk board.now desk.old }
    requires cells { length offers.old.placed ≡ B.cells board.now }
    requires few { B.cells board.now ≤ windows.now.ahead }
    requires goes { GoesWith (B.last desk.old) offers.old }
    requires base { windows.now.base ≡ offers.old.next }
    requires hand { (windows.now.ended ≡ true) ⊎ (576 * (offers.old.next + windows.now.ahead) ≤ windows.now.read) }
    requires end { end ≤ offers.old.next + B.cells board.now }
    requires limit { end ≤ 8589934592 }
    ensures made { B.has_desk board.now desk.new }
    ensures cells { length offers.new.placed ≡ B.cells board.now }
    ensures next { offers.new.next ≡ offers.old.next }
    ensures goes { GoesWith (B.last desk.new) offers.new }
    ensures offered { AreOffered (B.cells board.now) (B.last desk.old) (B.last desk.new) offers.old.next end }
    ensures rest { RestStays (B.cells board.now) (B.last desk.old) (B.last desk.new) offers.old.next end }
    ensures served { B.served desk.new ≡ B.served desk.old }
    ensures got { B.got desk.new ≡ B.got desk.old }
{
    let mut piece = piece;
    for number in offers.next()..end {
        let Some(granule) = GranuleNo::new(number) else {
            unreachable!();
        };
        piece = offer_unless_there(
            windows, offers, guesser, window, board, desk, granule, piece,
        );
    }
    piece
}
