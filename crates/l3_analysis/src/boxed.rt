ghost use Rattle.std.specs.Prelude.{◌≡◌, IfOk};
ghost use Rattle.std.specs.Borrow.{sem};

use crate::piece::Piece;
use crate::stage::Stage;
use l3_base::Settings;
use l3_board::Numbered;
use std::alloc::{AllocError, Global};
use std::marker::Model;

/// A piece in a box, which a board hands on by its granule's number.
#[derive(Drop)]
pub struct PieceBox {
    piece: Box<Piece>,
}

impl Model for PieceBox {
    ghost use Rattle.l3_analysis.specs.Piece.{PieceView};

    ghost Value = { PieceView };

    ghost view = { λ b. b.piece.value };
}

impl PieceBox {
    ghost use Rattle.l3_analysis.specs.Piece.{blank_of};
    ghost use Rattle.l3_analysis.specs.Lending.{LendsPiece};

    /// A box with a piece of no granule yet.
    pub fn new(alloc: Global, settings: Settings) -> Result<PieceBox, AllocError>
        ensures { IfOk result (λ b. b ≡ blank_of settings) }
    {
        let piece = Box::new(alloc, Piece::blank(settings))?;
        Ok(PieceBox { piece })
    }

    /// The piece.
    pub fn piece(&self) -> &Piece
        ensures { result.now ≡ self.now }
    {
        &self.piece
    }

    /// The piece, to be written.
    pub fn piece_mut(&mut self) -> &mut Piece
        ensures* writes_back { sem 𝓛 (LendsPiece self.entry result) }
        ensures value { result.now ≡ self.old }
    {
        &mut self.piece
    }
}

impl Numbered for PieceBox {
    ghost use Rattle.l3_analysis.specs.Piece.{work_at};

    ghost number_of = { λ b. b.number };

    ghost work_of = { λ b. work_at b.stage };

    fn number(&self) -> u64 {
        self.piece().number().get()
    }

    fn work(&self) -> u64 {
        match self.piece().stage() {
            Stage::Blank | Stage::Loaded => 0,
            Stage::Transformed => 1,
            Stage::Presumed => 2,
        }
    }
}
