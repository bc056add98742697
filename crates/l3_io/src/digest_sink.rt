ghost use Rattle.std.specs.Prelude.{◌≡◌, List, ℕ, Ok, [], length};
ghost use Rattle.std.specs.Io.{WritesAtMost};
ghost use Rattle.sha2.specs.Sha256.{sha256};
ghost use Rattle.std.proofs.Common.{rules};
ghost use Rattle.l3_io.specs.Causes.{WriteHasCause};
ghost use Rattle.l3_io.specs.Taken.{WriteTakes, length_of};

use crate::Sink;
use l3_base::Failed;
use sha2::{Digest, Sha256};

/// The SHA-256 digest and the number of the bytes taken. The bytes themselves are not kept, and no
/// write fails.
#[derive(Drop)]
pub struct DigestSink {
    hasher: Sha256,
    length: u64,
}

impl DigestSink {
    /// No bytes so far.
    pub fn new() -> DigestSink
        ensures empty { ⟦<DigestSink as Sink>⟧.taken result [] }
    {
        DigestSink {
            hasher: Sha256::new(),
            length: 0,
        }
    }

    /// The number of bytes taken so far. It stands still at 2^64 - 1.
    pub fn length(&self) -> u64
        ensures { (list : List ℕ) → ⟦<DigestSink as Sink>⟧.taken self.now list → result ≡ length_of list }
    {
        self.length
    }

    /// The digest of the bytes taken.
    pub fn finish(self) -> [u8; 32]
        ensures { (list : List ℕ) → ⟦<DigestSink as Sink>⟧.taken self list → result ≡ sha256 list }
    {
        let Self { hasher, length: _ } = self;
        hasher.finalize()
    }
}

impl Sink for DigestSink {
    ghost use Rattle.sha2.specs.Hashers.{Holds256};

    // Any list that the hasher holds, where its length is the number of bytes.
    ghost taken = { λ s list. Holds256 s.hasher list × (s.length ≡ length_of list) };

    ghost faults = { λ _. 0 };

    fn write(&mut self, piece: &[u8]) -> Result<usize, Failed>
        ensures bound { WritesAtMost result piece.now }
        ensures bytes { WriteTakes (⟦<DigestSink as Sink>⟧.taken self.old) (⟦<DigestSink as Sink>⟧.taken self.new) result piece.now }
        ensures cause { WriteHasCause {E = Failed} 0 0 result piece.now }
        ensures no_bytes { length piece.now ≡ 0 → (result ≡ Ok 0) × (self.new ≡ self.old) }

        // Each piece is taken whole.
        ensures whole { result ≡ Ok (length piece.now) }
    {
        if piece.is_empty() {
            return Ok(0);
        }
        self.hasher.update(piece);
        self.length = self.length.saturating_add(piece.len() as u64);
        Ok(piece.len())
    }

    ghost possible = { λ s. Prim.search rules };
}
