ghost use Rattle.l3_search.specs.Laws.{CountedLacksNone, EmptyLacksTried, LacksAtMostTried, PickExists, PicksAtOneGain};
ghost use Rattle.l3_search.specs.ReserveLaws.{BorrowsWithinReserve, EndsExactly};
ghost use Rattle.l3_search.specs.NoiseLaws.{BitsDiffer, CompressIsLeast, NoBitsWithoutAmp};

/// Each spectrum has a picked gain for each budget, and what lanes lack up to it.
pub fn pick_exists()
    ensures there { PickExists }
    ensures tried { EmptyLacksTried }
    ensures most { LacksAtMostTried }
    ensures again { CountedLacksNone }
    ensures one_gain { PicksAtOneGain }
{}

/// What a unit borrows never exceeds the reserve.
pub fn borrowing_is_covered()
    ensures { BorrowsWithinReserve }
{}

/// The end of a frame loses no bit.
pub fn frame_end_is_exact()
    ensures { EndsExactly }
{}

/// A `scalefac_compress` is the one of fewest bits that holds the amplification, and never at a
/// tie; without amplification there are no bits.
pub fn scalefactor_laws()
    ensures least { CompressIsLeast }
    ensures differ { BitsDiffer }
    ensures none { NoBitsWithoutAmp }
{}
