ghost use Rattle.l3_huff.specs.Laws.{PairIsThere, PairIsFound, QuadIsThere, QuadIsFound, OnePairCode, OneQuadCode, LengthOfMagnitudes, LengthOfParts};

/// Reading a pair in front of bits, as a function, is the relation that a code of the table stands
/// there.
pub fn pair_reading()
    ensures there { PairIsThere }
    ensures found { PairIsFound }
{}

/// Reading a quadruple in front of bits, as a function, is the relation that a code of the table
/// stands there.
pub fn quad_reading()
    ensures there { QuadIsThere }
    ensures found { QuadIsFound }
{}

/// No two codes of a table begin one another, whatever follows.
pub fn one_code()
    ensures pairs { OnePairCode }
    ensures quads { OneQuadCode }
{}

/// The length of a pair's code, by its parts; a sign takes one bit, whichever it is.
pub fn pair_length()
    ensures parts { LengthOfParts }
    ensures magnitudes { LengthOfMagnitudes }
{}
