//! What is proved of each code table: it is a complete prefix code, its entries have the sums that
//! were counted apart from this source, and its greatest value is the printed one.

ghost use Rattle.std.specs.Prelude.{◌≡◌, ◌∷◌, [], map, All};
ghost use Rattle.l3_huff.specs.Tables.{codes_of, greatest_of, lengths_of, linbits_of, quad_codes, quad_lengths, quad_values, values_of};
ghost use Rattle.l3_huff.specs.Facts.{IsCompleteCode, HasSums};
ghost use Rattle.l3_huff.specs.declared.quads.QuadTable.{QuadTable};

/// Table 0 of pairs has no bits, and holds 0 alone.
pub fn table_0()
    ensures complete { IsCompleteCode (codes_of 0) }
    ensures empty { codes_of 0 ≡ [] ∷ [] }
    ensures greatest { greatest_of 0 ≡ 0 }
{}

/// Table 1 of pairs is a complete prefix code of 4 codes.
pub fn table_1()
    ensures complete { IsCompleteCode (codes_of 1) }
    ensures lengths { HasSums (lengths_of 1) 4 9 25 }
    ensures values { HasSums (values_of 1) 4 3 6 }
    ensures greatest { greatest_of 1 ≡ 1 }
{}

/// Table 2 of pairs is a complete prefix code of 9 codes.
pub fn table_2()
    ensures complete { IsCompleteCode (codes_of 2) }
    ensures lengths { HasSums (lengths_of 2) 9 37 211 }
    ensures values { HasSums (values_of 2) 9 14 68 }
    ensures greatest { greatest_of 2 ≡ 2 }
{}

/// Table 3 of pairs is a complete prefix code of 9 codes.
pub fn table_3()
    ensures complete { IsCompleteCode (codes_of 3) }
    ensures lengths { HasSums (lengths_of 3) 9 36 205 }
    ensures values { HasSums (values_of 3) 9 14 62 }
    ensures greatest { greatest_of 3 ≡ 2 }
{}

/// Table 5 of pairs is a complete prefix code of 16 codes.
pub fn table_5()
    ensures complete { IsCompleteCode (codes_of 5) }
    ensures lengths { HasSums (lengths_of 5) 16 91 879 }
    ensures values { HasSums (values_of 5) 16 54 433 }
    ensures greatest { greatest_of 5 ≡ 3 }
{}

/// Table 6 of pairs is a complete prefix code of 16 codes.
pub fn table_6()
    ensures complete { IsCompleteCode (codes_of 6) }
    ensures lengths { HasSums (lengths_of 6) 16 75 700 }
    ensures values { HasSums (values_of 6) 16 51 363 }
    ensures greatest { greatest_of 6 ≡ 3 }
{}

/// Table 7 of pairs is a complete prefix code of 36 codes.
pub fn table_7()
    ensures complete { IsCompleteCode (codes_of 7) }
    ensures lengths { HasSums (lengths_of 7) 36 267 5479 }
    ensures values { HasSums (values_of 7) 36 275 4615 }
    ensures greatest { greatest_of 7 ≡ 5 }
{}

/// Table 8 of pairs is a complete prefix code of 36 codes.
pub fn table_8()
    ensures complete { IsCompleteCode (codes_of 8) }
    ensures lengths { HasSums (lengths_of 8) 36 271 5623 }
    ensures values { HasSums (values_of 8) 36 266 4635 }
    ensures greatest { greatest_of 8 ≡ 5 }
{}

/// Table 9 of pairs is a complete prefix code of 36 codes.
pub fn table_9()
    ensures complete { IsCompleteCode (codes_of 9) }
    ensures lengths { HasSums (lengths_of 9) 36 229 4689 }
    ensures values { HasSums (values_of 9) 36 248 4190 }
    ensures greatest { greatest_of 9 ≡ 5 }
{}

/// Table 10 of pairs is a complete prefix code of 64 codes.
pub fn table_10()
    ensures complete { IsCompleteCode (codes_of 10) }
    ensures lengths { HasSums (lengths_of 10) 64 554 19569 }
    ensures values { HasSums (values_of 10) 64 1011 30252 }
    ensures greatest { greatest_of 10 ≡ 7 }
{}

/// Table 11 of pairs is a complete prefix code of 64 codes.
pub fn table_11()
    ensures complete { IsCompleteCode (codes_of 11) }
    ensures lengths { HasSums (lengths_of 11) 64 507 17971 }
    ensures values { HasSums (values_of 11) 64 1035 30505 }
    ensures greatest { greatest_of 11 ≡ 7 }
{}

/// Table 12 of pairs is a complete prefix code of 64 codes.
pub fn table_12()
    ensures complete { IsCompleteCode (codes_of 12) }
    ensures lengths { HasSums (lengths_of 12) 64 465 16372 }
    ensures values { HasSums (values_of 12) 64 990 28152 }
    ensures greatest { greatest_of 12 ≡ 7 }
{}

/// Table 24 of pairs is a complete prefix code of 256 codes.
pub fn table_24()
    ensures complete { IsCompleteCode (codes_of 24) }
    ensures lengths { HasSums (lengths_of 24) 256 2348 310571 }
    ensures values { HasSums (values_of 24) 256 62529 8285342 }
    ensures greatest { greatest_of 24 ≡ 30 }
{}

/// Tables 25 to 31 of pairs have the codes of table 24, each with its own linbits.
pub fn tables_with_linbits()
    ensures codes { All (λ table. codes_of table ≡ codes_of 24) (25 ∷ 26 ∷ 27 ∷ 28 ∷ 29 ∷ 30 ∷ 31 ∷ []) }
    ensures linbits { map linbits_of (24 ∷ 25 ∷ 26 ∷ 27 ∷ 28 ∷ 29 ∷ 30 ∷ 31 ∷ []) ≡ 4 ∷ 5 ∷ 6 ∷ 7 ∷ 8 ∷ 9 ∷ 11 ∷ 13 ∷ [] }
    ensures greatest { map greatest_of (25 ∷ 26 ∷ 27 ∷ 28 ∷ 29 ∷ 30 ∷ 31 ∷ []) ≡ 46 ∷ 78 ∷ 142 ∷ 270 ∷ 526 ∷ 2062 ∷ 8206 ∷ [] }
{}

/// Both tables of quadruples are complete prefix codes of 16 codes.
pub fn quad_tables_are_complete()
    ensures complete_a { IsCompleteCode (quad_codes QuadTable.A) }
    ensures complete_b { IsCompleteCode (quad_codes QuadTable.B) }
    ensures lengths { HasSums quad_lengths 16 78 728 }
    ensures values { HasSums quad_values 16 63 502 }
{}
