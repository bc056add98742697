ghost use Rattle.std.specs.Prelude.{◌≡◌, ◌↔◌, ℕ, List, ℤ, ◌+◌, ◌-◌, ◌*◌, ◌<◌, ◌≤◌, length, slice_index};
ghost use Rattle.l3_quant.specs.Quantiser.{magnitude_at};
ghost use Rattle.l3_region.specs.Split.{split_of};
ghost use Rattle.l3_count.specs.Planes.{key_at, IsPlane};
ghost use Rattle.l3_count.specs.Rows.{size_at, AreRows, IsStored};
ghost use Rattle.l3_count.specs.Ends.{AreEnds, IsEnd, IsPairPlane, IsQuantised};

use l3_region::Split;

// A stored plane as it was.
#[inline(always)]
fn plain(plane: i8) -> u8
    ensures { (n x : ℕ) → IsStored n x plane → IsPlane n x result }
{
    (i16::from(plane) + 128) as u8
}

// The greater plane of a pair's two lines, for the value `k + 1`, by the pair's place in its block.
#[inline(always)]
fn pair_plane(rows: &[i8; 8640], k: usize, block: usize, place: usize) -> u8
    requires value { k < 15 }
    requires block { block < 18 }
    requires place { place < 16 }
    ensures { (lines : List ℤ) → AreRows lines rows.now → IsPairPlane lines k (16 * block + place) result }
{
    let cell = 480 * block + 32 * k + place;
    plain(rows[cell]).max(plain(rows[cell + 16]))
}

// Writes the greater planes of a block's pairs.
#[inline(always)]
fn write_block(rows: &[i8; 8640], k: usize, block: usize, out: &mut [u8; 288])
    requires value { k < 15 }
    requires block { block < 18 }
    requires long { length out.old ≡ 288 }
    ensures long { length out.new ≡ 288 }
    ensures here { (lines : List ℤ) → AreRows lines rows.now → (j : ℕ) → j < 16 → IsPairPlane lines k (16 * block + j) (slice_index out.new (16 * block + j)) }
    ensures before { (i : ℕ) → i < 16 * block → slice_index out.new i ≡ slice_index out.old i }
{
    for j in 0..16 {
        out[16 * block + j] = pair_plane(rows, k, block, j);
    }
}

// Writes the greater planes of all pairs.
fn write_pair_planes(rows: &[i8; 8640], k: usize, out: &mut [u8; 288])
    requires { k < 15 }
    ensures long { length out.new ≡ 288 }
    ensures value { (lines : List ℤ) → AreRows lines rows.now → (pair : ℕ) → pair < 288 → IsPairPlane lines k pair (slice_index out.new pair) }
{
    for block in 0..18 {
        write_block(rows, k, block, out);
    }
}

// For each pair the greatest plane of the value `k + 1` from there to the end.
pub(crate) fn write_ends(rows: &[i8; 8640], k: usize, out: &mut [u8; 288])
    requires { k < 15 }
    ensures { (lines : List ℤ) → AreRows lines rows.now → AreEnds lines k out.new }
{
    write_pair_planes(rows, k, out);
    let mut end = 0u8;
    for r in 0..288 {
        let pair = 287 - r;
        end = end.max(out[pair]);
        out[pair] = end;
    }
}

// The number of pairs up to the last whose end is at a key, by halving: ends fall.
fn last(ends: &[u8; 288], key: u8) -> usize
    ensures within { result ≤ 288 }
    ensures before { 0 < result → key ≤ slice_index ends.now (result - 1) }
    ensures behind { result < 288 → slice_index ends.now result < key }
{
    let mut low = 0usize;
    let mut high = 288usize;
    while low < high {
        let middle = low + (high - low) / 2;
        if ends[middle] >= key {
            low = middle + 1;
        } else {
            high = middle;
        }
    }
    low
}

// The split of a unit's values, from the ends of the values 1 and 2.
pub(crate) fn split(nonzero: &[u8; 288], above_one: &[u8; 288], key: u8) -> Split
    ensures places { 2 * result.big + 4 * result.quads ≤ 576 }
    ensures value { (lines q : List ℤ) (h : ℕ) → AreEnds lines 0 nonzero.now → AreEnds lines 1 above_one.now → key ≡ key_at h → IsQuantised lines h q → result ≡ split_of q }
{
    let pairs = last(nonzero, key);
    let ones = last(above_one, key).min(pairs);
    let quads = (pairs - ones) / 2;
    Split {
        big: (pairs - 2 * quads) as u16,
        quads: quads as u16,
    }
}
