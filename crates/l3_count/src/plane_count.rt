ghost use Rattle.std.specs.Prelude.{◌≡◌, ℕ, List, ℤ, ◌+◌, ◌*◌, ◌<◌, ◌≤◌, ◌<ℤ◌, ◌≤ℤ◌, length, min, pos, replicate, slice_index, slice_index_or};
ghost use Rattle.l3_count.specs.Rows.{line_at, AreRows, AreTops};
ghost use Rattle.l3_count.specs.Marks.{cut_at, AreCounted, AreMarks, IsMark};

// No counts yet.
#[inline(always)]
fn no_counts() -> [u8; 32]
    ensures { result ≡ replicate 32 0 }
{
    [0; 32]
}

// The count, and 1 more where the plane is above the mark.
#[inline(always)]
fn counted(count: u8, plane: i8, mark: i8) -> u8
    requires { count < 15 }
    ensures above { mark <ℤ plane → result ≡ count + 1 }
    ensures others { plane ≤ℤ mark → result ≡ count }
{
    count + u8::from(mark < plane)
}

// The counts with 1 more where the plane of a row is above the mark of its cell.
#[inline(always)]
fn with_row(
    counts: &[u8; 32],
    rows: &[i8; 8640],
    row: usize,
    marks: &[i8; 576],
    block: usize,
) -> [u8; 32]
    requires row { row < 270 }
    requires block { block < 18 }
    requires room { (j : ℕ) → j < 32 → slice_index counts.now j < 15 }
    ensures long { length result ≡ 32 }
    ensures above { (j : ℕ) → j < 32 → slice_index_or marks.now (32 * block + j) (pos 0) <ℤ slice_index_or rows.now (32 * row + j) (pos 0) → slice_index result j ≡ slice_index counts.now j + 1 }
    ensures others { (j : ℕ) → j < 32 → slice_index_or rows.now (32 * row + j) (pos 0) ≤ℤ slice_index_or marks.now (32 * block + j) (pos 0) → slice_index result j ≡ slice_index counts.now j }
{
    let mut more = no_counts();
    for j in 0..32 {
        more[j] = counted(counts[j], rows[32 * row + j], marks[32 * block + j]);
    }
    more
}

// The counts with 1 more where the plane of a row is above one mark.
#[inline(always)]
fn with_row_above(counts: &[u8; 32], rows: &[i8; 8640], row: usize, mark: i8) -> [u8; 32]
    requires row { row < 270 }
    requires room { (j : ℕ) → j < 32 → slice_index counts.now j < 15 }
    ensures long { length result ≡ 32 }
    ensures above { (j : ℕ) → j < 32 → mark <ℤ slice_index_or rows.now (32 * row + j) (pos 0) → slice_index result j ≡ slice_index counts.now j + 1 }
    ensures others { (j : ℕ) → j < 32 → slice_index_or rows.now (32 * row + j) (pos 0) ≤ℤ mark → slice_index result j ≡ slice_index counts.now j }
{
    let mut more = no_counts();
    for j in 0..32 {
        more[j] = counted(counts[j], rows[32 * row + j], mark);
    }
    more
}

// The counts of a block's cells with one plane more of each.
#[inline(always)]
fn with_plane(
    counts: &[u8; 32],
    rows: &[i8; 8640],
    block: usize,
    k: usize,
    marks: &[i8; 576],
) -> [u8; 32]
    requires block { block < 18 }
    requires plane { k < 15 }
    requires few { (j : ℕ) → j < 32 → slice_index counts.now j ≤ k }
    ensures long { length result ≡ 32 }
    ensures few { (j : ℕ) → j < 32 → slice_index result j ≤ k + 1 }
    ensures value { (lines : List ℤ) (steps : ℕ → ℕ) (least : ℤ) → AreRows lines rows.now → AreMarks steps marks.now least →
        AreCounted lines steps block k counts.now → AreCounted lines steps block (k + 1) result }
{
    with_row(counts, rows, 15 * block + k, marks, block)
}

// The same where all cells have one mark.
#[inline(always)]
fn with_plane_above(
    counts: &[u8; 32],
    rows: &[i8; 8640],
    block: usize,
    k: usize,
    mark: i8,
) -> [u8; 32]
    requires block { block < 18 }
    requires plane { k < 15 }
    requires few { (j : ℕ) → j < 32 → slice_index counts.now j ≤ k }
    ensures long { length result ≡ 32 }
    ensures few { (j : ℕ) → j < 32 → slice_index result j ≤ k + 1 }
    ensures value { (lines : List ℤ) (steps : ℕ → ℕ) → AreRows lines rows.now → IsMark steps mark →
        AreCounted lines steps block k counts.now → AreCounted lines steps block (k + 1) result }
{
    with_row_above(counts, rows, 15 * block + k, mark)
}

// The values of a block's cells, cut at 15. Rows are counted in threes, up to those that no plane
// of the block reaches.
#[inline(always)]
fn count_block(
    rows: &[i8; 8640],
    tops: &[i8; 270],
    block: usize,
    marks: &[i8; 576],
    least: i8,
) -> [u8; 32]
    requires { block < 18 }
    ensures long { length result ≡ 32 }
    ensures value { (lines : List ℤ) (steps : ℕ → ℕ) → AreRows lines rows.now → AreTops rows.now tops.now → AreMarks steps marks.now least → (j : ℕ) → j < 32 →
        slice_index result j ≡ cut_at lines steps (line_at (32 * block + j)) }
    ensures bound { (j : ℕ) → j < 32 → slice_index result j ≤ 15 }
{
    let mut counts = no_counts();
    for three in 0..5usize {
        let k = 3 * three;
        if tops[15 * block + k] <= least {
            return counts;
        }
        let one = with_plane(&counts, rows, block, k, marks);
        let two = with_plane(&one, rows, block, k + 1, marks);
        counts = with_plane(&two, rows, block, k + 2, marks);
    }
    counts
}

// The same where all cells have one mark.
#[inline(always)]
fn count_block_above(rows: &[i8; 8640], tops: &[i8; 270], block: usize, mark: i8) -> [u8; 32]
    requires { block < 18 }
    ensures long { length result ≡ 32 }
    ensures value { (lines : List ℤ) (steps : ℕ → ℕ) → AreRows lines rows.now → AreTops rows.now tops.now → IsMark steps mark → (j : ℕ) → j < 32 →
        slice_index result j ≡ cut_at lines steps (line_at (32 * block + j)) }
    ensures bound { (j : ℕ) → j < 32 → slice_index result j ≤ 15 }
{
    let mut counts = no_counts();
    for three in 0..5usize {
        let k = 3 * three;
        if tops[15 * block + k] <= mark {
            return counts;
        }
        let one = with_plane_above(&counts, rows, block, k, mark);
        let two = with_plane_above(&one, rows, block, k + 1, mark);
        counts = with_plane_above(&two, rows, block, k + 2, mark);
    }
    counts
}

// Writes the pairs of a block's values: 16 times the first and the second.
#[inline(always)]
fn write_pairs(counts: &[u8; 32], block: usize, out: &mut [u8; 288])
    requires block { block < 18 }
    requires small { (j : ℕ) → j < 32 → slice_index counts.now j ≤ 15 }
    requires long { length out.old ≡ 288 }
    ensures long { length out.new ≡ 288 }
    ensures value { (j : ℕ) → j < 16 → slice_index out.new (16 * block + j) ≡ 16 * slice_index counts.now j + slice_index counts.now (16 + j) }
    ensures before { (i : ℕ) → i < 16 * block → slice_index out.new i ≡ slice_index out.old i }
{
    for j in 0..16 {
        out[16 * block + j] = 16 * counts[j] + counts[16 + j];
    }
}

// Writes the pairs of all cut values, for marks of which none is less than `least`.
pub(crate) fn count_pairs(
    rows: &[i8; 8640],
    tops: &[i8; 270],
    marks: &[i8; 576],
    least: i8,
    out: &mut [u8; 288],
)
    ensures { (lines : List ℤ) (steps : ℕ → ℕ) → AreRows lines rows.now → AreTops rows.now tops.now → AreMarks steps marks.now least → (i : ℕ) → i < 288 →
        slice_index out.new i ≡ 16 * cut_at lines steps (2 * i) + cut_at lines steps (2 * i + 1) }
{
    for block in 0..18 {
        let counts = count_block(rows, tops, block, marks, least);
        write_pairs(&counts, block, out);
    }
}

// Writes the pairs of all cut values, for one mark of all cells.
pub(crate) fn count_pairs_above(rows: &[i8; 8640], tops: &[i8; 270], mark: i8, out: &mut [u8; 288])
    ensures { (lines : List ℤ) (steps : ℕ → ℕ) → AreRows lines rows.now → AreTops rows.now tops.now → IsMark steps mark → (i : ℕ) → i < 288 →
        slice_index out.new i ≡ 16 * cut_at lines steps (2 * i) + cut_at lines steps (2 * i + 1) }
{
    for block in 0..18usize {
        let counts = count_block_above(rows, tops, block, mark);
        write_pairs(&counts, block, out);
    }
}
