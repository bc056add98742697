ghost use Rattle.std.specs.Prelude.{◌≤◌, All, unsigned_abs};
ghost use Rattle.std.specs.Bool.{OnTrue};

use crate::inputs::check_row;
use crate::region_plain::plain_best;
use l3_base::SampleRate;
use l3_region::{QuadTable, Regions, Split, best, split_of};

fn are_codable(q: &[i16; 576]) -> bool
    ensures { OnTrue result (All (λ x. unsigned_abs x ≤ 8191) q.now) }
{
    q.iter().all(|x| x.unsigned_abs() <= 8191)
}

// The split and the regions of a unit at 44100 Hz.
fn counted(q: &[i16; 576]) -> Option<(Split, Regions)> {
    if are_codable(q) {
        let split = split_of(q);
        Some((split, best(q, split, SampleRate::Hz44100)))
    } else {
        None
    }
}

fn number_of(table: QuadTable) -> u32 {
    match table {
        QuadTable::A => 0,
        QuadTable::B => 1,
    }
}

// Of a unit that is 0 but for these values: big_values, quadruples, the counts of regions 0 and 1,
// table_select of the three regions, count1table_select, and the bits.
fn numbers_of(places: &[(usize, i16)]) -> Option<[u32; 9]> {
    let mut q = [0i16; 576];
    for (place, value) in places {
        if *place < 576 {
            q[*place] = *value;
        }
    }
    match counted(&q) {
        None => None,
        Some((split, regions)) => Some([
            u32::from(split.big),
            u32::from(split.quads),
            u32::from(regions.region0),
            u32::from(regions.region1),
            u32::from(regions.tables[0]),
            u32::from(regions.tables[1]),
            u32::from(regions.tables[2]),
            number_of(regions.quad),
            regions.bits,
        ]),
    }
}

// Band 6 has lines 24 to 29: in the last row the pairs end at line 26, and the quadruple after them
// has the band's only values.
#[test]
fn worked_units(rt: HostRuntime) {
    let band = [(23, 2), (26, 1), (27, -1), (28, 1), (29, 1)];
    for (row, places, numbers) in [
        // One pair.
        (0, [(0, 1)].as_slice(), [1, 0, 0, 0, 1, 0, 0, 0, 3]),
        // One quadruple, at a tie of its tables.
        (1, [(3, -1)].as_slice(), [0, 1, 0, 0, 0, 0, 0, 0, 5]),
        // The longest linbits, and the first value that has some.
        (2, [(0, 8191)].as_slice(), [1, 0, 0, 0, 31, 0, 0, 0, 22]),
        (3, [(0, 15)].as_slice(), [1, 0, 0, 0, 24, 0, 0, 0, 13]),
        (4, band.as_slice(), [13, 1, 4, 0, 0, 2, 0, 1, 16]),
    ] {
        check_row(&rt, [row, 0], numbers_of(places) == Some(numbers));
    }
}

// A number that a linear congruence gives after another one.
fn next(number: u32) -> u32 {
    number.wrapping_mul(1664525).wrapping_add(1013904223)
}

// The value below this power of 2 that a number gives, with its sign.
fn value_of(number: u32, digits: u32) -> i16 {
    let value = ((number >> 8) % (1 << digits.min(12))) as i16;
    if number % 3 == 0 {
        0i16.saturating_sub(value)
    } else {
        value
    }
}

// Values below a line, of which one in so many is not 0, and each is below this power of 2.
fn values(seed: u32, end: usize, one_in: u32, digits: u32) -> [i16; 576] {
    let mut q = [0i16; 576];
    let mut number = seed;
    for i in 0..end.min(576) {
        number = next(number);
        if (number >> 16) % one_in.max(1) == 0 {
            number = next(number);
            q[i] = value_of(number, digits);
        }
    }
    q
}

// Whether the plain program gives the same as the packed sums.
fn are_same(q: &[i16; 576]) -> bool {
    match counted(q) {
        Some((split, regions)) => plain_best(q, split, 0) == regions,
        None => false,
    }
}

#[test]
fn packed_sums_are_the_plain_ones(rt: HostRuntime) {
    // Sparse values, of which the pairs end within a band, and dense ones.
    for (seed, end, one_in, digits) in [
        (1, 27, 9, 1),
        (2, 131, 40, 2),
        (3, 575, 60, 3),
        (4, 90, 1, 2),
        (5, 333, 2, 5),
        (6, 576, 1, 12),
    ] {
        let same = are_same(&values(seed, end, one_in, digits));
        check_row(&rt, [seed as i32, 0], same);
    }
}

// Values around those where linbits begin and end, below a line.
fn long_values(end: usize) -> [i16; 576] {
    let mut q = [0i16; 576];
    for i in 0..end.min(576) {
        q[i] = [14, -15, 16, -8190, 8191][i % 5];
    }
    q
}

#[test]
fn long_sums_are_the_plain_ones(rt: HostRuntime) {
    for end in [576u16, 417, 130, 4] {
        check_row(
            &rt,
            [i32::from(end), 0],
            are_same(&long_values(usize::from(end))),
        );
    }
}
