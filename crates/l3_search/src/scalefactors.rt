ghost use Rattle.std.specs.Prelude.{◌≡◌, ◌≤◌, ◌<◌, ℕ, nat_lt, slice_range};
ghost use Rattle.std.specs.List.{list_all};
ghost use Rattle.l3_search.specs.Noise.{part2_of, scalefactor_bits, slen1_of, slen2_of};
ghost use Rattle.l3_search.specs.Kernels.{compress_for};

use l3_base::{Amp, SLEN};

/// What the scale factors of a unit take: the front of its main data, `part2` of
/// `part2_3_length`.
#[derive(Clone, Copy, Debug, PartialEq, Eq)]
pub struct Part2 {
    /// The field `scalefac_compress`, 0 to 15.
    pub compress: u8,
    /// The bits of all scale factors under it.
    pub bits: u8,
}

/// For the greatest amplification of bands 0 to 10 (rows) and of bands 11 to 20 the
/// `scalefac_compress` that holds both in the fewest bits.
#[rattlefmt::skip]
static COMPRESS: [[u8; 4]; 4] = [
    [0, 1, 2, 2],
    [5, 5, 6, 6],
    [8, 8, 9, 9],
    [8, 8, 9, 9],
];

// The entry for two amplifications.
#[inline(always)]
fn compress(first: u8, second: u8) -> u8
    requires first { first ≤ 3 }
    requires second { second ≤ 3 }
    ensures value { result ≡ compress_for first second }
    ensures bound { result < 16 }
{
    COMPRESS[usize::from(first)][usize::from(second)]
}

// The bits of a scale factor of bands 0 to 10.
#[inline(always)]
fn slen1(compress: u8) -> u8
    requires { compress < 16 }
    ensures value { result ≡ slen1_of compress }
    ensures bound { result ≤ 4 }
{
    SLEN[usize::from(compress)][0]
}

// The bits of a scale factor of bands 11 to 20.
#[inline(always)]
fn slen2(compress: u8) -> u8
    requires { compress < 16 }
    ensures value { result ≡ slen2_of compress }
    ensures bound { result ≤ 4 }
{
    SLEN[usize::from(compress)][1]
}

// The greatest amplification of bands `from` up to `to`.
fn greatest(amp: &Amp, from: usize, to: usize) -> u8
    requires order { from ≤ to }
    requires bands { to ≤ 21 }
    ensures bound { result ≤ 3 }
    ensures value { (limit : ℕ) → 0 < limit → list_all (λ a. nat_lt a limit) (slice_range amp.now from to) ≡ nat_lt result limit }
{
    let mut top = 0u8;
    for band in from..to {
        top = top.max(amp.get(band));
    }
    top
}

/// The `scalefac_compress` that holds an amplification in the fewest bits, and these bits.
///
/// Scale factors of `slen1` bits serve bands 0 to 10, of `slen2` bits bands 11 to 20; band 21 has
/// none (ISO/IEC 11172-3, 2.4). As no amplification is above 3, there are at most 42 bits.
pub fn part2_of(amp: &Amp) -> Part2
    ensures value { result ≡ part2_of amp.now }
    ensures compress { result.compress < 16 }
    ensures bits { result.bits ≤ 42 }
{
    let compress = compress(greatest(amp, 0, 11), greatest(amp, 11, 21));
    Part2 {
        compress,
        bits: 11 * slen1(compress) + 10 * slen2(compress),
    }
}
