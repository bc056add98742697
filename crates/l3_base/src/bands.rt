ghost use Rattle.std.specs.Prelude.{◌≡◌, ◌<◌, ◌≤◌, pos};
ghost use Rattle.l3_base.specs.Sums.{AddsUpTo};
ghost use Rattle.l3_base.specs.Bands.{edges_at, edge_at, AreBands, numbers, slen_part};

/// The first lines of the 22 bands of long blocks and the end of the last one, at 44100, 48000 and
/// 32000 Hz.
///
/// ISO/IEC 11172-3, Annex B, has bands 0 to 20; to count the lines above them as band 21 is this
/// project's own.
#[rattlefmt::skip]
pub static EDGES: [[u16; 23]; 3] = [
    [0, 4, 8, 12, 16, 20, 24, 30, 36, 44, 52, 62, 74, 90, 110, 134, 162, 196, 238, 288, 342, 418, 576],
    [0, 4, 8, 12, 16, 20, 24, 30, 36, 42, 50, 60, 72, 88, 106, 128, 156, 190, 230, 276, 330, 384, 576],
    [0, 4, 8, 12, 16, 20, 24, 30, 36, 44, 54, 66, 82, 102, 126, 156, 194, 240, 296, 364, 448, 550, 576],
];

/// `slen1` and `slen2` of each `scalefac_compress` (ISO/IEC 11172-3, 2.4).
///
/// `slen1` serves bands 0 to 10, `slen2` bands 11 to 20.
#[rattlefmt::skip]
pub static SLEN: [[u8; 2]; 16] = [
    [0, 0], [0, 1], [0, 2], [0, 3], [3, 0], [1, 1], [1, 2], [1, 3],
    [2, 1], [2, 2], [2, 3], [3, 1], [3, 2], [3, 3], [4, 2], [4, 3],
];

/// Edge `band` of 23 at sampling frequency `rate` of 3, in the order of [`EDGES`].
#[inline(always)]
pub fn edge(rate: usize, band: usize) -> u16
    requires rate { rate < 3 }
    requires band { band < 23 }
    ensures value { result ≡ edge_at rate band }
    ensures bound { result ≤ 576 }
{
    EDGES[rate][band]
}

/// Each row of edges cuts the 576 lines into 22 bands.
pub fn band_laws()
    ensures at_44100 { AreBands 0 }
    ensures at_48000 { AreBands 1 }
    ensures at_32000 { AreBands 2 }
{}

/// What the edges and the lengths of scale factors add up to.
pub fn band_sums()
    ensures at_44100 { AddsUpTo 23 (numbers (edges_at 0)) (pos 2936) 2936 (pos 54974) }
    ensures at_48000 { AddsUpTo 23 (numbers (edges_at 1)) (pos 2838) 2838 (pos 53096) }
    ensures at_32000 { AddsUpTo 23 (numbers (edges_at 2)) (pos 3448) 3448 (pos 64996) }
    ensures slen1 { AddsUpTo 16 (slen_part 0) (pos 29) 29 (pos 337) }
    ensures slen2 { AddsUpTo 16 (slen_part 1) (pos 29) 29 (pos 284) }
{}
