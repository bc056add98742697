ghost use Rattle.std.specs.Prelude.{◌≡◌, pos};
ghost use Rattle.l3_base.specs.Lists.{entry};
ghost use Rattle.l3_base.specs.Sums.{AddsUpTo, IsWithin};
ghost use Rattle.l3_base.specs.Cosines.{cosine64, cosine72, IsExtended};

/// A quarter of a circle of 128 steps, times 2^15. This project's own.
///
/// This is the printed form, which the definition cites; [`k64`] reads the whole circle below it.
#[rattlefmt::skip]
pub static K64: [i32; 33] = [
    32768, 32729, 32610, 32413, 32138, 31786, 31357, 30853,
    30274, 29622, 28899, 28106, 27246, 26320, 25330, 24279,
    23170, 22006, 20788, 19520, 18205, 16846, 15447, 14010,
    12540, 11039, 9512, 7962, 6393, 4808, 3212, 1608,
    0,
];

// The whole circle of 128 steps: the form that runs, read by `k64`, which proves it to be what the
// quarter stands for.
#[rattlefmt::skip]
static CIRCLE64: [i32; 128] = [
    32768, 32729, 32610, 32413, 32138, 31786, 31357, 30853,
    30274, 29622, 28899, 28106, 27246, 26320, 25330, 24279,
    23170, 22006, 20788, 19520, 18205, 16846, 15447, 14010,
    12540, 11039, 9512, 7962, 6393, 4808, 3212, 1608,
    0, -1608, -3212, -4808, -6393, -7962, -9512, -11039,
    -12540, -14010, -15447, -16846, -18205, -19520, -20788, -22006,
    -23170, -24279, -25330, -26320, -27246, -28106, -28899, -29622,
    -30274, -30853, -31357, -31786, -32138, -32413, -32610, -32729,
    -32768, -32729, -32610, -32413, -32138, -31786, -31357, -30853,
    -30274, -29622, -28899, -28106, -27246, -26320, -25330, -24279,
    -23170, -22006, -20788, -19520, -18205, -16846, -15447, -14010,
    -12540, -11039, -9512, -7962, -6393, -4808, -3212, -1608,
    0, 1608, 3212, 4808, 6393, 7962, 9512, 11039,
    12540, 14010, 15447, 16846, 18205, 19520, 20788, 22006,
    23170, 24279, 25330, 26320, 27246, 28106, 28899, 29622,
    30274, 30853, 31357, 31786, 32138, 32413, 32610, 32729,
];

/// A quarter of a circle of 144 steps, times 2^15. This project's own.
///
/// This is the printed form, which the definition cites; [`k72`] reads the whole circle below it.
#[rattlefmt::skip]
pub static K72: [i32; 37] = [
    32768, 32737, 32643, 32488, 32270, 31991, 31651, 31251, 30792,
    30274, 29698, 29066, 28378, 27636, 26842, 25997, 25102, 24159,
    23170, 22138, 21063, 19948, 18795, 17606, 16384, 15131, 13848,
    12540, 11207, 9854, 8481, 7092, 5690, 4277, 2856, 1429,
    0,
];

// The whole circle of 144 steps: the form that runs, read by `k72`, which proves it to be what the
// quarter stands for.
#[rattlefmt::skip]
static CIRCLE72: [i32; 144] = [
    32768, 32737, 32643, 32488, 32270, 31991, 31651, 31251, 30792,
    30274, 29698, 29066, 28378, 27636, 26842, 25997, 25102, 24159,
    23170, 22138, 21063, 19948, 18795, 17606, 16384, 15131, 13848,
    12540, 11207, 9854, 8481, 7092, 5690, 4277, 2856, 1429,
    0, -1429, -2856, -4277, -5690, -7092, -8481, -9854, -11207,
    -12540, -13848, -15131, -16384, -17606, -18795, -19948, -21063, -22138,
    -23170, -24159, -25102, -25997, -26842, -27636, -28378, -29066, -29698,
    -30274, -30792, -31251, -31651, -31991, -32270, -32488, -32643, -32737,
    -32768, -32737, -32643, -32488, -32270, -31991, -31651, -31251, -30792,
    -30274, -29698, -29066, -28378, -27636, -26842, -25997, -25102, -24159,
    -23170, -22138, -21063, -19948, -18795, -17606, -16384, -15131, -13848,
    -12540, -11207, -9854, -8481, -7092, -5690, -4277, -2856, -1429,
    0, 1429, 2856, 4277, 5690, 7092, 8481, 9854, 11207,
    12540, 13848, 15131, 16384, 17606, 18795, 19948, 21063, 22138,
    23170, 24159, 25102, 25997, 26842, 27636, 28378, 29066, 29698,
    30274, 30792, 31251, 31651, 31991, 32270, 32488, 32643, 32737,
];

/// The cosine of `m` steps of 128 to the circle, times 2^15.
#[inline(always)]
pub fn k64(m: i64) -> i32
    ensures value { result ≡ cosine64 m }
    ensures bound { IsWithin 32768 result }
{
    CIRCLE64[m.rem_euclid(128) as usize]
}

/// The cosine of `m` steps of 144 to the circle, times 2^15.
#[inline(always)]
pub fn k72(m: i64) -> i32
    ensures value { result ≡ cosine72 m }
    ensures bound { IsWithin 32768 result }
{
    CIRCLE72[m.rem_euclid(144) as usize]
}

/// Both tables go on round the circle as cosines do.
pub fn cosine_laws()
    ensures extended64 { IsExtended K64 64 cosine64 }
    ensures extended72 { IsExtended K72 72 cosine72 }
{}

/// What the printed entries add up to.
pub fn cosine_sums()
    ensures quarter64 { AddsUpTo 33 (entry K64) (pos 683796) 683796 (pos 8439123) }
    ensures quarter72 { AddsUpTo 37 (entry K72) (pos 767252) 767252 (pos 10584408) }
{}
