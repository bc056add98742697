ghost use Rattle.std.specs.Prelude.{◌≡◌, ◌<◌, ◌≤◌, ◌^◌};
ghost use Rattle.l3_count.specs.Planes.{ranked_at, bucket_at, place_at, less_at};
ghost use Rattle.l3_count.specs.Classes.{class_less_at, class_cut_at};

// The least mantissas at which a line is quantised to one more at some quarter step, in order; the
// last four are above all mantissas.
pub(crate) static RANKED: [u32; 64] = [
    272150528, 276021180, 280180981, 284426985, 287596584, 292296074, 293372970, 295325696,
    297169501, 297797859, 299167744, 304719540, 310649363, 311295332, 318757740, 323643345,
    328246351, 333193216, 338242595, 342011904, 347600570, 348881223, 351203420, 353396085,
    354143333, 355772410, 362374644, 369426432, 370194624, 379068972, 384878968, 390352896,
    396235744, 402240500, 406722990, 413369071, 414892032, 417653605, 420261139, 421149771,
    423087081, 430938505, 439324542, 440238080, 450791518, 457700807, 464210442, 471206365,
    478347264, 483677874, 491581440, 493392557, 496676639, 499777536, 500834304, 503138167,
    512475136, 522447871, 523534258, 536084480, 536870912, 536870912, 536870912, 536870912,
];

// How many of these are at most the first mantissa of each of 256 parts.
pub(crate) static BUCKET: [u8; 256] = [
    0, 0, 0, 0, 1, 1, 1, 1, 2, 2, 2, 2, 3, 3, 3, 3, 4, 4, 4, 5, 5, 5, 5, 6, 7, 7, 8, 8, 9, 10, 11,
    11, 11, 11, 11, 12, 12, 12, 12, 12, 12, 14, 14, 14, 14, 14, 14, 14, 15, 15, 15, 15, 15, 16, 16,
    16, 16, 16, 17, 17, 17, 17, 18, 18, 18, 18, 18, 19, 19, 19, 19, 20, 20, 20, 20, 20, 21, 22, 22,
    23, 23, 23, 25, 25, 26, 26, 26, 26, 26, 26, 27, 27, 27, 27, 27, 27, 27, 28, 29, 29, 29, 29, 29,
    29, 29, 29, 30, 30, 30, 30, 30, 30, 31, 31, 31, 31, 31, 32, 32, 32, 32, 32, 33, 33, 33, 33, 33,
    33, 34, 34, 34, 34, 35, 35, 35, 35, 35, 35, 35, 36, 37, 37, 37, 38, 38, 39, 40, 40, 41, 41, 41,
    41, 41, 41, 41, 42, 42, 42, 42, 42, 42, 42, 42, 43, 44, 44, 44, 44, 44, 44, 44, 44, 44, 44, 45,
    45, 45, 45, 45, 45, 45, 46, 46, 46, 46, 46, 46, 47, 47, 47, 47, 47, 47, 47, 48, 48, 48, 48, 48,
    48, 48, 49, 49, 49, 49, 49, 50, 50, 50, 50, 50, 50, 50, 51, 51, 52, 52, 52, 53, 53, 53, 54, 55,
    55, 56, 56, 56, 56, 56, 56, 56, 56, 56, 57, 57, 57, 57, 57, 57, 57, 57, 57, 57, 58, 59, 59, 59,
    59, 59, 59, 59, 59, 59, 59, 59, 59,
];

// For each value of 1 to 15 the places, from 1 on, of its four mantissas.
pub(crate) static RANKS: [[u8; 4]; 15] = [
    [15, 30, 45, 60],
    [9, 24, 39, 54],
    [4, 19, 34, 49],
    [13, 28, 43, 58],
    [12, 27, 42, 57],
    [3, 18, 33, 48],
    [7, 22, 37, 52],
    [10, 25, 40, 55],
    [8, 23, 38, 53],
    [5, 20, 35, 50],
    [2, 17, 32, 47],
    [14, 29, 44, 59],
    [6, 21, 36, 51],
    [1, 16, 31, 46],
    [11, 26, 41, 56],
];

// For each value of 1 to 15 what is taken from the octave.
pub(crate) static LESS: [u8; 15] = [4, 12, 16, 18, 20, 22, 23, 24, 25, 26, 27, 27, 28, 29, 29];

// The least value above each class, and the least that cannot be coded.
pub(crate) static LEASTS: [u16; 14] = [1, 2, 3, 4, 6, 8, 31, 47, 79, 143, 271, 527, 2063, 8192];

// For each of these what is taken from the octave.
pub(crate) static CLASS_LESS: [u8; 14] = [4, 12, 16, 18, 22, 24, 35, 38, 42, 47, 52, 57, 67, 78];

// For each of these its four mantissas, in order.
pub(crate) static CLASS_CUTS: [[u32; 4]; 14] = [
    [318757740, 379068972, 450791518, 536084480],
    [297169501, 353396085, 420261139, 499777536],
    [284426985, 338242595, 402240500, 478347264],
    [310649363, 369426432, 439324542, 522447871],
    [280180981, 333193216, 396235744, 471206365],
    [297797859, 354143333, 421149771, 500834304],
    [283784738, 337478829, 401332224, 477267137],
    [295671773, 351614976, 418143032, 497258668],
    [296842839, 353007616, 419799169, 499228159],
    [276177943, 328432775, 390574592, 464474084],
    [272808451, 324425751, 385809411, 458807296],
    [278685392, 331414652, 394120661, 468691095],
    [304174784, 361726817, 430168104, 511558971],
    [284378655, 338185119, 402172150, 478265982],
];

#[inline(always)]
pub(crate) fn ranked(i: usize) -> u32
    requires { i < 64 }
    ensures { result ≡ ranked_at i }
{
    RANKED[i]
}

#[inline(always)]
pub(crate) fn bucket(i: usize) -> u8
    requires { i < 256 }
    ensures value { result ≡ bucket_at i }
    ensures small { result < 60 }
{
    BUCKET[i]
}

#[inline(always)]
pub(crate) fn place(k: usize, j: usize) -> u8
    requires value { k < 15 }
    requires step { j < 4 }
    ensures { result ≡ place_at k j }
{
    RANKS[k][j]
}

#[inline(always)]
pub(crate) fn less(k: usize) -> u8
    requires { k < 15 }
    ensures { result ≡ less_at k }
{
    LESS[k]
}

#[inline(always)]
pub(crate) fn class_less(class: usize) -> u8
    requires { class < 14 }
    ensures { result ≡ class_less_at class }
{
    CLASS_LESS[class]
}

#[inline(always)]
pub(crate) fn class_cut(class: usize, j: usize) -> u32
    requires class { class < 14 }
    requires step { j < 4 }
    ensures { result ≡ class_cut_at class j }
{
    CLASS_CUTS[class][j]
}
