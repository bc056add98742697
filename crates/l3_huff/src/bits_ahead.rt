//! The next bits of bytes, a few at a time.

ghost use Rattle.std.specs.Prelude.{◌≡◌, ◌<◌, ◌≤◌, ◌+◌, ◌*◌, ◌^◌, drop, length, slice_index, take};
ghost use Rattle.l3_bits.specs.Bits.{bits_of, number_of};
ghost use Rattle.l3_huff.specs.Words.{with_zeros};

/// The number that the next `width` bits stand for; past the bytes stand zeros.
///
/// Three bytes hold 16 bits from any bit of the first of them on.
pub fn bits_ahead(bytes: &[u8], at: u64, width: u32) -> u32
    requires width { width ≤ 16 }
    requires within { at ≤ 8 * length bytes.now }
    ensures value { result ≡ number_of (take width (drop at (bits_of (with_zeros bytes.now)))) }
    ensures small { result < 2 ^ width }
{
    let byte = (at / 8) as usize;
    let ahead = three_bytes(
        byte_or_zero(bytes, byte),
        byte_or_zero(bytes, byte + 1),
        byte_or_zero(bytes, byte + 2),
    );
    (ahead >> (24 - (at % 8) as u32 - width)) % (1u32 << width)
}

// Three bytes as a number, the first being the most significant.
#[inline(always)]
fn three_bytes(first: u8, second: u8, third: u8) -> u32
    ensures { result ≡ (first * 2 ^ 8 + second) * 2 ^ 8 + third }
{
    (u32::from(first) * 256 + u32::from(second)) * 256 + u32::from(third)
}

// A byte, or zero past the bytes.
#[inline(always)]
fn byte_or_zero(bytes: &[u8], index: usize) -> u8
    ensures { result ≡ slice_index bytes.now index }
{
    if index < bytes.len() { bytes[index] } else { 0 }
}
