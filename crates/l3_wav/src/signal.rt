//! The signal: a triangle wave under noise that swells and fades.

ghost use Rattle.std.specs.Prelude.{◌≡◌, ◌≤◌, ◌<◌, ◌^◌, ◌++◌, ◌≤ℤ◌, pos, negsuc};
ghost use Rattle.l3_wav.specs.Demo.{after, block_after, floor_of, left_by, noise_of, right_by, sample_bytes, swell_at, triangle_at};

/// The number after this one in the noise.
pub fn next(state: u32) -> u32
    ensures { result ≡ after state }
{
    ((1664525 * u64::from(state) + 1013904223) % 4294967296) as u32
}

// The noise of 16 bits that a number gives.
fn noise(state: u32) -> i32
    ensures value { result ≡ noise_of state }
    ensures low { negsuc 32767 ≤ℤ result }
    ensures high { result ≤ℤ pos 32767 }
{
    i32::from((state / 65536) as u16) - 32768
}

// A power of two.
fn power(exponent: u32) -> u16
    requires low { 2 ≤ exponent }
    requires high { exponent ≤ 9 }
    ensures value { result ≡ 2 ^ exponent }
    ensures range { (4 ≤ result) × (result ≤ 512) }
{
    match exponent {
        2 => 4,
        3 => 8,
        4 => 16,
        5 => 32,
        6 => 64,
        7 => 128,
        8 => 256,
        _ => 512,
    }
}

// A part of the noise, rounded down.
fn part(noise: i32, divisor: u16) -> i32
    requires low { negsuc 32767 ≤ℤ noise }
    requires high { noise ≤ℤ pos 32767 }
    requires some { 2 ≤ divisor }
    ensures value { result ≡ floor_of noise divisor }
    ensures low { negsuc 32767 ≤ℤ result }
    ensures high { result ≤ℤ pos 32767 }
{
    noise.div_euclid(i32::from(divisor))
}

// Half of a value, rounded down.
fn half(value: i32) -> i32
    requires low { negsuc 65535 ≤ℤ value }
    requires high { value ≤ℤ pos 65535 }
    ensures value { result ≡ floor_of value 2 }
    ensures low { negsuc 65535 ≤ℤ result }
    ensures high { result ≤ℤ pos 65535 }
{
    value.div_euclid(2)
}

// The triangle wave of 100 samples.
fn triangle(at: u32) -> i32
    ensures value { result ≡ triangle_at at }
    ensures low { negsuc 9999 ≤ℤ result }
    ensures high { result ≤ℤ pos 10000 }
{
    let height = i32::from((400 * (at % 100)) as u16);
    if at % 100 < 50 {
        height - 10000
    } else {
        30000 - height
    }
}

// How far the noise has swelled, 0 to 7.
fn swell(at: u32) -> u32
    ensures value { result ≡ swell_at at }
    ensures limit { result < 8 }
{
    at / 4608 % 8
}

// The left sample, where the noise is this.
fn left(at: u32, noise: i32) -> i32
    requires low { negsuc 32767 ≤ℤ noise }
    requires high { noise ≤ℤ pos 32767 }
    ensures value { result ≡ left_by at noise }
    ensures low { negsuc 65535 ≤ℤ result }
    ensures high { result ≤ℤ pos 65535 }
{
    triangle(at) + part(noise, power(swell(at) + 2))
}

// The right sample beside a left one, where the noise is this.
fn right(at: u32, left: i32, noise: i32) -> i32
    requires left_low { negsuc 65535 ≤ℤ left }
    requires left_high { left ≤ℤ pos 65535 }
    requires low { negsuc 32767 ≤ℤ noise }
    requires high { noise ≤ℤ pos 32767 }
    ensures { result ≡ right_by at left noise }
{
    half(left) + part(noise, power(9 - swell(at)))
}

// The bytes of a sample of 16 bits.
fn bytes_of(sample: i32) -> [u8; 2]
    ensures { result ≡ sample_bytes sample }
{
    ((sample.cast_unsigned() % 65536) as u16).to_le_bytes()
}

fn joined(left: [u8; 2], right: [u8; 2]) -> [u8; 4]
    ensures { result ≡ left ++ right }
{
    [left[0], left[1], right[0], right[1]]
}

/// The bytes of the left and the right sample at a time, where the noise stands at this number.
pub fn block(state: u32, at: u32) -> [u8; 4]
    ensures { result ≡ block_after state at }
{
    let first = next(state);
    let left = left(at, noise(first));
    let right = right(at, left, noise(next(first)));
    joined(bytes_of(left), bytes_of(right))
}
