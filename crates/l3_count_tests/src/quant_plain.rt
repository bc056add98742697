//! Quantised values as they are defined, by halving among all values: no table of thresholds, and
//! one line after the other.
//! It is far slower than `all` and `all_amp`, and tests compare both.

ghost use Rattle.std.specs.Prelude.{◌≤◌, IfSome};

use l3_base::quarter;

// The greatest absolute value of a quantised line; the limit is this project's own.
const GREATEST: u16 = 8191;

// The line times 2^((210 - gain) / 4), in units of 2^-12 below the line's own, cut at 2^30.
fn scaled(x: u32, gain: i16) -> u128 {
    let steps = (258 - i32::from(gain)).unsigned_abs();
    let factor = quarter((steps % 4) as usize).unsigned_abs();
    let product = u128::from(x).saturating_mul(u128::from(factor));
    ((product << 26) >> 80u32.saturating_sub(steps / 4)).min(1 << 30)
}

// Whether n - 13 / 32 is at most the three-quarter power of y / 2^12, by y^3: both to the power 4.
fn is_reached(n: u16, cube: u128) -> bool {
    let base = (32 * u128::from(n)).saturating_sub(13);
    let square = base.saturating_mul(base);
    square.saturating_mul(square).saturating_mul(65536) <= cube
}

// The greatest value below 16384 that is reached, by halving.
fn halved(y: u128) -> u16 {
    let cube = y.saturating_mul(y).saturating_mul(y);
    let mut low = 0u16;
    for half in [
        8192u16, 4096, 2048, 1024, 512, 256, 128, 64, 32, 16, 8, 4, 2, 1,
    ] {
        let middle = low.saturating_add(half);
        if is_reached(middle, cube) {
            low = middle;
        }
    }
    low
}

/// The absolute value of the quantised value of a line, or `None` above 8191.
pub fn plain_line(x: i32, gain: i16) -> Option<u16>
    ensures { IfSome result (λ n. n ≤ 8191) }
{
    let n = halved(scaled(x.unsigned_abs(), gain));
    if n <= GREATEST { Some(n) } else { None }
}

/// The quantised values of lines, each at its gain, or `None` where one is above 8191.
pub fn plain_values(lines: &[i32; 576], gains: &[i16; 576]) -> Option<[i16; 576]> {
    let mut values = [0i16; 576];
    for i in 0..576 {
        match plain_line(lines[i], gains[i]) {
            None => return None,
            Some(n) => values[i] = with_sign_of(lines[i], n as i16),
        }
    }
    Some(values)
}

// A value with the sign of a line.
fn with_sign_of(x: i32, n: i16) -> i16 {
    if x < 0 { 0i16.saturating_sub(n) } else { n }
}
