ghost use Rattle.std.specs.Prelude.{ℕ, All, unsigned_abs, slice_index, slice_index_or, ◌≡◌, ◌<◌, ◌≤◌, ◌^◌, min, ◌≤ℤ◌, pos, negsuc};
ghost use Rattle.l3_base.specs.Spectrum.{IsLine};
ghost use Rattle.l3_quant.specs.Quantiser.{scaled, steps_of};

use l3_base::quarter;

// Where scaled lines are cut: 8192 is reached long before.
const CUT: u64 = 1 << 30;

// The quarter steps from a gain up to 258.
#[inline(always)]
pub(crate) fn steps(gain: i16) -> u32
    requires low { negsuc 63 ≤ℤ gain }
    requires high { gain ≤ℤ pos 255 }
    ensures value { result ≡ steps_of gain }
    ensures bound { result ≤ 322 }
{
    (258 - i32::from(gain)).unsigned_abs()
}

// The scaled line, cut at 2^30.
#[inline(always)]
pub(crate) fn scaled_line(x: u32, h: u32) -> u32
    requires line { x < 2 ^ 29 }
    requires steps { h ≤ 322 }
    ensures { result ≡ min (scaled x h) (2 ^ 30) }
{
    let product = u64::from(x) * quarter((h % 4) as usize).unsigned_abs();
    if h / 4 <= 54 {
        (product >> (54 - h / 4)).min(CUT) as u32
    } else {
        (product.min(CUT) << (h / 4 - 54)).min(CUT) as u32
    }
}

// All lines scaled: a loop with no branch in its body.
pub(crate) fn scale_lines(lines: &[i32; 576], h: u32, out: &mut [u32; 576])
    requires lines { All IsLine lines.now }
    requires steps { h ≤ 322 }
    ensures { (k : ℕ) → k < 576 → slice_index out.new k ≡ min (scaled (unsigned_abs (slice_index_or lines.now k (pos 0))) h) (2 ^ 30) }
{
    for i in 0..576 {
        out[i] = scaled_line(lines[i].unsigned_abs(), h);
    }
}
