ghost use Rattle.std.specs.Prelude.{◌≡◌, ◌^◌, All};
ghost use Rattle.l3_base.specs.Spectrum.{IsSpectrum};
ghost use Rattle.l3_base.specs.Sums.{IsWithin};
ghost use Rattle.l3_transform.specs.Joint.{over_root_two, middle_line, side_line, middle_of, side_of};

use l3_base::Spectrum;

// 2^15 over the square root of 2, to the nearest.
const OVER_ROOT_TWO: i64 = 23170;

// A number over the square root of 2, to the nearest.
#[inline(always)]
#[tactic(auto, unfolding(crate::specs::Joint::over_root_two))]
fn scaled(x: i32) -> i32
    requires { IsWithin (2 ^ 29) x }
    ensures value { result ≡ over_root_two x }
    ensures bound { IsWithin 379617280 result }
{
    ((i64::from(x) * OVER_ROOT_TWO + (1 << 14)) >> 15) as i32
}

// The middle of a line of left and right.
#[inline(always)]
fn middle_of_line(left: i32, right: i32) -> i32
    requires left { IsWithin (2 ^ 28) left }
    requires right { IsWithin (2 ^ 28) right }
    ensures value { result ≡ middle_line left right }
    ensures bound { IsWithin 379617280 result }
{
    scaled(left + right)
}

// The side of a line of left and right.
#[inline(always)]
fn side_of_line(left: i32, right: i32) -> i32
    requires left { IsWithin (2 ^ 28) left }
    requires right { IsWithin (2 ^ 28) right }
    ensures value { result ≡ side_line left right }
    ensures bound { IsWithin 379617280 result }
{
    scaled(left - right)
}

/// The spectra of middle and side out of those of left and right, line by line.
///
/// Units: 2^-24 of full scale. Range: left and right are at most 2^28 either way, as `l3_transform`
/// gives them; middle and side are at most 379617280.
pub fn turn(left: &Spectrum, right: &Spectrum, middle: &mut Spectrum, side: &mut Spectrum)
    requires left { All (IsWithin (2 ^ 28)) left.now }
    requires right { All (IsWithin (2 ^ 28)) right.now }
    ensures middle { middle.new ≡ middle_of left.now right.now }
    ensures side { side.new ≡ side_of left.now right.now }
    ensures middle_bound { All (IsWithin 379617280) middle.new }
    ensures side_bound { All (IsWithin 379617280) side.new }
    ensures spectra { IsSpectrum middle.new × IsSpectrum side.new }
{
    // For the proof: a spectrum has 576 lines.
    let _middle = middle.lines();
    let _side = side.lines();
    let left = left.lines();
    let right = right.lines();
    for k in 0..576 {
        middle.set(k, middle_of_line(left[k], right[k]));
        side.set(k, side_of_line(left[k], right[k]));
    }
}
