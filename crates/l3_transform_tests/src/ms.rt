//! Lines of middle and side, and their demands beside those of left and right.

ghost use Rattle.std.specs.Prelude.{◌^◌, All};
ghost use Rattle.l3_base.specs.Sums.{IsWithin};

use l3_base::Spectrum;
use l3_transform::{prefer, turn};

// A spectrum that is 0 but for line 0.
fn one_line(x: i32) -> Spectrum
    requires { IsWithin (2 ^ 28) x }
    ensures { All (IsWithin (2 ^ 28)) result }
{
    let mut spec = Spectrum::zero();
    spec.set(0, x);
    spec
}

// Lines 0 and 575 of middle and side where line 0 of left and right is this and all others are 0.
fn turned(left: i32, right: i32) -> [(i32, i32); 2]
    requires left { IsWithin (2 ^ 28) left }
    requires right { IsWithin (2 ^ 28) right }
{
    let left = one_line(left);
    let right = one_line(right);
    let mut middle = one_line(5);
    let mut side = one_line(5);
    turn(&left, &right, &mut middle, &mut side);
    let middle = middle.lines();
    let side = side.lines();
    [(middle[0], side[0]), (middle[575], side[575])]
}

#[test]
fn middle_and_side_lines(rt: HostRuntime) {
    let cases = [
        (1000, 1000, (1414, 0)),
        (1, -1, (0, 1)),
        (65536, 65536, (92680, 0)),
        (-268435456, -268435456, (-379617280, 0)),
    ];
    for (left, right, line) in cases {
        assert!(rt; turned(left, right) == [line, (0, 0)], "of {left}, {right}");
    }
}

#[test]
fn joint_demands(rt: HostRuntime) {
    assert!(rt; prefer(7, 7, 7, 0) && !prefer(7, 7, 7, 7) && !prefer(0, 0, 0, 0));
}
