// The fold of a number at a width.
ghost use Rattle.std.specs.Prelude.{◌≡◌, ◌≤◌, unsigned_abs};
ghost use Rattle.code.specs.Widths.{radius};
ghost use Rattle.code.specs.Folds.{fold as fold_of};

use crate::width::Width;

// The number from -R to R - 1 that differs from x by a multiple of 2 R, where R is the radius.
pub fn fold(x: i32, width: Width) -> i32
    ensures value { result ≡ fold_of (radius width.bits) x }
    ensures small { unsigned_abs result ≤ radius width.bits }
{
    let r = width.radius() as i32;
    let rest = x.rem_euclid(2 * r);
    if rest < r { rest } else { rest - 2 * r }
}
