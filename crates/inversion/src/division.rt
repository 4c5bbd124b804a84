// One division of Euclid's algorithm, with the cofactors of the two rows.
ghost use Rattle.std.specs.Prelude.{◌≡◌, suc, ◌-◌, ◌<◌, length};
ghost use Rattle.inversion.specs.Division.{add_shifted, along, divided};
ghost use Rattle.inversion.specs.Euclid.{cofactor, remainder};

use crate::leading::leading;
use crate::working;
use ring::coefficient::Coefficient;
use ring::modular::Mod3457;
use ring::rows;

// Adds k·x^shift times a row to another, at the places that the other has.
fn add_shifted<C: Coefficient>(target: &mut [C], k: C, shift: usize, row: &[C])
    ensures { target.new ≡ add_shifted C.ring target.old k shift row.now }
{
    if shift < target.len() {
        rows::add_multiple(&mut target[shift..], k, row);
    }
}

// Rows and cofactors apart, here and below: a struct that held both to be written would ask its callers for the lower row
// to be written too, which is only read.

// Clears the places of the upper row from its leading place `top` down to the leading place of the lower row,
// where `scale` is the inverse of the lower row's leading coefficient.
fn reduce<C: Coefficient>(
    upper: &mut [C],
    upper_cofactor: &mut [C],
    lower: &[C],
    lower_cofactor: &[C],
    top: usize,
    place: usize,
    scale: C,
)
    requires { top < length upper.old }
    ensures row { upper.new ≡ divided C.ring upper.old lower.now scale place (suc top - place) }
    ensures beside { upper_cofactor.new ≡ along C.ring upper.old upper_cofactor.old lower.now lower_cofactor.now scale place (suc top - place) }
{
    for i in (place..=top).rev() {
        let k = upper[i].times(scale).minus();
        add_shifted(upper, k, i - place, lower);
        add_shifted(upper_cofactor, k, i - place, lower_cofactor);
    }
}

// Leaves the remainder of the upper row by the lower one in the upper row, and its cofactor beside it.
pub fn divide(
    upper: &mut [Mod3457],
    upper_cofactor: &mut [Mod3457],
    lower: &[Mod3457],
    lower_cofactor: &[Mod3457],
)
    ensures row { upper.new ≡ remainder upper.old lower.now }
    ensures beside { upper_cofactor.new ≡ cofactor upper.old upper_cofactor.old lower.now lower_cofactor.now }
{
    let Some(top) = leading(upper) else {
        return;
    };
    let Some(place) = leading(lower) else {
        return;
    };
    if let Some(scale) = working::inverse_at(lower, place) {
        reduce(
            upper,
            upper_cofactor,
            lower,
            lower_cofactor,
            top,
            place,
            scale,
        );
    }
}
