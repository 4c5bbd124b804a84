// Inverses modulo the prime 3457, by the power that Fermat's little theorem names.
ghost use Rattle.std.specs.Prelude.{◌≡◌, MatchOption};
ghost use Rattle.ring.specs.Residues.{reduced, residue_ring};
ghost use Rattle.ring.specs.Powers.{climb, exponent};

use crate::coefficient::Coefficient;
use crate::modular::Mod3457;

// 3455 in binary, the highest bit first: x^3455 is the inverse of x.
const EXPONENT: [bool; 12] = [
    true, true, false, true, false, true, true, true, true, true, true, true,
];

// x^3455 by squaring, and multiplying by x at each bit that is set.
fn power(x: Mod3457) -> Mod3457
    ensures { result.value ≡ climb x.value 1 exponent }
{
    let mut power = Mod3457::of(1);
    for set in EXPONENT {
        power = power.times(power);
        if set {
            power = power.times(x);
        }
    }
    power
}

// The residue whose product with x is 1; zero has none, and every other residue has one.
pub fn inverse(x: Mod3457) -> Option<Mod3457>
    ensures { MatchOption result (x ≡ (residue_ring 3456).zero) (λ y. (residue_ring 3456).mul x y ≡ (residue_ring 3456).one) }
{
    if x == Mod3457::of(0) {
        return None;
    }
    Some(power(x))
}
