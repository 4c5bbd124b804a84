// The search for the leading coefficient of a polynomial.
ghost use Rattle.std.specs.Prelude.{◌≡◌};
ghost use Rattle.inversion.specs.Leading.{leading as leading_place, Highest};

use ring::modular::Mod3457;

// The highest place that is not zero, or none where all are zero.
pub fn leading(row: &[Mod3457]) -> Option<usize>
    ensures is { result ≡ leading_place row.now }
    ensures means { Highest row.now result }
{
    row.iter().rposition(|x| x.value != 0)
}
