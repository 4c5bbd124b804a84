// The rows that Euclid's algorithm works in: how they are filled and read. Over residues alone, since std's `fill` has to know
// that a clone of a coefficient is that coefficient.
ghost use Rattle.std.specs.Prelude.{◌≡◌, ◌+◌, ◌<◌, ◌++◌, length, MatchOption};
ghost use Rattle.ring.specs.Rows.{modulus_row, unit, zeros};
ghost use Rattle.inversion.specs.Places.{at};
ghost use Rattle.inversion.specs.Leading.{field};

use ring::coefficient::Coefficient;
use ring::inverse::inverse;
use ring::modular::Mod3457;

// Makes a row 1.
pub(crate) fn set_one(row: &mut [Mod3457])
    requires { 0 < length row.old }
    ensures { row.new ≡ unit field (length row.old) }
{
    row.fill(Mod3457::zero());
    row[0] = Mod3457::one();
}

// Makes a row x^n - x^(n/2) + 1, which has n + 1 places.
pub(crate) fn set_modulus(row: &mut [Mod3457], n: usize)
    requires { (0 < n) × (length row.old ≡ n + 1) }
    ensures { row.new ≡ modulus_row field n }
{
    set_one(row);
    let half = n / 2;
    row[half] = row[half].plus(Mod3457::one().minus());
    row[n] = Mod3457::one();
}

// Makes a row f with one zero after it.
pub(crate) fn set_padded(row: &mut [Mod3457], f: &[Mod3457])
    requires { length row.old ≡ length f.now + 1 }
    ensures { row.new ≡ f.now ++ zeros field 1 }
{
    let n = f.len();
    row[..n].copy_from_slice(f);
    row[n] = Mod3457::zero();
}

// The inverse of the coefficient at a place, or none where that is zero.
pub(crate) fn inverse_at(row: &[Mod3457], place: usize) -> Option<Mod3457>
    requires { place < length row.now }
    ensures { MatchOption result (at field row.now place ≡ field.zero) (λ y. field.mul (at field row.now place) y ≡ field.one) }
{
    inverse(row[place])
}
