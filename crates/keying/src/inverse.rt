// The inverse of f = 2 f' + 1 modulo 3457, as numbers.
ghost use Rattle.std.specs.Prelude.{◌≡◌, ◌<◌, ◌≤◌, length, take, MatchResult};
ghost use Rattle.ring.specs.declared.refusal.Refusal.TheVariants.{NoInverse};
ghost use Rattle.keying.specs.Keying.{Inverts, Uninvertible};

use inversion::euclid::invert;
use ring::modular::Mod3457;
use ring::numbers::{load, store};
use ring::refusal::Refusal;
use wrapping::secret::reduce_secret;

// Writes the inverse, with two rows to work in, or refuses.
fn solve(
    f: &[i16],
    u: &mut [u16],
    secret: &mut [Mod3457],
    inverse: &mut [Mod3457],
) -> Result<(), Refusal>
    requires degree { (0 < length f.now) × (length f.now ≤ 1024) × (length u.old ≡ length f.now) }
    requires rooms { (length secret.old ≡ length f.now) × (length inverse.old ≡ length f.now) }
    ensures { MatchResult result (λ _. Inverts (length f.now) f.now u.new) (λ e. (e ≡ NoInverse) × Uninvertible (length f.now) f.now) }
{
    reduce_secret::<3456>(f, u);
    load(u, secret);
    invert(secret, inverse)?;
    store(inverse, u);
    Ok(())
}

// Writes the one row whose product with f is 1 into the first places, or refuses where there is none.
pub(crate) fn inverse_of(f: &[i16], u: &mut [u16; 1024]) -> Result<(), Refusal>
    requires { (0 < length f.now) × (length f.now ≤ 1024) }
    ensures { MatchResult result (λ _. Inverts (length f.now) f.now (take (length f.now) u.new)) (λ e. (e ≡ NoInverse) × Uninvertible (length f.now) f.now) }
{
    let n = f.len();
    let mut secret = [Mod3457::of(0); 1024];
    let mut inverse = [Mod3457::of(0); 1024];
    solve(f, &mut u[0..n], &mut secret[0..n], &mut inverse[0..n])
}
