// The inverse of a polynomial modulo 3457, by Euclid's algorithm.
ghost use Rattle.std.specs.Prelude.{◌≡◌, ◌+◌, ◌<◌, length, IfErr, Some, None, Err, MatchOption, MatchResult, OnErr, OnOk, ◌≢◌};
ghost use Rattle.ring.specs.Rows.{add_into, modulus_row, zeros};
ghost use Rattle.ring.specs.declared.refusal.Refusal.TheVariants.{NoInverse};
ghost use Rattle.inversion.specs.Places.{at};
ghost use Rattle.inversion.specs.Leading.{field, leading as leading_place};
ghost use Rattle.inversion.specs.Euclid.{last_of, reciprocal, remainders};
ghost use Rattle.inversion.specs.Inverse.{refused, Inverse, NoInverseOf, Only};

use crate::division::divide;
use crate::leading::leading;
use crate::working;
use ring::coefficient::Coefficient;
use ring::engine::MAX_DEGREE;
use ring::modular::Mod3457;
use ring::refusal::Refusal;
use ring::rows;

// The places of a working row: one more than a polynomial has. Arrays, since nothing here asks for memory.
const PLACES: usize = MAX_DEGREE + 1;

// Writes the inverse that the last remainder and its cofactor give, if that remainder is a constant.
fn finish(last: &[Mod3457], cofactor: &[Mod3457], u: &mut [Mod3457]) -> Result<(), Refusal>
    ensures found { MatchResult result (λ _. (leading_place last.now ≡ Some 0) × (u.new ≡ add_into field (zeros field (length u.old)) (reciprocal (at field last.now 0)) cofactor.now)) (λ _. leading_place last.now ≢ Some 0) }
    ensures refuses { IfErr result (λ e. (e ≡ NoInverse) × (u.new ≡ u.old)) }
{
    if leading(last) != Some(0) {
        return Err(Refusal::NoInverse);
    }
    let scale = working::inverse_at(last, 0).ok_or(Refusal::NoInverse)?;
    u.fill(Mod3457::zero());
    rows::add_multiple(u, scale, cofactor);
    Ok(())
}

// Runs Euclid's algorithm on x^n - x^(n/2) + 1 and f, with four rows of n + 1 places to work in.
fn solve(
    f: &[Mod3457],
    u: &mut [Mod3457],
    upper: &mut [Mod3457],
    upper_cofactor: &mut [Mod3457],
    lower: &mut [Mod3457],
    lower_cofactor: &mut [Mod3457],
) -> Result<(), Refusal>
    requires lengths { (0 < length f.now) × (length u.old ≡ length f.now) }
    requires rooms { (length upper.old ≡ length f.now + 1) × (length upper_cofactor.old ≡ length f.now + 1) × (length lower.old ≡ length f.now + 1) × (length lower_cofactor.old ≡ length f.now + 1) }
    ensures found { MatchResult result (λ _. Inverse f.now u.new) (λ _. NoInverseOf f.now) }
    ensures refuses { IfErr result (λ e. (e ≡ NoInverse) × (u.new ≡ u.old)) }
    ensures last { upper.new ≡ last_of (modulus_row field (length f.now)) (remainders (length f.now) f.now) }
{
    working::set_modulus(upper, f.len());
    upper_cofactor.fill(Mod3457::zero());
    working::set_padded(lower, f);
    working::set_one(lower_cofactor);
    while leading(lower).is_some() {
        divide(upper, upper_cofactor, lower, lower_cofactor);
        upper.swap_with_slice(lower);
        upper_cofactor.swap_with_slice(lower_cofactor);
    }
    finish(upper, upper_cofactor, u)
}

// Writes into u the one polynomial whose product with f is 1 modulo 3457, or refuses and leaves u as it was.
pub fn invert(f: &[Mod3457], u: &mut [Mod3457]) -> Result<(), Refusal>
    ensures refuses { MatchOption (refused (length f.now) (length u.old)) (IfErr result (λ e. e ≡ NoInverse)) (λ e. result ≡ Err e) }
    ensures found { OnOk result (Inverse f.now u.new × Only f.now u.new) }
    ensures none { (result ≡ Err NoInverse → NoInverseOf f.now) × (refused (length f.now) (length u.old) ≡ None → NoInverseOf f.now → result ≡ Err NoInverse) }
    ensures untouched { OnErr result (u.new ≡ u.old) }
{
    let n = f.len();
    if n == 0 || n > MAX_DEGREE {
        return Err(Refusal::Mismatch);
    }
    if u.len() != n {
        return Err(Refusal::Length);
    }
    let mut upper = [Mod3457::zero(); PLACES];
    let mut upper_cofactor = [Mod3457::zero(); PLACES];
    let mut lower = [Mod3457::zero(); PLACES];
    let mut lower_cofactor = [Mod3457::zero(); PLACES];
    solve(
        f,
        u,
        &mut upper[..n + 1],
        &mut upper_cofactor[..n + 1],
        &mut lower[..n + 1],
        &mut lower_cofactor[..n + 1],
    )
}
