// Small polynomials with signs, and their residues as the engines take them.
ghost use Rattle.std.specs.Prelude.{◌≡◌, ◌+◌, nat_le, unsigned_abs};
ghost use Rattle.ring.specs.Wholes.{residue as residue_of};
ghost use Rattle.wrapping.specs.Secrets.{all_small, reduced_row, secret as secret_of, secret_at};
ghost use Rattle.wrapping.specs.Buffers.{over};

// The largest size of a coefficient of f', g or r.
const LIMIT: u16 = 6;

// Whether a coefficient is from -6 to 6.
fn small(x: i16) -> bool
    ensures { result ≡ nat_le (unsigned_abs x) 6 }
{
    x.unsigned_abs() <= LIMIT
}

// Whether each coefficient is from -6 to 6.
pub fn is_small(row: &[i16]) -> bool
    ensures { result ≡ all_small row.now }
{
    // `position` of the first coefficient that is not, since std's `all` takes six times as long here.
    row.iter().position(|x| !small(*x)).is_none()
}

// The residue of a number with sign modulo LAST + 1.
fn residue<const LAST: u16>(x: i32) -> u16
    ensures { result ≡ residue_of (LAST + 1) x }
{
    x.rem_euclid(LAST as i32 + 1) as u16
}

// Writes the residues of a row modulo LAST + 1, at the places that both rows have. Four such loops in this crate and no function that
// takes the step: its contract would have to say of the step what each loop says of itself.
pub fn reduce<const LAST: u16>(row: &[i16], out: &mut [u16])
    ensures { out.new ≡ over (reduced_row (LAST + 1) row.now) out.old }
{
    // A proof learns nothing of what a `zip` over `iter_mut` writes, so each place is written by its index, here and below.
    for (i, &x) in row.iter().enumerate().take(out.len()) {
        out[i] = residue::<LAST>(x as i32);
    }
}

// Coefficient i of f = 2 f' + 1.
fn coefficient(i: usize, x: i16) -> i32
    ensures { result ≡ secret_at i x }
{
    let doubled = 2 * x as i32;
    if i == 0 { doubled + 1 } else { doubled }
}

// Writes the residues of f = 2 f' + 1 modulo LAST + 1, at the places that both rows have.
pub fn reduce_secret<const LAST: u16>(f: &[i16], out: &mut [u16])
    ensures { out.new ≡ over (reduced_row (LAST + 1) (secret_of f.now)) out.old }
{
    for (i, &x) in f.iter().enumerate().take(out.len()) {
        out[i] = residue::<LAST>(coefficient(i, x));
    }
}
