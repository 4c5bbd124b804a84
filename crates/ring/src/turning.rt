// The bench's own engine: it multiplies by turns and by adding multiples of a row.
ghost use Rattle.std.specs.Prelude.{◌≡◌, ◌<◌, ◌≤◌, true, length, is_some, IfSome};
ghost use Rattle.ring.specs.Engines.{known, lawful, product_to, Degree};
ghost use Rattle.ring.specs.Rows.{product};

use crate::coefficient::Coefficient;
use crate::engine::{MAX_DEGREE, RingEngine};
use crate::numbers::{load, store};
use crate::refusal::Refusal;
use crate::residue::Residue;
use crate::{engine, rows};

// An engine of a lawful degree, for either modulus: a number and no enum, since the laws, the definitions and a script speak of the number.
#[derive(Drop)]
pub struct Turning {
    degree: usize,
    modulus: u16,
    ghost ok: { Degree degree × (known modulus ≡ true) },
}

impl Turning {
    // An engine of this degree and modulus, or none where no engine may have them.
    pub fn new(degree: usize, modulus: u16) -> Option<Turning>
        ensures made { is_some result ≡ lawful degree modulus }
        ensures told { IfSome result (λ e. (e.degree ≡ degree) × (e.modulus ≡ modulus)) }
    {
        if degree % 16 != 0 || !(16..=4096).contains(&degree) {
            return None;
        }
        if modulus != 3457 && modulus != 2048 {
            return None;
        }
        Some(Turning { degree, modulus })
    }
}

// The product of two rows by Horner's rule, from the top coefficient of a down.
fn horner<C: Coefficient>(a: &[C], b: &[C], out: &mut [C])
    requires { (length a.now ≡ length out.old) × (length b.now ≡ length out.old) × (0 < length out.old) }
    ensures { out.new ≡ product C.ring (length out.old) a.now b.now }
{
    // A loop, since std's `fill` would have to know that a clone of a coefficient is that coefficient.
    for place in out.iter_mut() {
        *place = C::zero();
    }
    for k in a.iter().rev() {
        rows::turn(out);
        rows::add_multiple(out, *k, b);
    }
}

// The product modulo LAST + 1, worked out in rows of its own.
fn product_into<const LAST: u16>(a: &[u16], b: &[u16], out: &mut [u16])
    requires { (length a.now ≡ length out.old) × (length b.now ≡ length out.old) × (0 < length out.old) × (length out.old ≤ 1024) }
    ensures { out.new ≡ product_to LAST (length out.old) a.now b.now }
{
    let n = out.len();
    // Arrays of the largest degree, since an engine asks for no memory.
    let mut left = [Residue::<LAST>::zero(); MAX_DEGREE];
    let mut right = [Residue::<LAST>::zero(); MAX_DEGREE];
    let mut result = [Residue::<LAST>::zero(); MAX_DEGREE];
    load(a, &mut left[..n]);
    load(b, &mut right[..n]);
    horner(&left[..n], &right[..n], &mut result[..n]);
    store(&result[..n], out);
}

impl RingEngine for Turning {
    ghost degree = { λ e. e.degree };

    ghost modulus = { λ e. e.modulus };

    ghost sizes = { λ e. e.ok.0 };

    ghost moduli = { λ e. e.ok.1 };

    fn degree(&self) -> usize {
        self.degree
    }

    fn modulus(&self) -> u16 {
        self.modulus
    }

    fn multiply(&mut self, a: &[u16], b: &[u16], out: &mut [u16]) -> Result<(), Refusal> {
        engine::check(self.degree, self.modulus, a, b, out.len())?;
        if self.modulus == 3457 {
            product_into::<3456>(a, b, out);
        } else {
            product_into::<2047>(a, b, out);
        }
        Ok(())
    }
}
