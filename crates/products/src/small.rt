// The product that keys and wrappings are made of: a row times a small polynomial, modulo 3457.
ghost use Rattle.std.specs.Prelude.{◌≡◌, ◌-◌, true, length, take, drop, replicate};
ghost use Rattle.ring.specs.Engines.{all_below, product_mod};
ghost use Rattle.wrapping.specs.Secrets.{reduced_row};
ghost use Rattle.products.specs.Asking.{Fits, Same};

use crate::multiply::multiply;
use ring::engine::RingEngine;
use wrapping::secret::reduce;

// A row times a small polynomial, modulo 3457, with zeros past its end.
pub fn times<P: RingEngine>(
    engine: &mut P,
    n: usize,
    row: &[u16; 1024],
    small: &[i16],
) -> [u16; 1024]
    requires engine { Fits P.RingEngine engine.old n 3457 }
    requires rows { (all_below 3457 (take n row.now) ≡ true) × (length small.now ≡ n) }
    ensures same { Same P.RingEngine engine.old engine.new }
    ensures value { take n result ≡ product_mod 3457 n (take n row.now) (reduced_row 3457 small.now) }
    ensures rest { drop n result ≡ replicate (1024 - n) 0 }
{
    let mut residues = [0u16; 1024];
    reduce::<3456>(small, &mut residues);
    let mut out = [0u16; 1024];
    multiply(engine, n, row, &residues, &mut out);
    out
}
