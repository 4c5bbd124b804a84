// The one product of custody: the first places of two arrays, asked of an engine.
ghost use Rattle.std.specs.Prelude.{◌≡◌, ◌≤◌, true, take, drop};
ghost use Rattle.ring.specs.Engines.{all_below, product_mod};
ghost use Rattle.products.specs.Asking.{Same};

use ring::engine::RingEngine;

// The product of the first n coefficients of two rows.
pub fn multiply<E: RingEngine>(
    engine: &mut E,
    n: usize,
    a: &[u16; 1024],
    b: &[u16; 1024],
    out: &mut [u16; 1024],
)
    requires engine { (E.degree engine.old ≡ n) × (n ≤ 1024) }
    requires residues { (all_below (E.modulus engine.old) (take n a.now) ≡ true) × (all_below (E.modulus engine.old) (take n b.now) ≡ true) }
    ensures same { Same E.RingEngine engine.old engine.new }
    ensures product { take n out.new ≡ product_mod (E.modulus engine.old) n (take n a.now) (take n b.now) }
    ensures rest { drop n out.new ≡ drop n out.old }
{
    engine.multiply(&a[0..n], &b[0..n], &mut out[0..n]).unwrap();
}
