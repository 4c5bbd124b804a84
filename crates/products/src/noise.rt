// The row that a wrapping is made of: a published row times noise, modulo 3457.
ghost use Rattle.std.specs.Prelude.{◌≡◌, true, length, take};
ghost use Rattle.ring.specs.Engines.{all_below};
ghost use Rattle.wrapping.specs.Wraps.{sigma as sigma_of};
ghost use Rattle.products.specs.Asking.{Fits, Same};

use crate::small;
use ring::engine::RingEngine;

// h times the noise, modulo 3457.
pub fn sigma<P: RingEngine>(engine: &mut P, n: usize, h: &[u16; 1024], noise: &[i16]) -> [u16; 1024]
    requires engine { Fits P.RingEngine engine.old n 3457 }
    requires rows { (all_below 3457 (take n h.now) ≡ true) × (length noise.now ≡ n) }
    ensures same { Same P.RingEngine engine.old engine.new }
    ensures value { take n result ≡ sigma_of n (take n h.now) noise.now }
{
    small::times(engine, n, h, noise)
}
