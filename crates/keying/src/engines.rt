// The two engines that a draft and a station ask: one modulo 3457, and one modulo 2048.
ghost use Rattle.std.specs.Prelude.{◌≡◌};
ghost use Rattle.keying.specs.Told.{fit, telling};

use ring::engine::RingEngine;

#[derive(Drop)]
pub struct Engines<P, Q> {
    pub field: P,
    pub binary: Q,
}

impl<P: RingEngine, Q: RingEngine> Engines<P, Q> {
    // Whether both have degree n, and each its modulus.
    pub fn fit(&self, n: usize) -> bool
        ensures { result ≡ fit n (telling P.RingEngine Q.RingEngine self.now.field self.now.binary) }
    {
        self.field.degree() == n
            && self.binary.degree() == n
            && self.field.modulus() == 3457
            && self.binary.modulus() == 2048
    }
}
