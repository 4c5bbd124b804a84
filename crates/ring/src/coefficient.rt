// What a kind of coefficient has to offer: the operations of a commutative ring, with its laws.
ghost use Rattle.std.specs.Prelude.{◌≡◌};
ghost use Rattle.ring.specs.Ring.{CommRing};

pub trait Coefficient: Copy {
    ghost ring: { CommRing Self };

    fn zero() -> Self
        ensures { result ≡ ring.zero };

    fn one() -> Self
        ensures { result ≡ ring.one };

    fn plus(self, other: Self) -> Self
        ensures { result ≡ ring.add self other };

    fn minus(self) -> Self
        ensures { result ≡ ring.neg self };

    fn times(self, other: Self) -> Self
        ensures { result ≡ ring.mul self other };
}
