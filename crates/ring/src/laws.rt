// The laws of the ring product, for every kind of coefficient and every n, as contracts.
ghost use Rattle.ring.specs.Integers.{integers};
ghost use Rattle.ring.specs.Laws.{Carries, Laws};
ghost use Rattle.ring.specs.Wholes.{Wholes};

use crate::coefficient::Coefficient;

// The product of rows keeps the laws of the ring, and is the only one that does.
pub fn laws_stand<C: Coefficient>()
    ensures { Laws C.ring }
{}

// The same over the whole numbers, which no type of the code holds.
pub fn laws_stand_whole()
    ensures { Laws integers }
{}

// Ring maps between two kinds of coefficient carry products to products.
pub fn maps_carry<C: Coefficient, D: Coefficient>()
    ensures { Carries C.Coefficient.ring D.Coefficient.ring }
{}

// What an engine multiplies is what the whole numbers multiply, reduced by its modulus.
pub fn engines_reduce()
    ensures { Wholes }
{}
