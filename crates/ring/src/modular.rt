// Residues as coefficients: one implementation for every modulus up to 65536.
ghost use Rattle.std.specs.Prelude.{◌≡◌};
ghost use Rattle.ring.specs.Residues.{reduced, residue_ring};

use crate::coefficient::Coefficient;
use crate::residue::Residue;

// Residues modulo the prime 3457, in which keys are made.
pub type Mod3457 = Residue<3456>;

// Residues modulo 2^11, in which wrapped messages are opened.
pub type Mod2048 = Residue<2047>;

impl<const LAST: u16> Residue<LAST> {
    // n modulo LAST + 1.
    pub fn of(n: u32) -> Residue<LAST>
        ensures { result ≡ reduced LAST n }
    {
        Residue {
            value: (n % (LAST as u32 + 1)) as u16,
        }
    }
}

impl<const LAST: u16> Coefficient for Residue<LAST> {
    ghost ring = { residue_ring LAST };

    fn zero() -> Residue<LAST> {
        Residue::of(0)
    }

    fn one() -> Residue<LAST> {
        Residue::of(1)
    }

    fn plus(self, other: Residue<LAST>) -> Residue<LAST> {
        Residue::of(self.value as u32 + other.value as u32)
    }

    fn minus(self) -> Residue<LAST> {
        Residue::of(LAST as u32 + 1 - self.value as u32)
    }

    fn times(self, other: Residue<LAST>) -> Residue<LAST> {
        Residue::of(self.value as u32 * other.value as u32)
    }
}
