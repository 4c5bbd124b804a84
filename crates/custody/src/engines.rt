// The engines of a station, lent to be looked at.
ghost use Rattle.std.specs.Prelude.{◌≡◌};

use crate::station::Station;
use keying::engines::Engines;

impl<P, Q> Station<P, Q> {
    // The engines, to be looked at.
    pub fn engines(&self) -> &Engines<P, Q>
        ensures { result.now ≡ self.now.engines }
    {
        &self.engines
    }

    // The engine modulo 3457.
    pub fn field(&self) -> &P
        ensures { result.now ≡ self.now.engines.field }
    {
        &self.engines.field
    }

    // The engine modulo 2048.
    pub fn binary(&self) -> &Q
        ensures { result.now ≡ self.now.engines.binary }
    {
        &self.engines.binary
    }
}
