// The parts of a draft: its engines to be looked at, and all of it where the draft is given up.
ghost use Rattle.std.specs.Prelude.{◌≡◌};

use crate::draft::Draft;
use crate::engines::Engines;
use crate::key::Key;

impl<P, Q> Draft<P, Q> {
    // The engines, to be looked at.
    pub fn engines(&self) -> &Engines<P, Q>
        ensures { result.now ≡ self.now.engines }
    {
        &self.engines
    }

    // The engine modulo 3457.
    pub fn field(&self) -> &P
        ensures { result.now ≡ self.now.engines.field }
    {
        &self.engines.field
    }

    // The engine modulo 2048.
    pub fn binary(&self) -> &Q
        ensures { result.now ≡ self.now.engines.binary }
    {
        &self.engines.binary
    }

    // Gives up the draft for its key and its engines.
    pub fn into_parts(self) -> (Key, Engines<P, Q>)
        ensures { result ≡ (self.key, self.engines) }
    {
        let Draft { key, engines } = self;
        (key, engines)
    }
}
