// Keying: a draft takes f' and g, and h is made so that h·f = g.
ghost use Rattle.std.specs.Prelude.{◌≡◌, ◌-◌, ◌<◌, true, length, take};
ghost use Rattle.ring.specs.Engines.{all_below, product_mod};
ghost use Rattle.wrapping.specs.Secrets.{all_small, reduced_row, secret};
ghost use Rattle.keying.specs.KeyLaw.{Cut, KeyDegree};
ghost use Rattle.keying.specs.Keying.{keying_check, Keying, Unkeyed};
ghost use Rattle.keying.specs.Keys.{f_of, g_of};
ghost use Rattle.keying.specs.Drafts.{told_by};

use crate::draft::Draft;
use crate::engines::Engines;
use crate::inverse::inverse_of;
use crate::key::Key;
use products::padding::padded;
use products::small;
use ring::engine::{MAX_DEGREE, RingEngine};
use ring::refusal::Refusal;
use wrapping::secret::is_small;

impl<P, Q> Draft<P, Q> {
    // A draft that is not keyed yet, whatever its engines tell.
    pub fn new(field: P, binary: Q) -> Draft<P, Q>
        ensures key { Unkeyed result.key }
        ensures field { result.engines.field ≡ field }
        ensures binary { result.engines.binary ≡ binary }
    {
        Draft {
            key: Key::unkeyed(),
            engines: Engines { field, binary },
        }
    }
}

impl<P: RingEngine, Q: RingEngine> Draft<P, Q> {
    // Keys the draft, or refuses and leaves its key as it was: 1, 2, 3, 4.
    pub fn key(&mut self, f: &[i16], g: &[i16]) -> Result<(), Refusal>
        ensures told { told_by P.RingEngine Q.RingEngine self.new ≡ told_by P.RingEngine Q.RingEngine self.old }
        ensures keyed { Keying (told_by P.RingEngine Q.RingEngine self.old) f.now g.now self.old.key self.new.key result }
    {
        self.check(f, g)?;
        let mut u = [0; 1024];
        inverse_of(f, &mut u)?;
        let h = small::times(&mut self.engines.field, f.len(), &u, g);
        self.key = Key::made(f, g, h);
        Ok(())
    }

    // What comes before an inverse is looked for: 1, 2, 3.
    fn check(&self, f: &[i16], g: &[i16]) -> Result<(), Refusal>
        ensures { result ≡ keying_check (told_by P.RingEngine Q.RingEngine self.now) f.now g.now }
    {
        let n = self.engines.field.degree();
        if n > MAX_DEGREE || !self.engines.fit(n) {
            return Err(Refusal::Mismatch);
        }
        if f.len() != n || g.len() != n {
            return Err(Refusal::Length);
        }
        if !is_small(f) || !is_small(g) {
            return Err(Refusal::Noise);
        }
        Ok(())
    }
}

impl Key {
    // The key of a draft that was not keyed yet.
    pub fn unkeyed() -> Key
        ensures { Unkeyed result }
    {
        Key {
            degree: 0,
            f: [0; 1024],
            g: [0; 1024],
            h: [0; 1024],
        }
    }

    // The key of f' and g with a row h that times f is g.
    fn made(f: &[i16], g: &[i16], h: [u16; 1024]) -> Key
        requires degree { KeyDegree (length f.now) × (length g.now ≡ length f.now) }
        requires small { (all_small f.now ≡ true) × (all_small g.now ≡ true) }
        requires row { Cut 0 (length f.now) h × (all_below 3457 h ≡ true) }
        requires tied { product_mod 3457 (length f.now) (take (length f.now) h) (reduced_row 3457 (secret f.now)) ≡ reduced_row 3457 g.now }
        ensures degree { result.degree ≡ length f.now }
        ensures f_kept { f_of result ≡ f.now }
        ensures g_kept { g_of result ≡ g.now }
        ensures h_kept { result.h ≡ h }
    {
        Key {
            degree: f.len(),
            f: padded(f),
            g: padded(g),
            h,
        }
    }
}
