// An engine that asks an engine below and counts the products that it obeyed.
ghost use Rattle.std.specs.Prelude.{◌≡◌, ◌+◌, ◌%◌, ◌^◌, length, MatchResult};
ghost use Rattle.ring.specs.Engines.{engine_answer, engine_buffer};

use crate::engine::RingEngine;
use crate::refusal::Refusal;

#[derive(Drop)]
pub struct Counting<E> {
    below: E,
    obeyed: u64,
}

impl<E> Counting<E> {
    pub fn new(below: E) -> Counting<E>
        ensures over { result.below ≡ below }
        ensures none { result.obeyed ≡ 0 }
    {
        Counting { below, obeyed: 0 }
    }

    // How many products were obeyed, modulo 2^64.
    pub fn count(&self) -> u64
        ensures { result ≡ self.now.obeyed }
    {
        self.obeyed
    }
}

impl<E: RingEngine> RingEngine for Counting<E> {
    ghost degree = { λ e. E.RingEngine.degree e.below };

    ghost modulus = { λ e. E.RingEngine.modulus e.below };

    ghost sizes = { λ e. E.RingEngine.sizes e.below };

    ghost moduli = { λ e. E.RingEngine.moduli e.below };

    fn degree(&self) -> usize {
        self.below.degree()
    }

    fn modulus(&self) -> u16 {
        self.below.modulus()
    }

    fn multiply(&mut self, a: &[u16], b: &[u16], out: &mut [u16]) -> Result<(), Refusal>
        ensures sized { E.RingEngine.degree self.new.below ≡ E.RingEngine.degree self.old.below }
        ensures modular { E.RingEngine.modulus self.new.below ≡ E.RingEngine.modulus self.old.below }
        ensures answers { result ≡ engine_answer (E.RingEngine.degree self.old.below) (E.RingEngine.modulus self.old.below) a.now b.now (length out.old) }
        ensures writes { out.new ≡ engine_buffer (E.RingEngine.degree self.old.below) (E.RingEngine.modulus self.old.below) a.now b.now out.old }
        ensures counts { MatchResult result (λ _. self.new.obeyed ≡ (self.old.obeyed + 1) % 2 ^ 64) (λ _. self.new.obeyed ≡ self.old.obeyed) }
    {
        self.below.multiply(a, b, out)?;
        self.obeyed = self.obeyed.wrapping_add(1);
        Ok(())
    }
}
