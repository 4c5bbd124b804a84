// The calls that leave a station as it is: open, hand out, publish, tell and alike.
ghost use Rattle.std.specs.Prelude.{◌≡◌, length, Ok};
ghost use Rattle.packing.specs.Digits.{packed};
ghost use Rattle.custody.specs.Calls.{holding, likeness_reply, same_bytes};
ghost use Rattle.custody.specs.Checks.{both_held, hand_out as hand_out_reply, held, keyed, open_reply, opened, publish as publish_reply};
ghost use Rattle.places.specs.Replies.{plain, written};
ghost use Rattle.keying.specs.Keys.{h_of};
ghost use Rattle.custody.specs.Stations.{key_of, shown_by, told_by, Leaves};

use crate::holding::Holding;
use crate::station::Station;
use places::outputs;
use products::secret;
use ring::engine::RingEngine;
use ring::refusal::Refusal;

impl<P: RingEngine, Q: RingEngine> Station<P, Q> {
    // Whether a key is there that the engines fit; where there is none, every call is refused with 5.
    pub(crate) fn keyed(&self) -> Result<(), Refusal>
        ensures { result ≡ keyed (key_of self.now) (told_by P.RingEngine Q.RingEngine self.now) (Ok tt) }
    {
        let n = self.register.key.degree;
        if n > 0 && self.engines.fit(n) {
            Ok(())
        } else {
            Err(Refusal::Unkeyed)
        }
    }

    // Writes the message of the nearest words of a place: 5, 6, 8, 2.
    pub fn open(&mut self, place: usize, out: &mut [u8]) -> Result<(), Refusal>
        ensures leaves { Leaves P.RingEngine Q.RingEngine self.old self.new (shown_by self.old) }
        ensures answers { result ≡ plain (open_reply (key_of self.old) (told_by P.RingEngine Q.RingEngine self.old) (shown_by self.old) place (length out.old)) }
        ensures writes { out.new ≡ written (open_reply (key_of self.old) (told_by P.RingEngine Q.RingEngine self.old) (shown_by self.old) place (length out.old)) (opened (key_of self.old)) out.old }
    {
        self.keyed()?;
        let filled = self.register.filled(place)?;
        let key = &self.register.key;
        if out.len() != key.degree / 16 {
            return Err(Refusal::Length);
        }
        secret::decode(
            &mut self.engines.binary,
            key.degree,
            &filled.coefficients,
            &key.f,
            filled.width,
            out,
        );
        Ok(())
    }

    // Writes the coefficients of a place in as many bits each as its width: 5, 6, 8, 2.
    pub fn hand_out(&self, place: usize, out: &mut [u8]) -> Result<(), Refusal>
        ensures answers { result ≡ plain (hand_out_reply (key_of self.now) (told_by P.RingEngine Q.RingEngine self.now) (shown_by self.now) place (length out.old)) }
        ensures writes { out.new ≡ written (hand_out_reply (key_of self.now) (told_by P.RingEngine Q.RingEngine self.now) (shown_by self.now) place (length out.old)) (λ a. packed a.width a.coefficients) out.old }
    {
        self.keyed()?;
        let filled = self.register.filled(place)?;
        outputs::hand_out(&filled, self.register.key.degree, out)
    }

    // Writes h in 12 bits each: 5, 2.
    pub fn publish(&self, out: &mut [u8]) -> Result<(), Refusal>
        ensures answers { result ≡ publish_reply (key_of self.now) (told_by P.RingEngine Q.RingEngine self.now) (length out.old) }
        ensures writes { out.new ≡ written (publish_reply (key_of self.now) (told_by P.RingEngine Q.RingEngine self.now) (length out.old)) (λ _. packed 12 (h_of (key_of self.now))) out.old }
    {
        self.keyed()?;
        outputs::publish(&self.register.key, out)
    }

    // Answers the width and the allowance of a place: 5, 6, 8.
    pub fn tell(&self, place: usize) -> Result<Holding, Refusal>
        ensures { result ≡ holding (held (key_of self.now) (told_by P.RingEngine Q.RingEngine self.now) (shown_by self.now) place) }
    {
        self.keyed()?;
        let filled = self.register.filled(place)?;
        Ok(Holding {
            width: filled.width.bits(),
            allowance: filled.allowance,
        })
    }

    // Whether two filled places open to the same bits: 5, 6, 8.
    pub fn alike(&mut self, first: usize, second: usize) -> Result<bool, Refusal>
        ensures leaves { Leaves P.RingEngine Q.RingEngine self.old self.new (shown_by self.old) }
        ensures answers { result ≡ likeness_reply (key_of self.old) (both_held (key_of self.old) (told_by P.RingEngine Q.RingEngine self.old) (shown_by self.old) first second) }
    {
        self.keyed()?;
        if first > 7 || second > 7 {
            return Err(Refusal::Place);
        }
        let a = self.register.filled(first)?;
        let b = self.register.filled(second)?;
        let key = &self.register.key;
        let n = key.degree;
        let left = secret::message(
            &mut self.engines.binary,
            n,
            &a.coefficients,
            &key.f,
            a.width,
        );
        let right = secret::message(
            &mut self.engines.binary,
            n,
            &b.coefficients,
            &key.f,
            b.width,
        );
        Ok(same(&left[0..n / 16], &right[0..n / 16]))
    }
}

// Whether two messages are the same: std's `==`, by the word that the definitions have for it.
fn same(left: &[u8], right: &[u8]) -> bool
    ensures { result ≡ same_bytes left.now right.now }
{
    left == right
}
