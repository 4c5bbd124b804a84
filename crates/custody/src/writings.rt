// The calls that change what a station holds: deposit, join, trim and clear.
ghost use Rattle.std.specs.Prelude.{◌≡◌};
ghost use Rattle.places.specs.Changes.{emptied, put};
ghost use Rattle.custody.specs.Checks.{deposit as deposit_reply, join as join_reply, trim as trim_reply, held};
ghost use Rattle.places.specs.Replies.{plain};
ghost use Rattle.custody.specs.Stations.{key_of, shown_by, told_by, Leaves};

use crate::station::Station;
use places::lines;
use ring::engine::RingEngine;
use ring::refusal::Refusal;

impl<P: RingEngine, Q: RingEngine> Station<P, Q> {
    // Wraps a message with the noise into an empty place: 5, 6, 7, 11, 2, 3, 12.
    pub fn deposit(
        &mut self,
        place: usize,
        width: u32,
        noise: &[i16],
        message: &[u8],
    ) -> Result<(), Refusal>
        ensures answers { result ≡ plain (deposit_reply (key_of self.old) (told_by P.RingEngine Q.RingEngine self.old) (shown_by self.old) place width noise.now message.now) }
        ensures leaves { Leaves P.RingEngine Q.RingEngine self.old self.new (put (shown_by self.old) place (deposit_reply (key_of self.old) (told_by P.RingEngine Q.RingEngine self.old) (shown_by self.old) place width noise.now message.now)) }
    {
        self.keyed()?;
        let width = self.register.vacant(place, width, noise, message)?;
        let filled = lines::deposited(
            &mut self.engines.field,
            &mut self.engines.binary,
            &self.register.key,
            width,
            noise,
            message,
        )?;
        self.register.fill(place, filled);
        Ok(())
    }

    // Adds the second place into the first and empties the second: 5, 6, 9, 8, 10, 12.
    pub fn join(&mut self, first: usize, second: usize) -> Result<(), Refusal>
        ensures answers { result ≡ plain (join_reply (key_of self.old) (told_by P.RingEngine Q.RingEngine self.old) (shown_by self.old) first second) }
        ensures leaves { Leaves P.RingEngine Q.RingEngine self.old self.new (emptied (put (shown_by self.old) first (join_reply (key_of self.old) (told_by P.RingEngine Q.RingEngine self.old) (shown_by self.old) first second)) second (join_reply (key_of self.old) (told_by P.RingEngine Q.RingEngine self.old) (shown_by self.old) first second)) }
    {
        self.keyed()?;
        self.register.join(first, second)
    }

    // Takes a place to the next smaller width: 5, 6, 8, 11, 12.
    pub fn trim(&mut self, place: usize) -> Result<(), Refusal>
        ensures answers { result ≡ plain (trim_reply (key_of self.old) (told_by P.RingEngine Q.RingEngine self.old) (shown_by self.old) place) }
        ensures leaves { Leaves P.RingEngine Q.RingEngine self.old self.new (put (shown_by self.old) place (trim_reply (key_of self.old) (told_by P.RingEngine Q.RingEngine self.old) (shown_by self.old) place)) }
    {
        self.keyed()?;
        let filled = self.register.filled(place)?;
        let width = filled.width.narrower().ok_or(Refusal::Width)?;
        let shorter = lines::shortened(
            &mut self.engines.binary,
            &self.register.key,
            filled,
            width,
        )?;
        self.register.fill(place, shorter);
        Ok(())
    }

    // Empties a place: 5, 6, 8.
    pub fn clear(&mut self, place: usize) -> Result<(), Refusal>
        ensures answers { result ≡ plain (held (key_of self.old) (told_by P.RingEngine Q.RingEngine self.old) (shown_by self.old) place) }
        ensures leaves { Leaves P.RingEngine Q.RingEngine self.old self.new (emptied (shown_by self.old) place (held (key_of self.old) (told_by P.RingEngine Q.RingEngine self.old) (shown_by self.old) place)) }
    {
        self.keyed()?;
        self.register.filled(place)?;
        self.register.empty(place);
        Ok(())
    }
}
