// One call as a value, carried out.
ghost use Rattle.std.specs.Prelude.{◌≡◌, length};
ghost use Rattle.custody.specs.Calls.{after, answer, buffer_after};
ghost use Rattle.custody.specs.Stations.{key_of, shown_by, told_by, Leaves};

use crate::call::{Answer, Call};
use crate::station::Station;
use ring::engine::RingEngine;
use ring::refusal::Refusal;

impl<P: RingEngine, Q: RingEngine> Station<P, Q> {
    // Carries out one call, which may write into the buffer.
    pub fn perform(&mut self, call: Call<'_>, buffer: &mut [u8]) -> Result<Answer, Refusal>
        ensures answers { result ≡ answer (key_of self.old) (told_by P.RingEngine Q.RingEngine self.old) (shown_by self.old) call.entry (length buffer.old) }
        ensures leaves { Leaves P.RingEngine Q.RingEngine self.old self.new (after (key_of self.old) (told_by P.RingEngine Q.RingEngine self.old) (shown_by self.old) call.entry) }
        ensures writes { buffer.new ≡ buffer_after (key_of self.old) (told_by P.RingEngine Q.RingEngine self.old) (shown_by self.old) call.entry buffer.old }
    {
        match call {
            Call::Deposit {
                place,
                width,
                noise,
                message,
            } => self.deposit(place, width, noise, message)?,
            Call::Join { first, second } => self.join(first, second)?,
            Call::Trim { place } => self.trim(place)?,
            Call::Clear { place } => self.clear(place)?,
            Call::Open { place } => self.open(place, buffer)?,
            Call::HandOut { place } => self.hand_out(place, buffer)?,
            Call::Publish => self.publish(buffer)?,
            Call::Tell { place } => return Ok(Answer::Told(self.tell(place)?)),
            Call::Alike { first, second } => {
                return Ok(Answer::Likeness(self.alike(first, second)?));
            }
        }
        Ok(Answer::Done)
    }
}
