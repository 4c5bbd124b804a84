// A keyed station over counting engines of degree 16, with one call asked at a time.
use crate::calls;
use anyhow::anyhow;
use custody::call::{Answer, Call};
use custody::exchange::Exchange;
use custody::holding::Holding;
use custody::station::Station;
use keying::draft::Draft;
use ring::counting::Counting;
use ring::refusal::Refusal;
use ring::turning::Turning;

// A row with one number at place 0.
pub fn at_zero(value: i16) -> [i16; 16] {
    let mut row = [0; 16];
    row[0] = value;
    row
}

// An engine of degree 16 that counts its products.
fn engine(modulus: u16) -> anyhow::Result<Counting<Turning>> {
    let turning = Turning::new(16, modulus).ok_or_else(|| anyhow!("no such engine"))?;
    Ok(Counting::new(turning))
}

#[derive(Drop)]
pub struct Desk {
    station: Station<Counting<Turning>, Counting<Turning>>,
}

impl Desk {
    // A station with the key of f' and g.
    pub fn new(f: &[i16], g: &[i16]) -> anyhow::Result<Desk> {
        let mut draft = Draft::new(engine(3457)?, engine(2048)?);
        if draft.key(f, g).is_err() {
            return Err(anyhow!("the key was refused"));
        }
        Ok(Desk {
            station: Station::commission(draft),
        })
    }

    // How many products both engines did so far.
    pub fn products(&self) -> u64 {
        let engines = self.station.engines();
        let field = engines.field.count();
        let binary = engines.binary.count();
        field.wrapping_add(binary)
    }

    // Asks one call with a buffer for what it writes.
    pub fn ask(&mut self, call: Call<'_>, buffer: &mut [u8]) -> Result<Answer, Refusal> {
        self.station.perform(call, buffer)
    }

    // Asks a list of calls.
    pub fn ask_all(&mut self, exchanges: &mut [Exchange<'_>]) {
        self.station.carry_out(exchanges);
    }

    // Whether a call that writes nothing is obeyed.
    pub fn obeys(&mut self, call: Call<'_>) -> bool {
        self.ask(call, &mut []) == Ok(Answer::Done)
    }

    // Whether a call is refused with this refusal.
    pub fn refuses(&mut self, call: Call<'_>, refusal: Refusal) -> bool {
        self.ask(call, &mut []) == Err(refusal)
    }

    // Whether a place has this width and this allowance.
    pub fn has(&mut self, place: usize, width: u32, allowance: u16) -> bool {
        self.ask(calls::tell(place), &mut []) == Ok(Answer::Told(Holding { width, allowance }))
    }

    // Whether a deposit of the zero message is obeyed and gets this allowance.
    pub fn wraps(&mut self, place: usize, width: u32, noise: &[i16], allowance: u16) -> bool {
        self.obeys(calls::wrapping(place, width, noise)) && self.has(place, width, allowance)
    }

    // Whether a place is empty.
    pub fn is_empty(&mut self, place: usize) -> bool {
        self.refuses(calls::tell(place), Refusal::Empty)
    }
}
