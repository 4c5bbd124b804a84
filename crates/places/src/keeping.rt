// The eight places of a register: looked at, filled, emptied and joined.
ghost use Rattle.std.specs.Prelude.{◌≡◌, ◌<◌, Some, None, Ok, slice_set};
ghost use Rattle.places.specs.Changes.{emptied, put};
ghost use Rattle.places.specs.Books.{at, empty_book};
ghost use Rattle.places.specs.Checks.{deposit_width, depositable as depositable_of, join_places, found, placed, vacant as vacant_of};
ghost use Rattle.places.specs.Replies.{plain};
ghost use Rattle.places.specs.Views.{book, line_of, lined, optional, Leaves};
ghost use Rattle.products.specs.Widths.{bits_of};

use crate::filled::Filled;
use crate::lines;
use crate::register::Register;
use code::width::Width;
use keying::key::Key;
use ring::refusal::Refusal;
use wrapping::secret::is_small;

impl Register {
    // A register of a key, with nothing in its places.
    pub fn new(key: Key) -> Register
        ensures key { result.key ≡ key }
        ensures places { book result ≡ empty_book }
    {
        Register {
            key,
            places: [None; 8],
        }
    }

    // What a place holds, if anything: 6.
    fn held(&self, place: usize) -> Result<Option<Filled>, Refusal>
        ensures { optional self.now.key.degree result ≡ placed place (Ok (at (book self.now) place)) }
    {
        if place > 7 {
            return Err(Refusal::Place);
        }
        Ok(self.places[place])
    }

    // The record of a filled place: 6, 8.
    pub fn filled(&self, place: usize) -> Result<Filled, Refusal>
        ensures { lined self.now.key.degree result ≡ found (book self.now) place }
    {
        self.held(place)?.ok_or(Refusal::Empty)
    }

    // What a deposit looks at before it wraps: 6, 7, 11, 2, 3.
    pub fn vacant(
        &self,
        place: usize,
        width: u32,
        noise: &[i16],
        message: &[u8],
    ) -> Result<Width, Refusal>
        ensures { bits_of result ≡ vacant_of self.now.key.degree (book self.now) place width noise.now message.now }
    {
        match self.held(place)? {
            Some(_) => Err(Refusal::Taken),
            None => depositable(self.key.degree, width, noise, message),
        }
    }

    // Fills a place.
    pub fn fill(&mut self, place: usize, filled: Filled)
        requires { place < 8 }
        ensures { Leaves self.old self.new (slice_set (book self.old) place (Some (line_of self.old.key.degree filled))) }
    {
        self.places[place] = Some(filled);
    }

    // Empties a place.
    pub fn empty(&mut self, place: usize)
        requires { place < 8 }
        ensures { Leaves self.old self.new (slice_set (book self.old) place None) }
    {
        self.places[place] = None;
    }

    // Adds the second place into the first and empties the second: 6, 9, 8, 10, 12.
    pub fn join(&mut self, first: usize, second: usize) -> Result<(), Refusal>
        ensures answers { result ≡ plain (join_places (book self.old) first second) }
        ensures leaves { Leaves self.old self.new (emptied (put (book self.old) first (join_places (book self.old) first second)) second (join_places (book self.old) first second)) }
    {
        let sum = self.joined(first, second)?;
        self.fill(first, sum);
        self.empty(second);
        Ok(())
    }

    // The record that a join makes of two places.
    fn joined(&self, first: usize, second: usize) -> Result<Filled, Refusal>
        ensures { lined self.now.key.degree result ≡ join_places (book self.now) first second }
    {
        if first > 7 || second > 7 {
            return Err(Refusal::Place);
        }
        if first == second {
            return Err(Refusal::Same);
        }
        let a = self.filled(first)?;
        let b = self.filled(second)?;
        if a.width != b.width {
            return Err(Refusal::Unequal);
        }
        lines::together(a, b)
    }
}

// What a deposit looks at besides its place: 11, 2, 3.
fn depositable(n: usize, width: u32, noise: &[i16], message: &[u8]) -> Result<Width, Refusal>
    ensures { bits_of result ≡ depositable_of n width noise.now message.now }
{
    let width = deposit_width(width)?;
    if noise.len() != n || message.len() != n / 16 {
        return Err(Refusal::Length);
    }
    if !is_small(noise) {
        return Err(Refusal::Noise);
    }
    Ok(width)
}

// The width of a deposit, 9 to 11.
fn deposit_width(bits: u32) -> Result<Width, Refusal>
    ensures { bits_of result ≡ deposit_width bits }
{
    if bits < 9 {
        return Err(Refusal::Width);
    }
    Width::new(bits).ok_or(Refusal::Width)
}
