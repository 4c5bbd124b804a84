// Why a call is refused: the thirteen numbers that a caller may get, with their words.
ghost use Rattle.std.specs.Prelude.{◌≡◌, Some};
ghost use Rattle.ring.specs.Refusals.{number_of, word_of, shown_of};

use std::fmt;

// A refusal returns its number alone and leaves everything as it was.
#[derive(Clone, Copy, PartialEq, Eq, Debug)]
pub enum Refusal {
    Mismatch = 1,
    Length = 2,
    Noise = 3,
    NoInverse = 4,
    Unkeyed = 5,
    Place = 6,
    Taken = 7,
    Empty = 8,
    Same = 9,
    Unequal = 10,
    Width = 11,
    TooNoisy = 12,
    Residue = 13,
}

impl Refusal {
    // The number that a caller gets.
    pub fn number(self) -> u8
        ensures { result ≡ number_of self }
    {
        self as u8
    }

    // The word that stands beside the number.
    pub fn word(self) -> &'static str
        ensures { result.now ≡ word_of self }
    {
        match self {
            Refusal::Mismatch => "mismatch",
            Refusal::Length => "length",
            Refusal::Noise => "noise",
            Refusal::NoInverse => "no inverse",
            Refusal::Unkeyed => "unkeyed",
            Refusal::Place => "place",
            Refusal::Taken => "taken",
            Refusal::Empty => "empty",
            Refusal::Same => "same",
            Refusal::Unequal => "unequal",
            Refusal::Width => "width",
            Refusal::TooNoisy => "too noisy",
            Refusal::Residue => "residue",
        }
    }
}

impl fmt::Display for Refusal {
    ghost output = { λ refusal. Some (shown_of refusal) };

    fn fmt<W: fmt::Write>(&self, f: &mut fmt::Formatter<W>) -> fmt::Result {
        let number = self.number();
        let word = self.word();
        write!(f, "{number} {word}")
    }
}
