// The words of a line, one after another.
ghost use Rattle.std.specs.Prelude.{◌≡◌};
ghost use Rattle.std.specs.Option.{option_map, ok_or};
ghost use Rattle.reading.specs.Cuts.{first, others};
ghost use Rattle.reading.specs.Lines.{words_of, words_left, ended};
ghost use Rattle.reading.specs.Steps.{seen};

use crate::fault::Unread;
use crate::pieces::{Pieces, Separator};
use std::iter::Iterator;

// Each method that reads a word says in `leaves` that it takes just that word: what it does, and no fact about a value.
#[derive(Drop)]
pub struct Words<'a> {
    pieces: Pieces<'a>,
}

impl<'a> Words<'a> {
    pub fn new(line: &'a [u8]) -> Words<'a>
        ensures { words_left result ≡ words_of line.now }
    {
        Words {
            pieces: Pieces::new(line, Separator::White),
        }
    }

    // The next word, if there is one.
    pub fn optional(&mut self) -> Option<&'a [u8]>
        ensures answers { option_map (λ x. x.now) result ≡ first (words_left self.old) }
        ensures leaves { words_left self.new ≡ others (words_left self.old) }
    {
        self.pieces.find(|piece| !piece.is_empty())
    }

    // The next word, which the command needs.
    pub fn required(&mut self) -> Result<&'a [u8], Unread>
        ensures answers { seen (λ x. x.now) result ≡ ok_or (first (words_left self.old)) Unread.Words }
        ensures leaves { words_left self.new ≡ others (words_left self.old) }
    {
        self.optional().ok_or(Unread::Words)
    }

    // No word may be left.
    pub fn end(&mut self) -> Result<(), Unread>
        ensures answers { result ≡ ended (words_left self.old) }
        ensures leaves { words_left self.new ≡ others (words_left self.old) }
    {
        match self.optional() {
            Some(_) => Err(Unread::Words),
            None => Ok(()),
        }
    }
}
