// A text cut at the bytes that separate its parts.
ghost use Rattle.std.specs.Prelude.{◌≡◌, length};
ghost use Rattle.std.specs.Iterator.{at_most, YieldsFirstBy};
ghost use Rattle.std.specs.Option.{option_map};
ghost use Rattle.reading.specs.Cuts.{cuts, split_at, both_now, parts_of, pieces_left};

use std::iter::Iterator;

// What stands between two parts: white space, or one byte.
#[derive(Clone, Copy, PartialEq, Eq, Debug)]
pub(crate) enum Separator {
    White,
    Byte(u8),
}

impl Separator {
    // Whether a byte separates.
    fn is(self, byte: u8) -> bool
        ensures { result ≡ cuts self byte }
    {
        match self {
            Separator::White => matches!(byte, b' ' | b'\t'..=b'\r'),
            Separator::Byte(code) => byte == code,
        }
    }
}

// What stands before the first separator and after it, if there is one.
pub(crate) fn split_once(text: &[u8], separator: Separator) -> Option<(&[u8], &[u8])>
    ensures { option_map both_now result ≡ split_at (cuts separator) text.now }
{
    let i = text.iter().position(|byte| separator.is(*byte))?;
    Some((&text[..i], &text[i + 1..]))
}

// The parts of a text one after another; a text without a separator is one part. Not std's `split`,
// whose type has that of a closure in it, which the field of `Words` cannot name.
#[derive(Drop)]
pub(crate) struct Pieces<'a> {
    rest: Option<&'a [u8]>,
    separator: Separator,
}

impl<'a> Pieces<'a> {
    pub(crate) fn new(text: &'a [u8], separator: Separator) -> Pieces<'a>
        ensures { pieces_left result ≡ parts_of (cuts separator) text.now }
    {
        Pieces {
            rest: Some(text),
            separator,
        }
    }
}

impl<'a> Iterator for Pieces<'a> {
    type Item = &'a [u8];

    ghost next_gives = { YieldsFirstBy (λ x. x.now) pieces_left };

    ghost remaining = { λ s. at_most (length (pieces_left s)) };

    fn next(&mut self) -> Option<&'a [u8]> {
        let text = self.rest?;
        match split_once(text, self.separator) {
            Some((part, rest)) => {
                self.rest = Some(rest);
                Some(part)
            }
            None => {
                self.rest = None;
                Some(text)
            }
        }
    }
}
