// Why a line was not carried out at all.
ghost use Rattle.std.specs.Prelude.{◌≡◌, Some};
ghost use Rattle.reading.specs.declared.fault.Fault.TheVariants.{Memory, Unread as NotRead};
ghost use Rattle.reading.specs.Nouns.{noun_of};

use std::alloc::{AllocError, AllocFailed};
use std::fmt;

// What in a line cannot be read.
#[derive(Clone, Copy, PartialEq, Eq, Debug)]
pub enum Unread {
    Command,
    Words,
    Number,
    Row,
    Hex,
    Text,
}

impl fmt::Display for Unread {
    ghost output = { λ what. Some (noun_of what) };

    fn fmt<W: fmt::Write>(&self, f: &mut fmt::Formatter<W>) -> fmt::Result {
        let what = match self {
            Unread::Command => "command",
            Unread::Words => "words",
            Unread::Number => "number",
            Unread::Row => "row",
            Unread::Hex => "hex",
            Unread::Text => "text",
        };
        write!(f, "{what}")
    }
}

// A line that cannot be read is answered, and so is one that asks for an engine of an unlawful
// degree or modulus; want of memory ends the program.
#[derive(Clone, Copy, PartialEq, Eq, Debug)]
pub enum Fault {
    Unread(Unread),
    NoSuchEngine,
    Memory,
}

// By hand, since the contracts go by which fault a `?` makes (`from_gives`), which a derive does not say.
impl From<AllocError> for Fault {
    ghost from_gives = { λ _ r. r ≡ Memory };

    fn from(_e: AllocError) -> Fault {
        Fault::Memory
    }
}

impl<T: Drop> From<AllocFailed<T>> for Fault {
    ghost from_gives = { λ _ r. r ≡ Memory };

    fn from(_e: AllocFailed<T>) -> Fault {
        Fault::Memory
    }
}

impl From<Unread> for Fault {
    ghost from_gives = { λ e r. r ≡ NotRead e };

    fn from(e: Unread) -> Fault {
        Fault::Unread(e)
    }
}
