// How many lines of a script were carried out, refused and not read.
ghost use Rattle.std.specs.Prelude.{◌≡◌, Some};
ghost use Rattle.session.specs.Tallies.{counted, tally_shown};

use script::answer::Answer;
use std::fmt;

#[derive(Drop)]
pub struct Tally {
    obeyed: u64,
    refused: u64,
    unread: u64,
}

impl Tally {
    // No line yet.
    pub fn new() -> Tally
        ensures obeyed { result.obeyed ≡ 0 }
        ensures refused { result.refused ≡ 0 }
        ensures unread { result.unread ≡ 0 }
    {
        Tally {
            obeyed: 0,
            refused: 0,
            unread: 0,
        }
    }

    // Counts a line by its answer.
    pub fn count(&mut self, answer: &Answer)
        ensures { self.new ≡ counted self.old answer.now }
    {
        match answer {
            Answer::Unread(_) => self.unread = self.unread.wrapping_add(1),
            Answer::Refused(_) | Answer::NoSuchEngine | Answer::NoDraft | Answer::NoStation => {
                self.refused = self.refused.wrapping_add(1);
            }
            _ => self.obeyed = self.obeyed.wrapping_add(1),
        }
    }
}

impl fmt::Display for Tally {
    ghost output = { λ tally. Some (tally_shown tally) };

    fn fmt<W: fmt::Write>(&self, f: &mut fmt::Formatter<W>) -> fmt::Result {
        let obeyed = self.obeyed;
        let refused = self.refused;
        let unread = self.unread;
        write!(
            f,
            "{obeyed} carried out, {refused} refused, {unread} not read"
        )
    }
}
