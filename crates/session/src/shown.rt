// How the answer to a line is written.
ghost use Rattle.std.specs.Prelude.{Some};
ghost use Rattle.session.specs.Lines.{reply_shown};

use crate::reply::Reply;
use std::fmt;

impl<'a> fmt::Display for Reply<'a> {
    ghost output = { λ reply. Some (reply_shown reply) };

    fn fmt<W: fmt::Write>(&self, f: &mut fmt::Formatter<W>) -> fmt::Result {
        let name = self.name;
        let answer = &self.answer;
        write!(f, "{name}: {answer}")
    }
}
