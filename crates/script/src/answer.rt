// What a command answers, and how the answer is written.
ghost use Rattle.std.specs.Prelude.{Some};
ghost use Rattle.script.specs.Shown.{answer_shown};

use crate::written;
use reading::fault::Unread;
use ring::refusal::Refusal;
use std::fmt;

// No Result: what is answered and what stands in place of an answer are printed alike, each as one line.
#[derive(Drop)]
pub enum Answer {
    Done,
    Refused(Refusal),
    Bytes(Vec<u8>),
    Row(Vec<u16>),
    Told { width: u32, allowance: u16 },
    Likeness(bool),
    NoSuchEngine,
    NoDraft,
    NoStation,
    Unread(Unread),
}

impl fmt::Display for Answer {
    ghost output = { λ answer. Some (answer_shown answer) };

    fn fmt<W: fmt::Write>(&self, f: &mut fmt::Formatter<W>) -> fmt::Result {
        match self {
            Answer::Done => write!(f, "done"),
            Answer::Refused(refusal) => write!(f, "refused {refusal}"),
            Answer::Bytes(values) => written::bytes(values.as_slice(), f),
            Answer::Row(row) => written::row(row.as_slice(), f),
            Answer::Told { width, allowance } => write!(f, "width {width} allowance {allowance}"),
            Answer::Likeness(true) => write!(f, "yes"),
            Answer::Likeness(false) => write!(f, "no"),
            Answer::NoSuchEngine => write!(f, "no such engine"),
            Answer::NoDraft => write!(f, "no draft"),
            Answer::NoStation => write!(f, "no station"),
            Answer::Unread(what) => write!(f, "cannot read {what}"),
        }
    }
}
