// The calls of a station with their arguments, and what they answer where they are obeyed. A deposit's width, noise and message are in no
// struct of their own: each call has its arguments in its variant, and three inner functions pass these on.
use crate::holding::Holding;

#[derive(Clone, Copy)]
pub enum Call<'a> {
    Deposit {
        place: usize,
        width: u32,
        noise: &'a [i16],
        message: &'a [u8],
    },
    Join {
        first: usize,
        second: usize,
    },
    Trim {
        place: usize,
    },
    Clear {
        place: usize,
    },
    Open {
        place: usize,
    },
    HandOut {
        place: usize,
    },
    Publish,
    Tell {
        place: usize,
    },
    Alike {
        first: usize,
        second: usize,
    },
}

#[derive(Clone, Copy, PartialEq, Eq, Debug)]
pub enum Answer {
    Done,
    Told(Holding),
    Likeness(bool),
}
