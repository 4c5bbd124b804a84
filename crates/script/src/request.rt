// The nine calls of a station as a script asks for them.
// The heap, the words and the degree go down to what reads an argument, here and in commands and tasks; in one struct they would be taken
// apart at each of these calls.
ghost use Rattle.std.specs.Prelude.{◌≡◌};
ghost use Rattle.reading.specs.Arguments.{leaving};
ghost use Rattle.reading.specs.Lines.{words_left};
ghost use Rattle.reading.specs.Memory.{Spared};
ghost use Rattle.script.specs.Asked.{request_asked};
ghost use Rattle.script.specs.Calls.{deposit_line, open_line, hand_out_line, publish_line, call_line, named_call};

use crate::names::CallName;
use reading::fault::{Fault, Unread};
use reading::lengths;
use reading::words::Words;
use std::alloc::Global;

// A length is that of the call's buffer. The right one for a handing out depends on what the place holds,
// so the station is asked for it where the line gives none.
#[derive(Drop)]
pub enum Request {
    Deposit {
        place: usize,
        width: u32,
        noise: Vec<i16>,
        message: Vec<u8>,
    },
    Join {
        first: usize,
        second: usize,
    },
    Trim {
        place: usize,
    },
    Clear {
        place: usize,
    },
    Open {
        place: usize,
        length: usize,
    },
    HandOut {
        place: usize,
        length: Option<usize>,
    },
    Publish {
        length: usize,
    },
    Tell {
        place: usize,
    },
    Alike {
        first: usize,
        second: usize,
    },
}

fn deposit(heap: Global, words: &mut Words<'_>, degree: usize) -> Result<Request, Fault>
    ensures { Spared (leaving request_asked words.new result) (deposit_line degree (words_left words.old)) }
{
    let place = words.number()?;
    let width = words.width()?;
    let noise = words.row(heap, degree)?;
    let message = words.bytes(heap)?;
    Ok(Request::Deposit {
        place,
        width,
        noise,
        message,
    })
}

fn open(words: &mut Words<'_>, degree: usize) -> Result<Request, Fault>
    ensures { leaving request_asked words.new result ≡ open_line degree (words_left words.old) }
{
    let place = words.number()?;
    let length = lengths::given_or(words, degree / 16)?;
    Ok(Request::Open { place, length })
}

fn hand_out(words: &mut Words<'_>) -> Result<Request, Fault>
    ensures { leaving request_asked words.new result ≡ hand_out_line (words_left words.old) }
{
    let place = words.number()?;
    let length = lengths::given(words)?;
    Ok(Request::HandOut { place, length })
}

fn publish(words: &mut Words<'_>, degree: usize) -> Result<Request, Fault>
    ensures { leaving request_asked words.new result ≡ publish_line degree (words_left words.old) }
{
    let length = lengths::given_or(words, lengths::bytes_for(degree, 12))?;
    Ok(Request::Publish { length })
}

// The call of that name, read from the words that follow it, with rows of `degree` places.
pub fn read(
    heap: Global,
    name: &[u8],
    words: &mut Words<'_>,
    degree: usize,
) -> Result<Request, Fault>
    ensures { Spared (leaving request_asked words.new result) (named_call name.now degree (words_left words.old)) }
{
    let call = CallName::of(name).ok_or(Unread::Command)?;
    called(heap, call, words, degree)
}

// The same of a call.
pub(crate) fn called(
    heap: Global,
    name: CallName,
    words: &mut Words<'_>,
    degree: usize,
) -> Result<Request, Fault>
    ensures { Spared (leaving request_asked words.new result) (call_line name degree (words_left words.old)) }
{
    match name {
        CallName::Deposit => deposit(heap, words, degree),
        CallName::Join => Ok(Request::Join {
            first: words.number()?,
            second: words.number()?,
        }),
        CallName::Trim => Ok(Request::Trim {
            place: words.number()?,
        }),
        CallName::Clear => Ok(Request::Clear {
            place: words.number()?,
        }),
        CallName::Open => open(words, degree),
        CallName::HandOut => hand_out(words),
        CallName::Publish => publish(words, degree),
        CallName::Tell => Ok(Request::Tell {
            place: words.number()?,
        }),
        CallName::Alike => Ok(Request::Alike {
            first: words.number()?,
            second: words.number()?,
        }),
    }
}
