// From one line of a script to its reply.
ghost use Rattle.std.specs.Prelude.{◌≡◌, MatchResult};
ghost use Rattle.reading.specs.Lines.{words_left};
ghost use Rattle.session.specs.Commands.{Replied};
ghost use Rattle.session.specs.Hands.{at_hand};
ghost use Rattle.session.specs.Lines.{hashed, Answered, Named};
ghost use Rattle.session.specs.Promises.{Promised};
ghost use Rattle.session.specs.Said.{said};

use crate::reply::Reply;
use crate::state::Session;
use reading::fault::{Fault, Unread};
use reading::words::Words;
use script::answer::Answer;
use script::command;
use std::alloc::{AllocError, Global};

// Stands for a name that is no text.
const NO_NAME: &str = "?";

// A word as the name in an answer.
fn name_of(word: &[u8]) -> &str
    ensures { Named word.now result.now }
{
    std::str::from_utf8(word).unwrap_or(NO_NAME)
}

// Whether a word begins a comment.
fn is_comment(word: &[u8]) -> bool
    ensures { result ≡ hashed word.now }
{
    word.first() == Some(&b'#')
}

impl Session {
    // Answers a line; an empty one and a comment have no reply. That the promise is kept is a clause, here and below, as in `carry_out`.
    pub fn answer<'a>(
        &mut self,
        heap: Global,
        line: &'a [u8],
    ) -> Result<Option<Reply<'a>>, AllocError>
        ensures replied { MatchResult result (λ reply. Answered (at_hand self.old) line.now reply (at_hand self.new)) (λ _. at_hand self.new ≡ at_hand self.old) }
        ensures promised { Promised (at_hand self.old) → Promised (at_hand self.new) }
    {
        if std::str::from_utf8(line).is_err() {
            return Ok(Some(Reply {
                name: NO_NAME,
                answer: Answer::Unread(Unread::Text),
            }));
        }
        let mut words = Words::new(line);
        let Some(word) = words.optional() else {
            return Ok(None);
        };
        if is_comment(word) {
            return Ok(None);
        }
        let answer = self.answer_words(heap, word, words)?;
        Ok(Some(Reply {
            name: name_of(word),
            answer,
        }))
    }

    // Reads the command of a line and carries it out.
    fn answer_words(
        &mut self,
        heap: Global,
        name: &[u8],
        mut words: Words<'_>,
    ) -> Result<Answer, AllocError>
        ensures replied { MatchResult result (λ answer. Replied (at_hand self.old) name.now (words_left words.entry) (said answer) (at_hand self.new)) (λ _. at_hand self.new ≡ at_hand self.old) }
        ensures promised { Promised (at_hand self.old) → Promised (at_hand self.new) }
    {
        let fault = match command::read(heap, name, &mut words, self.degree()) {
            Ok(command) => return self.carry_out(heap, command),
            Err(fault) => fault,
        };
        match fault {
            Fault::Unread(what) => Ok(Answer::Unread(what)),
            Fault::NoSuchEngine => Ok(Answer::NoSuchEngine),
            Fault::Memory => Err(AllocError),
        }
    }
}
