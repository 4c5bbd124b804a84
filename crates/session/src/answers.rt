// What the reply of a call is as the answer to a line.
ghost use Rattle.std.specs.Prelude.{◌≡◌};
ghost use Rattle.session.specs.Said.{replied, said};

use ring::refusal::Refusal;
use script::answer::Answer;

// The answer that belongs to an obeyed call, or the refusal.
pub fn answer(reply: Result<(), Refusal>, obeyed: Answer) -> Answer
    ensures { said result ≡ replied reply (said obeyed) }
{
    match reply {
        Ok(()) => obeyed,
        Err(refusal) => Answer::Refused(refusal),
    }
}
