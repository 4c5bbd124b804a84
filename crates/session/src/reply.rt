// The answer to a line, with the name of the line's command.
use script::answer::Answer;

#[derive(Drop)]
pub struct Reply<'a> {
    pub name: &'a str,
    pub answer: Answer,
}
