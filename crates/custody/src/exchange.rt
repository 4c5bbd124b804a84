// One call of a list, with its own buffer and the reply that it gets.
use crate::call::{Answer, Call};
use ring::refusal::Refusal;

#[derive(Drop)]
pub struct Exchange<'a> {
    pub call: Call<'a>,
    pub buffer: Vec<u8>,
    pub answer: Option<Result<Answer, Refusal>>,
}
