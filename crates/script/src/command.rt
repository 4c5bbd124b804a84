// The commands of a script, with their arguments.
ghost use Rattle.std.specs.Prelude.{◌≡◌};
ghost use Rattle.reading.specs.Arguments.{leaving};
ghost use Rattle.reading.specs.Lines.{words_left};
ghost use Rattle.reading.specs.Memory.{Spared};
ghost use Rattle.reading.specs.Steps.{seen};
ghost use Rattle.script.specs.Commands.{asked_of, engine_pair, engines_line, key_line, named_line, command_of};

use crate::names::{CallName, TaskName};
use crate::request::Request;
use crate::task::Task;
use crate::{request, task};
use reading::coefficients::Coefficient;
use reading::fault::{Fault, Unread};
use reading::words::Words;
use ring::turning::Turning;
use std::alloc::Global;

#[derive(Drop)]
pub enum Command {
    // A new draft over two engines, the first for the residues of keys and the second for opening.
    Engines { field: Turning, binary: Turning },
    Key { f: Vec<i16>, g: Vec<i16> },
    Commission,
    Station(Request),
    Apart(Task),
}

// Two engines, each of a degree and a modulus.
fn pair(field: (usize, usize), binary: (usize, usize)) -> Result<Command, Fault>
    ensures { seen asked_of result ≡ engine_pair field binary }
{
    let field = task::engine(field.0, field.1)?;
    let binary = task::engine(binary.0, binary.1)?;
    Ok(Command::Engines { field, binary })
}

// Two engines of one degree with the moduli that a draft needs, or two that tell what is written.
fn engines(words: &mut Words<'_>) -> Result<Command, Fault>
    ensures { leaving asked_of words.new result ≡ engines_line (words_left words.old) }
{
    let first = words.number()?;
    let Some(modulus) = words.number_if_any()? else {
        return pair((first, 3457), (first, 2048));
    };
    let second = words.number()?;
    let other = words.number()?;
    pair((first, modulus), (second, other))
}

fn key(heap: Global, words: &mut Words<'_>, degree: usize) -> Result<Command, Fault>
    ensures { Spared (leaving asked_of words.new result) (key_line degree (words_left words.old)) }
{
    let f = words.row(heap, degree)?;
    let g = words.row(heap, degree)?;
    Ok(Command::Key { f, g })
}

// The command of that name, read from the first of the words that follow it.
fn named(heap: Global, name: &[u8], words: &mut Words<'_>, degree: usize) -> Result<Command, Fault>
    ensures { Spared (leaving asked_of words.new result) (named_line name.now degree (words_left words.old)) }
{
    match name {
        b"engines" => return engines(words),
        b"key" => return key(heap, words, degree),
        b"commission" => return Ok(Command::Commission),
        _ => {}
    }
    if let Some(task) = TaskName::of(name) {
        return Ok(Command::Apart(task::read(heap, task, words)?));
    }
    let call = CallName::of(name).ok_or(Unread::Command)?;
    Ok(Command::Station(request::called(heap, call, words, degree)?))
}

// The command of that name with exactly the words that follow it. A row of a draft's or a station's
// that is written without a length has `degree` places.
pub fn read(
    heap: Global,
    name: &[u8],
    words: &mut Words<'_>,
    degree: usize,
) -> Result<Command, Fault>
    ensures { Spared (seen asked_of result) (command_of name.now degree (words_left words.old)) }
{
    let command = named(heap, name, words, degree)?;
    words.end()?;
    Ok(command)
}
