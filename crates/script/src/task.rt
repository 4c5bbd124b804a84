// What a script asks for away from drafts and stations: sealing, unsealing, packing of keys, and products.
ghost use Rattle.std.specs.Prelude.{◌≡◌, is_ok, MatchResult};
ghost use Rattle.ring.specs.Engines.{lawful};
ghost use Rattle.reading.specs.Arguments.{leaving};
ghost use Rattle.reading.specs.Lines.{words_left};
ghost use Rattle.reading.specs.Memory.{Spared};
ghost use Rattle.reading.specs.Steps.{seen};
ghost use Rattle.script.specs.Asked.{task_asked};
ghost use Rattle.script.specs.Engines.{told as told_of, engine_line, engine_of};
ghost use Rattle.script.specs.Tasks.{seal_line, unseal_line, pack_line, unpack_line, multiply_line, task_line};

use crate::names::TaskName;
use reading::coefficients::Coefficient;
use reading::fault::Fault;
use reading::lengths;
use reading::words::Words;
use ring::engine::RingEngine;
use ring::turning::Turning;
use std::alloc::Global;

// A length is that of the buffer for the result.
#[derive(Drop)]
pub enum Task {
    Seal {
        engine: Turning,
        width: u32,
        key: Vec<u8>,
        noise: Vec<i16>,
        message: Vec<u8>,
        length: usize,
    },
    Unseal {
        engine: Turning,
        width: u32,
        f: Vec<i16>,
        bytes: Vec<u8>,
        length: usize,
    },
    Pack {
        degree: usize,
        row: Vec<u16>,
        length: usize,
    },
    Unpack {
        degree: usize,
        bytes: Vec<u8>,
        length: usize,
    },
    Multiply {
        engine: Turning,
        left: Vec<u16>,
        right: Vec<u16>,
        length: usize,
    },
}

// The turning engine of a degree and a modulus, where there is one.
pub fn engine(degree: usize, modulus: usize) -> Result<Turning, Fault>
    ensures made { is_ok result ≡ lawful degree modulus }
    ensures told { MatchResult result (λ e. (e.degree ≡ degree) × (e.modulus ≡ modulus)) (λ fault. fault ≡ Fault.NoSuchEngine) }
    ensures step { seen told_of result ≡ engine_of degree modulus }
{
    let modulus = u16::try_from(modulus).map_err(|_| Fault::NoSuchEngine)?;
    Turning::new(degree, modulus).ok_or(Fault::NoSuchEngine)
}

// An engine of the degree and the modulus that the line gives.
fn given_engine(words: &mut Words<'_>) -> Result<Turning, Fault>
    ensures { leaving told_of words.new result ≡ engine_line (words_left words.old) }
{
    let degree = words.number()?;
    let modulus = words.number()?;
    engine(degree, modulus)
}

pub fn seal(heap: Global, words: &mut Words<'_>) -> Result<Task, Fault>
    ensures { Spared (leaving task_asked words.new result) (seal_line (words_left words.old)) }
{
    let engine = given_engine(words)?;
    let degree = engine.degree();
    let width = words.width()?;
    let key = words.bytes(heap)?;
    let noise = words.row(heap, degree)?;
    let message = words.bytes(heap)?;
    let length = lengths::given_or(words, lengths::bytes_for(degree, width))?;
    Ok(Task::Seal {
        engine,
        width,
        key,
        noise,
        message,
        length,
    })
}

pub fn unseal(heap: Global, words: &mut Words<'_>) -> Result<Task, Fault>
    ensures { Spared (leaving task_asked words.new result) (unseal_line (words_left words.old)) }
{
    let engine = given_engine(words)?;
    let degree = engine.degree();
    let width = words.width()?;
    let f = words.row(heap, degree)?;
    let bytes = words.bytes(heap)?;
    let length = lengths::given_or(words, degree / 16)?;
    Ok(Task::Unseal {
        engine,
        width,
        f,
        bytes,
        length,
    })
}

pub fn pack(heap: Global, words: &mut Words<'_>) -> Result<Task, Fault>
    ensures { Spared (leaving task_asked words.new result) (pack_line (words_left words.old)) }
{
    let degree = words.number()?;
    let row = words.row(heap, degree)?;
    let length = lengths::given_or(words, lengths::bytes_for(degree, 12))?;
    Ok(Task::Pack {
        degree,
        row,
        length,
    })
}

pub fn unpack(heap: Global, words: &mut Words<'_>) -> Result<Task, Fault>
    ensures { Spared (leaving task_asked words.new result) (unpack_line (words_left words.old)) }
{
    let degree = words.number()?;
    let bytes = words.bytes(heap)?;
    let length = lengths::given_or(words, degree)?;
    Ok(Task::Unpack {
        degree,
        bytes,
        length,
    })
}

pub fn multiply(heap: Global, words: &mut Words<'_>) -> Result<Task, Fault>
    ensures { Spared (leaving task_asked words.new result) (multiply_line (words_left words.old)) }
{
    let engine = given_engine(words)?;
    let degree = engine.degree();
    let left = words.row(heap, degree)?;
    let right = words.row(heap, degree)?;
    let length = lengths::given_or(words, degree)?;
    Ok(Task::Multiply {
        engine,
        left,
        right,
        length,
    })
}

// The task of that name, read from the words that follow it.
pub(crate) fn read(heap: Global, name: TaskName, words: &mut Words<'_>) -> Result<Task, Fault>
    ensures { Spared (leaving task_asked words.new result) (task_line name (words_left words.old)) }
{
    match name {
        TaskName::Seal => seal(heap, words),
        TaskName::Unseal => unseal(heap, words),
        TaskName::Pack => pack(heap, words),
        TaskName::Unpack => unpack(heap, words),
        TaskName::Multiply => multiply(heap, words),
    }
}
