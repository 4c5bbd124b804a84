// The calls of a station as a script asks for them, each handed over as a list of one call with a buffer of its own.
ghost use Rattle.std.specs.Prelude.{◌≡◌, ◌<◌, [], ◌∷◌, length, take, Some, Ok, MatchResult};
ghost use Rattle.custody.specs.Exchanges.{asked_of, calls_of};
ghost use Rattle.custody.specs.declared.call.Answer.TheVariants.{Done as Obeyed};
ghost use Rattle.session.specs.Hands.{post as post_of};
ghost use Rattle.session.specs.Posts.{answer_at, buffer_at, plain_call, post_at, post_through, replies_at};
ghost use Rattle.session.specs.Requests.{answered, buffer_length, plain_request, post_after, right_length, wants_bytes};
ghost use Rattle.session.specs.Said.{said, said_as};

use crate::state::Engine;
use custody::call;
use custody::call::Call;
use custody::exchange::Exchange;
use custody::holding::Holding;
use custody::station::Station;
use ring::counting::Counting;
use ring::engine::RingEngine;
use ring::refusal::Refusal;
use ring::turning::Turning;
use script::answer::Answer;
use script::request::Request;
use std::alloc::{AllocError, Global};
use std::mem;

// The call that a request asks for.
fn call_of(request: &Request) -> Call<'_>
    ensures { plain_call result ≡ plain_request request.now }
{
    match request {
        Request::Deposit {
            place,
            width,
            noise,
            message,
        } => Call::Deposit {
            place: *place,
            width: *width,
            noise: noise.as_slice(),
            message: message.as_slice(),
        },
        Request::Join { first, second } => Call::Join {
            first: *first,
            second: *second,
        },
        Request::Trim { place } => Call::Trim { place: *place },
        Request::Clear { place } => Call::Clear { place: *place },
        Request::Open { place, .. } => Call::Open { place: *place },
        Request::HandOut { place, .. } => Call::HandOut { place: *place },
        Request::Publish { .. } => Call::Publish,
        Request::Tell { place } => Call::Tell { place: *place },
        Request::Alike { first, second } => Call::Alike {
            first: *first,
            second: *second,
        },
    }
}

// What an obeyed request answers: what its buffer holds, where it asks for that.
fn done(request: &Request, buffer: Vec<u8>) -> Answer
    ensures { said result ≡ said_as (wants_bytes request.now) (Ok Obeyed) buffer.items }
{
    match request {
        Request::Open { .. } | Request::HandOut { .. } | Request::Publish { .. } => {
            Answer::Bytes(buffer)
        }
        _ => Answer::Done,
    }
}

// How long a buffer must be to hand out what a place holds; where it holds nothing, any length does.
fn right_length(station: &Station<Engine, Engine>, place: usize) -> usize
    ensures { result ≡ right_length (post_of station.now) place }
{
    match station.tell(place) {
        Ok(holding) => station.engines().field.degree() * holding.width as usize / 8,
        Err(_) => 0,
    }
}

// The length of the buffer that goes with a request.
fn length_for(station: &Station<Engine, Engine>, request: &Request) -> usize
    ensures { result ≡ buffer_length (post_of station.now) request.now }
{
    match request {
        Request::Open { length, .. } | Request::Publish { length } => *length,
        Request::HandOut { place, length } => match length {
            Some(length) => *length,
            None => right_length(station, *place),
        },
        _ => 0,
    }
}

// What a station replies to a request, with the bytes where they were asked for.
fn answer_of(request: &Request, reply: Result<call::Answer, Refusal>, buffer: Vec<u8>) -> Answer
    ensures { said result ≡ said_as (wants_bytes request.now) reply buffer.items }
{
    match reply {
        Ok(call::Answer::Done) => done(request, buffer),
        Ok(call::Answer::Told(Holding { width, allowance })) => Answer::Told { width, allowance },
        Ok(call::Answer::Likeness(alike)) => Answer::Likeness(alike),
        Err(refusal) => Answer::Refused(refusal),
    }
}

// Hands over a list of calls, and takes the answer and the buffer of the first.
fn first_reply(
    heap: Global,
    station: &mut Station<Engine, Engine>,
    list: &mut [Exchange<'_>],
) -> (Result<call::Answer, Refusal>, Vec<u8>)
    requires { 0 < length list.old }
    ensures replied { (Some result.0, result.1.items) ∷ [] ≡ take 1 (replies_at (post_of station.old) (asked_of list.old)) }
    ensures post { post_of station.new ≡ post_through (post_of station.old) (calls_of list.old) }
{
    station.carry_out(list);
    let answer = list[0].answer;
    let buffer = mem::replace(&mut list[0].buffer, Vec::new(heap));
    match answer {
        Some(answer) => (answer, buffer),
        None => unreachable(),
    }
}

// Hands over one call with its buffer.
fn exchange(
    heap: Global,
    station: &mut Station<Engine, Engine>,
    call: Call<'_>,
    buffer: Vec<u8>,
) -> (Result<call::Answer, Refusal>, Vec<u8>)
    ensures answers { result.0 ≡ answer_at (post_of station.old) call.entry (length buffer.items) }
    ensures writes { result.1.items ≡ buffer_at (post_of station.old) call.entry buffer.items }
    ensures post { post_of station.new ≡ post_at (post_of station.old) call.entry }
{
    let mut list = [Exchange {
        call,
        buffer,
        answer: None,
    }];
    first_reply(heap, station, &mut list)
}

// Carries out a request at a station; where memory is wanting, the station is as it was.
pub fn carry_out(
    heap: Global,
    station: &mut Station<Engine, Engine>,
    request: Request,
) -> Result<Answer, AllocError>
    ensures { MatchResult result (λ answer. (said answer ≡ answered (post_of station.old) request) × (post_of station.new ≡ post_after (post_of station.old) request)) (λ _. post_of station.new ≡ post_of station.old) }
{
    let length = length_for(station, &request);
    let buffer = vec![in heap; 0u8; length]?;
    let (reply, buffer) = exchange(heap, station, call_of(&request), buffer);
    Ok(answer_of(&request, reply, buffer))
}
