// Joins: allowances add up to the radius, and messages add up bit by bit.
use crate::calls;
use crate::desk::{Desk, at_zero};
use crate::report::Report;
use anyhow::anyhow;
use custody::call::Call;
use custody::exchange::Exchange;
use ring::refusal::Refusal;
use std::alloc::Global;

// A call that has to be obeyed.
fn obeyed(desk: &mut Desk, call: Call<'_>) -> anyhow::Result<()> {
    if desk.obeys(call) {
        Ok(())
    } else {
        Err(anyhow!("a deposit or a join was refused"))
    }
}

// A station whose place 0 holds 85 deposits of allowance 6, joined one by one at width 10.
fn nearly_full() -> anyhow::Result<Desk> {
    let mut desk = Desk::new(&[0; 16], &at_zero(1))?;
    obeyed(&mut desk, calls::wrapping(0, 10, &[6; 16]))?;
    for _ in 0..84 {
        obeyed(&mut desk, calls::wrapping(1, 10, &[6; 16]))?;
        obeyed(&mut desk, calls::join(0, 1))?;
    }
    Ok(desk)
}

pub fn cases(rt: &HostRuntime, report: &mut Report) -> anyhow::Result<()> {
    allowances(rt, report)?;
    messages(rt, report)
}

// A join that would reach the radius is declined.
fn declines(desk: &mut Desk) -> bool {
    desk.wraps(1, 10, &at_zero(6), 2) && desk.refuses(calls::join(0, 1), Refusal::TooNoisy)
}

// A join just below the radius is obeyed.
fn joins(desk: &mut Desk) -> bool {
    desk.obeys(calls::clear(1))
        && desk.wraps(1, 10, &at_zero(2), 1)
        && desk.obeys(calls::join(0, 1))
        && desk.has(0, 10, 511)
}

fn allowances(rt: &HostRuntime, report: &mut Report) -> anyhow::Result<()> {
    let mut desk = nearly_full()?;
    let full = desk.has(0, 10, 510);
    report.case(rt, "85 deposits of allowance 6 join to 510", full)?;
    report.case(rt, "510 and 2 are declined with 12", declines(&mut desk))?;
    let kept = desk.has(0, 10, 510) && desk.has(1, 10, 2);
    report.case(rt, "a declined join leaves both places", kept)?;
    report.case(rt, "510 and 1 join to 511", joins(&mut desk))?;
    report.case(rt, "a join empties the second place", desk.is_empty(1))
}

// A call of a list, with a buffer of some bytes that no message has.
fn exchange<'a>(heap: Global, call: Call<'a>, size: usize) -> anyhow::Result<Exchange<'a>> {
    Ok(Exchange {
        call,
        buffer: vec![in heap; 255u8; size]?,
        answer: None,
    })
}

fn messages(rt: &HostRuntime, report: &mut Report) -> anyhow::Result<()> {
    let heap = rt.alloc();
    let mut desk = Desk::new(&[0; 16], &at_zero(1))?;
    let mut exchanges = [
        exchange(heap, calls::plain(0, &[1]), 0)?,
        exchange(heap, calls::plain(1, &[3]), 0)?,
        exchange(heap, calls::join(0, 1), 0)?,
        exchange(heap, calls::open(0), 1)?,
    ];
    desk.ask_all(&mut exchanges);
    let opened = exchanges[3].buffer.as_slice() == [2].as_slice();
    report.case(rt, "messages 1 and 3 joined open to 2", opened)
}
