// Noise at width 10 under the key f' = 0, g = 1: its allowances, and what is refused.
use crate::calls;
use crate::desk::{Desk, at_zero};
use crate::report::Report;
use ring::refusal::Refusal;

// Noise that is too large is refused, and the place stays empty.
fn too_large(desk: &mut Desk) -> bool {
    desk.refuses(calls::wrapping(3, 10, &at_zero(-7)), Refusal::Noise) && desk.is_empty(3)
}

// A wrapping at width 9 is trimmed to width 8.
fn to_eight(desk: &mut Desk) -> bool {
    desk.wraps(3, 9, &at_zero(6), 1) && desk.obeys(calls::trim(3)) && desk.has(3, 8, 1)
}

pub fn cases(rt: &HostRuntime, report: &mut Report) -> anyhow::Result<()> {
    let mut desk = Desk::new(&[0; 16], &at_zero(1))?;
    let six = desk.wraps(0, 10, &at_zero(6), 2);
    report.case(rt, "noise 6 has allowance 2", six)?;
    let two = desk.wraps(1, 10, &at_zero(2), 1);
    report.case(rt, "noise 2 has allowance 1", two)?;
    let lowest = desk.obeys(calls::wrapping(2, 10, &at_zero(-6)));
    report.case(rt, "noise -6 passes", lowest)?;
    report.case(rt, "noise -7 is refused with 3", too_large(&mut desk))?;
    let narrow = desk.refuses(calls::wrapping(3, 8, &at_zero(1)), Refusal::Width);
    report.case(rt, "a deposit at width 8 is refused with 11", narrow)?;
    report.case(rt, "a trim from width 9 to 8 passes", to_eight(&mut desk))?;
    let again = desk.refuses(calls::trim(3), Refusal::Width);
    report.case(rt, "a trim at width 8 is refused with 11", again)
}
