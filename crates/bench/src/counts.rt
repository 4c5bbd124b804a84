// How many ring products each call takes from the engines.
use crate::calls;
use crate::desk::{Desk, at_zero};
use crate::report::Report;
use custody::call::Call;

// How many products a call takes.
fn taken(desk: &mut Desk, call: Call<'_>, buffer: &mut [u8]) -> u64 {
    let before = desk.products();
    let _ = desk.ask(call, buffer);
    desk.products().wrapping_sub(before)
}

// What a deposit takes, obeyed and declined.
fn deposits(rt: &HostRuntime, report: &mut Report, desk: &mut Desk) -> anyhow::Result<()> {
    let obeyed = taken(desk, calls::wrapping(0, 10, &at_zero(1)), &mut []);
    report.case(rt, "a deposit takes 2", obeyed == 2)?;
    let declined = taken(desk, calls::wrapping(1, 10, &at_zero(-7)), &mut []);
    report.case(
        rt,
        "a deposit declined for its noise takes none",
        declined == 0,
    )
}

// What the other calls take.
fn others(rt: &HostRuntime, report: &mut Report, desk: &mut Desk) -> anyhow::Result<()> {
    let open = taken(desk, calls::open(0), &mut [0]);
    report.case(rt, "an opening takes 1", open == 1)?;
    let trim = taken(desk, calls::trim(0), &mut []);
    report.case(rt, "a trim takes 1", trim == 1)?;
    let second = desk.obeys(calls::wrapping(1, 9, &at_zero(1)));
    let alike = taken(desk, calls::alike(0, 1), &mut []);
    report.case(rt, "a comparison takes 2", second && alike == 2)?;
    let join = taken(desk, calls::join(0, 1), &mut []);
    report.case(rt, "a join takes none", join == 0)
}

pub fn cases(rt: &HostRuntime, report: &mut Report) -> anyhow::Result<()> {
    let mut desk = Desk::new(&[0; 16], &at_zero(1))?;
    report.case(rt, "keying takes 1 product", desk.products() == 1)?;
    deposits(rt, report, &mut desk)?;
    others(rt, report, &mut desk)
}
