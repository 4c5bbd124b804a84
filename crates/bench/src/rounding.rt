// A rounding that reaches 2^width goes round to 0, and is not cut down to 2^width - 1.
use crate::calls;
use crate::desk::{Desk, at_zero};
use crate::report::Report;
use custody::call::Answer;
use packing::rows::unpack_row;

// Under f' = 0 and g = -1 the noise 1 has the product 3456 at place 0.
pub fn cases(rt: &HostRuntime, report: &mut Report) -> anyhow::Result<()> {
    let mut desk = Desk::new(&[0; 16], &at_zero(-1))?;
    let obeyed = desk.obeys(calls::wrapping(0, 10, &at_zero(1)));
    let mut bytes = [255; 20];
    let handed = desk.ask(calls::hand_out(0), &mut bytes) == Ok(Answer::Done);
    let mut row = [1; 16];
    let read = unpack_row(10, &bytes, &mut row).is_ok();
    let zero = obeyed && handed && read && row[0] == 0;
    report.case(rt, "3456 rounds to 1024 at width 10, which is 0", zero)
}
