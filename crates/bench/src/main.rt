// Carries out cases at degree 16 by the library, and says of each whether it holds.
#![tactic(auto)]

mod calls;
mod counts;
mod desk;
mod joins;
mod noise;
mod report;
mod rounding;

use report::Report;

fn run(rt: &HostRuntime) -> anyhow::Result<()> {
    let mut report = Report::new();
    noise::cases(rt, &mut report)?;
    joins::cases(rt, &mut report)?;
    rounding::cases(rt, &mut report)?;
    counts::cases(rt, &mut report)?;
    let held = report.held();
    println!(rt; "{held} cases hold")?;
    Ok(())
}

fn main(rt: HostRuntime) -> anyhow::Result<()> {
    run(&rt)
}
