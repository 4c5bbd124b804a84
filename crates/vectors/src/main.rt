// Carries out a script at each of four degrees, and holds every answer to the one that an
// independent model of the rules gives.
#![tactic(auto)]

mod comparison;

use comparison::Comparison;
use session::lines::Lines;
use session::state::Session;
use std::fs;

// Each script is a file by the name of its degree, and so are its answers.
const DEGREES: [&str; 4] = ["16", "512", "768", "1024"];

// How many differences of a script are printed.
const PRINTED: u64 = 5;

// Carries out a script beside its expected answers, and prints the first lines that differ.
fn compare(
    rt: &HostRuntime,
    degree: &str,
    script: &[u8],
    answers: &[u8],
) -> anyhow::Result<Comparison> {
    let mut session = Session::new();
    let mut comparison = Comparison::new();
    let mut expected = Lines::new(answers);
    for line in Lines::new(script) {
        let Some(reply) = session.answer(rt.alloc(), line)? else {
            continue;
        };
        let answer = format!(in rt.alloc(); "{reply}")?;
        if !comparison.agrees(expected.next(), answer.as_bytes())
            && comparison.differing() <= PRINTED
        {
            println!(rt; "{degree}: not as expected: {answer}")?;
        }
    }
    for _ in expected {
        comparison.missing();
    }
    Ok(comparison)
}

fn run(rt: &HostRuntime) -> anyhow::Result<()> {
    for degree in DEGREES {
        let script = fs::read(rt, format!(in rt.alloc(); "{degree}.script")?)?;
        let answers = fs::read(rt, format!(in rt.alloc(); "{degree}.answers")?)?;
        let comparison = compare(rt, degree, script.as_slice(), answers.as_slice())?;
        println!(rt; "{degree}: {comparison}")?;
    }
    Ok(())
}

fn main(rt: HostRuntime) -> anyhow::Result<()> {
    run(&rt)
}
