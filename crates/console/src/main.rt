// Carries out a script from standard input: a line is answered by a line, and a last line counts them.
#![tactic(auto)]

use reading::spaces;
use session::lines::Lines;
use session::state::Session;
use session::tally::Tally;
use std::io::Read;

fn run(rt: &HostRuntime) -> anyhow::Result<()> {
    let mut script = Vec::new(rt.alloc());
    rt.stdin().read_to_end(&mut script)?;
    // Words stand between white space of every kind, and the session knows that of ASCII.
    spaces::flatten(script.as_mut_slice());
    let mut session = Session::new();
    let mut tally = Tally::new();
    for line in Lines::new(script.as_slice()) {
        if let Some(reply) = session.answer(rt.alloc(), line)? {
            tally.count(&reply.answer);
            println!(rt; "{reply}")?;
        }
    }
    println!(rt; "{tally}")?;
    Ok(())
}

fn main(rt: HostRuntime) -> anyhow::Result<()> {
    run(&rt)
}
