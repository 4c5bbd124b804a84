// A line for each case, and how many of them hold.

#[derive(Drop)]
pub struct Report {
    held: u64,
}

impl Report {
    pub fn new() -> Report {
        Report { held: 0 }
    }

    pub fn held(&self) -> u64 {
        self.held
    }

    // Prints the line of a case.
    pub fn case(&mut self, rt: &HostRuntime, what: &str, holds: bool) -> anyhow::Result<()> {
        if holds {
            self.held = self.held.wrapping_add(1);
            println!(rt; "ok {what}")?;
        } else {
            println!(rt; "FAILED {what}")?;
        }
        Ok(())
    }
}
