// How many answers of a script are as expected, and how many are not.
use std::fmt;

#[derive(Drop)]
pub struct Comparison {
    agreeing: u64,
    differing: u64,
}

impl Comparison {
    // No answer yet.
    pub fn new() -> Comparison {
        Comparison {
            agreeing: 0,
            differing: 0,
        }
    }

    // How many answers are not as expected so far.
    pub fn differing(&self) -> u64 {
        self.differing
    }

    // Counts an answer, and says whether it is as expected; where none is expected it is not.
    pub fn agrees(&mut self, expected: Option<&[u8]>, answer: &[u8]) -> bool {
        let agrees = expected == Some(answer);
        if agrees {
            self.agreeing = self.agreeing.wrapping_add(1);
        } else {
            self.differing = self.differing.wrapping_add(1);
        }
        agrees
    }

    // Counts an answer that was expected and not given.
    pub fn missing(&mut self) {
        self.differing = self.differing.wrapping_add(1);
    }
}

impl fmt::Display for Comparison {
    fn fmt<W: fmt::Write>(&self, f: &mut fmt::Formatter<W>) -> fmt::Result {
        let agreeing = self.agreeing;
        let differing = self.differing;
        write!(f, "{agreeing} lines agree")?;
        if differing > 0 {
            write!(f, ", {differing} do not")?;
        }
        Ok(())
    }
}
