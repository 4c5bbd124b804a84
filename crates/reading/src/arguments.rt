// The arguments of a command, each the next word of its line.
ghost use Rattle.std.specs.Prelude.{◌≡◌, vec_items};
ghost use Rattle.reading.specs.Arguments.{leaving, argument, number_if_any};
ghost use Rattle.reading.specs.Cuts.{others};
ghost use Rattle.reading.specs.Hex.{bytes_of};
ghost use Rattle.reading.specs.Lines.{words_left};
ghost use Rattle.reading.specs.Memory.{Spared};
ghost use Rattle.reading.specs.Numerals.{number_of, width_of};
ghost use Rattle.reading.specs.Rows.{row_by};

use crate::coefficients::Coefficient;
use crate::fault::Fault;
use crate::words::Words;
use crate::{hex, numbers, rows};
use std::alloc::Global;

impl Words<'_> {
    // A number.
    pub fn number(&mut self) -> Result<usize, Fault>
        ensures answers { leaving (λ n. n) self.new result ≡ argument number_of (words_left self.old) }
        ensures leaves { words_left self.new ≡ others (words_left self.old) }
    {
        let word = self.required()?;
        Ok(numbers::number(word)?)
    }

    // A width in bits. Not one function with `number`: each has the definition of its own kind.
    pub fn width(&mut self) -> Result<u32, Fault>
        ensures answers { leaving (λ n. n) self.new result ≡ argument width_of (words_left self.old) }
        ensures leaves { words_left self.new ≡ others (words_left self.old) }
    {
        let word = self.required()?;
        Ok(numbers::width(word)?)
    }

    // Bytes in hexadecimal digits.
    pub fn bytes(&mut self, heap: Global) -> Result<Vec<u8>, Fault>
        ensures answers { Spared (leaving vec_items self.new result) (argument bytes_of (words_left self.old)) }
        ensures leaves { words_left self.new ≡ others (words_left self.old) }
    {
        let word = self.required()?;
        hex::read(heap, word)
    }

    // A row of coefficients of one kind, with `degree` places where it is written without a length.
    pub fn row<C: Coefficient + Drop>(
        &mut self,
        heap: Global,
        degree: usize,
    ) -> Result<Vec<C>, Fault>
        ensures answers { Spared (leaving vec_items self.new result) (argument (row_by C.reads degree) (words_left self.old)) }
        ensures leaves { words_left self.new ≡ others (words_left self.old) }
    {
        let word = self.required()?;
        rows::read(heap, word, degree)
    }

    // A number, if the line gives one.
    pub fn number_if_any(&mut self) -> Result<Option<usize>, Fault>
        ensures answers { leaving (λ n. n) self.new result ≡ number_if_any (words_left self.old) }
        ensures leaves { words_left self.new ≡ others (words_left self.old) }
    {
        Ok(self.optional().map(numbers::number).transpose()?)
    }
}
