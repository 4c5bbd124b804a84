// What is written can be read, numbers are read as std parses them, and the words of a text are texts.
ghost use Rattle.reading.specs.Laws.{NumbersReturn, WordsAreText};
ghost use Rattle.reading.specs.Parses.{NumbersParse};

// A number, as it is written, is read as it was.
pub fn numbers_return()
    ensures { NumbersReturn }
{}

// A number is read as std parses it.
pub fn numbers_parse()
    ensures { NumbersParse }
{}

// Each word of a line that is text is text.
pub fn words_are_text()
    ensures { WordsAreText }
{}
