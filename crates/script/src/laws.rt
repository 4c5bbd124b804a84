// What is written can be read.
ghost use Rattle.script.specs.Laws.{BytesReturn, DigitsReturn, RowsReturn};

// Each digit that is written is read as its value.
pub fn digits_return()
    ensures { DigitsReturn }
{}

// One byte or more, as they are written, are read as they were.
pub fn bytes_return()
    ensures { BytesReturn }
{}

// A row that a script may write, as it is written, is read as it was.
pub fn rows_return()
    ensures { RowsReturn }
{}
