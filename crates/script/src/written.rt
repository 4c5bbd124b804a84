// Bytes and rows as they are written.
ghost use Rattle.std.specs.Prelude.{◌≡◌, ◌<◌, ◌++◌};
ghost use Rattle.std.specs.Fmt.{WritesOnOk};
ghost use Rattle.script.specs.Written.{byte_digits, digit_code as code_of, hex_of, row_text, term_text};

use std::fmt;

// The digit of a value below sixteen; std's `from_digit` would answer an Option of a char.
fn digit_code(value: u8) -> u8
    requires { value < 16 }
    ensures { result ≡ code_of value }
{
    if value < 10 {
        b'0' + value
    } else {
        b'a' - 10 + value
    }
}

// The two digits of a byte, the high one first.
pub fn digits(byte: u8) -> [u8; 2]
    ensures { result ≡ byte_digits byte }
{
    [digit_code(byte / 16), digit_code(byte % 16)]
}

// Writes the two digits of a byte, the high one first.
fn byte<W: fmt::Write>(value: u8, f: &mut fmt::Formatter<W>) -> fmt::Result
    ensures { WritesOnOk W.write_str_gives f.old result (byte_digits value) f.new }
{
    let [high, low] = digits(value).map(|digit| digit as char);
    write!(f, "{high}{low}")
}

// Writes bytes as pairs of digits.
pub fn bytes<W: fmt::Write>(values: &[u8], f: &mut fmt::Formatter<W>) -> fmt::Result
    ensures { WritesOnOk W.write_str_gives f.old result (hex_of values.now) f.new }
{
    for value in values {
        byte(*value, f)?;
    }
    Ok(())
}

// Writes a term with what stands before it. Where that is nothing, nothing is written for it, since a writer sees each piece.
fn term<W: fmt::Write>(
    separator: &str,
    place: usize,
    value: u16,
    f: &mut fmt::Formatter<W>,
) -> fmt::Result
    ensures { WritesOnOk W.write_str_gives f.old result (separator.now ++ term_text place value) f.new }
{
    if separator.is_empty() {
        write!(f, "{place}:{value}")
    } else {
        write!(f, "{separator}{place}:{value}")
    }
}

// Writes a row as `PLACE:VALUE` for each place that is not zero, or `-` where all are.
pub(crate) fn row<W: fmt::Write>(values: &[u16], f: &mut fmt::Formatter<W>) -> fmt::Result
    ensures { WritesOnOk W.write_str_gives f.old result (row_text values.now) f.new }
{
    let mut separator = "";
    for (place, value) in values.iter().enumerate() {
        if *value == 0 {
            continue;
        }
        term(separator, place, *value, f)?;
        separator = ",";
    }
    if separator.is_empty() {
        write!(f, "-")
    } else {
        Ok(())
    }
}
