// The table of the sixteen words.
ghost use Rattle.std.specs.Prelude.{◌≡◌};
ghost use Rattle.code.specs.Words.{word as word_of, TableRule};

use crate::nibble::Nibble;

// Each word as a mask, position 0 its lowest bit.
const WORDS: [u8; 16] = [
    0x00, 0x0f, 0x3c, 0x33, 0xf0, 0xff, 0xcc, 0xc3, 0xaa, 0xa5, 0x96, 0x99, 0x5a, 0x55, 0x66, 0x69,
];

// The table, whose rule stands in the contract: it is built from four rows, it is closed under exclusive-or,
// and two of its words differ in 4 or 8 positions.
pub fn table_rule() -> [u8; 16]
    ensures { TableRule result }
{
    WORDS
}

// The word of a number, 0 or 1 at each position: numbers and no bools, since the radius is multiplied by them.
pub fn word(number: Nibble) -> [u8; 8]
    ensures { result ≡ word_of number.value }
{
    let table = table_rule();
    let mask = table[number.value as usize];
    std::array::from_fn(|i| (mask >> i) & 1)
}
