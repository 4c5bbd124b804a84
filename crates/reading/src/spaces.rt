// White space beyond ASCII, which separates words as a space does.
ghost use Rattle.std.specs.Prelude.{◌≡◌, slice_index_or};
ghost use Rattle.reading.specs.Spaces.{white_by, white_front, spaced};

// How many bytes the character of white space takes that a text begins with, or 0 where it begins with none.
fn white_at_start(text: &[u8]) -> usize
    ensures { result ≡ white_by (slice_index_or text.now 0 0) (slice_index_or text.now 1 0) (slice_index_or text.now 2 0) }
{
    match text {
        [0xC2, 0x85 | 0xA0, ..] => 2,
        [0xE1, 0x9A, 0x80, ..] | [0xE3, 0x80, 0x80, ..] => 3,
        [0xE2, 0x80, 0x80..=0x8A | 0xA8 | 0xA9 | 0xAF, ..] | [0xE2, 0x81, 0x9F, ..] => 3,
        _ => 0,
    }
}

// How many bytes of white space are to come at the front of a text, where `left` of a character that has begun are.
fn white_at_front(left: usize, text: &[u8]) -> usize
    ensures { result ≡ white_front left text.now }
{
    if left == 0 {
        white_at_start(text)
    } else {
        left
    }
}

// Writes a space over each byte of white space beyond ASCII; the text keeps its length.
pub fn flatten(text: &mut [u8])
    ensures { text.new ≡ spaced 0 text.old }
{
    let mut left = 0;
    // By index, since the bytes ahead are read where one is written.
    for i in 0..text.len() {
        let white = white_at_front(left, &text[i..]);
        if white > 0 {
            text[i] = b' ';
        }
        left = white.saturating_sub(1);
    }
}
