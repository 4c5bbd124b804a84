// The lengths of the buffers that a script's calls write into.
ghost use Rattle.std.specs.Prelude.{◌≡◌, ◌*◌, ◌/◌, min};
ghost use Rattle.reading.specs.Cuts.{others};
ghost use Rattle.reading.specs.Lengths.{buffer_for, given_length, given_length_or};
ghost use Rattle.reading.specs.Lines.{words_left};

use crate::fault::Unread;
use crate::numbers;
use crate::words::Words;

// Longer than every buffer that a call could want, so a longer one is refused all the same.
pub const MAX_BUFFER: usize = 8192;

// A length of a buffer, which is at most the longest.
pub(crate) fn buffer(length: usize) -> usize
    ensures { result ≡ buffer_for length }
{
    length.min(MAX_BUFFER)
}

// How many bytes hold `count` numbers of `bits` bits each, where that is at most the longest buffer.
pub fn bytes_for(count: usize, bits: u32) -> usize
    ensures { result ≡ min (count * bits / 8) 8192 }
{
    buffer(count.saturating_mul(bits as usize) / 8)
}

// The length that the line gives, if it gives one.
pub fn given(words: &mut Words<'_>) -> Result<Option<usize>, Unread>
    ensures answers { result ≡ given_length (words_left words.old) }
    ensures leaves { words_left words.new ≡ others (words_left words.old) }
{
    let length = words.optional().map(numbers::number).transpose()?;
    Ok(length.map(buffer))
}

// The length that the line gives, else the right one.
pub fn given_or(words: &mut Words<'_>, right: usize) -> Result<usize, Unread>
    ensures answers { result ≡ given_length_or right (words_left words.old) }
    ensures leaves { words_left words.new ≡ others (words_left words.old) }
{
    Ok(given(words)?.unwrap_or(buffer(right)))
}
