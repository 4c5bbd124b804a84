// The bits of a message, four to an octet.
ghost use Rattle.std.specs.Prelude.{◌≡◌};
ghost use Rattle.code.specs.Messages.{number};

use crate::nibble::Nibble;

// The number that an octet carries: the low or the high half of a byte, 0 past the end of the message.
pub fn number_at(message: &[u8], octet: usize) -> Nibble
    ensures { result.value ≡ number message.now octet }
{
    let byte = message.get(octet / 2).copied().unwrap_or(0);
    let value = if octet % 2 == 0 { byte % 16 } else { byte / 16 };
    Nibble { value }
}
