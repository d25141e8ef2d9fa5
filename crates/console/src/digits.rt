// Bytes as hexadecimal digits, two for each, the higher first.
ghost use Rattle.std.specs.Prelude.{◌≡◌, true, IfOk, string_bytes, MatchOption};
ghost use Rattle.pages.specs.Lists.{every};
ghost use Rattle.console.specs.Hex.{in_hex, is_digit, BadAt, HexRead};

use std::alloc::{AllocError, Global};
use thiserror::Error;

// Why a text is not read as bytes.
#[derive(Clone, Copy, Debug, PartialEq, Eq, Error)]
pub enum BadHex {
    // What stands at this place, counted from 0, is no digit.
    #[error("no hexadecimal digit after {0} of them")]
    NotADigit(usize),
    // There are so many digits, and a byte wants two.
    #[error("an odd number of digits, {0}")]
    Odd(usize),
    #[error("there is no memory left")]
    NoMemory,
}

// Small digits. These are the library's `encode`; it stands here for its contract, which says what they are in the words of the statements.
pub fn hex_of(heap: Global, bytes: &[u8]) -> Result<String, AllocError>
    ensures { IfOk result (λ s. string_bytes s ≡ in_hex bytes.now) }
{
    hex::encode(heap, bytes)
}

// Digits may be small or capital.
pub fn bytes_of_hex(heap: Global, text: &[u8]) -> Result<Vec<u8>, BadHex>
    ensures { HexRead text.now result }
{
    if let Some(place) = first_bad(text) {
        return Err(BadHex::NotADigit(place));
    }
    if text.len() % 2 == 1 {
        return Err(BadHex::Odd(text.len()));
    }
    // Of digits, and an even number of them, only memory can be lacking.
    hex::decode(heap, text).map_err(|_| BadHex::NoMemory)
}

// The place of the first that is no digit.
fn first_bad(text: &[u8]) -> Option<usize>
    ensures { MatchOption result (every is_digit text.now ≡ true) (BadAt text.now) }
{
    text.iter().position(|c| !c.is_ascii_hexdigit())
}
