//! Bytes as hex digits, the high one first.
ghost use Rattle.std.specs.Prelude.{◌≡◌, ◌<◌, [], ◌∷◌, MatchOption, IfOk, None, Some};
ghost use Rattle.script.specs.Hex.{digit_value, byte_value, bytes_written, digit_of, digits_of};

use std::alloc::{AllocError, Global};

// The bytes that a word writes, two digits each; nothing if it writes none.
pub(crate) fn bytes_written(heap: Global, word: &str) -> Result<Option<Vec<u8>>, AllocError>
    ensures { let said = bytes_written word.now in IfOk result (λ bytes. MatchOption bytes (said ≡ None) (λ those. said ≡ Some those.items)) }
{
    let mut bytes = Vec::new(heap);
    let mut left = word.as_bytes();
    while let [high, low, others @ ..] = left {
        let Some(byte) = byte_value(*high, *low) else {
            return Ok(None);
        };
        bytes.push(byte)?;
        left = others;
    }
    Ok(left.is_empty().then_some(bytes))
}

// The byte that two digits write.
fn byte_value(high: u8, low: u8) -> Option<u8>
    ensures { result ≡ byte_value high low }
{
    Some(16 * digit_value(high)? + digit_value(low)?)
}

// The value of a digit, which may be of either case.
fn digit_value(digit: u8) -> Option<u8>
    ensures { result ≡ digit_value digit }
{
    match digit {
        b'0'..=b'9' => Some(digit - b'0'),
        b'a'..=b'f' => Some(digit - b'a' + 10),
        b'A'..=b'F' => Some(digit - b'A' + 10),
        _ => None,
    }
}

// The two digits of a byte, in lower case. They write that byte.
pub(crate) fn digits_of(byte: u8) -> [char; 2]
    ensures digits { result ≡ digits_of byte }
    ensures written { bytes_written result ≡ Some (byte ∷ []) }
{
    [digit_of(byte / 16), digit_of(byte % 16)]
}

// The digit of a value below 16.
fn digit_of(value: u8) -> char
    requires { value < 16 }
    ensures { result ≡ digit_of value }
{
    if value < 10 {
        char::from(b'0' + value)
    } else {
        char::from(b'a' + value - 10)
    }
}
