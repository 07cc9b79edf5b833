// Texts with escapes.
ghost use Rattle.std.specs.Prelude.{◌≡◌, ◌<◌, ◌≤◌, length, IfOk, IfSome};
ghost use Rattle.std.specs.Option.{option_map};
ghost use Rattle.ec_words.specs.Spelling.{text_of, led_by, hex_digit, hex_byte, plain_byte};

use ec_base::NoMemory;
use std::alloc::Global;

/// The text that a word stands for.
pub fn text_of(alloc: Global, word: &[u8]) -> Result<Option<Vec<u8>>, NoMemory>
    ensures { IfOk result (λ found. option_map (λ text. text.items) found ≡ text_of word.now) }
{
    let mut text = Vec::with_capacity(alloc, word.len())?;
    let mut rest = word;
    'bytes: while !rest.is_empty() {
        let (byte, behind) = next_byte(rest);
        let Some(byte) = byte else {
            return Ok(None);
        };
        text.push(byte)?;
        rest = behind;
    }
    Ok(Some(text))
}

// The first byte that the word stands for, if it does, and what is behind it.
fn next_byte(word: &[u8]) -> (Option<u8>, &[u8])
    requires { 1 ≤ length word.now }
    ensures text { text_of word.now ≡ led_by result.0 (text_of result.1.now) }
    ensures shorter { length result.1.now < length word.now }
{
    match word {
        [b'%', high, low, rest @ ..] => (hex_byte(*high, *low), rest),
        [b'%', rest @ ..] => (None, rest),
        [byte, rest @ ..] => (plain_byte(*byte), rest),
        [] => (None, word),
    }
}

fn plain_byte(byte: u8) -> Option<u8>
    ensures { result ≡ plain_byte byte }
{
    if byte >= 0x21 && byte <= 0x7e {
        Some(byte)
    } else {
        None
    }
}

fn hex_byte(high: u8, low: u8) -> Option<u8>
    ensures { result ≡ hex_byte (hex_digit high) (hex_digit low) }
{
    let high = hex_digit(high)?;
    let low = hex_digit(low)?;
    Some(high * 16 + low)
}

fn hex_digit(byte: u8) -> Option<u8>
    ensures value { result ≡ hex_digit byte }
    ensures small { IfSome result (λ digit. digit < 16) }
{
    if byte >= b'0' && byte <= b'9' {
        Some(byte - b'0')
    } else if byte >= b'a' && byte <= b'f' {
        Some(byte - b'a' + 10)
    } else if byte >= b'A' && byte <= b'F' {
        Some(byte - b'A' + 10)
    } else {
        None
    }
}
