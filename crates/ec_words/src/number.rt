// Numbers in words.
ghost use Rattle.std.specs.Prelude.{◌≡◌, ◌≤◌, ◌-◌, ◌^◌, ℕ, Some, MatchOption};
ghost use Rattle.std.specs.Fmt.{decimal};
ghost use Rattle.ec_words.specs.Spelling.{IsNumberIn, mode_of, is_octal};

use itoa::Buffer;

/// A number from `least` to `most` in its one spelling.
pub fn number_in(word: &[u8], least: u64, most: u64) -> Option<u64>
    ensures { MatchOption result
        ((n : ℕ) → IsNumberIn least most word.now n → ⊥)
        (λ n. IsNumberIn least most word.now n) }
{
    let number = number_of(word)?;
    if number < least || most < number {
        return None;
    }
    Some(number)
}

// A number in its one spelling.
fn number_of(word: &[u8]) -> Option<u64>
    ensures { MatchOption result
        ((n : ℕ) → IsNumberIn 0 (2 ^ 64 - 1) word.now n → ⊥)
        (λ n. IsNumberIn 0 (2 ^ 64 - 1) word.now n) }
{
    let number = parsed(word)?;
    let mut buffer = Buffer::new();
    if buffer.format(number).as_bytes() == word {
        Some(number)
    } else {
        None
    }
}

fn parsed(word: &[u8]) -> Option<u64>
    ensures { (n : ℕ) → IsNumberIn 0 (2 ^ 64 - 1) word.now n → result ≡ Some n }
{
    match std::str::from_utf8(word) {
        Ok(text) => text.parse::<u64>().ok(),
        Err(_) => None,
    }
}

/// Four octal digits.
pub fn mode_of(word: &[u8]) -> Option<u16>
    ensures { result ≡ mode_of word.now }
{
    match word {
        [a, b, c, d] => {
            if is_octal(*a) && is_octal(*b) && is_octal(*c) && is_octal(*d) {
                Some(
                    u16::from(*a - b'0') * 512
                        + u16::from(*b - b'0') * 64
                        + u16::from(*c - b'0') * 8
                        + u16::from(*d - b'0'),
                )
            } else {
                None
            }
        }
        _ => None,
    }
}

fn is_octal(byte: u8) -> bool
    ensures { result ≡ is_octal byte }
{
    byte >= b'0' && byte <= b'7'
}
