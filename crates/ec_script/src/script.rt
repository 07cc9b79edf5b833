// The lines of a script.
ghost use Rattle.std.specs.Prelude.{◌≡◌, ◌≢◌, ◌<◌, [], ◌∷◌, length};
ghost use Rattle.ec_script.specs.Lines.{lines_of};

use ec_words::piece_len;

/// The first line and what is behind it.
pub fn split_line(bytes: &[u8]) -> (&[u8], &[u8])
    requires { bytes.now ≢ [] }
    ensures lines { lines_of bytes.now ≡ result.0.now ∷ lines_of result.1.now }
    ensures shorter { length result.1.now < length bytes.now }
{
    let at = piece_len(bytes, b'\n');
    if at < bytes.len() {
        (&bytes[..at], &bytes[at + 1..])
    } else {
        (bytes, &bytes[..0])
    }
}

/// How many lines a script has.
pub fn count_lines(bytes: &[u8]) -> usize
    ensures { result ≡ length (lines_of bytes.now) }
{
    let mut count = 0;
    let mut rest = bytes;
    'lines: while !rest.is_empty() {
        let (_, behind) = split_line(rest);
        rest = behind;
        count += 1;
    }
    count
}
