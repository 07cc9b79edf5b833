// Pieces of bytes that end at a certain byte.
ghost use Rattle.std.specs.Prelude.{◌≡◌};
ghost use Rattle.ec_words.specs.PieceLengths.{piece_len};

/// The length of the first piece, without the byte at its end.
pub fn piece_len(bytes: &[u8], mark: u8) -> usize
    ensures { result ≡ piece_len mark bytes.now }
{
    let mut at = 0;
    for byte in bytes {
        if *byte == mark {
            return at;
        }
        at += 1;
    }
    at
}
