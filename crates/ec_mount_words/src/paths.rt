// Whether bytes are a path, without memory.
ghost use Rattle.std.specs.Prelude.{◌≡◌, ◌∷◌, [], None, MatchBool};
ghost use Rattle.std.specs.List.{position, slice_split};
ghost use Rattle.std.specs.Option.{option_map_or};
ghost use Rattle.ec_base.specs.Names.{is_bad, is_dots, is_slash, names_fault, path_fault, IsName};

use ec_base::{MAX_NAME_BYTES, MAX_PATH_NAMES};

/// Whether `Path::read` reads these bytes.
pub(crate) fn is_path(bytes: &[u8]) -> bool
    ensures { MatchBool result (path_fault bytes.now ≡ None) (path_fault bytes.now ≡ None → ⊥) }
{
    match bytes {
        [b'/'] => true,
        [b'/', rest @ ..] => are_names(rest),
        _ => false,
    }
}

// Whether names stand between the slashes, and not too many.
fn are_names(bytes: &[u8]) -> bool
    ensures { MatchBool result (names_fault 0 (slice_split is_slash bytes.now) ≡ None) (names_fault 0 (slice_split is_slash bytes.now) ≡ None → ⊥) }
{
    let mut rest = bytes;
    for _before in 0..MAX_PATH_NAMES {
        let (part, later) = cut(rest);
        if !is_name(part) {
            return false;
        }
        let Some(later) = later else {
            return true;
        };
        rest = later;
    }
    false
}

fn is_name(bytes: &[u8]) -> bool
    ensures { MatchBool result (IsName bytes.now) (IsName bytes.now → ⊥) }
{
    if bytes.is_empty() {
        return false;
    }
    if bytes.len() > MAX_NAME_BYTES {
        return false;
    }
    if has_bad(bytes) || is_dots(bytes) {
        return false;
    }
    match std::str::from_utf8(bytes) {
        Ok(_) => true,
        Err(_) => false,
    }
}

fn has_bad(bytes: &[u8]) -> bool
    ensures { MatchBool result (position is_bad bytes.now ≡ None → ⊥) (position is_bad bytes.now ≡ None) }
{
    match first_bad(bytes) {
        Some(_) => true,
        None => false,
    }
}

fn first_bad(bytes: &[u8]) -> Option<usize>
    ensures { result ≡ position is_bad bytes.now }
{
    bytes.iter().position(|byte| *byte == b'/' || *byte == 0)
}

fn is_dots(bytes: &[u8]) -> bool
    ensures { result ≡ is_dots bytes.now }
{
    match bytes {
        [a] => *a == b'.',
        [a, b] => *a == b'.' && *b == b'.',
        _ => false,
    }
}

// The bytes before the first slash, and those after it, if there is one.
fn cut(bytes: &[u8]) -> (&[u8], Option<&[u8]>)
    ensures { slice_split is_slash bytes.now ≡ result.0.now ∷ option_map_or (λ later. slice_split is_slash later.now) result.1 [] }
{
    match first_slash(bytes) {
        Some(at) => (&bytes[..at], Some(&bytes[at + 1..])),
        None => (bytes, None),
    }
}

fn first_slash(bytes: &[u8]) -> Option<usize>
    ensures { result ≡ position is_slash bytes.now }
{
    bytes.iter().position(|byte| *byte == b'/')
}
