// The words of a mount table.
ghost use Rattle.std.specs.Prelude.{◌≡◌, ◌∷◌, ℕ, map, MatchBool, MatchOption, IfOk};
ghost use Rattle.std.specs.String.{string_bytes};
ghost use Rattle.ec_mount_words.specs.Mounts.{path_bytes, address_bytes, mount_path, IsMount, IsNew, AreAll, AreMounts, SpellsMounts};

use crate::paths::is_path;
use ec_base::{ClerkId, NoMemory, Path};
use ec_words::{clerk_of, is_word};
use std::alloc::Global;

/// At most so many volumes.
pub const MAX_MOUNTS: usize = 8;

/// The clerk of the words `mounts CLERK PATH=ADDR ..`.
pub fn clerk_of_mounts(words: &[String]) -> Option<ClerkId>
    ensures { MatchOption result ((c : ℕ) → SpellsMounts (map string_bytes words.now) c → ⊥) (λ c. SpellsMounts (map string_bytes words.now) c) }
{
    match words {
        [word, letter, mounts @ ..] => clerk_of_words(word.as_bytes(), letter.as_bytes(), mounts),
        _ => None,
    }
}

fn clerk_of_words(word: &[u8], letter: &[u8], mounts: &[String]) -> Option<ClerkId>
    ensures { MatchOption result ((c : ℕ) → SpellsMounts (word.now ∷ letter.now ∷ map string_bytes mounts.now) c → ⊥) (λ c. SpellsMounts (word.now ∷ letter.now ∷ map string_bytes mounts.now) c) }
{
    if !is_word(word, b"mounts") || !are_mounts(mounts) {
        return None;
    }
    clerk_of(letter)
}

/// Whether these words are a mount table: each one a path, `=` and an address, with different paths.
pub fn are_mounts(words: &[String]) -> bool
    ensures { MatchBool result (AreMounts (map string_bytes words.now)) (AreMounts (map string_bytes words.now) → ⊥) }
{
    !words.is_empty() && words.len() <= MAX_MOUNTS && are_all(words)
}

fn are_all(words: &[String]) -> bool
    ensures { MatchBool result (AreAll (map string_bytes words.now)) (AreAll (map string_bytes words.now) → ⊥) }
{
    match words {
        [] => true,
        [word, rest @ ..] => {
            let word = word.as_str();
            is_mount(word) && is_new(path_of(word).as_bytes(), rest) && are_all(rest)
        }
    }
}

// Whether none of the words has this path.
fn is_new(path: &[u8], words: &[String]) -> bool
    ensures { MatchBool result (IsNew path.now (map string_bytes words.now)) (IsNew path.now (map string_bytes words.now) → ⊥) }
{
    match words {
        [] => true,
        [word, rest @ ..] => {
            !is_word(path_of(word.as_str()).as_bytes(), path) && is_new(path, rest)
        },
    }
}

fn is_mount(word: &str) -> bool
    ensures { MatchBool result (IsMount word.now) (IsMount word.now → ⊥) }
{
    !address_of(word).is_empty() && is_path(path_of(word).as_bytes())
}

// What stands before the first `=`.
fn path_of(word: &str) -> &str
    ensures { result.now ≡ path_bytes word.now }
{
    match word.split_once('=') {
        Some((path, _)) => path,
        None => word,
    }
}

// What stands behind the first `=`.
fn address_of(word: &str) -> &str
    ensures { result.now ≡ address_bytes word.now }
{
    match word.split_once('=') {
        Some((_, address)) => address,
        None => "",
    }
}

/// The mount path and the address of a word of the table.
pub fn mount_of(alloc: Global, word: &str) -> Result<(Path, &str), NoMemory>
    requires { IsMount word.now }
    ensures path { IfOk result (λ mount. mount.0 ≡ mount_path word.now) }
    ensures address { IfOk result (λ mount. mount.1.now ≡ address_bytes word.now) }
{
    match Path::read(alloc, path_of(word).as_bytes()) {
        Ok(path) => Ok((path, address_of(word))),
        Err(_) => Err(NoMemory),
    }
}
