// Texts, names and paths in their one spelling.
ghost use Rattle.std.specs.Prelude.{◌≡◌, ◌<◌, ◌≤◌, ℕ, List, length, IfOk, IfSome, MatchResult};
ghost use Rattle.std.specs.Option.{option_map};
ghost use Rattle.ec_words.specs.RowsLeft.{Takes, Lacks, left};
ghost use Rattle.ec_words.specs.Spelling.{led_by};
ghost use Rattle.ec_shown.specs.Spelling.{is_plain, written_of, escape_of, upper_digit, bare_byte, IsTextOf};

use ec_base::{List as ByteList, Name, NameFault, NoMemory, Path, PathFault};
use ec_volume::MAX_WRITE_BYTES;
use ec_words::{Misfit, Spelled, Words};
use std::alloc::Global;
use std::marker::Model;

/// The text that a word stands for.
pub(crate) fn written_of(alloc: Global, word: &[u8]) -> Result<Option<Vec<u8>>, NoMemory>
    ensures { IfOk result (λ found. option_map (λ text. text.items) found ≡ written_of word.now) }
{
    let mut text = Vec::with_capacity(alloc, word.len())?;
    let mut rest = word;
    'bytes: while !rest.is_empty() {
        let (byte, behind) = next_byte(rest);
        let Some(byte) = byte else {
            return Ok(None);
        };
        text.push(byte)?;
        rest = behind;
    }
    Ok(Some(text))
}

// The first byte that the word stands for, if it does, and what is behind it.
fn next_byte(word: &[u8]) -> (Option<u8>, &[u8])
    requires { 1 ≤ length word.now }
    ensures text { written_of word.now ≡ led_by result.0 (written_of result.1.now) }
    ensures shorter { length result.1.now < length word.now }
{
    match word {
        [b'%', high, low, rest @ ..] => (escape_of(*high, *low), rest),
        [b'%', rest @ ..] => (None, rest),
        [byte, rest @ ..] => (bare_byte(*byte), rest),
        [] => (None, word),
    }
}

fn is_plain(byte: u8) -> bool
    ensures { result ≡ is_plain byte }
{
    0x21 <= byte && byte <= 0x7e && byte != b'%'
}

fn bare_byte(byte: u8) -> Option<u8>
    ensures { result ≡ bare_byte byte }
{
    if is_plain(byte) { Some(byte) } else { None }
}

// The byte of an escape.
fn escape_of(high: u8, low: u8) -> Option<u8>
    ensures { result ≡ escape_of high low }
{
    let high = upper_digit(high)?;
    let low = upper_digit(low)?;
    let byte = high * 16 + low;
    if is_plain(byte) { None } else { Some(byte) }
}

fn upper_digit(byte: u8) -> Option<u8>
    ensures value { result ≡ upper_digit byte }
    ensures small { IfSome result (λ digit. digit < 16) }
{
    if byte >= b'0' && byte <= b'9' {
        Some(byte - b'0')
    } else if byte >= b'A' && byte <= b'F' {
        Some(byte - b'A' + 10)
    } else {
        None
    }
}

/// The text of the first word, which has this length, and the words behind it.
pub(crate) fn first_text<'a>(
    alloc: Global,
    len: u64,
    words: Words<'a>,
) -> Result<(Vec<u8>, Words<'a>), Misfit>
    ensures { MatchResult result (λ taken. Takes (IsTextOf len) (left words.entry) taken.0.items taken.1) (Lacks (IsTextOf len) (left words.entry)) }
{
    let Some((word, rest)) = words.split() else {
        return Err(Misfit::Unfit(0));
    };
    let Some(text) = written_of(alloc, word)? else {
        return Err(Misfit::Unfit(words.len()));
    };
    if text.len() as u64 != len {
        return Err(Misfit::Unfit(words.len()));
    }
    Ok((text, rest))
}

/// The bytes of a write.
#[derive(Debug, Drop)]
pub(crate) struct Written(pub(crate) ByteList<u8>);

impl Model for Written {
    ghost Value = { List ℕ };

    ghost view = { λ a. a.0 };
}

impl Spelled for Written {
    ghost use Rattle.ec_shown.specs.Spelling.{IsWritten};
    ghost use Rattle.ec_shown.specs.Examples.{a_written};

    ghost stands = { IsWritten };

    ghost example = { a_written };

    fn of_word(alloc: Global, word: &[u8]) -> Result<Option<Written>, NoMemory> {
        let Some(text) = written_of(alloc, word)? else {
            return Ok(None);
        };
        if text.is_empty() || text.len() > MAX_WRITE_BYTES {
            return Ok(None);
        }
        Ok(Some(Written(ByteList::of(text))))
    }
}

/// A name of a directory's entry.
#[derive(Debug, Drop)]
pub(crate) struct NameText(pub(crate) Name);

impl Model for NameText {
    ghost Value = { List ℕ };

    ghost view = { λ a. a.0 };
}

impl Spelled for NameText {
    ghost use Rattle.ec_shown.specs.Spelling.{IsNameText};
    ghost use Rattle.ec_shown.specs.Examples.{a_name};

    ghost stands = { IsNameText };

    ghost example = { a_name };

    fn of_word(alloc: Global, word: &[u8]) -> Result<Option<NameText>, NoMemory> {
        let Some(text) = written_of(alloc, word)? else {
            return Ok(None);
        };
        match Name::read(alloc, &text) {
            Ok(name) => Ok(Some(NameText(name))),
            Err(NameFault::NoMemory) => Err(NoMemory),
            Err(_) => Ok(None),
        }
    }
}

/// The path of a call.
#[derive(Debug, Drop)]
pub(crate) struct PathShown(pub(crate) Path);

impl Model for PathShown {
    ghost Value = { List (List ℕ) };

    ghost view = { λ a. a.0 };
}

impl Spelled for PathShown {
    ghost use Rattle.ec_shown.specs.Spelling.{IsPathShown};
    ghost use Rattle.ec_shown.specs.Examples.{a_path};

    ghost stands = { IsPathShown };

    ghost example = { a_path };

    fn of_word(alloc: Global, word: &[u8]) -> Result<Option<PathShown>, NoMemory> {
        let Some(text) = written_of(alloc, word)? else {
            return Ok(None);
        };
        match Path::read(alloc, &text) {
            Ok(path) => Ok(Some(PathShown(path))),
            Err(PathFault::NoMemory) => Err(NoMemory),
            Err(_) => Ok(None),
        }
    }
}
