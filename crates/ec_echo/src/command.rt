// What the words of the program ask for.
ghost use Rattle.std.specs.Prelude.{◌≡◌, ℕ, List, [], ◌∷◌, drop, map, codes, MatchOption, MatchBool};
ghost use Rattle.std.specs.String.{string_bytes};
ghost use Rattle.ec_mount_words.specs.Mounts.{AreMounts};
ghost use Rattle.ec_echo.specs.Words.{Spells, IsAddress};
ghost use Rattle.ec_echo.specs.Tables.{IsTable};
ghost use Rattle.ec_echo.specs.DiskUse.{uses_disk};
ghost use Rattle.ec_echo.specs.declared.command.Command.{Command};

use ec_base::ClerkId;
use ec_drill::MOST_OBJECTS;
use ec_mount_words::{are_mounts, clerk_of_mounts};
use ec_words::{clerk_of, number_in};

/// What the program does.
#[derive(Clone, Copy, Debug, Drop, PartialEq, Eq)]
pub enum Command {
    /// Drills a script. A new disk is formatted for so many objects.
    Drill(u32),
    /// Judges a transcript that began on a disk formatted for so many objects.
    Check(u32),
    /// Writes the script of this number.
    Make(u32),
    /// Drills the script of this number, and counts what the transcript tells.
    Soak(u32),
    /// Serves so many links.
    Serve(u32),
    /// Runs a lane script by this clerk.
    Mount(ClerkId),
    /// Drills a script with leases. They run for so long, and clocks differ by at most so much.
    Leases(u64, u64),
    /// Runs calls over the volumes of a mount table by this clerk.
    MountTable(ClerkId),
}

impl Command {
    /// Whether it uses the disk.
    pub fn uses_disk(self) -> bool
        ensures { result ≡ uses_disk self }
    {
        match self {
            Command::Drill(_) | Command::Soak(_) | Command::Serve(_) | Command::Leases(_, _) =>
                true,
            Command::Check(_) | Command::Make(_) | Command::Mount(_) | Command::MountTable(_) =>
                false,
        }
    }
}

/// What these words ask for.
pub fn command_of(words: &[String]) -> Option<Command>
    ensures { MatchOption result ((c : Command) → Spells (map string_bytes words.now) c → ⊥) (λ c. Spells (map string_bytes words.now) c) }
{
    match clerk_of_mounts(words) {
        Some(clerk) => Some(Command::MountTable(clerk)),
        None => short_command(words),
    }
}

// What at most three words ask for, but for a mount table.
fn short_command(words: &[String]) -> Option<Command>
    ensures { MatchOption result ((c : Command) → Spells (map string_bytes words.now) c → IsTable c) (λ c. Spells (map string_bytes words.now) c) }
{
    match words {
        [word] => alone(word.as_bytes()),
        [word, number] => numbered(word.as_bytes(), number.as_bytes()),
        [word, first, last] => threefold(word.as_bytes(), first.as_bytes(), last.as_bytes()),
        _ => None,
    }
}

fn alone(word: &[u8]) -> Option<Command>
    ensures { MatchOption result ((c : Command) → Spells (word.now ∷ []) c → IsTable c) (λ c. Spells (word.now ∷ []) c) }
{
    if word == b"drill".as_slice() {
        return Some(Command::Drill(MOST_OBJECTS));
    }
    if word == b"check".as_slice() {
        return Some(Command::Check(MOST_OBJECTS));
    }
    None
}

fn numbered(word: &[u8], number: &[u8]) -> Option<Command>
    ensures { MatchOption result ((c : Command) → Spells (word.now ∷ number.now ∷ []) c → IsTable c) (λ c. Spells (word.now ∷ number.now ∷ []) c) }
{
    if word == b"drill".as_slice() {
        return Some(Command::Drill(number_in(number, 32, 1_024)? as u32));
    }
    if word == b"check".as_slice() {
        return Some(Command::Check(number_in(number, 32, 1_024)? as u32));
    }
    if word == b"make".as_slice() {
        return Some(Command::Make(number_in(number, 0, 4_294_967_295)? as u32));
    }
    if word == b"soak".as_slice() {
        return Some(Command::Soak(number_in(number, 0, 4_294_967_295)? as u32));
    }
    None
}

fn threefold(word: &[u8], addr: &[u8], last: &[u8]) -> Option<Command>
    ensures { MatchOption result ((c : Command) → Spells (word.now ∷ addr.now ∷ last.now ∷ []) c → IsTable c) (λ c. Spells (word.now ∷ addr.now ∷ last.now ∷ []) c) }
{
    if word == b"leases".as_slice() {
        return leases(addr, last);
    }
    if !is_address(addr) {
        return None;
    }
    if word == b"serve".as_slice() {
        return Some(Command::Serve(number_in(last, 1, 1_000_000)? as u32));
    }
    if word == b"mount".as_slice() {
        return Some(Command::Mount(clerk_of(last)?));
    }
    None
}

// How long Leases run, and by how much clocks differ at most, which is less.
fn leases(length: &[u8], most: &[u8]) -> Option<Command>
    ensures { MatchOption result ((c : Command) → Spells (codes "leases" ∷ length.now ∷ most.now ∷ []) c → IsTable c) (λ c. Spells (codes "leases" ∷ length.now ∷ most.now ∷ []) c) }
{
    let length = number_in(length, 1, 1_000_000)?;
    let most = number_in(most, 0, length - 1)?;
    Some(Command::Leases(length, most))
}

// A word that isn't empty, and doesn't begin with a hyphen.
fn is_address(word: &[u8]) -> bool
    ensures { MatchBool result (IsAddress word.now) (IsAddress word.now → ⊥) }
{
    match word {
        [first, ..] => *first != b'-',
        [] => false,
    }
}

/// The address among the words, which is the second of three.
pub fn address_of(words: &[String]) -> &str
    ensures { (form addr last : List ℕ) → map string_bytes words.now ≡ form ∷ addr ∷ last ∷ [] → result.now ≡ addr }
{
    match words {
        [_, addr, _] => addr.as_str(),
        _ => "",
    }
}

/// The words of a mount table, which stand behind the form and its clerk, or `None` where they are none.
pub fn mounts_of(words: &[String]) -> Option<&[String]>
    ensures { MatchOption result (AreMounts (drop 2 (map string_bytes words.now)) → ⊥)
        (λ mounts. (map string_bytes mounts.now ≡ drop 2 (map string_bytes words.now)) × AreMounts (map string_bytes mounts.now)) }
{
    match words {
        [_, _, mounts @ ..] => {
            if are_mounts(mounts) {
                Some(mounts)
            } else {
                None
            }
        }
        _ => None,
    }
}
