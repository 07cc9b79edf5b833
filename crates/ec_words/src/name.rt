// Words that are names.
ghost use Rattle.std.specs.Prelude.{◌≡◌, MatchBool, MatchOption};
ghost use Rattle.ec_disk.specs.declared.disk.Choice.{Choice as Choices};
ghost use Rattle.ec_wire.specs.declared.msg.MsgKind.{MsgKind as Kinds};
ghost use Rattle.ec_words.specs.declared.name.Verb.{Verb as Verbs};
ghost use Rattle.ec_words.specs.declared.name.Keyword.{Keyword as Keywords};
ghost use Rattle.ec_words.specs.Spelling.{IsKind, IsChoice, IsVerb, IsKeyword};

use ec_disk::Choice;
use ec_wire::MsgKind;

/// What a call line asks for.
#[derive(Clone, Copy, Debug, Drop, PartialEq, Eq)]
pub enum Verb {
    Mkdir,
    Create,
    Write,
    SetLen,
    Read,
    Chmod,
    Touch,
    Stat,
    List,
    Remove,
    Rmdir,
    Rename,
    Fsync,
    Forder,
    Sync,
    Chown,
}

/// What a line that is no call begins with.
#[derive(Clone, Copy, Debug, Drop, PartialEq, Eq)]
pub enum Keyword {
    Push,
    Cut,
    Uncut,
    Drop,
    Repeat,
    Deliver,
    Resend,
    Crash,
    End,
    Stop,
    Arm,
    Restart,
}

/// Whether a word is this text.
pub fn is_word(word: &[u8], text: &[u8]) -> bool
    ensures { MatchBool result (word.now ≡ text.now) (word.now ≡ text.now → ⊥) }
{
    word == text
}

/// The kind of message that the word names.
pub fn kind_of(word: &[u8]) -> Option<MsgKind>
    ensures { MatchOption result ((k : Kinds) → IsKind word.now k → ⊥) (λ k. IsKind word.now k) }
{
    if is_word(word, b"hello") {
        Some(MsgKind::Hello)
    } else if is_word(word, b"want") {
        Some(MsgKind::Want)
    } else if is_word(word, b"back") {
        Some(MsgKind::Back)
    } else if is_word(word, b"flush") {
        Some(MsgKind::Flush)
    } else if is_word(word, b"room") {
        Some(MsgKind::Room)
    } else if is_word(word, b"claim") {
        Some(MsgKind::Claim)
    } else if is_word(word, b"bye") {
        Some(MsgKind::Bye)
    } else if is_word(word, b"opened") {
        Some(MsgKind::Opened)
    } else if is_word(word, b"grant") {
        Some(MsgKind::Grant)
    } else if is_word(word, b"recall") {
        Some(MsgKind::Recall)
    } else if is_word(word, b"kept") {
        Some(MsgKind::Kept)
    } else if is_word(word, b"ids") {
        Some(MsgKind::Ids)
    } else if is_word(word, b"noroom") {
        Some(MsgKind::NoRoom)
    } else if is_word(word, b"ended") {
        Some(MsgKind::Ended)
    } else if is_word(word, b"restarted") {
        Some(MsgKind::Restarted)
    } else if is_word(word, b"oldboot") {
        Some(MsgKind::OldBoot)
    } else {
        None
    }
}

/// What a power cut leaves, by the word that names it.
pub fn choice_of(word: &[u8]) -> Option<Choice>
    ensures { MatchOption result ((c : Choices) → IsChoice word.now c → ⊥) (λ c. IsChoice word.now c) }
{
    if is_word(word, b"old") {
        Some(Choice::Old)
    } else if is_word(word, b"new") {
        Some(Choice::New)
    } else if is_word(word, b"torn") {
        Some(Choice::Torn)
    } else {
        None
    }
}

/// What a call asks for, by the word that names it.
pub fn verb_of(word: &[u8]) -> Option<Verb>
    ensures { MatchOption result ((v : Verbs) → IsVerb word.now v → ⊥) (λ v. IsVerb word.now v) }
{
    if is_word(word, b"mkdir") {
        Some(Verb::Mkdir)
    } else if is_word(word, b"create") {
        Some(Verb::Create)
    } else if is_word(word, b"write") {
        Some(Verb::Write)
    } else if is_word(word, b"setlen") {
        Some(Verb::SetLen)
    } else if is_word(word, b"read") {
        Some(Verb::Read)
    } else if is_word(word, b"chmod") {
        Some(Verb::Chmod)
    } else if is_word(word, b"touch") {
        Some(Verb::Touch)
    } else if is_word(word, b"stat") {
        Some(Verb::Stat)
    } else if is_word(word, b"list") {
        Some(Verb::List)
    } else if is_word(word, b"remove") {
        Some(Verb::Remove)
    } else if is_word(word, b"rmdir") {
        Some(Verb::Rmdir)
    } else if is_word(word, b"rename") {
        Some(Verb::Rename)
    } else if is_word(word, b"fsync") {
        Some(Verb::Fsync)
    } else if is_word(word, b"forder") {
        Some(Verb::Forder)
    } else if is_word(word, b"sync") {
        Some(Verb::Sync)
    } else if is_word(word, b"chown") {
        Some(Verb::Chown)
    } else {
        None
    }
}

/// What a line that is no call begins with, by the word that names it.
pub fn keyword_of(word: &[u8]) -> Option<Keyword>
    ensures { MatchOption result ((k : Keywords) → IsKeyword word.now k → ⊥) (λ k. IsKeyword word.now k) }
{
    if is_word(word, b"push") {
        Some(Keyword::Push)
    } else if is_word(word, b"cut") {
        Some(Keyword::Cut)
    } else if is_word(word, b"uncut") {
        Some(Keyword::Uncut)
    } else if is_word(word, b"drop") {
        Some(Keyword::Drop)
    } else if is_word(word, b"repeat") {
        Some(Keyword::Repeat)
    } else if is_word(word, b"deliver") {
        Some(Keyword::Deliver)
    } else if is_word(word, b"resend") {
        Some(Keyword::Resend)
    } else if is_word(word, b"crash") {
        Some(Keyword::Crash)
    } else if is_word(word, b"end") {
        Some(Keyword::End)
    } else if is_word(word, b"stop") {
        Some(Keyword::Stop)
    } else if is_word(word, b"arm") {
        Some(Keyword::Arm)
    } else if is_word(word, b"restart") {
        Some(Keyword::Restart)
    } else {
        None
    }
}
