// Words that lines of clocks and leases begin with.
ghost use Rattle.std.specs.Prelude.{MatchOption};
ghost use Rattle.ec_lease_machine.specs.OfWords.Grammar.{IsClockWord};
ghost use Rattle.ec_lease_machine.specs.declared.words.name.ClockWord.{ClockWord as Words};

use ec_words::is_word;

/// What a line of clocks and leases begins with.
#[derive(Clone, Copy, Debug, Drop, PartialEq, Eq)]
pub(crate) enum ClockWord {
    Tick,
    Skew,
    Grant,
    Hand,
}

pub(crate) fn clock_word_of(word: &[u8]) -> Option<ClockWord>
    ensures { MatchOption result ((k : Words) → IsClockWord word.now k → ⊥) (λ k. IsClockWord word.now k) }
{
    if is_word(word, b"tick") {
        Some(ClockWord::Tick)
    } else if is_word(word, b"skew") {
        Some(ClockWord::Skew)
    } else if is_word(word, b"grant") {
        Some(ClockWord::Grant)
    } else if is_word(word, b"hand") {
        Some(ClockWord::Hand)
    } else {
        None
    }
}
