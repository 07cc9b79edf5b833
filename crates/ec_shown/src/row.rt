// Rows of words: a mark before others, and what may stand at the end.
ghost use Rattle.std.specs.Prelude.{◌≡◌, ◌∷◌, MatchResult};
ghost use Rattle.ec_words.specs.RowsLeft.{IsMisfit, left};
ghost use Rattle.ec_shown.specs.Rows.{Tail};
ghost use Rattle.ec_shown.specs.LackedMarks.{LacksMark};

use ec_words::{Misfit, Spelled, Words, is_word, one};
use std::alloc::Global;

/// The words behind this mark.
pub(crate) fn behind<'a>(words: Words<'a>, mark: &[u8]) -> Result<Words<'a>, Misfit>
    ensures { MatchResult result (λ rest. left words.entry ≡ mark.now ∷ left rest) (LacksMark mark.now (left words.entry)) }
{
    let Some((word, rest)) = words.split() else {
        return Err(Misfit::Unfit(0));
    };
    if is_word(word, mark) {
        Ok(rest)
    } else {
        Err(Misfit::Unfit(words.len()))
    }
}

/// No word, or this mark and one word.
pub(crate) fn tail<V: Spelled + Drop>(
    alloc: Global,
    words: Words<'_>,
    mark: &[u8],
) -> Result<Option<V>, Misfit>
    ensures { MatchResult result (Tail mark.now V.stands (left words.entry)) (IsMisfit (Tail mark.now V.stands) (left words.entry)) }
{
    let Some((word, rest)) = words.split() else {
        return Ok(None);
    };
    if !is_word(word, mark) {
        return Err(Misfit::Unfit(words.len()));
    }
    let value = one::<V>(alloc, rest)?;
    Ok(Some(value))
}
