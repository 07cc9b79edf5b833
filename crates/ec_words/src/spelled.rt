// Rows of words that stand for values.
ghost use Rattle.std.specs.Prelude.{List, ℕ, IfOk, MatchOption, MatchResult};
ghost use Rattle.ec_words.specs.Rows.{◌▸◌, End, Last};
ghost use Rattle.ec_words.specs.RowsLeft.{Takes, Lacks, IsMisfit, Example, left};

use crate::cursor::{Misfit, Words};
use ec_base::NoMemory;
use std::alloc::Global;

/// What a word may stand for.
pub trait Spelled: Sized {
    // The word stands for this value.
    ghost stands: { List ℕ → Self → Type 0 };

    // Some word stands for some value.
    ghost example: { Example stands };

    /// The value that the word stands for.
    fn of_word(alloc: Global, word: &[u8]) -> Result<Option<Self>, NoMemory>
        ensures { IfOk result (λ found. MatchOption found ((v : Self) → stands word.now v → ⊥) (λ v. stands word.now v)) };
}

/// The value of the first word, and the words behind it.
pub fn first<'a, V: Spelled + Drop>(
    alloc: Global,
    words: Words<'a>,
) -> Result<(V, Words<'a>), Misfit>
    ensures { MatchResult result (λ taken. Takes V.stands (left words.entry) taken.0 taken.1) (Lacks V.stands (left words.entry)) }
{
    let Some((word, rest)) = words.split() else {
        return Err(Misfit::Unfit(0));
    };
    match V::of_word(alloc, word)? {
        Some(value) => Ok((value, rest)),
        None => Err(Misfit::Unfit(words.len())),
    }
}

/// No further word.
pub fn no_more(words: Words<'_>) -> Result<(), Misfit>
    ensures { MatchResult result (End (left words.entry)) (IsMisfit End (left words.entry)) }
{
    if words.split().is_some() {
        return Err(Misfit::Unfit(words.len()));
    }
    Ok(())
}

/// The value of the only word.
pub fn one<V: Spelled + Drop>(alloc: Global, words: Words<'_>) -> Result<V, Misfit>
    ensures { MatchResult result (Last V.stands (left words.entry)) (IsMisfit (Last V.stands) (left words.entry)) }
{
    let (value, rest) = first::<V>(alloc, words)?;
    no_more(rest)?;
    Ok(value)
}

/// The values of two words.
pub fn two<U: Spelled + Drop, V: Spelled + Drop>(
    alloc: Global,
    words: Words<'_>,
) -> Result<(U, V), Misfit>
    ensures { MatchResult result ((U.stands ▸ Last V.stands) (left words.entry)) (IsMisfit (U.stands ▸ Last V.stands) (left words.entry)) }
{
    let (value, rest) = first::<U>(alloc, words)?;
    let last = one::<V>(alloc, rest)?;
    Ok((value, last))
}

/// The values of three words.
pub fn three<T: Spelled + Drop, U: Spelled + Drop, V: Spelled + Drop>(
    alloc: Global,
    words: Words<'_>,
) -> Result<(T, (U, V)), Misfit>
    ensures { MatchResult result ((T.stands ▸ U.stands ▸ Last V.stands) (left words.entry)) (IsMisfit (T.stands ▸ U.stands ▸ Last V.stands) (left words.entry)) }
{
    let (value, rest) = first::<T>(alloc, words)?;
    let others = two::<U, V>(alloc, rest)?;
    Ok((value, others))
}
