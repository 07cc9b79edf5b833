// Lists of operations.
ghost use Rattle.std.specs.Prelude.{◌≡◌, ◌∷◌, ℕ, MatchOption, MatchResult};
ghost use Rattle.std.specs.Prelude as prelude;
ghost use Rattle.ec_words.specs.RowsLeft.{Takes, Lacks, IsMisfit, left};
ghost use Rattle.ec_shown.specs.Spelling.{IsAbove};
ghost use Rattle.ec_shown.specs.Rows.{SpellsList, Rises};

use ec_base::{List, OpNo};
use ec_words::{Misfit, Words, is_word, no_more, number_in};
use std::alloc::Global;

/// The operations of a list in rising order, or none for `-`.
pub(crate) fn read_list(alloc: Global, words: Words<'_>) -> Result<List<OpNo>, Misfit>
    ensures { MatchResult result (SpellsList (left words.entry)) (IsMisfit SpellsList (left words.entry)) }
{
    let Some((word, rest)) = words.split() else {
        return Err(Misfit::Unfit(0));
    };
    if let Some(op) = number_in(word, 0, u64::MAX) {
        let ops = risen(alloc, op, rest)?;
        return Ok(List::of(ops));
    }
    if !is_word(word, b"-") {
        return Err(Misfit::Unfit(words.len()));
    }
    no_more(rest)?;
    Ok(List::of(Vec::new(alloc)))
}

// This operation, and the greater ones behind it.
fn risen(alloc: Global, first: u64, words: Words<'_>) -> Result<Vec<OpNo>, Misfit>
    ensures { MatchResult result
        (λ ops. (more : prelude.List ℕ) × ((ops.items ≡ first ∷ more) × Rises first (left words.entry) more))
        (IsMisfit (Rises first) (left words.entry)) }
{
    let mut ops = Vec::new(alloc);
    ops.push(OpNo(first))?;
    let mut last = first;
    let mut rest = words;
    'words: loop {
        if rest.is_empty() {
            return Ok(ops);
        }
        let (op, behind) = first_above(last, rest)?;
        ops.push(OpNo(op))?;
        last = op;
        rest = behind;
    }
}

// The number of the first word, which is above this one, and the words behind it.
fn first_above<'a>(last: u64, words: Words<'a>) -> Result<(u64, Words<'a>), Misfit>
    ensures { MatchResult result (λ taken. Takes (IsAbove last) (left words.entry) taken.0 taken.1) (Lacks (IsAbove last) (left words.entry)) }
{
    let Some((word, rest)) = words.split() else {
        return Err(Misfit::Unfit(0));
    };
    match above(word, last) {
        Some(op) => Ok((op, rest)),
        None => Err(Misfit::Unfit(words.len())),
    }
}

// A number above this one.
fn above(word: &[u8], last: u64) -> Option<u64>
    ensures { MatchOption result ((n : ℕ) → IsAbove last word.now n → ⊥) (λ n. IsAbove last word.now n) }
{
    number_in(word, last.checked_add(1)?, u64::MAX)
}
