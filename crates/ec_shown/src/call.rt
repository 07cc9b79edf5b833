// Calls by their words, and what became of them.
ghost use Rattle.std.specs.Prelude.{◌≡◌, ◌-◌, ◌∷◌, ◌++◌, List, MatchResult};
ghost use Rattle.ec_plain.specs.Walk.{Path as PathNames};
ghost use Rattle.ec_volume.specs.Limits.{max_ordered};
ghost use Rattle.ec_words.specs.Rows.{◌▸◌, ◌makes◌};
ghost use Rattle.ec_words.specs.RowsLeft.{IsMisfit, left};
ghost use Rattle.ec_shown.specs.Spelling.{IsPathShown};
ghost use Rattle.ec_shown.specs.Answers.{SpellsOutcome};
ghost use Rattle.ec_shown.specs.Calls.{Paths, Asks, SpellsAsked};

use crate::answer::{Outcome, read_outcome, read_said};
use crate::text::{PathShown, Written};
use ec_base::{List as Items, Path};
use ec_plain::Call;
use ec_volume::MAX_ORDERED;
use ec_words::{Count, Misfit, Mode, Spelled, Verb, Words, first, is_word};
use std::alloc::Global;

/// A call, and what became of it.
pub(crate) fn read_asked(alloc: Global, words: Words<'_>) -> Result<(Call, Outcome), Misfit>
    ensures { MatchResult result (SpellsAsked (left words.entry)) (IsMisfit SpellsAsked (left words.entry)) }
{
    let (verb, rest) = first::<Verb>(alloc, words)?;
    let asked = read_behind(alloc, verb, rest)?;
    Ok(asked)
}

// What stands behind a verb.
fn read_behind(alloc: Global, verb: Verb, words: Words<'_>) -> Result<(Call, Outcome), Misfit>
    ensures { MatchResult result (Asks verb (left words.entry)) (IsMisfit (Asks verb) (left words.entry)) }
{
    match verb {
        Verb::Mkdir => {
            let (path, outcome) = one_more::<PathShown>(alloc, words)?;
            Ok((Call::Mkdir(path.0), outcome))
        }
        Verb::Create => {
            let (path, outcome) = one_more::<PathShown>(alloc, words)?;
            Ok((Call::Create(path.0), outcome))
        }
        Verb::Write => {
            let (path, (at, (text, outcome))) = three_more::<PathShown, u32, Written>(
                alloc, words,
            )?;
            Ok((Call::Write(path.0, at, text.0), outcome))
        }
        Verb::SetLen => {
            let (path, (len, outcome)) = two_more::<PathShown, u32>(alloc, words)?;
            Ok((Call::SetLen(path.0, len), outcome))
        }
        Verb::Read => {
            let (path, (at, (count, outcome))) = three_more::<PathShown, u32, Count>(alloc, words)?;
            Ok((Call::Read(path.0, at, count.0), outcome))
        }
        Verb::Chmod => {
            let (path, (mode, outcome)) = two_more::<PathShown, Mode>(alloc, words)?;
            Ok((Call::Chmod(path.0, mode.0), outcome))
        }
        Verb::Touch => {
            let (path, (stamp, outcome)) = two_more::<PathShown, u64>(alloc, words)?;
            Ok((Call::Touch(path.0, stamp), outcome))
        }
        Verb::Stat => {
            let (path, outcome) = one_more::<PathShown>(alloc, words)?;
            Ok((Call::Stat(path.0), outcome))
        }
        Verb::List => {
            let (path, outcome) = one_more::<PathShown>(alloc, words)?;
            Ok((Call::List(path.0), outcome))
        }
        Verb::Remove => {
            let (path, outcome) = one_more::<PathShown>(alloc, words)?;
            Ok((Call::Remove(path.0), outcome))
        }
        Verb::Rmdir => {
            let (path, outcome) = one_more::<PathShown>(alloc, words)?;
            Ok((Call::Rmdir(path.0), outcome))
        }
        Verb::Rename => {
            let (path, (to, outcome)) = two_more::<PathShown, PathShown>(alloc, words)?;
            Ok((Call::Rename(path.0, to.0), outcome))
        }
        Verb::Fsync => {
            let (path, outcome) = one_more::<PathShown>(alloc, words)?;
            Ok((Call::Fsync(path.0), outcome))
        }
        Verb::Forder => {
            let (paths, outcome) = read_paths(alloc, words)?;
            Ok((Call::Forder(paths), outcome))
        }
        Verb::Sync => {
            let outcome = read_outcome(alloc, words)?;
            Ok((Call::Sync, outcome))
        }
        Verb::Chown => {
            let (path, (owner, outcome)) = two_more::<PathShown, u32>(alloc, words)?;
            Ok((Call::Chown(path.0, owner), outcome))
        }
    }
}

// A word of a call, and what became of the call.
fn one_more<V: Spelled + Drop>(alloc: Global, words: Words<'_>) -> Result<(V, Outcome), Misfit>
    ensures { MatchResult result ((V.stands ▸ SpellsOutcome) (left words.entry)) (IsMisfit (V.stands ▸ SpellsOutcome) (left words.entry)) }
{
    let (value, rest) = first::<V>(alloc, words)?;
    let outcome = read_outcome(alloc, rest)?;
    Ok((value, outcome))
}

fn two_more<U: Spelled + Drop, V: Spelled + Drop>(
    alloc: Global,
    words: Words<'_>,
) -> Result<(U, (V, Outcome)), Misfit>
    ensures { MatchResult result ((U.stands ▸ V.stands ▸ SpellsOutcome) (left words.entry)) (IsMisfit (U.stands ▸ V.stands ▸ SpellsOutcome) (left words.entry)) }
{
    let (value, rest) = first::<U>(alloc, words)?;
    let others = one_more::<V>(alloc, rest)?;
    Ok((value, others))
}

fn three_more<T: Spelled + Drop, U: Spelled + Drop, V: Spelled + Drop>(
    alloc: Global,
    words: Words<'_>,
) -> Result<(T, (U, (V, Outcome))), Misfit>
    ensures { MatchResult result ((T.stands ▸ U.stands ▸ V.stands ▸ SpellsOutcome) (left words.entry)) (IsMisfit (T.stands ▸ U.stands ▸ V.stands ▸ SpellsOutcome) (left words.entry)) }
{
    let (value, rest) = first::<T>(alloc, words)?;
    let others = two_more::<U, V>(alloc, rest)?;
    Ok((value, others))
}

// From 1 to `MAX_ORDERED` paths, and what became of the call.
fn read_paths(alloc: Global, words: Words<'_>) -> Result<(Items<Path>, Outcome), Misfit>
    ensures { MatchResult result
        (((IsPathShown ▸ Paths (max_ordered - 1)) makes λ x. (x.0 ∷ x.1.0, x.1.1)) (left words.entry))
        (IsMisfit (IsPathShown ▸ Paths (max_ordered - 1)) (left words.entry)) }
{
    let (path, rest) = first::<PathShown>(alloc, words)?;
    let mut paths = Vec::new(alloc);
    paths.push(path.0)?;
    let outcome = more_paths(alloc, rest, MAX_ORDERED - 1, &mut paths)?;
    Ok((Items::of(paths), outcome))
}

fn more_paths(
    alloc: Global,
    words: Words<'_>,
    most: usize,
    paths: &mut Vec<Path>,
) -> Result<Outcome, Misfit>
    ensures { MatchResult result
        (λ outcome. (more : List PathNames) × ((paths.new.items ≡ paths.old.items ++ more) × Paths most (left words.entry) (more, outcome)))
        (IsMisfit (Paths most) (left words.entry)) }
{
    let Some((word, rest)) = words.split() else {
        return Err(Misfit::Unfit(0));
    };
    if is_word(word, b"->") {
        let outcome = read_said(alloc, rest)?;
        return Ok(outcome);
    }
    if most == 0 {
        return Err(Misfit::Unfit(words.len()));
    }
    let Some(path) = PathShown::of_word(alloc, word)? else {
        return Err(Misfit::Unfit(words.len()));
    };
    paths.push(path.0)?;
    let outcome = more_paths(alloc, rest, most - 1, paths)?;
    Ok(outcome)
}
