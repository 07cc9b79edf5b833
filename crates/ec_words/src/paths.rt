// The paths of a `forder`.
ghost use Rattle.std.specs.Prelude.{◌≡◌, ◌-◌, ◌∷◌, ◌++◌, List, MatchResult};
ghost use Rattle.ec_plain.specs.Walk.{Path as PathNames};
ghost use Rattle.ec_volume.specs.Limits.{max_ordered};
ghost use Rattle.ec_words.specs.Rows.{◌▸◌, UpTo, ◌makes◌};
ghost use Rattle.ec_words.specs.RowsLeft.{IsMisfit, left};
ghost use Rattle.ec_words.specs.Spelling.{IsPathText};

use crate::cursor::{Misfit, Words};
use crate::spelled::first;
use ec_base::{List as Paths, Path};
use ec_volume::MAX_ORDERED;
use std::alloc::Global;

/// From 1 to `MAX_ORDERED` paths.
pub fn read_paths(alloc: Global, words: Words<'_>) -> Result<Paths<Path>, Misfit>
    ensures { MatchResult result
        (((IsPathText ▸ UpTo IsPathText (max_ordered - 1)) makes λ x. x.0 ∷ x.1) (left words.entry))
        (IsMisfit (IsPathText ▸ UpTo IsPathText (max_ordered - 1)) (left words.entry)) }
{
    let (path, rest) = first::<Path>(alloc, words)?;
    let mut paths = Vec::new(alloc);
    paths.push(path)?;
    more_paths(alloc, rest, MAX_ORDERED - 1, &mut paths)?;
    Ok(Paths::of(paths))
}

fn more_paths(
    alloc: Global,
    words: Words<'_>,
    most: usize,
    paths: &mut Vec<Path>,
) -> Result<(), Misfit>
    ensures { MatchResult result
        (λ _. (more : List PathNames) × ((paths.new.items ≡ paths.old.items ++ more) × UpTo IsPathText most (left words.entry) more))
        (IsMisfit (UpTo IsPathText most) (left words.entry)) }
{
    if words.is_empty() {
        return Ok(());
    }
    if most == 0 {
        return Err(Misfit::Unfit(words.len()));
    }
    let (path, rest) = first::<Path>(alloc, words)?;
    paths.push(path)?;
    more_paths(alloc, rest, most - 1, paths)?;
    Ok(())
}
