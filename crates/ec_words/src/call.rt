// Calls by their words.
ghost use Rattle.std.specs.Prelude.{MatchResult};
ghost use Rattle.ec_words.specs.Calls.{Asks, SpellsCall};
ghost use Rattle.ec_words.specs.RowsLeft.{IsMisfit, left};

use crate::cursor::{Misfit, Words};
use crate::name::Verb;
use crate::paths::read_paths;
use crate::spell::{Count, Mode};
use crate::spelled::{first, no_more, one, three, two};
use ec_base::{List as ByteList, Path};
use ec_plain::Call;
use std::alloc::Global;

pub fn read_call(alloc: Global, words: Words<'_>) -> Result<Call, Misfit>
    ensures { MatchResult result (SpellsCall (left words.entry)) (IsMisfit SpellsCall (left words.entry)) }
{
    let (verb, rest) = first::<Verb>(alloc, words)?;
    let call = read_asked(alloc, verb, rest)?;
    Ok(call)
}

// What stands behind a verb.
fn read_asked(alloc: Global, verb: Verb, words: Words<'_>) -> Result<Call, Misfit>
    ensures { MatchResult result (Asks verb (left words.entry)) (IsMisfit (Asks verb) (left words.entry)) }
{
    match verb {
        Verb::Mkdir => Ok(Call::Mkdir(one::<Path>(alloc, words)?)),
        Verb::Create => Ok(Call::Create(one::<Path>(alloc, words)?)),
        Verb::Write => {
            let (path, (at, text)) = three::<Path, u32, ByteList<u8>>(alloc, words)?;
            Ok(Call::Write(path, at, text))
        }
        Verb::SetLen => {
            let (path, len) = two::<Path, u32>(alloc, words)?;
            Ok(Call::SetLen(path, len))
        }
        Verb::Read => {
            let (path, (at, count)) = three::<Path, u32, Count>(alloc, words)?;
            Ok(Call::Read(path, at, count.0))
        }
        Verb::Chmod => {
            let (path, mode) = two::<Path, Mode>(alloc, words)?;
            Ok(Call::Chmod(path, mode.0))
        }
        Verb::Touch => {
            let (path, stamp) = two::<Path, u64>(alloc, words)?;
            Ok(Call::Touch(path, stamp))
        }
        Verb::Stat => Ok(Call::Stat(one::<Path>(alloc, words)?)),
        Verb::List => Ok(Call::List(one::<Path>(alloc, words)?)),
        Verb::Remove => Ok(Call::Remove(one::<Path>(alloc, words)?)),
        Verb::Rmdir => Ok(Call::Rmdir(one::<Path>(alloc, words)?)),
        Verb::Rename => {
            let (path, to) = two::<Path, Path>(alloc, words)?;
            Ok(Call::Rename(path, to))
        }
        Verb::Fsync => Ok(Call::Fsync(one::<Path>(alloc, words)?)),
        Verb::Forder => Ok(Call::Forder(read_paths(alloc, words)?)),
        Verb::Sync => {
            no_more(words)?;
            Ok(Call::Sync)
        }
        Verb::Chown => {
            let (path, owner) = two::<Path, u32>(alloc, words)?;
            Ok(Call::Chown(path, owner))
        }
    }
}
