// Calls as their volume sees them.
ghost use Rattle.std.specs.Prelude.{◌≡◌, drop, map, IfOk};
ghost use Rattle.ec_mount_words.specs.OfRoute.Calls.{call_below};

use ec_base::{Duplicate, List, NoMemory, Path};
use ec_plain::Call;
use std::alloc::Global;

/// The call with the rest of each path behind so many names.
pub fn call_below(alloc: Global, call: Call, names: usize) -> Result<Call, NoMemory>
    ensures { IfOk result (λ inner. inner ≡ call_below names call) }
{
    Ok(match call {
        Call::Mkdir(path) => Call::Mkdir(rest_of(alloc, &path, names)?),
        Call::Create(path) => Call::Create(rest_of(alloc, &path, names)?),
        Call::Write(path, at, bytes) => Call::Write(rest_of(alloc, &path, names)?, at, bytes),
        Call::SetLen(path, len) => Call::SetLen(rest_of(alloc, &path, names)?, len),
        Call::Read(path, at, count) => Call::Read(rest_of(alloc, &path, names)?, at, count),
        Call::Chmod(path, mode) => Call::Chmod(rest_of(alloc, &path, names)?, mode),
        Call::Touch(path, stamp) => Call::Touch(rest_of(alloc, &path, names)?, stamp),
        Call::Stat(path) => Call::Stat(rest_of(alloc, &path, names)?),
        Call::List(path) => Call::List(rest_of(alloc, &path, names)?),
        Call::Remove(path) => Call::Remove(rest_of(alloc, &path, names)?),
        Call::Rmdir(path) => Call::Rmdir(rest_of(alloc, &path, names)?),
        Call::Rename(path, target) => {
            let target = rest_of(alloc, &target, names)?;
            Call::Rename(rest_of(alloc, &path, names)?, target)
        }
        Call::Fsync(path) => Call::Fsync(rest_of(alloc, &path, names)?),
        Call::Forder(paths) => Call::Forder(List::of(rests_of(alloc, paths.as_slice(), names)?)),
        Call::Sync => Call::Sync,
        Call::Chown(path, owner) => Call::Chown(rest_of(alloc, &path, names)?, owner),
    })
}

// The path behind so many names.
fn rest_of(alloc: Global, path: &Path, names: usize) -> Result<Path, NoMemory>
    ensures { IfOk result (λ rest. rest ≡ drop names path.now) }
{
    let whole = path.names();
    let last = &whole[names.min(whole.len())..];
    let mut rest = Vec::new(alloc);
    'last: for name in last {
        rest.push(name.duplicate()?)?;
    }
    Ok(Path::of(rest))
}

fn rests_of(alloc: Global, paths: &[Path], names: usize) -> Result<Vec<Path>, NoMemory>
    ensures { IfOk result (λ rests. rests.items ≡ map (drop names) paths.now) }
{
    let mut rests = Vec::new(alloc);
    'paths: for path in paths {
        rests.push(rest_of(alloc, path, names)?)?;
    }
    Ok(rests)
}
