// Whether two calls are the same.
ghost use Rattle.std.specs.Prelude.{◌≡◌, Decides};

use ec_base::{List, Path};
use ec_plain::Call;

pub fn is_same(call: &Call, other: &Call) -> bool
    ensures { Decides result (call.now ≡ other.now) }
{
    match (call, other) {
        (Call::Mkdir(path), Call::Mkdir(same)) => same_path(path, same),
        (Call::Create(path), Call::Create(same)) => same_path(path, same),
        (Call::Write(path, at, bytes), Call::Write(same, place, text)) => {
            same_path(path, same) && at == place && same_bytes(bytes, text)
        }
        (Call::SetLen(path, len), Call::SetLen(same, size)) => same_path(path, same) && len == size,
        (Call::Read(path, at, count), Call::Read(same, place, most)) => {
            same_path(path, same) && at == place && count == most
        }
        (Call::Chmod(path, mode), Call::Chmod(same, bits)) => same_path(path, same) && mode == bits,
        (Call::Touch(path, stamp), Call::Touch(same, time)) => same_path(path, same)
            && stamp == time,
        (Call::Stat(path), Call::Stat(same)) => same_path(path, same),
        (Call::List(path), Call::List(same)) => same_path(path, same),
        (Call::Remove(path), Call::Remove(same)) => same_path(path, same),
        (Call::Rmdir(path), Call::Rmdir(same)) => same_path(path, same),
        (Call::Rename(path, to), Call::Rename(same, target)) => same_path(path, same)
            && same_path(to, target),
        (Call::Fsync(path), Call::Fsync(same)) => same_path(path, same),
        (Call::Forder(paths), Call::Forder(same)) => same_paths(paths, same),
        (Call::Sync, Call::Sync) => true,
        (Call::Chown(path, owner), Call::Chown(same, user)) => same_path(path, same)
            && owner == user,
        _ => false,
    }
}

fn same_path(path: &Path, other: &Path) -> bool
    ensures { Decides result (path.now ≡ other.now) }
{
    path == other
}

fn same_paths(paths: &List<Path>, others: &List<Path>) -> bool
    ensures { Decides result (paths.now ≡ others.now) }
{
    paths == others
}

fn same_bytes(bytes: &List<u8>, others: &List<u8>) -> bool
    ensures { Decides result (bytes.now ≡ others.now) }
{
    bytes == others
}
