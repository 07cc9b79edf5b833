// The words of calls.
ghost use Rattle.std.specs.Prelude.{◌≡◌, ◌++◌, OnOk, codes};
ghost use Rattle.std.specs.Fmt.{decimal};
ghost use Rattle.ec_words.specs.OfText.Pieces.{path_text};
ghost use Rattle.ec_words.specs.OfText.Calls.{call_text, next_path};
ghost use Rattle.std.specs.List.{flat_map};

use crate::text::pieces::{push_escaped, push_number, push_octal, push_path, push_text};
use ec_base::{NoMemory, Path};
use ec_plain::Call;

pub(crate) fn push_call(out: &mut Vec<u8>, call: &Call) -> Result<(), NoMemory>
    ensures { OnOk result (out.new.items ≡ out.old.items ++ call_text call.now) }
{
    match call {
        Call::Mkdir(path) => push_on(out, b"mkdir ", path),
        Call::Create(path) => push_on(out, b"create ", path),
        Call::Write(path, at, text) => {
            push_with(out, b"write ", path, u64::from(*at))?;
            push_text(out, b" ")?;
            push_escaped(out, text.as_slice())
        }
        Call::SetLen(path, len) => push_with(out, b"setlen ", path, u64::from(*len)),
        Call::Read(path, at, count) => {
            push_with(out, b"read ", path, u64::from(*at))?;
            push_text(out, b" ")?;
            push_number(out, u64::from(*count))
        }
        Call::Chmod(path, mode) => {
            push_on(out, b"chmod ", path)?;
            push_text(out, b" ")?;
            push_octal(out, *mode)
        }
        Call::Touch(path, stamp) => push_with(out, b"touch ", path, *stamp),
        Call::Stat(path) => push_on(out, b"stat ", path),
        Call::List(path) => push_on(out, b"list ", path),
        Call::Remove(path) => push_on(out, b"remove ", path),
        Call::Rmdir(path) => push_on(out, b"rmdir ", path),
        Call::Rename(from, to) => {
            push_on(out, b"rename ", from)?;
            push_text(out, b" ")?;
            push_path(out, to)
        }
        Call::Fsync(path) => push_on(out, b"fsync ", path),
        Call::Forder(paths) => {
            push_text(out, b"forder")?;
            push_paths(out, paths.as_slice())
        }
        Call::Sync => push_text(out, b"sync"),
        Call::Chown(path, owner) => push_with(out, b"chown ", path, u64::from(*owner)),
    }
}

// A verb and a path.
fn push_on(out: &mut Vec<u8>, verb: &[u8], path: &Path) -> Result<(), NoMemory>
    ensures { OnOk result (out.new.items ≡ out.old.items ++ (verb.now ++ path_text path.now)) }
{
    push_text(out, verb)?;
    push_path(out, path)
}

// A verb, a path and a number.
fn push_with(out: &mut Vec<u8>, verb: &[u8], path: &Path, number: u64) -> Result<(), NoMemory>
    ensures { OnOk result (out.new.items ≡ out.old.items ++ (verb.now ++ path_text path.now ++ codes " " ++ decimal number)) }
{
    push_on(out, verb, path)?;
    push_text(out, b" ")?;
    push_number(out, number)
}

fn push_paths(out: &mut Vec<u8>, paths: &[Path]) -> Result<(), NoMemory>
    ensures { OnOk result (out.new.items ≡ out.old.items ++ flat_map next_path paths.now) }
{
    for path in paths {
        push_on(out, b" ", path)?;
    }
    Ok(())
}
