// What a call comes to on one plain volume.
ghost use Rattle.std.specs.Prelude.{◌≡◌, IfOk};
ghost use Rattle.ec_plain.specs.Plain.{plain};

use crate::call::{Call, Outcome, Reply};
use crate::forder::plain_forder;
use crate::make::plain_make;
use crate::outcome::answers;
use crate::reached::{
    plain_fsync, plain_len, plain_list, plain_mode, plain_owner, plain_read, plain_stamp,
    plain_stat, plain_write,
};
use crate::remove::plain_drop;
use crate::rename::plain_rename;
use ec_base::{NoMemory, ObjId};
use ec_volume::{Kind, Look};
use std::alloc::Global;

/// What the call comes to, where a new object is to have the fresh id.
pub fn plain<V: Look>(
    alloc: Global,
    volume: &V,
    call: &Call,
    fresh: ObjId,
) -> Result<Outcome, NoMemory>
    ensures { IfOk result (λ outcome. outcome ≡ plain (V.images volume.now) call.now fresh) }
{
    match call {
        Call::Mkdir(path) => plain_make(alloc, volume, Kind::Dir, path.names(), fresh),
        Call::Create(path) => plain_make(alloc, volume, Kind::File, path.names(), fresh),
        Call::Remove(path) => plain_drop(alloc, volume, Kind::File, path.names()),
        Call::Rmdir(path) => plain_drop(alloc, volume, Kind::Dir, path.names()),
        Call::Rename(path, target) => { plain_rename(alloc, volume, path.names(), target.names()) },
        Call::Forder(paths) => plain_forder(alloc, volume, paths.as_slice()),
        Call::Sync => Ok(answers(Reply::Ok, Vec::new(alloc))),
        Call::Write(path, at, bytes) => plain_write(alloc, volume, path.names(), *at, bytes),
        Call::SetLen(path, len) => plain_len(alloc, volume, path.names(), *len),
        Call::Read(path, at, count) => plain_read(alloc, volume, path.names(), *at, *count),
        Call::List(path) => plain_list(alloc, volume, path.names()),
        Call::Chmod(path, mode) => plain_mode(alloc, volume, path.names(), *mode),
        Call::Touch(path, stamp) => plain_stamp(alloc, volume, path.names(), *stamp),
        Call::Chown(path, owner) => plain_owner(alloc, volume, path.names(), *owner),
        Call::Stat(path) => plain_stat(alloc, volume, path.names()),
        Call::Fsync(path) => plain_fsync(alloc, volume, path.names()),
    }
}
