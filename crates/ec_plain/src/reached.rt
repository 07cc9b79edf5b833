// Calls on the object that their path reaches, each in a function of its own, which isn't made a part of `plain`: the variables of one call are then no cost of another.
ghost use Rattle.std.specs.Prelude.{◌≡◌, ◌≤◌, length, IfOk};
ghost use Rattle.ec_base.specs.Limits.{max_path_names};
ghost use Rattle.ec_volume.specs.declared.update.Update.TheVariants.{Mode, Stamp, Owner};
ghost use Rattle.ec_plain.specs.Walk.{walk};
ghost use Rattle.ec_plain.specs.Plain.{answers, issues, on_reached, write_in, len_in, read_in, list_in, stat_of};
ghost use Rattle.ec_plain.specs.declared.call.Reply.TheVariants as reply;

use crate::call::{Outcome, Reply};
use crate::file::{len_in, list_in, read_in, stat_of, write_in};
use crate::outcome::{answers, issues};
use crate::step::{Step, object_at};
use ec_base::{List, Name, NoMemory};
use ec_volume::{Look, Update};
use std::alloc::Global;

// A file is written.
#[inline(never)]
pub(crate) fn plain_write<V: Look>(
    alloc: Global,
    volume: &V,
    names: &[Name],
    at: u32,
    bytes: &List<u8>,
) -> Result<Outcome, NoMemory>
    requires { length names.now ≤ max_path_names }
    ensures { IfOk result (λ outcome. outcome ≡ on_reached (walk (V.images volume.now) names.now) (write_in (V.images volume.now) at bytes.now)) }
{
    match object_at(alloc, volume, names)? {
        Step::Goes((obj, read)) => write_in(volume, at, bytes, obj, read),
        Step::Ends(outcome) => Ok(outcome),
    }
}

// A file gets another length.
#[inline(never)]
pub(crate) fn plain_len<V: Look>(
    alloc: Global,
    volume: &V,
    names: &[Name],
    len: u32,
) -> Result<Outcome, NoMemory>
    requires { length names.now ≤ max_path_names }
    ensures { IfOk result (λ outcome. outcome ≡ on_reached (walk (V.images volume.now) names.now) (len_in (V.images volume.now) len)) }
{
    match object_at(alloc, volume, names)? {
        Step::Goes((obj, read)) => Ok(len_in(volume, len, obj, read)),
        Step::Ends(outcome) => Ok(outcome),
    }
}

// A file is read.
#[inline(never)]
pub(crate) fn plain_read<V: Look>(
    alloc: Global,
    volume: &V,
    names: &[Name],
    at: u32,
    count: u32,
) -> Result<Outcome, NoMemory>
    requires { length names.now ≤ max_path_names }
    ensures { IfOk result (λ outcome. outcome ≡ on_reached (walk (V.images volume.now) names.now) (read_in (V.images volume.now) at count)) }
{
    match object_at(alloc, volume, names)? {
        Step::Goes((obj, read)) => read_in(alloc, volume, at, count, obj, read),
        Step::Ends(outcome) => Ok(outcome),
    }
}

// A directory is listed.
#[inline(never)]
pub(crate) fn plain_list<V: Look>(
    alloc: Global,
    volume: &V,
    names: &[Name],
) -> Result<Outcome, NoMemory>
    requires { length names.now ≤ max_path_names }
    ensures { IfOk result (λ outcome. outcome ≡ on_reached (walk (V.images volume.now) names.now) (list_in (V.images volume.now) names.now)) }
{
    match object_at(alloc, volume, names)? {
        Step::Goes((obj, read)) => list_in(alloc, volume, names.len() as u8, obj, read),
        Step::Ends(outcome) => Ok(outcome),
    }
}

// An object gets a mode.
#[inline(never)]
pub(crate) fn plain_mode<V: Look>(
    alloc: Global,
    volume: &V,
    names: &[Name],
    mode: u16,
) -> Result<Outcome, NoMemory>
    requires { length names.now ≤ max_path_names }
    ensures { IfOk result (λ outcome. outcome ≡ on_reached (walk (V.images volume.now) names.now) (λ obj read. issues (Mode obj mode) read)) }
{
    match object_at(alloc, volume, names)? {
        Step::Goes((obj, read)) => Ok(issues(Update::Mode { obj, mode }, read)),
        Step::Ends(outcome) => Ok(outcome),
    }
}

// An object gets a stamp.
#[inline(never)]
pub(crate) fn plain_stamp<V: Look>(
    alloc: Global,
    volume: &V,
    names: &[Name],
    stamp: u64,
) -> Result<Outcome, NoMemory>
    requires { length names.now ≤ max_path_names }
    ensures { IfOk result (λ outcome. outcome ≡ on_reached (walk (V.images volume.now) names.now) (λ obj read. issues (Stamp obj stamp) read)) }
{
    match object_at(alloc, volume, names)? {
        Step::Goes((obj, read)) => Ok(issues(Update::Stamp { obj, stamp }, read)),
        Step::Ends(outcome) => Ok(outcome),
    }
}

// An object gets an owner.
#[inline(never)]
pub(crate) fn plain_owner<V: Look>(
    alloc: Global,
    volume: &V,
    names: &[Name],
    owner: u32,
) -> Result<Outcome, NoMemory>
    requires { length names.now ≤ max_path_names }
    ensures { IfOk result (λ outcome. outcome ≡ on_reached (walk (V.images volume.now) names.now) (λ obj read. issues (Owner obj owner) read)) }
{
    match object_at(alloc, volume, names)? {
        Step::Goes((obj, read)) => Ok(issues(Update::Owner { obj, owner }, read)),
        Step::Ends(outcome) => Ok(outcome),
    }
}

// What an object shows.
#[inline(never)]
pub(crate) fn plain_stat<V: Look>(
    alloc: Global,
    volume: &V,
    names: &[Name],
) -> Result<Outcome, NoMemory>
    requires { length names.now ≤ max_path_names }
    ensures { IfOk result (λ outcome. outcome ≡ on_reached (walk (V.images volume.now) names.now) (λ obj read. answers (stat_of (V.images volume.now obj)) read)) }
{
    match object_at(alloc, volume, names)? {
        Step::Goes((obj, read)) => Ok(answers(stat_of(volume, obj), read)),
        Step::Ends(outcome) => Ok(outcome),
    }
}

// What was issued on an object is to be durable.
#[inline(never)]
pub(crate) fn plain_fsync<V: Look>(
    alloc: Global,
    volume: &V,
    names: &[Name],
) -> Result<Outcome, NoMemory>
    requires { length names.now ≤ max_path_names }
    ensures { IfOk result (λ outcome. outcome ≡ on_reached (walk (V.images volume.now) names.now) (λ obj read. answers reply.Ok read)) }
{
    match object_at(alloc, volume, names)? {
        Step::Goes((_, read)) => Ok(answers(Reply::Ok, read)),
        Step::Ends(outcome) => Ok(outcome),
    }
}
