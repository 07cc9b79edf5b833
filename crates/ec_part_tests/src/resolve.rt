//! Verdicts on small caches.

ghost use Rattle.std.specs.Prelude.{◌≡◌, true};
ghost use Rattle.ec_cache.specs.Held.{is_within};

use ec_base::{Hold, List, NoMemory, ObjId, OpNo, Path};
use ec_cache::Cache;
use ec_cache::report::Report;
use ec_cache::resolve::{Verdict, evaluate};
use ec_plain::Call;
use ec_volume::{Entries, Image};
use std::alloc::Global;

fn root(alloc: Global) -> Image
    ensures { is_within result ≡ true }
{
    Image::Dir {
        mode: 0o755,
        stamp: 0,
        owner: 0,
        entries: Entries::new(alloc),
    }
}

// What a verdict asks for or tells, without its lists.
#[derive(Clone, Copy, Debug, PartialEq)]
enum Told {
    Need(u32, Hold),
    Done,
    NeedIds(usize),
    Lost(usize, usize),
}

fn short(verdict: &Verdict) -> Told {
    match verdict {
        Verdict::Need(obj, mode) => Told::Need(obj.get(), *mode),
        Verdict::Done(_) => Told::Done,
        Verdict::NeedIds(objs) => Told::NeedIds(objs.as_slice().len()),
        Verdict::Lost(lost, objs) => Told::Lost(lost.as_slice().len(), objs.as_slice().len()),
    }
}

fn asked(alloc: Global, cache: &Cache, owed: &Report, call: &Call) -> Result<Told, NoMemory> {
    let verdict = evaluate(alloc, cache, owed, call, None)?;
    let told = short(&verdict);
    drop(verdict);
    Ok(told)
}

// `stat /` and `create /f`.
#[derive(Drop)]
struct Calls {
    stat: Call,
    create: Call,
}

fn both(alloc: Global) -> Option<Calls> {
    let root = Path::read(alloc, b"/").ok()?;
    let file = Path::read(alloc, b"/f").ok()?;
    Some(Calls {
        stat: Call::Stat(root),
        create: Call::Create(file),
    })
}

// Operation 5 is owed on the root.
fn owing(alloc: Global) -> Result<Report, NoMemory> {
    let mut owed = Report::new(alloc)?;
    let lost = List::of(Vec::from_slice(alloc, &[ObjId::root()])?);
    owed.owe(&[(OpNo(5), lost)])?;
    Ok(owed)
}

// The verdicts on `stat /` without a token and with one for reading, on `create /f` with it, and with one for writing.
fn verdicts(alloc: Global, cache: &mut Cache, calls: &Calls) -> Result<[Told; 4], NoMemory> {
    let none = Report::new(alloc)?;
    let unread = asked(alloc, cache, &none, &calls.stat)?;
    cache.take(ObjId::root(), Hold::Read, 1, root(alloc))?;
    let read = asked(alloc, cache, &none, &calls.stat)?;
    let unwritten = asked(alloc, cache, &none, &calls.create)?;
    cache.take(ObjId::root(), Hold::Write, 2, root(alloc))?;
    let without_id = asked(alloc, cache, &none, &calls.create)?;
    Ok([unread, read, unwritten, without_id])
}

fn reported(alloc: Global, cache: &Cache, calls: &Calls) -> Result<Told, NoMemory> {
    let owing = owing(alloc)?;
    asked(alloc, cache, &owing, &calls.create)
}

// The same, and that on `create /f` where a loss is owed.
fn over_a_cache(alloc: Global, calls: &Calls) -> Result<([Told; 4], Told), NoMemory> {
    let mut cache = Cache::new(alloc, 16)?;
    let told = verdicts(alloc, &mut cache, calls)?;
    Ok((told, reported(alloc, &cache, calls)?))
}

fn all_told(alloc: Global) -> Option<([Told; 4], Told)> {
    let calls = both(alloc)?;
    let told = over_a_cache(alloc, &calls);
    drop(calls);
    told.ok()
}

#[test]
fn a_clerk_asks_for_the_root_and_then_answers(rt: HostRuntime) {
    let want = [
        Told::Need(1, Hold::Read),
        Told::Done,
        Told::Need(1, Hold::Write),
        Told::NeedIds(1),
    ];
    assert!(rt; all_told(rt.alloc()) == Some((want, Told::Lost(1, 1))));
}
