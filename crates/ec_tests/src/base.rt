//! Each public call once, and maps whose clauses name the orders of their keys.
ghost use Rattle.std.specs.Prelude.{◌≡◌, OnOk};
ghost use Rattle.std.specs.FinMap.Entries.{find, put};
ghost use Rattle.std.specs.Ordering.{nat_cmp};
ghost use Rattle.std.specs.Cmp.Lexicographic.{slice_cmp};
ghost use Rattle.ec_base.specs.Sorted.{without};

use ec_base::{
    ClerkId, Duplicate, Gave, List, MemSink, MemSource, Name, NameFault, NoMemory, ObjId, Path,
    PathFault, Sink, SortedMap, Source, StdSink, StdSource, Took, next,
};
use std::alloc::{AllocError, Global};

fn size_of(sizes: &SortedMap<ObjId, u64>, id: ObjId) -> Option<u64>
    ensures { result ≡ find nat_cmp id sizes.now }
{
    sizes.get(&id).copied()
}

fn forget(sizes: &mut SortedMap<ObjId, u64>, id: ObjId)
    ensures { sizes.new ≡ without nat_cmp id sizes.old }
{
    sizes.remove(&id);
}

fn entry(entries: &SortedMap<Name, ObjId>, name: &Name) -> Option<ObjId>
    ensures { result ≡ find (slice_cmp nat_cmp) name.now entries.now }
{
    entries.get(name).copied()
}

fn link(entries: &mut SortedMap<Name, ObjId>, name: Name, id: ObjId) -> Result<(), NoMemory>
    ensures { OnOk result (entries.new ≡ put (slice_cmp nat_cmp) name id entries.old) }
{
    entries.insert(name, id)
}

#[test]
fn ids(rt: HostRuntime) {
    assert!(rt; ObjId::new(1) == Some(ObjId::root()));
    assert!(rt; ClerkId::new(16) == None);
    assert!(rt; next(1 << 62) == None);
}

// A copy is the list again, and the list gives its items back.
fn copies(alloc: Global) -> Result<bool, NoMemory> {
    let list = List::of(Vec::from_slice(alloc, &[3u8, 4])?);
    let copy = list.duplicate()?;
    Ok(copy == list && is_three_and_four(list))
}

fn is_three_and_four(list: List<u8>) -> bool {
    list.as_slice() == [3, 4].as_slice() && list.into_vec().len() == 2
}

#[test]
fn lists(rt: HostRuntime) {
    assert!(rt; copies(rt.alloc()) == Ok(true));
}

fn fault_of(alloc: Global, bytes: &[u8]) -> Option<PathFault> {
    Path::read(alloc, bytes).err()
}

fn copies_a_path(alloc: Global, bytes: &[u8]) -> Option<bool> {
    let path = Path::read(alloc, bytes).ok()?;
    let copy = path.duplicate().ok()?;
    Some(copy == path && path.names().len() == 1)
}

#[test]
fn paths(rt: HostRuntime) {
    let deep = b"/a/a/a/a/a/a/a/a/a/a/a/a/a/a/a/a/a".as_slice();
    for (bytes, fault) in [
        (b"".as_slice(), Some(PathFault::NotRooted)),
        (b"/", None),
        (b"/a/", Some(PathFault::Name(2, NameFault::Empty))),
        (b"/../x", Some(PathFault::Name(1, NameFault::DotName))),
        (deep, Some(PathFault::Deep)),
    ] {
        assert!(rt; fault_of(rt.alloc(), bytes) == fault);
    }
    assert!(rt; copies_a_path(rt.alloc(), b"/a") == Some(true));
}

fn link_new(alloc: Global, entries: &mut SortedMap<Name, ObjId>, bytes: &[u8]) -> Option<()> {
    let name = Name::read(alloc, bytes).ok()?;
    link(entries, name, ObjId::root()).ok()
}

fn has_entry(alloc: Global, entries: &SortedMap<Name, ObjId>, bytes: &[u8]) -> Option<bool> {
    let name = Name::read(alloc, bytes).ok()?;
    Some(entry(entries, &name) == Some(ObjId::root()))
}

fn is_last(entries: &SortedMap<Name, ObjId>, bytes: &[u8]) -> bool {
    entries.at(1).is_some_and(|(last, _)| last.bytes() == bytes)
}

fn again(entries: SortedMap<Name, ObjId>) -> usize {
    SortedMap::of(entries.into_vec()).len()
}

// Two names, put in against their order: whether one is found, and is the last one, and how many there are.
fn two_names(alloc: Global) -> Option<(bool, bool, usize)> {
    let mut entries = SortedMap::new(alloc);
    link_new(alloc, &mut entries, b"b")?;
    link_new(alloc, &mut entries, b"a")?;
    let is_found = has_entry(alloc, &entries, b"b")?;
    let comes_last = is_last(&entries, b"b");
    Some((is_found, comes_last, again(entries)))
}

#[test]
fn names_in_a_map(rt: HostRuntime) {
    assert!(rt; two_names(rt.alloc()) == Some((true, true, 2)));
}

fn is_copied(sizes: &SortedMap<ObjId, u64>) -> Result<bool, NoMemory> {
    let copy = sizes.duplicate()?;
    Ok(copy == *sizes)
}

// One id, whose value is put, replaced and removed.
fn one_id(alloc: Global) -> Result<(bool, bool, Option<u64>, Option<u64>, bool), NoMemory> {
    let one = ObjId::root();
    let mut sizes = SortedMap::new(alloc);
    sizes.insert_both((one, 7), (one, 8))?;
    let is_copied = is_copied(&sizes)?;
    let contains = sizes.contains(&one);
    let replaced = sizes.replace(&one, 9);
    let size = size_of(&sizes, one);
    forget(&mut sizes, one);
    Ok((is_copied, contains, replaced, size, sizes.is_empty()))
}

#[test]
fn ids_in_a_map(rt: HostRuntime) {
    assert!(rt; one_id(rt.alloc()) == Ok((true, true, Some(8), Some(9), true)));
}

fn source(alloc: Global) -> Result<MemSource, AllocError> {
    let bytes = Vec::from_slice(alloc, &[1u8, 2, 3])?;
    Ok(MemSource::new(bytes, Vec::from_slice(alloc, &[1u64, 3])?))
}

// What the last takes left of two bytes, where they answer so.
fn takes(source: &mut MemSource, answers: &[Took]) -> Option<[u8; 2]> {
    let mut into = [0; 2];
    for answer in answers {
        if source.take(&mut into) != *answer {
            return None;
        }
    }
    Some(into)
}

#[test]
fn source_fails_first_and_in_mid_stream(rt: HostRuntime) {
    let mut source = source(rt.alloc()).expect(&rt, "memory");
    let answers = [
        Took::Failed,
        Took::Bytes(2),
        Took::Failed,
        Took::Bytes(1),
        Took::End,
    ];
    assert!(rt; takes(&mut source, &answers) == Some([3, 2]));
    let mut into = [0; 2];
    let mut reader = StdSource::new(b"x".as_slice());
    assert!(rt; reader.take(&mut into) == Took::Bytes(1));
}

fn gives(sink: &mut MemSink, answers: &[Gave]) -> bool {
    for answer in answers {
        if sink.give(b"ab") != *answer {
            return false;
        }
    }
    sink.bytes() == b"abab".as_slice()
}

// A sink whose second call fails.
fn sink(alloc: Global) -> Result<MemSink, AllocError> {
    Ok(MemSink::new(alloc, Vec::from_slice(alloc, &[2u64])?))
}

#[test]
fn sink_fails_in_mid_stream(rt: HostRuntime) {
    let mut sink = sink(rt.alloc()).expect(&rt, "memory");
    assert!(rt; gives(&mut sink, &[Gave::Bytes(2), Gave::Failed, Gave::Bytes(2)]));
    let mut writer = StdSink::new(Vec::new(rt.alloc()));
    assert!(rt; writer.give(b"xy") == Gave::Bytes(2));
}
