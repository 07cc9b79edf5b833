// Calls over two volumes: their servers share one net in memory, each in a thread of its own.
use crate::runs::{Echo, NONE, NetTypes, await_door, echoed_over, is_so, new_disk, new_net, tells};
use ec_base::NoMemory;
use ec_link::{Around, MemNet, Spawner, ThreadSpawner};
use std::alloc::Global;
use std::io::Eprint;
use std::thread;

// One net, for three threads.
#[derive(Drop)]
struct Shared {
    first: MemNet,
    second: MemNet,
    own: MemNet,
}

fn shared_net(alloc: Global) -> Result<Shared, NoMemory> {
    let own = new_net(alloc, 0)?;
    let first = own.share()?;
    let second = own.share()?;
    Ok(Shared { first, second, own })
}

// What these words come to over this input, on a new disk.
fn run<R: Around + Eprint>(
    rt: &R,
    words: &str,
    input: &[u8],
    net: MemNet,
) -> Result<Echo, NoMemory> {
    let mut net = net;
    let mut disk = new_disk(rt.alloc(), 0)?;
    let mut spawner = Spawner::Threads(ThreadSpawner::new());
    let echo = echoed_over(rt, words, input, NONE, &mut disk, &mut net, &mut spawner, 1);
    drop(spawner);
    drop(disk);
    drop(net);
    echo
}

// Whether both servers end well, each behind its link.
fn are_served<R: Around + Eprint>(rt: &R, first: MemNet, second: MemNet) -> bool {
    let (first, second) = thread::join(
        rt,
        || is_so(run(rt, "serve x 1", b"", first), 0, b""),
        || is_so(run(rt, "serve y 1", b"", second), 0, b""),
    );
    first && second
}

// Whether these words are told this, once both servers are there.
fn is_told<R: Around + Eprint>(
    rt: &R,
    words: &str,
    calls: &[u8],
    text: &[u8],
    net: MemNet,
) -> bool {
    await_door(rt, &net, "x");
    await_door(rt, &net, "y");
    is_so(run(rt, words, calls, net), 0, text)
}

// Whether these words over two servers are told this.
fn are_volumes<R: Around + Eprint>(rt: &R, words: &str, calls: &[u8], text: &[u8]) -> bool {
    let Ok(shared) = shared_net(rt.alloc()) else {
        return false;
    };
    let Shared { first, second, own } = shared;
    let (are_served, is_told) = thread::join(
        rt,
        || are_served(rt, first, second),
        || is_told(rt, words, calls, text, own),
    );
    are_served && is_told
}

#[test]
fn volumes_side_by_side(rt: HostRuntime) {
    drop::<NetTypes>((None, None));
    let calls = b"mkdir /v/a\nrename /v/a /w/a\nstat /x\nstat /v/b/c\n";
    let text =
        b"1 mkdir /v/a -> ok op 1\n2 rename /v/a /w/a -> refused CrossVolume\n3 stat /x -> refused NoVolume 1\n4 stat /v/b/c -> refused NotFound 2\nend /v sync -> ok\nend /w sync -> ok\n";
    assert!(rt; are_volumes(&rt, "mounts A /v=x /w=y", calls, text));
}

#[test]
fn a_volume_within_another(rt: HostRuntime) {
    drop::<NetTypes>((None, None));
    let calls = b"create /v\ncreate /vv\nrename /vv /v/f\n";
    let text =
        b"1 create /v -> refused Root\n2 create /vv -> ok op 1\n3 rename /vv /v/f -> refused CrossVolume\nend / sync -> ok\nend /v sync -> ok\n";
    assert!(rt; are_volumes(&rt, "mounts A /=x /v=y", calls, text));
}

#[test]
fn a_sync_goes_to_all(rt: HostRuntime) {
    drop::<NetTypes>((None, None));
    let calls = b"create /v/f\nsync\nread /w/f 0 9\n";
    let text =
        b"1 create /v/f -> ok op 1\n2 /v sync -> ok\n2 /w sync -> ok\n3 read /w/f 0 9 -> refused NotFound 2\nend /v sync -> ok\nend /w sync -> ok\n";
    assert!(rt; are_volumes(&rt, "mounts A /v=x /w=y", calls, text));
}

// Words behind `mounts` that are no table.
const NO_TABLES: [&str; 7] = [
    "mounts A",
    "mounts Q /v=x",
    "mounts A v=x",
    "mounts A /v//w=x",
    "mounts A /v",
    "mounts A /v=",
    "mounts A /v=x /v=y",
];

#[test]
fn words_that_are_no_table(rt: HostRuntime) {
    drop::<NetTypes>((None, None));
    for words in NO_TABLES {
        assert!(rt; tells(&rt, words, b"", NONE, 2, b""));
    }
}
