// The program's one call over sources, sinks, disks and nets in memory, and what it came to.
use ec_base::{MemSink, MemSource, NoMemory};
use ec_disk::{CrashDisk, MemDisk};
use ec_echo::named::echo_main;
use ec_link::{Around, MemNet, Spawner, ThreadSpawner};
use std::alloc::{AllocError, Global};
use std::io::Eprint;
use std::net::{TcpListener, TcpStream};

/// The types of the runtime's net. A test names them, so that its table of types has them.
pub type NetTypes = (Option<TcpListener>, Option<TcpStream>);

/// The calls of the source, the sink, the disk and the net that fail, from 1; 0 where none does.
#[derive(Clone, Copy, Drop)]
pub struct Fails {
    pub source: u64,
    pub sink: u64,
    pub disk: u64,
    pub net: u64,
}

pub const NONE: Fails = Fails {
    source: 0,
    sink: 0,
    disk: 0,
    net: 0,
};

/// What the program came to: its status and what it wrote.
#[derive(Drop)]
pub struct Echo {
    pub status: u8,
    pub text: Vec<u8>,
}

fn own(alloc: Global, words: &str) -> Result<Vec<String>, AllocError> {
    let mut own = Vec::new(alloc);
    for word in words.split(' ') {
        own.push(String::from_str(alloc, word)?)?;
    }
    Ok(own)
}

fn source(alloc: Global, input: &[u8], fails: u64) -> Result<MemSource, AllocError> {
    let bytes = Vec::from_slice(alloc, input)?;
    Ok(MemSource::new(bytes, Vec::from_slice(alloc, &[fails])?))
}

fn sink(alloc: Global, fails: u64) -> Result<MemSink, AllocError> {
    Ok(MemSink::new(alloc, Vec::from_slice(alloc, &[fails])?))
}

pub fn new_disk(alloc: Global, fails: u64) -> Result<MemDisk, NoMemory> {
    MemDisk::new(alloc, Vec::from_slice(alloc, &[fails])?)
}

pub fn new_net(alloc: Global, fails: u64) -> Result<MemNet, NoMemory> {
    MemNet::new(alloc, Vec::from_slice(alloc, &[fails])?)
}

/// Waits until somebody listens at the address.
pub fn await_door<R: Around>(rt: &R, net: &MemNet, addr: &str) {
    for _ in rt.forever() {
        if net.listens(rt, addr) {
            return;
        }
    }
}

/// These words over this input, disk, net and spawner.
pub fn echoed_over<R: Around + Eprint>(
    rt: &R,
    words: &str,
    input: &[u8],
    fails: Fails,
    disk: &mut MemDisk,
    net: &mut MemNet,
    spawner: &mut Spawner,
    boot: u64,
) -> Result<Echo, NoMemory> {
    let words = own(rt.alloc(), words)?;
    let mut input = source(rt.alloc(), input, fails.source)?;
    let mut output = sink(rt.alloc(), fails.sink)?;
    disk.disarm();
    let status = echo_main(
        rt,
        &words,
        &mut input,
        &mut output,
        disk,
        net,
        spawner,
        boot,
    );
    let text = output.bytes().to_vec(rt.alloc());
    drop(output);
    drop(input);
    drop(words);
    Ok(Echo {
        status,
        text: text?,
    })
}

/// These words over this input and disk.
pub fn echoed_on<R: Around + Eprint>(
    rt: &R,
    words: &str,
    input: &[u8],
    fails: Fails,
    disk: &mut MemDisk,
) -> Result<Echo, NoMemory> {
    let mut net = new_net(rt.alloc(), fails.net)?;
    let mut spawner = Spawner::Threads(ThreadSpawner::new());
    let echo = echoed_over(rt, words, input, fails, disk, &mut net, &mut spawner, 1);
    drop(net);
    drop(spawner);
    echo
}

/// These words over this input and a new disk.
pub fn echoed<R: Around + Eprint>(
    rt: &R,
    words: &str,
    input: &[u8],
    fails: Fails,
) -> Result<Echo, NoMemory> {
    let mut disk = new_disk(rt.alloc(), fails.disk)?;
    let echo = echoed_on(rt, words, input, fails, &mut disk);
    drop(disk);
    echo
}

/// Whether it came to this status, and wrote just this.
pub fn is_so(echo: Result<Echo, NoMemory>, status: u8, text: &[u8]) -> bool {
    match echo {
        Ok(echo) => echo.status == status && echo.text.as_slice() == text,
        Err(_) => false,
    }
}

/// Whether these words over this input and a new disk come to this status, and write just this.
pub fn tells<R: Around + Eprint>(
    rt: &R,
    words: &str,
    input: &[u8],
    fails: Fails,
    status: u8,
    text: &[u8],
) -> bool {
    is_so(echoed(rt, words, input, fails), status, text)
}
