// The bells of the links that are served, which say when something came to an outbox, and that of the door.
use ec_base::{CLERK_COUNT, ClerkId, NoMemory};
use ec_link::Bell;
use ec_servernode::Told;
use std::alloc::Global;
use std::collections::BTreeMap;
use std::sync::atomic::{AtomicBool, AtomicU64, Ordering};
use std::sync::{Arc, Mutex, Wait};
use std::time::{Clock, Duration};

// A link that is served.
#[derive(Drop)]
struct Post<B: Bell + Drop> {
    bell: Arc<B>,
    /// The clerk of its last Hello.
    clerk: Option<ClerkId>,
}

// Links are told by their number.
#[derive(Drop)]
struct Table<B: Bell + Drop> {
    posts: BTreeMap<u64, Post<B>>,
    /// The link that each clerk has.
    by_clerk: Vec<Option<u64>>,
}

/// The bells of all links that are served, which of them a clerk has, and the bell of the door, which rings too where a link has ended
/// and where no further one is to come. Nobody holds a table for longer than a look.
#[derive(Drop)]
pub struct Bells<B: Bell + Drop, D: Bell + Drop> {
    table: Mutex<Table<B>>,
    /// The keys of the links that have ended.
    ended: Mutex<Vec<usize>>,
    door: D,
    is_over: AtomicBool,
    /// 1 where no link is served any more, and none is to come.
    is_done: AtomicU64,
}

impl<B: Bell + Drop, D: Bell + Drop> Bells<B, D> {
    /// No link has come yet. The error is want of memory.
    pub fn new(alloc: Global, door: D) -> Result<Bells<B, D>, NoMemory> {
        let mut by_clerk = Vec::with_capacity(alloc, CLERK_COUNT as usize)?;
        for _ in 0..CLERK_COUNT {
            by_clerk.push(None)?;
        }
        let posts = BTreeMap::new(alloc);
        Ok(Bells {
            table: Mutex::new(Table { posts, by_clerk }),
            ended: Mutex::new(Vec::new(alloc)),
            door,
            is_over: AtomicBool::new(false),
            is_done: AtomicU64::new(0),
        })
    }

    /// A link comes.
    pub fn add<R: Wait>(&self, rt: &R, number: u64, bell: Arc<B>) -> Result<(), NoMemory> {
        let mut table = self.table.lock(rt);
        match table.posts.insert(number, Post { bell, clerk: None }) {
            Ok(_) => Ok(()),
            Err(_) => Err(NoMemory),
        }
    }

    /// A link goes. It was this clerk's, where it said so.
    pub fn remove<R: Wait>(&self, rt: &R, number: u64) -> Option<ClerkId> {
        let mut table = self.table.lock(rt);
        table.posts.remove(&number)?.clerk
    }

    /// The link of this number is now the clerk's, and the one that it had looks, since it's at its end. True where this one was nobody's
    /// before.
    pub fn greet<R: Wait>(&self, rt: &R, number: u64, clerk: ClerkId) -> bool {
        let mut table = self.table.lock(rt);
        ring_clerk(&table, number, clerk);
        if let Some(has) = table.by_clerk.get_mut(clerk.get() as usize) {
            *has = Some(number);
        }
        match table.posts.get_mut(&number) {
            Some(post) => post.clerk.replace(clerk).is_none(),
            None => false,
        }
    }

    /// Whether the clerk has a link.
    pub fn has_link<R: Wait>(&self, rt: &R, clerk: ClerkId) -> bool {
        let table = self.table.lock(rt);
        match table.by_clerk.get(clerk.get() as usize) {
            Some(Some(link)) => table.posts.get(link).is_some(),
            _ => false,
        }
    }

    /// Rings where something came to one of these, but not for the link of this number, which told it.
    pub fn ring<R: Wait>(&self, rt: &R, number: u64, told: Told) {
        let table = self.table.lock(rt);
        ring_told(&table, number, told);
    }

    /// No further link is to be served, and all that are served look why.
    pub fn close<R: Wait>(&self, rt: &R) {
        self.is_over.store(true, Ordering::SeqCst);
        self.door.ring();
        let table = self.table.lock(rt);
        for post in table.posts.values() {
            post.bell.ring();
        }
    }

    /// Whether no further link is to be served.
    pub fn is_over(&self) -> bool {
        self.is_over.load(Ordering::SeqCst)
    }

    /// No link is served any more, and none is to come.
    pub fn finish(&self) {
        self.is_done.store(1, Ordering::SeqCst);
        self.is_done.wake_all();
    }

    /// Whether that is so.
    pub fn is_done(&self) -> bool {
        self.is_done.load(Ordering::SeqCst) == 1
    }

    /// Waits for that, but no longer than this.
    pub fn wait_done<R: Wait + Clock>(&self, rt: &R, longest: Duration) {
        self.is_done.park_timeout(rt, 0, longest);
    }

    /// Makes room for the keys of so many links. The error is want of memory.
    pub fn make_room<R: Wait>(&self, rt: &R, count: usize) -> Result<(), NoMemory> {
        let mut ended = self.ended.lock(rt);
        ended.reserve(count)?;
        Ok(())
    }

    /// The link of this key has ended. Where there is no room for its key, it's found at the end of all.
    pub fn end<R: Wait>(&self, rt: &R, key: usize) {
        self.note(rt, key);
        self.door.ring();
    }

    fn note<R: Wait>(&self, rt: &R, key: usize) {
        let mut ended = self.ended.lock(rt);
        let _ = ended.push(key);
    }

    /// The key of a link that has ended, which is told once.
    pub fn next_ended<R: Wait>(&self, rt: &R) -> Option<usize> {
        let mut ended = self.ended.lock(rt);
        ended.pop()
    }

    /// How often the bell of the door has rung.
    pub fn rings(&self) -> u64 {
        self.door.rings()
    }

    /// Waits for the door, outside of every lock, unless it has rung since it stood at `seen`.
    pub fn wait<R: Wait>(&self, rt: &R, seen: u64) {
        self.door.wait(rt, seen);
    }
}

// Rings for each clerk that was told something, but not for the link that told it.
fn ring_told<B: Bell + Drop>(table: &Table<B>, number: u64, told: Told) {
    for place in 0..CLERK_COUNT {
        if let Some(clerk) = ClerkId::new(place) {
            if told.has(clerk) {
                ring_clerk(table, number, clerk);
            }
        }
    }
}

fn ring_clerk<B: Bell + Drop>(table: &Table<B>, number: u64, clerk: ClerkId) {
    if let Some(Some(link)) = table.by_clerk.get(clerk.get() as usize) {
        if *link != number {
            ring_one(table, *link);
        }
    }
}

fn ring_one<B: Bell + Drop>(table: &Table<B>, number: u64) {
    if let Some(post) = table.posts.get(&number) {
        post.bell.ring();
    }
}
