// Two lanes, of which the first one waits for the second.
ghost use Rattle.ec_lock.specs.PassViews.{IsPassOf};

use ec_base::{List, Path};
use ec_clerknode::{Gate, Node, SharedClerk, run_lanes};
use ec_history::Answer;
use ec_link::{Around, MemLink};
use ec_lock::Pass;
use ec_plain::Call;
use ec_words::text::print_answer;
use std::alloc::Global;
use std::sync::atomic::{AtomicBool, Ordering};

// It holds lane 1 until the one call of lane 2 was answered.
#[derive(Drop)]
struct Held {
    is_answered: AtomicBool,
    has_waited: AtomicBool,
}

const LONGEST_WAIT: u64 = 1_000_000_000;

impl Held {
    fn await_answer(&self) {
        for _ in 0..LONGEST_WAIT {
            if self.is_answered.load(Ordering::SeqCst) {
                self.has_waited.store(true, Ordering::SeqCst);
                return;
            }
        }
    }
}

impl Gate for Held {
    fn pass(&self, lane: u8, place: u32) {
        if lane == 2 && place == 2 {
            self.is_answered.store(true, Ordering::SeqCst);
        }
        if lane == 1 && place == 1 {
            self.await_answer();
        }
    }
}

fn path(alloc: Global, bytes: &[u8]) -> Option<Path> {
    Path::read(alloc, bytes).ok()
}

fn first(alloc: Global) -> Option<List<Call>> {
    let mut calls = Vec::with_capacity(alloc, 2).ok()?;
    calls.push(Call::Create(path(alloc, b"/f")?)).ok()?;
    let text = List::of(Vec::from_slice(alloc, b"hi").ok()?);
    calls.push(Call::Write(path(alloc, b"/f")?, 0, text)).ok()?;
    Some(List::of(calls))
}

fn second(alloc: Global) -> Option<List<Call>> {
    let mut calls = Vec::with_capacity(alloc, 1).ok()?;
    calls.push(Call::Stat(path(alloc, b"/")?)).ok()?;
    Some(List::of(calls))
}

fn two_lanes(alloc: Global) -> Option<Vec<List<Call>>> {
    let mut lanes = Vec::with_capacity(alloc, 2).ok()?;
    lanes.push(first(alloc)?).ok()?;
    lanes.push(second(alloc)?).ok()?;
    Some(lanes)
}

// A line for each answer.
fn printed(alloc: Global, lanes: &[Vec<Answer>]) -> Option<Vec<u8>> {
    let mut text = Vec::new(alloc);
    for answers in lanes {
        for answer in answers {
            text.extend_from_slice(&print_answer(alloc, answer, None).ok()?)
                .ok()?;
            text.push(b'\n').ok()?;
        }
    }
    Some(text)
}

fn answers<R: Around>(
    rt: &R,
    clerk: &SharedClerk<MemLink>,
    pass: &mut Pass<Node<MemLink>>,
    gate: &Held,
) -> Option<Vec<u8>>
    requires { IsPassOf clerk.now.lock pass.old }
{
    let lanes = two_lanes(rt.alloc())?;
    let all = run_lanes(rt, clerk, pass, gate, lanes).ok()?;
    printed(rt.alloc(), &all)
}

/// Both lanes at the same time: the second one sees an empty root.
pub fn run_both<R: Around>(rt: &R, clerk: SharedClerk<MemLink>, pass: Pass<Node<MemLink>>) -> bool
    requires { IsPassOf clerk.lock pass }
{
    let mut own = pass;
    let gate = Held {
        is_answered: AtomicBool::new(false),
        has_waited: AtomicBool::new(false),
    };
    let text = answers(rt, &clerk, &mut own, &gate);
    let has_waited = gate.has_waited.load(Ordering::SeqCst);
    drop(own);
    drop(clerk);
    match text {
        Some(text) => has_waited && text.as_slice() == b"ok\nok\nstat dir 0755 0 0\n".as_slice(),
        None => false,
    }
}
