// The outboxes of the clerks.
ghost use Rattle.std.specs.Prelude.{◌≡◌, ◌==◌, ℕ, ◌<◌, ◌⊎◌, [], ◌∷◌, ◌++◌, Bool, true, false, cond, List, drop, length, IfOk, IfSome, IfNone, Some, Option};
ghost use Rattle.ec_base.specs.Limits.{clerk_count};
ghost use Rattle.ec_servernode.specs.Node.{queue_at, owner_at};
ghost use Rattle.ec_servernode.specs.Run.{put, put_all, for_clerk, is_for, owner_now};
ghost use Rattle.ec_base.specs.Lists.{first_of};
ghost use Rattle.ec_servernode.specs.Told.{IsToldOf};

use crate::caller::Caller;
use crate::state::{Outbox, Told};
use ec_base::{CLERK_COUNT, ClerkId, NoMemory};
use ec_wire::Msg;
use std::alloc::Global;
use std::collections::VecDeque;

// An outbox holds so many messages.
const MOST_MESSAGES: usize = 4_096;

impl Outbox {
    /// With nothing in it, for any pass.
    fn new(alloc: Global) -> Outbox
        ensures { (result.msgs.items ≡ []) × (result.owner ≡ None) }
    {
        Outbox {
            msgs: VecDeque::new(alloc),
            owner: None,
        }
    }

    /// Puts a message last, where there is room for it.
    fn put(&mut self, msg: Msg) -> Result<(), NoMemory>
        ensures put { IfOk result (λ _. self.new.msgs.items ≡ put self.old.msgs.items msg) }
        ensures owner { self.new.owner ≡ self.old.owner }
    {
        if self.msgs.len() >= MOST_MESSAGES {
            drop(msg);
            return Ok(());
        }
        self.msgs.push_back(msg)?;
        Ok(())
    }
}

// An outbox for each clerk, with nothing in it.
fn new_boxes(alloc: Global) -> Result<Vec<Outbox>, NoMemory>
    ensures sized { IfOk result (λ boxes. length boxes.items ≡ clerk_count) }
    ensures empty { IfOk result (λ boxes. (c : ℕ) → (queue_at boxes.items c ≡ []) × (owner_at boxes.items c ≡ None)) }
{
    let mut boxes = Vec::with_capacity(alloc, CLERK_COUNT as usize)?;
    for _ in 0..CLERK_COUNT {
        add_box(&mut boxes, Outbox::new(alloc))?;
    }
    Ok(boxes)
}

fn add_box(boxes: &mut Vec<Outbox>, outbox: Outbox) -> Result<(), NoMemory>
    ensures { IfOk result (λ _. boxes.new.items ≡ boxes.old.items ++ outbox ∷ []) }
{
    boxes.push(outbox)?;
    Ok(())
}

// Puts a message last in the clerk's outbox.
fn post(boxes: &mut Vec<Outbox>, clerk: ClerkId, msg: Msg) -> Result<(), NoMemory>
    requires { length boxes.old.items ≡ clerk_count }
    ensures sized { length boxes.new.items ≡ clerk_count }
    ensures put { IfOk result (λ _. (c : ℕ) → queue_at boxes.new.items c ≡ put_all (queue_at boxes.old.items c) (for_clerk c ((clerk, msg) ∷ []))) }
    ensures owners { (c : ℕ) → owner_at boxes.new.items c ≡ owner_at boxes.old.items c }
{
    boxes[clerk.get() as usize].put(msg)
}

/// The clerks to which something is sent.
pub fn told_of(sent: &[(ClerkId, Msg)]) -> Told
    ensures { IsToldOf result sent.now }
{
    let mut told = Told::nobody();
    'sent: for one in sent {
        told = told.and(one.0);
    }
    told
}

/// Puts each message last in its clerk's outbox, where there is room for it. The error is want of memory, behind which some are put.
pub fn post_all(boxes: &mut Vec<Outbox>, sent: Vec<(ClerkId, Msg)>) -> Result<(), NoMemory>
    requires { length boxes.old.items ≡ clerk_count }
    ensures sized { length boxes.new.items ≡ clerk_count }
    ensures put { IfOk result (λ _. (c : ℕ) → queue_at boxes.new.items c ≡ put_all (queue_at boxes.old.items c) (for_clerk c sent.items)) }
    ensures owners { (c : ℕ) → owner_at boxes.new.items c ≡ owner_at boxes.old.items c }
{
    let mut sent = sent;
    // the next one is taken from the end
    sent.reverse();
    'sent: while let Some(one) = sent.pop() {
        let (clerk, msg) = one;
        post(boxes, clerk, msg)?;
    }
    Ok(())
}

/// An outbox for each clerk, with the first messages to it, for any pass. The error is want of memory.
pub fn filled_boxes(alloc: Global, sent: Vec<(ClerkId, Msg)>) -> Result<Vec<Outbox>, NoMemory>
    ensures sized { IfOk result (λ boxes. length boxes.items ≡ clerk_count) }
    ensures filled { IfOk result (λ boxes. (c : ℕ) → queue_at boxes.items c ≡ put_all [] (for_clerk c sent.items)) }
    ensures owners { IfOk result (λ boxes. (c : ℕ) → owner_at boxes.items c ≡ None) }
{
    let mut boxes = new_boxes(alloc)?;
    post_all(&mut boxes, sent)?;
    Ok(boxes)
}

/// A Hello makes its clerk's outbox this pass's.
pub fn own(boxes: &mut Vec<Outbox>, hello: Option<ClerkId>, pass: u64)
    requires { length boxes.old.items ≡ clerk_count }
    ensures sized { length boxes.new.items ≡ clerk_count }
    ensures same { (c : ℕ) → queue_at boxes.new.items c ≡ queue_at boxes.old.items c }
    ensures owners { (c : ℕ) → c < clerk_count → owner_at boxes.new.items c ≡ owner_now c hello pass (owner_at boxes.old.items c) }
{
    if let Some(clerk) = hello {
        boxes[clerk.get() as usize].owner = Some(pass);
    }
}

// Whether the clerk's outbox belongs to the pass, or to any.
fn is_for(boxes: &[Outbox], clerk: ClerkId, pass: u64) -> bool
    requires { length boxes.now ≡ clerk_count }
    ensures { result ≡ is_for pass (owner_at boxes.now clerk) }
{
    let outbox = &boxes[clerk.get() as usize];
    match outbox.owner {
        Some(owner) => owner == pass,
        None => true,
    }
}

/// Whether the link's other end has greeted, and its clerk's outbox is another pass's by now.
pub fn is_others(boxes: &[Outbox], caller: &Caller, pass: u64) -> bool
    requires { length boxes.now ≡ clerk_count }
    ensures others { result ≡ true → (caller.now.has_greeted ≡ true) × (is_for pass (owner_at boxes.now caller.now.clerk) ≡ false) }
    ensures own { result ≡ false → (caller.now.has_greeted ≡ true → is_for pass (owner_at boxes.now caller.now.clerk) ≡ true) }
{
    caller.has_greeted && !is_for(boxes, caller.clerk, pass)
}

/// The first message in the clerk's outbox, where that belongs to the pass.
pub fn next_for<'a>(boxes: &'a [Outbox], clerk: ClerkId, pass: u64) -> Option<&'a Msg>
    requires { length boxes.now ≡ clerk_count }
    ensures some { IfSome result (λ msg. (is_for pass (owner_at boxes.now clerk) ≡ true) × (first_of (queue_at boxes.now clerk) ≡ Some msg.now)) }
    ensures none { IfNone result ((queue_at boxes.now clerk ≡ []) ⊎ (is_for pass (owner_at boxes.now clerk) ≡ false)) }
{
    let outbox = &boxes[clerk.get() as usize];
    if let Some(owner) = outbox.owner {
        if owner != pass {
            return None;
        }
    }
    outbox.msgs.front()
}

/// Takes the first message off the clerk's outbox.
pub fn drop_first(boxes: &mut Vec<Outbox>, clerk: ClerkId)
    requires { length boxes.old.items ≡ clerk_count }
    ensures sized { length boxes.new.items ≡ clerk_count }
    ensures dropped { (c : ℕ) → queue_at boxes.new.items c ≡ cond (clerk == c) (drop 1 (queue_at boxes.old.items c)) (queue_at boxes.old.items c) }
    ensures owners { (c : ℕ) → owner_at boxes.new.items c ≡ owner_at boxes.old.items c }
{
    drop(boxes[clerk.get() as usize].msgs.pop_front());
}
