// Calls under way.
ghost use Rattle.std.specs.Prelude.{◌≡◌, [], IfOk, OnOk};
ghost use Rattle.std.specs.List.{list_any};
ghost use Rattle.ec_base.specs.Tables.{at, at_or, put, without};
ghost use Rattle.ec_protocol.specs.World as machine;
ghost use Rattle.ec_clerk.specs.OfRunning.Calls.{less};

use ec_base::{ClerkId, Duplicate, NoMemory, SortedMap};
use ec_plain::Call;
use ec_protocol::Out;
use std::alloc::Global;

/// Takes a call under way out.
pub fn take_call(
    calls: &mut SortedMap<ClerkId, SortedMap<u64, (u32, Call)>>,
    clerk: ClerkId,
    no: u64,
) -> Result<Option<(u32, Call)>, NoMemory>
    ensures call { IfOk result (λ call. call ≡ at no (at_or [] clerk calls.old)) }
    ensures left { IfOk result (λ call. calls.new ≡ less clerk no calls.old call) }
{
    match calls.get(&clerk) {
        Some(own) if own.contains(&no) => {}
        _ => return Ok(None),
    }
    let _rising = calls.items();
    let Some(mut own) = calls.remove(&clerk) else {
        return Ok(None);
    };
    let call = own.remove(&no);
    match calls.insert(clerk, own) {
        Ok(()) => Ok(call),
        Err(fault) => {
            drop(call);
            Err(fault)
        }
    }
}

// Takes the clerk's calls under way out.
fn take_calls(
    alloc: Global,
    calls: &mut SortedMap<ClerkId, SortedMap<u64, (u32, Call)>>,
    clerk: ClerkId,
) -> SortedMap<u64, (u32, Call)>
    ensures own { result ≡ at_or [] clerk calls.old }
    ensures left { calls.new ≡ without clerk calls.old }
{
    match calls.remove(&clerk) {
        Some(own) => own,
        None => SortedMap::new(alloc),
    }
}

// Adds a call under way.
fn add_call(
    alloc: Global,
    calls: &mut SortedMap<ClerkId, SortedMap<u64, (u32, Call)>>,
    clerk: ClerkId,
    no: u64,
    line: u32,
    call: Call,
) -> Result<(), NoMemory>
    ensures { OnOk result (calls.new ≡ put clerk (put no (line, call) (at_or [] clerk calls.old)) calls.old) }
{
    let _rising = calls.items();
    let mut own = take_calls(alloc, calls, clerk);
    own.insert(no, (line, call))?;
    calls.insert(clerk, own)?;
    Ok(())
}

/// Whether the call is answered among what came out.
pub fn is_answered(no: u64, outs: &[Out]) -> bool
    ensures { result ≡ list_any (machine.is_answer_to no) outs.now }
{
    outs.iter().any(|out| matches!(out, Out::Answer(number, _, _) if no == *number))
}

/// A copy of the call is under way.
pub fn add_copy(
    alloc: Global,
    calls: &mut SortedMap<ClerkId, SortedMap<u64, (u32, Call)>>,
    clerk: ClerkId,
    no: u64,
    line: u32,
    call: &Call,
) -> Result<(), NoMemory>
    ensures { OnOk result (calls.new ≡ put clerk (put no (line, call.now) (at_or [] clerk calls.old)) calls.old) }
{
    add_call(alloc, calls, clerk, no, line, call.duplicate()?)
}
