// What the volumes told lost.
ghost use Rattle.std.specs.Prelude.{◌≡◌, ◌<◌, ◌≤◌, ◌++◌, map, length, slice_set, IfOk, IfErr, OnOk};
ghost use Rattle.ec_clerknode.specs.declared.fault.NodeFault.TheVariants as fault;
ghost use Rattle.ec_mounts.specs.Mounts.{AllRest, AreSeated, told_from};
ghost use Rattle.ec_mounts.specs.Parts.{TookAt, told_at};

use crate::part::{Part, clerk_at};
use ec_base::{List, NoMemory, OpNo};
use ec_clerknode::{NodeFault, SharedClerk};
use ec_link::Link;
use std::alloc::Global;
use std::sync::Wait;

// The lists go behind the others, each with this place.
fn put_lists(
    lists: Vec<List<OpNo>>,
    place: u8,
    told: &mut Vec<(u8, List<OpNo>)>,
) -> Result<(), NoMemory>
    ensures { OnOk result (told.new.items ≡ told.old.items ++ map (λ ops. (place, ops)) lists.items) }
{
    'lists: for list in lists {
        told.push((place, list))?;
    }
    Ok(())
}

// What the volume at this place told lost.
fn losses_at<L: Link, R: Wait>(
    rt: &R,
    clerks: &[SharedClerk<L>],
    parts: &mut [Part<L>],
    place: usize,
) -> Result<Vec<List<OpNo>>, NodeFault>
    requires place { place < length parts.old }
    requires seated { AreSeated (map (λ c. c.lock) clerks.now) (map (λ p. p.pass) parts.old) }
    ensures seated { AreSeated (map (λ c. c.lock) clerks.now) (map (λ p. p.pass) parts.new) }
    ensures took { TookAt place (map (λ p. p.pass) parts.old) (map (λ p. p.pass) parts.new) }
    ensures ok { IfOk result (λ lists. lists.items ≡ told_at place (map (λ p. p.pass) parts.new)) }
    ensures err { IfErr result (λ f. f ≡ fault.NoMemory) }
{
    clerk_at(clerks, place).losses(rt, &mut parts[place].pass)
}

fn byte_of(place: usize) -> u8
    requires { place < 256 }
    ensures { result ≡ place }
{
    place as u8
}

/// The lists that were told lost, volume by volume, each with the volume's place from 0. The fault is want of memory: for them,
/// or an earlier one of a clerk.
pub fn losses_of<L: Link, R: Wait>(
    rt: &R,
    alloc: Global,
    clerks: &[SharedClerk<L>],
    parts: &mut [Part<L>],
) -> Result<Vec<(u8, List<OpNo>)>, NodeFault>
    requires few { length parts.old ≤ 256 }
    requires seated { AreSeated (map (λ c. c.lock) clerks.now) (map (λ p. p.pass) parts.old) }
    ensures seated { AreSeated (map (λ c. c.lock) clerks.now) (map (λ p. p.pass) parts.new) }
    ensures rest { AllRest (map (λ p. p.pass) parts.old) (map (λ p. p.pass) parts.new) }
    ensures ok { IfOk result (λ told. told.items ≡ told_from 0 (map (λ p. p.pass) parts.new)) }
    ensures err { IfErr result (λ f. f ≡ fault.NoMemory) }
{
    let mut told = Vec::new(alloc);
    for place in 0..parts.len() {
        let lists = losses_at(rt, clerks, parts, place)?;
        put_lists(lists, byte_of(place), &mut told)?;
    }
    Ok(told)
}
