// One chain for each object.
ghost use Rattle.std.specs.Prelude.{◌≡◌, ◌==◌, ◌<◌, ℕ, T, [], true, is_some, length, OnOk};
ghost use Rattle.std.specs.List.Sorted.{IsNonDecreasing};
ghost use Rattle.ec_base.specs.Tables.{at, at_or, put};
ghost use Rattle.ec_volume.specs.Update.{member};
ghost use Rattle.ec_log.specs.OfChains.Chains.{AreKept};

use crate::chains::chain::Chain;
use crate::chains::held::Held;
use ec_base::{Name, NoMemory, ObjId, OpNo};
use ec_order::objmap::ObjMap;
use ec_volume::Update;
use std::alloc::Global;

/// The numbers of the object's chain, rising.
pub fn chain_of(chains: &ObjMap<Chain>, obj: ObjId) -> &[OpNo]
    ensures value { result.now ≡ at_or [] obj chains.now }
    ensures rising { IsNonDecreasing result.now }
{
    match chains.get(&obj) {
        Some(chain) => chain.ops(),
        None => &[],
    }
}

/// One more operation on these objects. Numbers that aren't below it leave their chains.
pub fn link(
    alloc: Global,
    chains: &mut ObjMap<Chain>,
    op: OpNo,
    objs: &[ObjId],
) -> Result<(), NoMemory>
    ensures old { (o n : ℕ) → n < op → T (member n (at_or [] o chains.old)) → T (member n (at_or [] o chains.new)) }
    ensures new { OnOk result ((o : ℕ) → T (member o objs.now) → T (member op (at_or [] o chains.new))) }
{
    match objs {
        [] => Ok(()),
        [obj, rest @ ..] => {
            link(alloc, chains, op, rest)?;
            link_one(alloc, chains, op, *obj)
        }
    }
}

fn link_one(alloc: Global, chains: &mut ObjMap<Chain>, op: OpNo, obj: ObjId) -> Result<(), NoMemory>
    ensures old { (o n : ℕ) → n < op → T (member n (at_or [] o chains.old)) → T (member n (at_or [] o chains.new)) }
    ensures new { OnOk result (T (member op (at_or [] obj chains.new))) }
    ensures kept { OnOk result ((o : ℕ) → T (member op (at_or [] o chains.old)) → T (member op (at_or [] o chains.new))) }
{
    match chains.replace(&obj, Chain::new(alloc)) {
        Some(mut chain) => {
            let pushed = chain.push(op);
            put_back(chains, obj, chain);
            pushed
        }
        None => {
            let mut chain = Chain::new(alloc);
            chain.push(op)?;
            chains.insert(obj, chain)
        }
    }
}

// Puts a chain where one is there.
fn put_back(chains: &mut ObjMap<Chain>, obj: ObjId, chain: Chain)
    requires { is_some (at obj chains.old) ≡ true }
    ensures { chains.new ≡ put obj chain chains.old }
{
    chains.replace(&obj, chain);
}

/// What has left goes from the fronts of the chains of the objects on which this one was. Chains that get
/// empty go too. It takes no memory.
pub fn unlink(alloc: Global, chains: &mut ObjMap<Chain>, held: &Held, left: Option<Update>)
    ensures { AreKept held.now chains.old chains.new }
{
    if let Some(update) = &left {
        unlink_operands(alloc, chains, held, update);
    }
    drop(left);
}

fn unlink_operands(alloc: Global, chains: &mut ObjMap<Chain>, held: &Held, update: &Update)
    ensures { AreKept held.now chains.old chains.new }
{
    match update {
        Update::Make { dir, obj, .. } | Update::Drop { dir, obj, .. } => {
            unlink_one(alloc, chains, *dir, held);
            unlink_one(alloc, chains, *obj, held);
        }
        Update::Move {
            dir,
            obj,
            victim,
            ..
        } => {
            unlink_one(alloc, chains, *dir, held);
            unlink_one(alloc, chains, *obj, held);
            unlink_victim(alloc, chains, *victim, held);
        }
        Update::Put { obj, .. }
        | Update::Len { obj, .. }
        | Update::Mode { obj, .. }
        | Update::Stamp { obj, .. }
        | Update::Owner { obj, .. } => unlink_one(alloc, chains, *obj, held),
        Update::Order { objs } => unlink_all(alloc, chains, objs.as_slice(), held),
        Update::Shift {
            dir,
            into,
            obj,
            victim,
            up,
            ..
        } => {
            unlink_one(alloc, chains, *dir, held);
            unlink_one(alloc, chains, *into, held);
            unlink_one(alloc, chains, *obj, held);
            unlink_victim(alloc, chains, *victim, held);
            unlink_above(alloc, chains, up.as_slice(), held);
        }
    }
}

fn unlink_one(alloc: Global, chains: &mut ObjMap<Chain>, obj: ObjId, held: &Held)
    ensures { AreKept held.now chains.old chains.new }
{
    let Some(mut chain) = chains.replace(&obj, Chain::new(alloc)) else {
        return;
    };
    chain.leave(held);
    if is_empty(&chain) {
        drop(chains.remove(&obj));
    } else {
        put_back(chains, obj, chain);
    }
}

fn unlink_victim(alloc: Global, chains: &mut ObjMap<Chain>, victim: Option<ObjId>, held: &Held)
    ensures { AreKept held.now chains.old chains.new }
{
    if let Some(obj) = victim {
        unlink_one(alloc, chains, obj, held);
    }
}

fn unlink_all(alloc: Global, chains: &mut ObjMap<Chain>, objs: &[ObjId], held: &Held)
    ensures { AreKept held.now chains.old chains.new }
{
    'each: for obj in objs {
        unlink_one(alloc, chains, *obj, held);
    }
}

fn unlink_above(alloc: Global, chains: &mut ObjMap<Chain>, up: &[(ObjId, Name)], held: &Held)
    ensures { AreKept held.now chains.old chains.new }
{
    'each: for (obj, _) in up {
        unlink_one(alloc, chains, *obj, held);
    }
}

fn is_empty(chain: &Chain) -> bool
    ensures { result ≡ (length chain.now == 0) }
{
    chain.ops().is_empty()
}
