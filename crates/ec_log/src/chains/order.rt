// The held operations.
ghost use Rattle.std.specs.Prelude.{◌≡◌, ℕ, T, true, false, Err, [], ◌∷◌, ◌++◌, ◌<◌, ◌≤◌, length, filter, option_copied, IfOk, OnOk, OnErr};
ghost use Rattle.std.specs.Ordering.{nat_cmp};
ghost use Rattle.std.specs.FinMap.{is_sorted};
ghost use Rattle.ec_base.specs.Tables.{at, at_or, keys};
ghost use Rattle.ec_volume.specs.Update.{member, operands};
ghost use Rattle.ec_log.specs.OfChains.Front.{IsFront, is_alone};
ghost use Rattle.ec_log.specs.OfChains.Held as held;
ghost use Rattle.ec_log.specs.OfChains.Slots.{live};
ghost use Rattle.ec_log.specs.OfChains.Walk.{passes, walk};
ghost use Rattle.ec_log.specs.declared.chains.closure.Ask.TheVariants.{Object, Op};
ghost use Rattle.ec_log.specs.declared.chains.order.OrderFault.TheVariants as fault;

use crate::chains::chain::Chain;
use crate::chains::chains::{chain_of, link, unlink};
use crate::chains::closure::{Ask, closure};
use crate::chains::front::{first_on, last_on, note, reach_on};
use crate::chains::held::Held;
use crate::chains::slots::{Slot, first_numbers};
use ec_base::{Duplicate, NoMemory, ObjId, OpNo};
use ec_order::objmap::ObjMap;
use ec_volume::{Update, operands};
use std::alloc::Global;
use std::marker::Model;
use thiserror::Error;

/// The operations that a clerk holds, by rising number.
pub struct Order {
    alloc: Global,
    held: Held,
    // for objects the last operation on them that is on others too, or a later number
    shared: ObjMap<OpNo>,
    // for objects the operations on them
    chains: ObjMap<Chain>,
}

// Who drops one calls this, and needn't take it apart.
impl Drop for Order {
    fn drop(self) {
        let Order {
            alloc: _,
            held,
            shared,
            chains,
        } = self;
        drop(held);
        drop(shared);
        drop(chains);
    }
}

impl Model for Order {
    ghost use Rattle.std.specs.Coded.{coded_list, coded×, coded_ℕ};
    ghost use Rattle.ec_volume.specs.contracts.update.Update as update;
    ghost use Rattle.ec_order.specs.Order.{Issued};
    ghost use Rattle.ec_log.specs.OfChains.Front.{Covers};
    ghost use Rattle.ec_log.specs.OfChains.Chains.{AreLinked};

    ghost Value = { Issued };

    ghost coded = { coded_list (coded× coded_ℕ update.the_row.coded) };

    ghost view = { λ o. o.held };

    ghost invariant = { λ o. Covers o.shared o.held × AreLinked o.chains o.held };
}

#[derive(Clone, Copy, Debug, Drop, PartialEq, Eq, Error)]
pub enum OrderFault {
    /// The operation isn't held.
    #[error("no operation {0:?}")]
    NoSuchOp(OpNo),
    #[error("out of memory")]
    NoMemory,
}

impl From<NoMemory> for OrderFault {
    ghost from_gives = { λ _ e. e ≡ fault.NoMemory };

    fn from(_: NoMemory) -> Self {
        OrderFault::NoMemory
    }
}

impl Order {
    /// No operation is held.
    pub fn new(alloc: Global) -> Result<Order, NoMemory>
        ensures { IfOk result (λ made. made ≡ []) }
    {
        Ok(Order {
            alloc,
            held: Held::new(alloc),
            shared: ObjMap::new(alloc),
            chains: ObjMap::new(alloc),
        })
    }

    /// Holds one more operation. Its number is above those that are held.
    pub fn add(&mut self, op: OpNo, update: &Update) -> Result<(), NoMemory>
        requires { held.is_behind op self.old ≡ true }
        ensures ok { OnOk result (self.new ≡ self.old ++ (op, update.now) ∷ []) }
        ensures err { OnErr result (self.new ≡ self.old) }
    {
        self.hold(op, update.duplicate()?)
    }

    /// Holds one more operation, without a copy of its update.
    pub fn hold(&mut self, op: OpNo, update: Update) -> Result<(), NoMemory>
        requires { held.is_behind op self.old ≡ true }
        ensures ok { OnOk result (self.new ≡ self.old ++ (op, update) ∷ []) }
        ensures err { OnErr result (self.new ≡ self.old) }
    {
        let ready = prepare(self.alloc, &mut self.shared, &mut self.chains, op, &update);
        if let Err(fault) = ready {
            drop(update);
            return Err(fault);
        }
        self.held.push(op, update)
    }

    /// The places of the held operations, by rising number, and of some that left: no more than are
    /// held.
    pub fn slots(&self) -> &[Slot]
        ensures value { live result.now ≡ self.now }
        ensures sorted { T (is_sorted nat_cmp self.now) }
    {
        self.held.slots()
    }

    /// How many operations are held.
    pub fn count(&self) -> usize
        ensures count { result ≡ length self.now }
        ensures sorted { T (is_sorted nat_cmp self.now) }
    {
        self.held.count()
    }

    /// The update of an operation, if it's held: by a search.
    pub fn get(&self, op: OpNo) -> Option<&Update>
        ensures value { option_copied result ≡ at op self.now }
        ensures sorted { T (is_sorted nat_cmp self.now) }
    {
        self.held.get(op)
    }

    /// The first operation that is asked for by itself. That on an object is the first of its chain.
    /// It takes no memory.
    pub fn first(&self, ask: Ask) -> Option<OpNo>
        ensures { result ≡ held.first_number (filter (passes ask) self.now) }
    {
        match ask {
            Ask::Object(obj) => first_on(chain_of(&self.chains, obj), self.held.slots(), obj),
            Ask::Op(op) => self.first_op(op),
            Ask::All => self.held.first(),
        }
    }

    fn first_op(&self, op: OpNo) -> Option<OpNo>
        ensures { result ≡ held.first_number (filter (passes (Op op)) self.now) }
    {
        if !self.held.has(op) {
            return None;
        }
        Some(op)
    }

    /// The closure of the operations on the object, in the order of issue.
    pub fn closure_of_object(&self, obj: ObjId) -> Result<Vec<OpNo>, NoMemory>
        ensures { IfOk result (λ ops. ops.items ≡ keys (held.closure_of_object obj self.now)) }
    {
        closure(
            self.alloc,
            self.held.slots(),
            &self.chains,
            &Ask::Object(obj),
        )
    }

    /// The closure of the operation, in the order of issue. `NoSuchOp` where it isn't held.
    pub fn closure_of_op(&self, op: OpNo) -> Result<Vec<OpNo>, OrderFault>
        ensures ops { IfOk result (λ ops. ops.items ≡ keys (held.closure_of_op op self.now)) }
        ensures held { OnOk result (member op (keys self.now) ≡ true) }
        ensures none { (n : ℕ) → result ≡ Err (fault.NoSuchOp n) → (n ≡ op) × (member op (keys self.now) ≡ false) }
    {
        let ops = self.closure_if_held(op)?;
        if ops.as_slice().is_empty() {
            return Err(OrderFault::NoSuchOp(op));
        }
        Ok(ops)
    }

    // No operation where it isn't held.
    fn closure_if_held(&self, op: OpNo) -> Result<Vec<OpNo>, NoMemory>
        ensures { IfOk result (λ ops. ops.items ≡ keys (walk (passes (Op op)) self.now)) }
    {
        if !self.held.has(op) {
            return Ok(Vec::new(self.alloc));
        }
        closure(self.alloc, self.held.slots(), &self.chains, &Ask::Op(op))
    }

    /// The first of the closure of what is asked for, in the order of issue: at least so many, or
    /// all. The rest of the closure is asked for by itself. Of an object it walks its chain as far as
    /// needed.
    pub fn front(&self, ask: Ask, most: usize) -> Result<Vec<OpNo>, NoMemory>
        ensures front { IfOk result (λ ops. IsFront ask self.now most ops.items) }
        ensures sorted { OnOk result (T (is_sorted nat_cmp self.now)) }
    {
        let held = self.held.slots();
        match ask {
            Ask::Object(obj) => self.front_on(obj, most),
            Ask::Op(op) => self.closure_if_held(op),
            Ask::All => first_numbers(self.alloc, held, most),
        }
    }

    fn front_on(&self, obj: ObjId, most: usize) -> Result<Vec<OpNo>, NoMemory>
        ensures { IfOk result (λ ops. IsFront (Object obj) self.now most ops.items) }
    {
        let held = self.held.slots();
        let bound = last_on(&self.shared, obj);
        let place = reach_on(chain_of(&self.chains, obj), held, obj, bound, most);
        closure(self.alloc, &held[..place], &self.chains, &Ask::Object(obj))
    }

    /// The operations of these numbers leave. Each is found by a search; its place and its number in
    /// the chains of its operands go later, once for all that left by then. It takes no memory.
    pub fn settle(&mut self, ops: &[OpNo])
        ensures { self.new ≡ held.settle ops.now self.old }
    {
        'each: for op in ops {
            self.leave(*op);
        }
    }

    fn leave(&mut self, op: OpNo)
        ensures { self.new ≡ held.settle (op ∷ []) self.old }
    {
        let left = self.held.take(op);
        unlink(self.alloc, &mut self.chains, &self.held, left);
    }

    /// No operation is held any more. It takes no memory.
    pub fn clear(&mut self)
        ensures { self.new ≡ [] }
    {
        self.held.clear();
        self.shared = ObjMap::new(self.alloc);
        self.chains = ObjMap::new(self.alloc);
    }
}

// The maps are ready for one more operation.
fn prepare(
    alloc: Global,
    shared: &mut ObjMap<OpNo>,
    chains: &mut ObjMap<Chain>,
    op: OpNo,
    update: &Update,
) -> Result<(), NoMemory>
    ensures old { (o n : ℕ) → n < op → T (member n (at_or [] o chains.old)) → T (member n (at_or [] o chains.new)) }
    ensures new { OnOk result ((o : ℕ) → T (member o (operands update.now)) → T (member op (at_or [] o chains.new))) }
    ensures raised { (o n : ℕ) → n ≤ at_or 0 o shared.old → n ≤ op → n ≤ at_or 0 o shared.new }
    ensures noted { OnOk result (is_alone update.now ≡ false → (o : ℕ) → T (member o (operands update.now)) → op ≤ at_or 0 o shared.new) }
{
    let objs = operands(alloc, update)?;
    link(alloc, chains, op, &objs)?;
    note(alloc, shared, op, update)
}
