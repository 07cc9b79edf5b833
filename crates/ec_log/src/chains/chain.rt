// The operations on one object.
ghost use Rattle.std.specs.Prelude.{◌≡◌, ◌<◌, ◌≤◌, ℕ, T, [], length, drop, take, OnOk};
ghost use Rattle.std.specs.List.Sorted.{IsNonDecreasing};
ghost use Rattle.ec_volume.specs.Update.{member};
ghost use Rattle.ec_volume.specs.declared.update.Update.{Update as Of};
ghost use Rattle.ec_order.specs.Order.{Holds};

use crate::chains::held::Held;
use ec_base::{NoMemory, OpNo};
use std::alloc::Global;
use std::marker::Model;

/// The numbers of operations on one object, rising. Some that left may still be there.
#[derive(Drop)]
pub struct Chain {
    // so many of the first ones have left
    gone: usize,
    ops: Vec<OpNo>,
}

impl Model for Chain {
    ghost use Rattle.std.specs.Prelude.{◌≤◌, ℕ, List, length, drop};
    ghost use Rattle.std.specs.Coded.{coded_list, coded_ℕ};
    ghost use Rattle.std.specs.List.Sorted.{IsNonDecreasing};

    ghost Value = { List ℕ };

    ghost coded = { coded_list coded_ℕ };

    ghost view = { λ c. drop c.gone c.ops.items };

    ghost invariant = { λ c. (c.gone ≤ length c.ops.items) × IsNonDecreasing (drop c.gone c.ops.items) };
}

impl Chain {
    /// No operation.
    pub fn new(alloc: Global) -> Chain
        ensures { result ≡ [] }
    {
        Chain {
            gone: 0,
            ops: Vec::new(alloc),
        }
    }

    /// The numbers, rising.
    pub fn ops(&self) -> &[OpNo]
        ensures value { result.now ≡ self.now }
        ensures rising { IsNonDecreasing self.now }
    {
        &self.ops[self.gone..]
    }

    /// One more operation. Numbers that aren't below it go.
    pub fn push(&mut self, op: OpNo) -> Result<(), NoMemory>
        ensures old { (n : ℕ) → n < op → T (member n self.old) → T (member n self.new) }
        ensures new { OnOk result (T (member op self.new)) }
    {
        let count = below(self.ops(), op);
        self.ops.truncate(self.gone + count);
        Ok(self.ops.push(op)?)
    }

    /// The first ones go that aren't held. It takes no memory.
    pub fn leave(&mut self, held: &Held)
        ensures { (n : ℕ) (u : Of) → Holds held.now n u → T (member n self.old) → T (member n self.new) }
    {
        let count = left(self.ops(), held);
        self.gone += count;
        self.trim();
    }

    // What has left is dropped once it is half of all.
    fn trim(&mut self)
        ensures { self.new ≡ self.old }
    {
        if self.ops.len() / 2 <= self.gone {
            remove_first(&mut self.ops, self.gone);
            self.gone = 0;
        }
    }
}

// So many of the first numbers are below this one.
fn below(chain: &[OpNo], op: OpNo) -> usize
    requires { IsNonDecreasing chain.now }
    ensures within { result ≤ length chain.now }
    ensures members { (n : ℕ) → n < op → T (member n chain.now) → T (member n (take result chain.now)) }
    ensures lower { (n : ℕ) → T (member n (take result chain.now)) → n < op }
{
    chain.partition_point(|other| other.0 < op.0)
}

// So many of the first numbers aren't held.
fn left(chain: &[OpNo], held: &Held) -> usize
    ensures within { result ≤ length chain.now }
    ensures rest { (n : ℕ) (u : Of) → Holds held.now n u → T (member n chain.now) → T (member n (drop result chain.now)) }
{
    let mut count = 0;
    'left: while count < chain.len() && !held.has(chain[count]) {
        count += 1;
    }
    count
}

// Drops so many of the first items. It takes no memory.
fn remove_first(items: &mut Vec<OpNo>, count: usize)
    requires { count ≤ length items.old.items }
    ensures { items.new.items ≡ drop count items.old.items }
{
    let rest = items.len() - count;
    items.rotate_left(count);
    items.truncate(rest);
}
