// Numbers of operations, each found in a time that grows with the logarithm of their count.
ghost use Rattle.std.specs.Prelude.{◌≡◌, ◌==◌, ◌≤◌, ◌||◌, ◌++◌, ◌∷◌, [], ℕ, T, if◌then◌else◌, IfOk, OnOk, OnErr};
ghost use Rattle.std.specs.BTreeSet.{contains};
ghost use Rattle.std.specs.Ordering.{nat_cmp};
ghost use Rattle.ec_volume.specs.Update.{member};
ghost use Rattle.ec_order.specs.OfNumbers.Numbers.{IsIndex};

use ec_base::{NoMemory, OpNo};
use std::alloc::Global;
use std::collections::BTreeSet;
use std::marker::Model;

/// A list of numbers, with an index of them.
#[derive(Drop)]
pub struct Numbers {
    items: Vec<OpNo>,
    known: BTreeSet<OpNo>,
}

impl Model for Numbers {
    ghost use Rattle.std.specs.Prelude.{List, ℕ};
    ghost use Rattle.std.specs.Coded.{coded_list, coded_ℕ};
    ghost use Rattle.std.specs.BTreeSet.{contains};
    ghost use Rattle.std.specs.Ordering.{nat_cmp};
    ghost use Rattle.ec_order.specs.OfNumbers.Numbers.{IsIndex};

    ghost Value = { List ℕ };

    ghost coded = { coded_list coded_ℕ };

    ghost view = { λ s. s.items.items };

    ghost invariant = { λ s. IsIndex (contains nat_cmp s.known) s.items.items };
}

impl Numbers {
    /// No number.
    pub fn new(alloc: Global) -> Numbers
        ensures { result ≡ [] }
    {
        Numbers {
            items: Vec::new(alloc),
            known: BTreeSet::new(alloc),
        }
    }

    /// These numbers.
    pub fn of(alloc: Global, items: Vec<OpNo>) -> Result<Numbers, NoMemory>
        ensures { IfOk result (λ numbers. numbers ≡ items.items) }
    {
        let known = keys_of(alloc, &items)?;
        Ok(Numbers { items, known })
    }

    /// One number more, unless it is there.
    pub fn push_new(&mut self, op: OpNo) -> Result<(), NoMemory>
        ensures { OnOk result (self.new ≡ (if member op self.old then self.old else self.old ++ op ∷ [])) }
    {
        if self.has(op) {
            return Ok(());
        }
        self.items.reserve(1)?;
        note(&mut self.known, op)?;
        self.items.push(op).unwrap();
        Ok(())
    }

    /// The numbers.
    pub fn into_items(self) -> Vec<OpNo>
        ensures { result.items ≡ self }
    {
        self.items
    }

    /// The numbers.
    pub fn items(&self) -> &[OpNo]
        ensures { result.now ≡ self.now }
    {
        &self.items
    }

    /// A number that is above none of them.
    pub fn least(&self) -> u64
        ensures { (n : ℕ) → T (member n self.now) → result ≤ n }
    {
        least_of(&self.items)
    }

    /// Whether this is one of them.
    pub fn has(&self, op: OpNo) -> bool
        ensures { result ≡ member op self.now }
    {
        self.known.contains(&op)
    }
}

// A number that is above none of these.
fn least_of(ops: &[OpNo]) -> u64
    ensures { (n : ℕ) → T (member n ops.now) → result ≤ n }
{
    let mut least = u64::MAX;
    for op in ops {
        if op.0 < least {
            least = op.0;
        }
    }
    least
}

// The index of the numbers.
fn keys_of(alloc: Global, items: &[OpNo]) -> Result<BTreeSet<OpNo>, NoMemory>
    ensures { IfOk result (λ known. IsIndex (contains nat_cmp known) items.now) }
{
    let mut known = BTreeSet::new(alloc);
    for op in items {
        note(&mut known, *op)?;
    }
    Ok(known)
}

// One number more is known.
fn note(known: &mut BTreeSet<OpNo>, op: OpNo) -> Result<(), NoMemory>
    ensures ok { OnOk result ((n : ℕ) → contains nat_cmp known.new n ≡ ((n == op) || contains nat_cmp known.old n)) }
    ensures err { OnErr result ((n : ℕ) → contains nat_cmp known.new n ≡ contains nat_cmp known.old n) }
{
    match known.insert(op) {
        Ok(_) => Ok(()),
        Err(_) => Err(NoMemory),
    }
}
