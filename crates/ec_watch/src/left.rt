// Numbers of operations of which some are taken out, each in a time that grows with the logarithm of
// their count where they rise.
ghost use Rattle.std.specs.Prelude.{◌≡◌, ◌==◌, ◌++◌, ◌∷◌, [], ℕ, T, not, true, filter, IfOk, OnOk};
ghost use Rattle.std.specs.Bool.{OnTrue};
ghost use Rattle.std.specs.FinMap.{is_sorted, put};
ghost use Rattle.std.specs.List.{list_all};
ghost use Rattle.std.specs.Ordering.{nat_cmp};
ghost use Rattle.ec_volume.specs.Update.{member};
ghost use Rattle.ec_watch.specs.Left.{left};

use ec_base::{NoMemory, OpNo, SortedMap};
use std::alloc::Global;
use std::marker::Model;

/// A list of numbers, of which some were taken out.
#[derive(Drop)]
pub struct Left {
    alloc: Global,
    // numbers that rise, each with whether it's left
    rising: SortedMap<OpNo, bool>,
    // those behind them that are left, in their order; none where all rose
    others: Vec<OpNo>,
}

impl Model for Left {
    ghost use Rattle.std.specs.Prelude.{List, ℕ, T, ◌++◌};
    ghost use Rattle.std.specs.Coded.{coded_list, coded_ℕ};
    ghost use Rattle.std.specs.FinMap.{is_sorted};
    ghost use Rattle.std.specs.Ordering.{nat_cmp};
    ghost use Rattle.ec_watch.specs.Left.{left};

    ghost Value = { List ℕ };

    ghost coded = { coded_list coded_ℕ };

    ghost view = { λ l. left l.rising ++ l.others.items };

    ghost invariant = { λ l. T (is_sorted nat_cmp l.rising) };
}

impl Left {
    /// No number.
    pub fn new(alloc: Global) -> Left
        ensures { result ≡ [] }
    {
        Left {
            alloc,
            rising: SortedMap::new(alloc),
            others: Vec::new(alloc),
        }
    }

    /// One number more. One that isn't above those before it, and each one behind it, are looked
    /// through one by one from then on.
    pub fn push(&mut self, op: OpNo) -> Result<(), NoMemory>
        ensures { OnOk result (self.new ≡ self.old ++ op ∷ []) }
    {
        add(&mut self.rising, &mut self.others, op)
    }

    /// These numbers more.
    pub fn push_all(&mut self, ops: &[OpNo]) -> Result<(), NoMemory>
        ensures { OnOk result (self.new ≡ self.old ++ ops.now) }
    {
        for op in ops {
            self.push(*op)?;
        }
        Ok(())
    }

    /// These numbers are taken out.
    pub fn take_out(&mut self, ops: &[OpNo])
        ensures { self.new ≡ filter (λ n. not (member n ops.now)) self.old }
    {
        forget_all(&mut self.rising, ops);
        leave_out(&mut self.others, ops);
    }

    /// Whether this is one of them.
    pub fn has(&self, op: OpNo) -> bool
        ensures { result ≡ member op self.now }
    {
        is_left(&self.rising, op) || is_among(&self.others, op)
    }

    /// Whether each of these is one of them.
    pub fn has_all(&self, ops: &[OpNo]) -> bool
        ensures { result ≡ list_all (λ n. member n self.now) ops.now }
    {
        ops.iter().all(|op| self.has(*op))
    }

    /// The numbers.
    pub fn all(&self) -> Result<Vec<OpNo>, NoMemory>
        ensures { IfOk result (λ ops. ops.items ≡ self.now) }
    {
        let mut ops = left_of(self.alloc, &self.rising)?;
        ops.extend_from_slice(&self.others)?;
        Ok(ops)
    }
}

// One number more.
fn add(rising: &mut SortedMap<OpNo, bool>, others: &mut Vec<OpNo>, op: OpNo) -> Result<(), NoMemory>
    requires { T (is_sorted nat_cmp rising.old) }
    ensures sorted { T (is_sorted nat_cmp rising.new) }
    ensures ok { OnOk result (left rising.new ++ others.new.items ≡ (left rising.old ++ others.old.items) ++ op ∷ []) }
{
    if others.as_slice().is_empty() && is_above(rising, op) {
        return rising.insert(op, true);
    }
    others.push(op)?;
    Ok(())
}

// Whether the number is above each of these.
fn is_above(rising: &SortedMap<OpNo, bool>, op: OpNo) -> bool
    ensures { OnTrue result (put nat_cmp op true rising.now ≡ rising.now ++ (op, true) ∷ []) }
{
    match rising.items().last() {
        Some((last, _)) => last.0 < op.0,
        None => true,
    }
}

// The ones that are left.
fn left_of(alloc: Global, rising: &SortedMap<OpNo, bool>) -> Result<Vec<OpNo>, NoMemory>
    ensures { IfOk result (λ ops. ops.items ≡ left rising.now) }
{
    let mut ops = Vec::new(alloc);
    for (op, is_left) in rising.items() {
        if *is_left {
            ops.push(*op)?;
        }
    }
    Ok(ops)
}

// Whether the number is left.
fn is_left(rising: &SortedMap<OpNo, bool>, op: OpNo) -> bool
    requires { T (is_sorted nat_cmp rising.now) }
    ensures { result ≡ member op (left rising.now) }
{
    match rising.get(&op) {
        Some(is_left) => *is_left,
        None => false,
    }
}

fn is_among(ops: &[OpNo], op: OpNo) -> bool
    ensures { result ≡ member op ops.now }
{
    ops.iter().any(|other| op == *other)
}

// These numbers aren't left any more.
fn forget_all(rising: &mut SortedMap<OpNo, bool>, ops: &[OpNo])
    requires { T (is_sorted nat_cmp rising.old) }
    ensures sorted { T (is_sorted nat_cmp rising.new) }
    ensures left { left rising.new ≡ filter (λ n. not (member n ops.now)) (left rising.old) }
{
    for op in ops {
        forget(rising, *op);
    }
}

fn forget(rising: &mut SortedMap<OpNo, bool>, op: OpNo)
    requires { T (is_sorted nat_cmp rising.old) }
    ensures sorted { T (is_sorted nat_cmp rising.new) }
    ensures left { left rising.new ≡ filter (λ n. not (n == op)) (left rising.old) }
{
    rising.replace(&op, false);
}

// The same for numbers that may not rise.
fn leave_out(others: &mut Vec<OpNo>, ops: &[OpNo])
    ensures { others.new.items ≡ filter (λ n. not (member n ops.now)) others.old.items }
{
    others.retain(|op| !is_among(ops, *op));
}
