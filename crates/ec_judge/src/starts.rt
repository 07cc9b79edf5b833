// The starts of clerks, each with what it did.
ghost use Rattle.std.specs.Prelude.{◌≡◌, ◌<◌, ◌≤◌, ◌++◌, ◌∷◌, [], ℕ, false, not, length, take, slice_index_or, slice_set, vec_len, vec_capacity, IfOk, OnOk, MatchOption};
ghost use Rattle.std.specs.List.{filter, find, list_any, position_or_len};
ghost use Rattle.ec_volume.specs.Volume.{after};
ghost use Rattle.ec_pending.specs.OfOverlay.Shown.{shown};
ghost use Rattle.ec_history.specs.History.{is_one_of, meets, pairs_of, updates};
ghost use Rattle.ec_judge.specs.Carried.{is_start, count_of, owed_of, pending_of, count_next, keeps_of, ops_of, is_among, AreLaid, IsFitting, IsNoted, IsOwing, KeepsMarks, BreaksMarks, touches_in};
ghost use Rattle.ec_judge.specs.Index.{SamePlaces};
ghost use Rattle.ec_pending.specs.Pending.{is_asked, rest, issues_of, numbers_in};
ghost use Rattle.ec_pending.specs.OfOwes.Rules.{IsNumbered};
ghost use Rattle.ec_judge.specs.declared.carried.Start.{Start as StartOf};

use crate::carried::{Issuer, Kept, Start, Touches};
use crate::losses::{self, Named};
use ec_base::{ClerkId, Duplicate, NoMemory, ObjId, OpNo};
use ec_history::Rule;
use ec_order::numbers::{StartIndex, find_start, note_start};
use ec_order::objtable::ObjTable;
use ec_pending::overlay::Overlay;
use ec_pending::owes::{Answered, Owes};
use ec_pending::{Asked, Deferred};
use ec_plain::Outcome;
use ec_volume::Update;
use std::alloc::Global;
use std::collections::BTreeMap;
use std::marker::Model;

/// The starts of clerks so far, with an index.
#[derive(Drop)]
pub struct Starts {
    alloc: Global,
    items: Vec<Start>,
    index: StartIndex,
}

impl Model for Starts {
    ghost use Rattle.std.specs.Prelude.{List};
    ghost use Rattle.ec_judge.specs.declared.carried.Start.{Start};
    ghost use Rattle.ec_judge.specs.Index.{IsStartIndex};
    ghost use Rattle.ec_order.specs.OfNumbers.Starts.{indexed};

    ghost Value = { List Start };

    ghost view = { λ s. s.items.items };

    ghost invariant = { λ s. IsStartIndex (indexed s.index) s.items.items };
}

impl Starts {
    /// No start.
    pub fn new(alloc: Global) -> Starts
        ensures { result ≡ [] }
    {
        Starts {
            alloc,
            items: Vec::new(alloc),
            index: BTreeMap::new(alloc),
        }
    }

    /// The start at this index.
    pub fn at(&self, at: usize) -> &Start
        requires { at < length self.now }
        ensures { result.now ≡ slice_index_or self.now at result.now }
    {
        &self.items[at]
    }

    /// The index of a start, which begins here if it isn't there.
    pub fn index_of(&mut self, clerk: ClerkId, boot: u64) -> Result<usize, NoMemory>
        ensures found { IfOk result (λ at. at ≡ position_or_len (is_start clerk boot) self.new) }
        ensures within { IfOk result (λ at. at < length self.new) }
        ensures count { OnOk result ((c b : ℕ) → count_of (find (is_start c b) self.new) ≡ count_of (find (is_start c b) self.old)) }
        ensures owed { OnOk result ((c b : ℕ) → owed_of (find (is_start c b) self.new) ≡ owed_of (find (is_start c b) self.old)) }
        ensures pending { OnOk result ((c b : ℕ) → pending_of (find (is_start c b) self.new) ≡ pending_of (find (is_start c b) self.old)) }
    {
        if let Some(at) = find_start(&self.index, clerk, boot) {
            return Ok(at);
        }
        let start = Start {
            clerk,
            boot,
            owed: Owes::new(self.alloc),
            pending: Deferred::new(self.alloc)?,
        };
        self.items.reserve(1)?;
        let at = self.items.len();
        note_start(&mut self.index, clerk, boot, at)?;
        push(&mut self.items, start);
        Ok(at)
    }

    /// A call of the start at this index was answered: what it asks is covered, what it met is
    /// reported, and its operation is issued.
    pub fn note_at(
        &mut self,
        at: usize,
        asked: &Asked,
        place: u32,
        answered: &Answered<'_>,
        outcome: &Outcome,
    ) -> Result<(), NoMemory>
        requires within { at < length self.old }
        requires next { (s : StartOf) → IsNumbered (slice_index_or self.old at s).pending.0 answered.now.op.now }
        ensures { OnOk result ((s : StartOf) × IsNoted asked.now place answered.now.op.now answered.now.call.now outcome.now (slice_index_or self.old at s) s × (self.new ≡ slice_set self.old at s)) }
    {
        note_at(&mut self.items, at, asked, place, answered, outcome)
    }

    /// The first rule that a loss of these operations of the start at this index breaks, but for what
    /// is left of the others.
    pub fn broken_at(
        &mut self,
        touches: &ObjTable<Touches>,
        at: usize,
        kept: &[Kept],
        from: usize,
        named: &Named<'_>,
    ) -> Result<Option<Rule>, NoMemory>
        requires at { at < length self.old }
        requires within { from ≤ length kept.now }
        requires none { list_any (is_among named.now.clerk named.now.boot named.now.ops.now) (take from kept.now) ≡ false }
        ensures found { IfOk result (λ found. (s : StartOf) × (s ≡ slice_index_or self.old at s) × MatchOption found (KeepsMarks named.now.clerk named.now.boot named.now.ops.now (numbers_in s.pending.1) (touches_in touches.now) kept.now)
            (λ rule. BreaksMarks named.now.clerk named.now.boot named.now.ops.now (numbers_in s.pending.1) (touches_in touches.now) kept.now rule)) }
        ensures same { OnOk result (self.new ≡ self.old) }
    {
        losses::broken_at(touches, &mut self.items, at, kept, from, named)
    }

    /// Adds the pairs of the lost operations to what the start at this index owes.
    pub fn owe_at(
        &mut self,
        at: usize,
        kept: &[Kept],
        from: usize,
        named: &Named<'_>,
    ) -> Result<(), NoMemory>
        requires at { at < length self.old }
        requires within { from ≤ length kept.now }
        requires none { list_any (is_among named.now.clerk named.now.boot named.now.ops.now) (take from kept.now) ≡ false }
        ensures { OnOk result ((s : StartOf) × IsOwing (pairs_of (filter (is_one_of named.now.clerk named.now.boot named.now.ops.now) (ops_of kept.now))) (slice_index_or self.old at s) s × (self.new ≡ slice_set self.old at s)) }
    {
        let alloc = self.alloc;
        losses::owe_at(alloc, &mut self.items, at, kept, from, named)
    }

    /// What the start owes.
    pub fn owed(&self, clerk: ClerkId, boot: u64) -> Result<Vec<(OpNo, ObjId)>, NoMemory>
        ensures { IfOk result (λ pairs. pairs.items ≡ owed_of (find (is_start clerk boot) self.now)) }
    {
        match find_start(&self.index, clerk, boot) {
            Some(at) => self.items[at].owed.all(),
            None => Ok(Vec::new(self.alloc)),
        }
    }
}

// One start more, where there is room for it.
fn push(starts: &mut Vec<Start>, start: Start)
    requires { vec_len starts.old < vec_capacity starts.old }
    ensures { starts.new.items ≡ starts.old.items ++ start ∷ [] }
{
    starts.push(start).unwrap();
}

// The same among these.
fn note_at(
    starts: &mut Vec<Start>,
    at: usize,
    asked: &Asked,
    place: u32,
    answered: &Answered<'_>,
    outcome: &Outcome,
) -> Result<(), NoMemory>
    requires within { at < length starts.old.items }
    requires next { (s : StartOf) → IsNumbered (slice_index_or starts.old.items at s).pending.0 answered.now.op.now }
    ensures noted { OnOk result ((s : StartOf) × IsNoted asked.now place answered.now.op.now answered.now.call.now outcome.now (slice_index_or starts.old.items at s) s × (starts.new.items ≡ slice_set starts.old.items at s)) }
    ensures same { SamePlaces starts.old.items starts.new.items }
{
    note(&mut starts[at], asked, place, answered, outcome)
}

// A call of the start was answered: what it asks is covered, what it met is reported, and its
// operation is issued.
fn note(
    start: &mut Start,
    asked: &Asked,
    place: u32,
    answered: &Answered<'_>,
    outcome: &Outcome,
) -> Result<(), NoMemory>
    requires { IsNumbered start.old.pending.0 answered.now.op.now }
    ensures clerk { start.new.clerk ≡ start.old.clerk }
    ensures boot { start.new.boot ≡ start.old.boot }
    ensures count { OnOk result (start.new.pending.0 ≡ count_next start.old.pending.0 answered.now.op.now) }
    ensures owed { OnOk result (start.new.owed ≡ filter (λ q. not (meets outcome.now answered.now.call.now q)) start.old.owed) }
    ensures pending { OnOk result (start.new.pending.1 ≡ rest (is_asked asked.now) start.old.pending.1 ++ issues_of place answered.now.op.now outcome.now.update) }
{
    start.owed.report(answered.call, outcome);
    start.pending.cover(asked)?;
    if let Some(number) = answered.op {
        let update = copied(&outcome.update)?;
        start.pending.issue(*number, place, update)?;
    }
    Ok(())
}

fn copied(update: &Option<Update>) -> Result<Option<Update>, NoMemory>
    ensures { IfOk result (λ copy. copy ≡ update.now) }
{
    match update {
        Some(update) => Ok(Some(update.duplicate()?)),
        None => Ok(None),
    }
}

/// Carries the operation out, if there is one, and keeps it.
pub fn keep(
    alloc: Global,
    volume: &mut Overlay,
    kept: &mut Vec<Kept>,
    issuer: &Issuer,
    op: &Option<OpNo>,
    update: Option<Update>,
) -> Result<(), NoMemory>
    requires { IsFitting update (shown volume.old) }
    ensures volume { OnOk result ((o : ℕ) → shown volume.new o ≡ after (shown volume.old) (updates (ops_of (keeps_of issuer.now op.now update))) o) }
    ensures under { volume.new.under ≡ volume.old.under }
    ensures laid { OnOk result ((n : ℕ) → n ≤ length kept.old.items → AreLaid kept.old.items n volume.old → AreLaid kept.new.items n volume.new) }
    ensures kept { OnOk result (kept.new.items ≡ kept.old.items ++ keeps_of issuer.now op.now update) }
{
    let Some(number) = op else {
        drop(update);
        return Ok(());
    };
    let Some(update) = update else {
        return Ok(());
    };
    if !volume.carry_out(alloc, &update)? {
        unreachable!();
    }
    kept.push(Kept {
        clerk: issuer.clerk,
        boot: issuer.boot,
        number: *number,
        place: issuer.place,
        turn: issuer.turn,
        update,
    })?;
    Ok(())
}
