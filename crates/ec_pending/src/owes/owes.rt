// The lost operations of a start that are to be reported.
ghost use Rattle.std.specs.Prelude.{◌≡◌, ◌≤◌, ◌++◌, ◌∷◌, ◌&&◌, [], if◌then◌else◌, nat_le, nat_lt, not, IfOk, OnOk};
ghost use Rattle.std.specs.List.{filter};
ghost use Rattle.ec_volume.specs.Update.{member};
ghost use Rattle.ec_plain.specs.Plain.{is_sync};
ghost use Rattle.ec_history.specs.History.{distinct_numbers, meets};
ghost use Rattle.ec_pending.specs.OfOwes.Owes.{on_none, on_one, span, staying, AreIn};

use crate::owes::spans::{Span, extend, reach, span_of, take_out};
use ec_base::{NoMemory, ObjId, OpNo};
use ec_order::numbers::Numbers;
use ec_order::objmap::ObjMap;
use ec_plain::{Call, Outcome};
use std::alloc::Global;
use std::marker::Model;

/// Pairs of a lost operation and one of its operands. Those on an object are taken out at once, and
/// are found by where the first and the last one of them stand.
#[derive(Drop)]
pub struct Owes {
    alloc: Global,
    // those that were taken out stay here
    pairs: Vec<(OpNo, ObjId)>,
    // from where on the pairs on each object stay, and up to where some stand
    spans: ObjMap<(usize, usize)>,
}

impl Model for Owes {
    ghost use Rattle.std.specs.Coded.{coded_list, coded×, coded_ℕ};
    ghost use Rattle.ec_pending.specs.OfOwes.Owes.{staying, AreIn, Pairs};

    ghost Value = { Pairs };

    ghost coded = { coded_list (coded× coded_ℕ coded_ℕ) };

    ghost view = { λ w. staying w.spans 0 w.pairs.items };

    ghost invariant = { λ w. AreIn w.spans 0 w.pairs.items };
}

impl Owes {
    /// Nothing is owed.
    pub fn new(alloc: Global) -> Owes
        ensures { result ≡ [] }
    {
        Owes {
            alloc,
            pairs: Vec::new(alloc),
            spans: ObjMap::new(alloc),
        }
    }

    /// One more pair.
    pub fn push(&mut self, op: OpNo, obj: ObjId) -> Result<(), NoMemory>
        ensures { OnOk result (self.new ≡ self.old ++ (op, obj) ∷ []) }
    {
        let end = self.pairs.len();
        extend(&mut self.spans, obj, end)?;
        Ok(self.pairs.push((op, obj))?)
    }

    /// All pairs.
    pub fn all(&self) -> Result<Vec<(OpNo, ObjId)>, NoMemory>
        ensures { IfOk result (λ pairs. pairs.items ≡ self.now) }
    {
        let mut pairs = Vec::new(self.alloc);
        let mut at = 0;
        'each: while at < self.pairs.len() {
            let pair = self.pairs[at];
            if is_staying(&self.spans, pair.1, at) {
                pairs.push(pair)?;
            }
            at += 1;
        }
        Ok(pairs)
    }

    /// What the call has to report: the numbers of the pairs that it meets, each once.
    pub fn due(&self, call: &Call, outcome: &Outcome) -> Result<Vec<OpNo>, NoMemory>
        ensures { IfOk result (λ ops. ops.items ≡ distinct_numbers (filter (meets outcome.now call.now) self.now)) }
    {
        let pairs = self.met(call, outcome)?;
        numbers_of(self.alloc, &pairs)
    }

    // The pairs that the call meets.
    fn met(&self, call: &Call, outcome: &Outcome) -> Result<Vec<(OpNo, ObjId)>, NoMemory>
        ensures { IfOk result (λ pairs. pairs.items ≡ filter (meets outcome.now call.now) self.now) }
    {
        if is_sync(call) {
            return self.all();
        }
        self.on(outcome.touched.as_slice())
    }

    /// What the call meets is reported. It takes no memory.
    pub fn report(&mut self, call: &Call, outcome: &Outcome)
        ensures { self.new ≡ filter (λ q. not (meets outcome.now call.now q)) self.old }
    {
        if is_sync(call) {
            self.clear();
        } else {
            self.take(outcome.touched.as_slice());
        }
    }

    // The pairs on one of the objects.
    fn on(&self, objs: &[ObjId]) -> Result<Vec<(OpNo, ObjId)>, NoMemory>
        ensures { IfOk result (λ pairs. pairs.items ≡ on_one objs.now self.now) }
    {
        if self.pairs.is_empty() {
            return Ok(Vec::new(self.alloc));
        }
        found(self.alloc, &self.pairs, &self.spans, objs)
    }

    // The pairs on these objects are taken out.
    fn take(&mut self, objs: &[ObjId])
        ensures { self.new ≡ on_none objs.now self.old }
    {
        if self.pairs.is_empty() {
            return;
        }
        let end = self.pairs.len();
        take_out(&mut self.spans, objs, end);
        trim(&mut self.pairs, &self.spans);
    }

    // All are taken out.
    fn clear(&mut self)
        ensures { self.new ≡ [] }
    {
        self.pairs.clear();
        self.spans = ObjMap::new(self.alloc);
    }
}

fn is_sync(call: &Call) -> bool
    ensures { result ≡ is_sync call.now }
{
    matches!(call, Call::Sync)
}

// The number of each pair, each once.
fn numbers_of(alloc: Global, pairs: &[(OpNo, ObjId)]) -> Result<Vec<OpNo>, NoMemory>
    ensures { IfOk result (λ ops. ops.items ≡ distinct_numbers pairs.now) }
{
    let mut ops = Numbers::new(alloc);
    for pair in pairs {
        ops.push_new(pair.0)?;
    }
    Ok(ops.into_items())
}

// The pairs that stay and are on one of the objects.
fn found(
    alloc: Global,
    pairs: &[(OpNo, ObjId)],
    spans: &ObjMap<Span>,
    objs: &[ObjId],
) -> Result<Vec<(OpNo, ObjId)>, NoMemory>
    requires { AreIn spans.now 0 pairs.now }
    ensures { IfOk result (λ found. found.items ≡ on_one objs.now (staying spans.now 0 pairs.now)) }
{
    let reached = reach(spans, objs);
    let end = lesser(reached.1, pairs.len());
    let mut found = Vec::new(alloc);
    let mut at = reached.0;
    'each: while at < end {
        let pair = pairs[at];
        if is_found(spans, objs, pair.1, at) {
            found.push(pair)?;
        }
        at += 1;
    }
    Ok(found)
}

// The last pairs that were taken out go.
fn trim(pairs: &mut Vec<(OpNo, ObjId)>, spans: &ObjMap<Span>)
    requires { AreIn spans.now 0 pairs.old.items }
    ensures within { AreIn spans.now 0 pairs.new.items }
    ensures same { staying spans.now 0 pairs.new.items ≡ staying spans.now 0 pairs.old.items }
{
    let mut end = pairs.len();
    'back: while end > 0 {
        if is_staying(spans, pairs[end - 1].1, end - 1) {
            return;
        }
        end -= 1;
        pairs.truncate(end);
    }
}

// Whether the object is one of these, and the pair on it stays at the place.
fn is_found(spans: &ObjMap<Span>, objs: &[ObjId], obj: ObjId, at: usize) -> bool
    ensures { result ≡ (member obj objs.now && nat_le (span obj spans.now).0 at) }
{
    objs.contains(&obj) && is_staying(spans, obj, at)
}

fn lesser(one: usize, other: usize) -> usize
    ensures value { result ≡ (if nat_lt one other then one else other) }
    ensures below { result ≤ other }
{
    if one < other {
        return one;
    }
    other
}

// Whether the pair on the object stays at the place.
fn is_staying(spans: &ObjMap<Span>, obj: ObjId, at: usize) -> bool
    ensures { result ≡ nat_le (span obj spans.now).0 at }
{
    span_of(spans, obj).0 <= at
}
