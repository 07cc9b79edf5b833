// Where the pairs of an object are.
ghost use Rattle.std.specs.Prelude.{◌≡◌, ◌≤◌, ◌<◌, ◌&&◌, ◌+◌, ◌^◌, ℕ, if◌then◌else◌, Some, is_some, OnOk, OnErr};
ghost use Rattle.ec_base.specs.Tables.{at, put};
ghost use Rattle.ec_volume.specs.Update.{member};
ghost use Rattle.ec_pending.specs.OfOwes.Owes.{span, extended, from_to, HasAll};

use ec_base::{NoMemory, ObjId};
use ec_order::objmap::ObjMap;

/// From one place on and up to another one.
pub type Span = (usize, usize);

/// The span of the object; it's empty where none is known.
pub fn span_of(spans: &ObjMap<Span>, obj: ObjId) -> Span
    ensures { result ≡ span obj spans.now }
{
    match spans.get(&obj) {
        Some(span) => *span,
        None => (0, 0),
    }
}

/// A span that has those of all of the objects.
pub fn reach(spans: &ObjMap<Span>, objs: &[ObjId]) -> Span
    ensures { HasAll spans.now objs.now result }
{
    match objs {
        [] => (0, 0),
        [obj, rest @ ..] => join(span_of(spans, *obj), reach(spans, rest)),
    }
}

// One that has both.
fn join(one: Span, other: Span) -> Span
    ensures one { (i : ℕ) → one.0 ≤ i → i < one.1 → (result.0 ≤ i) × (i < result.1) }
    ensures other { (i : ℕ) → other.0 ≤ i → i < other.1 → (result.0 ≤ i) × (i < result.1) }
{
    if one.1 <= one.0 {
        return other;
    }
    if other.1 <= other.0 {
        return one;
    }
    (one.0.min(other.0), one.1.max(other.1))
}

/// One more pair on the object, at the end.
pub fn extend(spans: &mut ObjMap<Span>, obj: ObjId, end: usize) -> Result<(), NoMemory>
    requires { end + 1 < 2 ^ 64 }
    ensures ok { OnOk result (spans.new ≡ put obj (extended (span obj spans.old) end) spans.old) }
    ensures err { OnErr result (spans.new ≡ spans.old) }
{
    let span = span_of(spans, obj);
    spans.insert(obj, extended(span, end))
}

fn extended(span: Span, end: usize) -> Span
    requires { end + 1 < 2 ^ 64 }
    ensures { result ≡ extended span end }
{
    if span.1 <= span.0 || end < span.0 {
        return (end, end + 1);
    }
    (span.0, end + 1)
}

/// The pairs on these objects are taken out, as far as there are some.
pub fn take_out(spans: &mut ObjMap<Span>, objs: &[ObjId], end: usize)
    ensures { (o : ℕ) → at o spans.new ≡ (if member o objs.now && is_some (at o spans.old) then Some (from_to end end) else at o spans.old) }
{
    match objs {
        [] => {}
        [obj, rest @ ..] => {
            spans.replace(obj, (end, end));
            take_out(spans, rest, end);
        }
    }
}
