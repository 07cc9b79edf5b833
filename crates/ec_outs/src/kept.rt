// The answers and the losses that came out of one step are kept.
ghost use Rattle.std.specs.Prelude.{◌≡◌, ℕ, ◌+◌, ◌≤◌, [], ◌++◌, map, take, drop, IfSome, IfNone, IsTrue, MatchBool, slice_get};
ghost use Rattle.ec_outs.specs.Outs.{answers, answer_of, told as told_in_all, told_of, old_boots};
ghost use Rattle.ec_outs.specs.KeptAnswers.{first_known, kept_at};
ghost use Rattle.ec_base.specs.Lists.{first_of};
ghost use Rattle.ec_outs.specs.declared.kept.Kept.{Kept as Row};

use ec_base::{Age, List, OpNo};
use ec_history::Answer;
use ec_protocol::Out;

/// An answer that no lane has taken yet.
#[derive(Drop)]
pub struct Kept {
    pub number: u64,
    /// The place of the step that gave it.
    pub at: u64,
    /// With its operation's number.
    pub reply: (Answer, Option<OpNo>),
}

/// Keeps the answers, and what was told lost. For want of memory it's false, and no answers are kept.
pub fn keep_all(
    kept: &mut Vec<Kept>,
    told: &mut Vec<List<OpNo>>,
    mut outs: Vec<Out>,
    at: u64,
) -> bool
    ensures kept { MatchBool result (kept.new.items ≡ kept.old.items ++ map (kept_at at) (answers outs.items)) (kept.new.items ≡ []) }
    ensures told { IsTrue result → told.new.items ≡ told.old.items ++ told_in_all outs.items }
{
    // the next one is taken from the end
    outs.reverse();
    'outs: while let Some(out) = outs.pop() {
        if !keep_one(kept, told, out, at) {
            kept.clear();
            return false;
        }
    }
    true
}

// One that came out. False for want of memory.
fn keep_one(kept: &mut Vec<Kept>, told: &mut Vec<List<OpNo>>, out: Out, at: u64) -> bool
    ensures { IsTrue result → (kept.new.items ≡ kept.old.items ++ map (kept_at at) (answer_of out)) × (told.new.items ≡ told.old.items ++ told_of out) }
{
    match out {
        Out::Answer(number, answer, op) => {
            let reply = (answer, op);
            kept.push(Kept { number, at, reply }).is_ok()
        }
        Out::Told(ops) => told.push(ops).is_ok(),
        Out::Send(_) | Out::OldBoot(_) => true,
    }
}

// The first greater age.
fn first_old(outs: &[Out]) -> Option<Age>
    ensures { result ≡ first_of (old_boots outs.now) }
{
    for out in outs {
        if let Out::OldBoot(age) = out {
            return Some(*age);
        }
    }
    None
}

/// The greater age that is known, or else the first of these.
pub fn known_old(known: Option<Age>, outs: &[Out]) -> Option<Age>
    ensures { result ≡ first_known known (old_boots outs.now) }
{
    match known {
        Some(age) => Some(age),
        None => first_old(outs),
    }
}

/// Takes the answer to the call of this number, where it was given at this place or behind it.
pub fn take_kept(kept: &mut Vec<Kept>, number: u64, place: u64) -> Option<(Answer, Option<OpNo>)>
    ensures some { IfSome result (λ reply. (a : Row) × (i : ℕ) × (slice_get kept.old.items i ≡ Some a) × (a.number ≡ number) × (place ≤ a.at) × (a.reply ≡ reply) × (kept.new.items ≡ take i kept.old.items ++ drop (i + 1) kept.old.items)) }
    ensures none { IfNone result (kept.new.items ≡ kept.old.items) }
{
    for i in 0..kept.len() {
        if kept[i].number == number && kept[i].at >= place {
            let one = kept.remove(i);
            return Some(one.reply);
        }
    }
    None
}
