// What is asked where places rise, from the first operation on, each with what it needs. What stays isn't walked.
ghost use Rattle.std.specs.Prelude.{◌≡◌, ℕ, T, true, false, MatchOption, OnOk};
ghost use Rattle.std.specs.Ordering.{nat_cmp};
ghost use Rattle.std.specs.FinMap.{is_sorted};
ghost use Rattle.ec_volume.specs.declared.update.Update.{Update as Of};
ghost use Rattle.ec_order.specs.Order.{Holds};
ghost use Rattle.ec_pending.specs.Pending.{is_asked, is_early, issue_at, issues, rest, AreRising, IsPart};

use crate::asked::Asked;
use crate::closed::place_of;
use ec_base::{NoMemory, OpNo, SortedMap};
use ec_log::chains::{Ask, Order};

/// What is asked is covered, and what it needs.
pub fn cover_early(
    order: &mut Order,
    places: &SortedMap<OpNo, u32>,
    asked: &Asked,
) -> Result<(), NoMemory>
    requires { AreRising places.now order.old }
    ensures rest { OnOk result (issues places.now order.new ≡ rest (is_asked asked.now) (issues places.now order.old)) }
    ensures part { IsPart order.new order.old }
{
    'each: while let Some(op) = next_asked(order, places, asked) {
        let Ok(ops) = order.closure_of_op(op) else {
            return Err(NoMemory);
        };
        order.settle(&ops);
    }
    Ok(())
}

// An operation that is asked, if there is one.
fn next_asked(order: &Order, places: &SortedMap<OpNo, u32>, asked: &Asked) -> Option<OpNo>
    requires { AreRising places.now order.now }
    ensures next { MatchOption result ((n : ℕ) (u : Of) → Holds order.now n u → is_asked asked.now (issue_at places.now (n, u)) ≡ false) (λ op. (u : Of) → Holds order.now op u → is_asked asked.now (issue_at places.now (op, u)) ≡ true) }
    ensures sorted { T (is_sorted nat_cmp order.now) }
{
    if order.count() == 0 {
        return None;
    }
    match asked {
        Asked::Nothing => None,
        Asked::On(obj, begun) => first_early(order, places, Ask::Object(*obj), *begun),
        Asked::All(begun) => first_early(order, places, Ask::All, *begun),
    }
}

// The first operation that is asked for by itself, unless its place is behind this one.
fn first_early(order: &Order, places: &SortedMap<OpNo, u32>, ask: Ask, begun: u32) -> Option<OpNo>
    requires rising { AreRising places.now order.now }
    requires sorted { T (is_sorted nat_cmp order.now) }
    ensures { MatchOption result ((n : ℕ) (u : Of) → Holds order.now n u → is_early places.now ask begun (n, u) ≡ false) (λ op. (u : Of) → Holds order.now op u → is_early places.now ask begun (op, u) ≡ true) }
{
    let Some(op) = order.first(ask) else {
        return None;
    };
    if begun < place_of(places, op) {
        return None;
    }
    Some(op)
}
