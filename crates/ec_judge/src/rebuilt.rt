// The volume behind what a loss leaves.
ghost use Rattle.std.specs.Prelude.{◌≡◌, ◌≤◌, ◌<◌, ◌||◌, ℕ, T, ◌∷◌, [], true, false, not, length, take, Some, None, IfOk, OnOk, MatchBool};
ghost use Rattle.std.specs.List.{filter, list_any, list_all};
ghost use Rattle.ec_volume.specs.Update.{member, operands, is_sound, first_unfit};
ghost use Rattle.ec_volume.specs.Volume.{images, formatted, after, Fits};
ghost use Rattle.ec_pending.specs.OfOverlay.Shown.{shown, has_own};
ghost use Rattle.ec_pending.specs.declared.overlay.overlay.Overlay.{Overlay as Laid};
ghost use Rattle.ec_history.specs.History.{updates, is_one_of};
ghost use Rattle.ec_judge.specs.Carried.{ops_of, is_among, is_noted, AreLaid, AreNoted, IsFrontKept, IsFrontAt, IsWholeBeside, IsFirm, IsBehind, IsRestored, IsLeft};

use crate::carried::{Firm, Kept};
use crate::losses::{Named, is_among};
use ec_base::{NoMemory, ObjId};
use ec_order::objmap::ObjMap;
use ec_pending::overlay::Overlay;
use ec_volume::{ApplyFault, Update, Volume, operands};
use std::alloc::Global;

// At least so many of the last kept operations stay out of the volume below.
const RECENT: usize = 2;

/// The volume behind none of the operations.
pub fn nothing(alloc: Global) -> Result<Firm, NoMemory>
    ensures count { IfOk result (λ firm. firm.count ≡ 0) }
    ensures shown { IfOk result (λ firm. (o : ℕ) → shown firm.volume o ≡ formatted o) }
    ensures under { IfOk result (λ firm. (o : ℕ) → images firm.volume.under o ≡ formatted o) }
{
    Ok(Firm {
        volume: Overlay::formatted(alloc)?,
        count: 0,
        recent: RECENT,
        idle: 0,
    })
}

/// Takes the lost operations out of the volume. None of them is kept before the index. It's false
/// where the others don't fit.
#[inline(never)]
pub fn leave(
    alloc: Global,
    firm: &mut Firm,
    kept: &[Kept],
    from: usize,
    named: &Named<'_>,
) -> Result<bool, NoMemory>
    requires sound { T (list_all is_sound (updates (ops_of kept.now))) }
    requires fits { Fits formatted (updates (ops_of kept.now)) }
    requires shown { (o : ℕ) → shown firm.old.volume o ≡ after formatted (updates (ops_of kept.now)) o }
    requires firm { IsFirm kept.now firm.old.count (images firm.old.volume.under) }
    requires laid { AreLaid kept.now firm.old.count firm.old.volume }
    requires within { from ≤ length kept.now }
    requires none { list_any (is_among named.now.clerk named.now.boot named.now.ops.now) (take from kept.now) ≡ false }
    ensures { IfOk result (λ fits. MatchBool fits (IsLeft named.now.clerk named.now.boot named.now.ops.now kept.now firm.new) (¬ (Fits formatted (updates (filter (λ k. not (is_one_of named.now.clerk named.now.boot named.now.ops.now k)) (ops_of kept.now)))))) }
{
    let anew = begin(alloc, firm, kept, from, named)?;
    if !advance(firm, kept, named)? {
        return Ok(false);
    }
    let mut noted = ObjMap::new(alloc);
    let count = firm.count;
    let volume = &mut firm.volume;
    let behind = &kept[count..];
    restore_all(alloc, volume, &mut noted, behind, anew, named)?;
    carry_on(alloc, volume, &noted, count, kept, named)
}

// Begins anew where the volume below is behind the index. From then on twice as many operations stay
// out of it, until losses that need less have cost as much as beginning anew.
fn begin(
    alloc: Global,
    firm: &mut Firm,
    kept: &[Kept],
    from: usize,
    named: &Named<'_>,
) -> Result<bool, NoMemory>
    requires firm { IsFirm kept.now firm.old.count (images firm.old.volume.under) }
    requires within { from ≤ length kept.now }
    requires none { list_any (is_among named.now.clerk named.now.boot named.now.ops.now) (take from kept.now) ≡ false }
    ensures behind { OnOk result (IsBehind named.now.clerk named.now.boot named.now.ops.now kept.now firm.new.count (images firm.new.volume.under)) }
    ensures anew { IfOk result (λ anew. MatchBool anew ((o : ℕ) → has_own firm.new.volume o ≡ false) ((firm.new.volume ≡ firm.old.volume) × (firm.new.count ≡ firm.old.count))) }
{
    if firm.count <= from {
        firm.idle = firm
            .idle
            .saturating_add(firm.recent.saturating_sub(kept.len() - from));
        if firm.idle > kept.len() {
            firm.recent = (firm.recent / 2).max(RECENT);
            firm.idle = 0;
        }
        return Ok(false);
    }
    *firm = Firm {
        volume: Overlay::formatted(alloc)?,
        count: 0,
        recent: (kept.len() - from).saturating_mul(2),
        idle: 0,
    };
    Ok(true)
}

// Carries more of the operations out on the volume below, up to the first lost one, but for recent
// ones. It's false where one doesn't fit.
fn advance(firm: &mut Firm, kept: &[Kept], named: &Named<'_>) -> Result<bool, NoMemory>
    requires sound { T (list_all is_sound (updates (ops_of kept.now))) }
    requires behind { IsBehind named.now.clerk named.now.boot named.now.ops.now kept.now firm.old.count (images firm.old.volume.under) }
    ensures behind { IfOk result (λ fits. MatchBool fits (IsBehind named.now.clerk named.now.boot named.now.ops.now kept.now firm.new.count (images firm.new.volume.under)) (¬ (Fits formatted (updates (filter (λ k. not (is_one_of named.now.clerk named.now.boot named.now.ops.now k)) (ops_of kept.now)))))) }
    ensures onward { IfOk result (λ fits. firm.old.count ≤ firm.new.count) }
    ensures over { IfOk result (λ fits. firm.new.volume.over ≡ firm.old.volume.over) }
{
    'advance: while firm.count < kept.len() && kept.len() - firm.count > firm.recent {
        let next = &kept[firm.count];
        if is_among(next, named) {
            return Ok(true);
        }
        if !carry_out(&mut firm.volume.under, &next.update)? {
            return Ok(false);
        }
        firm.count += 1;
    }
    Ok(true)
}

// Shows the operands of those of the operations that are lost, or of all, as the volume below has them,
// and notes them.
fn restore_all(
    alloc: Global,
    volume: &mut Overlay,
    noted: &mut ObjMap<()>,
    kept: &[Kept],
    all: bool,
    named: &Named<'_>,
) -> Result<(), NoMemory>
    requires { noted.old ≡ [] }
    ensures restored { OnOk result (IsRestored volume.old volume.new (is_noted noted.new)) }
    ensures noted { OnOk result (AreNoted (λ k. all || is_among named.now.clerk named.now.boot named.now.ops.now k) (is_noted noted.new) kept.now) }
{
    for next in kept {
        if all || is_among(next, named) {
            restore_each(volume, noted, &operands(alloc, &next.update)?)?;
        }
    }
    Ok(())
}

// The same of these objects.
fn restore_each(
    volume: &mut Overlay,
    noted: &mut ObjMap<()>,
    objs: &[ObjId],
) -> Result<(), NoMemory>
    ensures noted { OnOk result ((o : ℕ) → is_noted noted.new o ≡ (member o objs.now || is_noted noted.old o)) }
    ensures restored { OnOk result ((v : Laid) → IsRestored v volume.old (is_noted noted.old) → IsRestored v volume.new (is_noted noted.new)) }
{
    match objs {
        [] => Ok(()),
        [obj, rest @ ..] => {
            volume.restore(*obj)?;
            noted.insert(*obj, ())?;
            restore_each(volume, noted, rest)
        }
    }
}

// Carries out the operations from an index on that aren't lost, at the noted objects alone. It's false
// where one doesn't fit.
fn carry_on(
    alloc: Global,
    volume: &mut Overlay,
    noted: &ObjMap<()>,
    from: usize,
    kept: &[Kept],
    named: &Named<'_>,
) -> Result<bool, NoMemory>
    requires sound { T (list_all is_sound (updates (ops_of kept.now))) }
    requires within { from ≤ length kept.now }
    requires at { IsFrontAt (is_noted noted.now) (λ k. not (is_one_of named.now.clerk named.now.boot named.now.ops.now k)) kept.now from (shown volume.old) }
    requires beside { IsWholeBeside (is_noted noted.now) (λ k. not (is_one_of named.now.clerk named.now.boot named.now.ops.now k)) kept.now (shown volume.old) }
    ensures images { IfOk result (λ fits. MatchBool fits (IsFrontKept (λ k. not (is_one_of named.now.clerk named.now.boot named.now.ops.now k)) kept.now (length kept.now) (shown volume.new)) (¬ (Fits formatted (updates (filter (λ k. not (is_one_of named.now.clerk named.now.boot named.now.ops.now k)) (ops_of kept.now)))))) }
    ensures own { IfOk result (λ fits. (o : ℕ) → T (has_own volume.old o) → T (has_own volume.new o)) }
    ensures under { IfOk result (λ fits. volume.new.under ≡ volume.old.under) }
{
    for at in from..kept.len() {
        let next = &kept[at];
        if is_among(next, named) {
            continue;
        }
        let objs = noted_operands(alloc, noted, &next.update)?;
        if !volume.carry_out_at(alloc, &next.update, &objs)? {
            return Ok(false);
        }
    }
    Ok(true)
}

// The operands of the update that are noted.
fn noted_operands(
    alloc: Global,
    noted: &ObjMap<()>,
    update: &Update,
) -> Result<Vec<ObjId>, NoMemory>
    ensures { IfOk result (λ objs. objs.items ≡ filter (is_noted noted.now) (operands update.now)) }
{
    let mut objs = operands(alloc, update)?;
    objs.retain(|obj| noted.contains(obj));
    Ok(objs)
}

// Carries the update out, if it fits.
fn carry_out(volume: &mut Volume, update: &Update) -> Result<bool, NoMemory>
    requires { T (is_sound update.now) }
    ensures { IfOk result (λ fits. MatchBool fits ((first_unfit update.now (images volume.old) (operands update.now) ≡ None)
        × ((o : ℕ) → images volume.new o ≡ after (images volume.old) (update.now ∷ []) o)) ((o : ℕ) × (first_unfit update.now (images volume.old) (operands update.now) ≡ Some o))) }
{
    match volume.apply(update) {
        Ok(()) => Ok(true),
        Err(ApplyFault::Unfit(_)) => Ok(false),
        Err(ApplyFault::NoMemory) => Err(NoMemory),
    }
}
