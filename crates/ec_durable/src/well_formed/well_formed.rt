// Whether sessions' slots and images are those of a well-formed state.
ghost use Rattle.std.specs.Prelude.{◌≡◌, ◌≤◌, ℕ, T, true, IfOk, MatchBool};
ghost use Rattle.std.specs.Ordering.{nat_cmp};
ghost use Rattle.std.specs.FinMap.{is_sorted};
ghost use Rattle.std.specs.List.{list_all};
ghost use Rattle.ec_codes.specs.SoundImages.{is_sound_image};
ghost use Rattle.ec_volume.specs.Volume as formed;
ghost use Rattle.ec_volume.specs.Volume.{images};
ghost use Rattle.ec_durable.specs.WellFormed.{WellFormed, least_max_objects, most_max_objects};
ghost use Rattle.ec_durable.specs.OfWellFormed.WellFormed.{state_with, is_in_order, AreNamedOnce, IsTree};

use crate::well_formed::fits::{are_below, are_from_one, are_held, has_root, slots_fit};
use crate::well_formed::lists::{ids_of, named_ids, push_unspent, sessions_of};
use crate::well_formed::numbers::{are_distinct, are_these};
use ec_base::{NoMemory, ObjId};
use ec_sessions::Slot;
use ec_volume::{SharedImage, Volume};
use std::alloc::Global;

/// Whether the state of these slots and of these images, whose ids rise, is well formed.
pub fn is_well_formed(
    alloc: Global,
    max_objects: u32,
    next_id: u32,
    next_session: u64,
    slots: &[Option<Slot>],
    images: &[(ObjId, SharedImage)],
) -> Result<bool, NoMemory>
    requires least { least_max_objects ≤ max_objects }
    requires limit { max_objects ≤ most_max_objects }
    requires ids { T (is_sorted nat_cmp images.now) }
    requires sound { list_all (λ e. is_sound_image e.1) images.now ≡ true }
    ensures { IfOk result (λ is. (epoch : ℕ) → MatchBool is (WellFormed (state_with max_objects next_id next_session epoch slots.now images.now)) (WellFormed (state_with max_objects next_id next_session epoch slots.now images.now) → ⊥)) }
{
    if !is_tree(alloc, images)? {
        return Ok(false);
    }
    is_in_order(alloc, max_objects, next_id, next_session, slots, images)
}

/// Whether the volume is well formed: the root is a directory that no entry names, each other object stands in exactly
/// one entry of one directory, and each entry's object lives.
pub fn is_well_formed_volume(alloc: Global, volume: &Volume) -> Result<bool, NoMemory>
    ensures { IfOk result (λ is. MatchBool is (formed.WellFormed (images volume.now)) (formed.WellFormed (images volume.now) → ⊥)) }
{
    let images = volume.items();
    if !has_root(images) {
        return Ok(false);
    }
    are_named_once(alloc, images)
}

// Whether each object lives, and each but the root, which is a directory, stands in one entry.
fn is_tree(alloc: Global, images: &[(ObjId, SharedImage)]) -> Result<bool, NoMemory>
    requires ids { T (is_sorted nat_cmp images.now) }
    requires sound { list_all (λ e. is_sound_image e.1) images.now ≡ true }
    ensures { IfOk result (λ is. MatchBool is (IsTree images.now) (IsTree images.now → ⊥)) }
{
    if !has_root(images) || !are_held(images) {
        return Ok(false);
    }
    are_named_once(alloc, images)
}

// Whether the root and the ids in all entries are these ids, each once.
fn are_named_once(alloc: Global, images: &[(ObjId, SharedImage)]) -> Result<bool, NoMemory>
    requires { T (is_sorted nat_cmp images.now) }
    ensures { IfOk result (λ is. MatchBool is (AreNamedOnce images.now) (AreNamedOnce images.now → ⊥)) }
{
    let mut named = named_ids(alloc, images)?;
    named.push(1)?;
    let ids = ids_of(alloc, images)?;
    are_these(named, ids.as_slice())
}

// Whether ids and sessions are in order.
fn is_in_order(
    alloc: Global,
    max_objects: u32,
    next_id: u32,
    next_session: u64,
    slots: &[Option<Slot>],
    images: &[(ObjId, SharedImage)],
) -> Result<bool, NoMemory>
    ensures { IfOk result (λ is. is ≡ is_in_order max_objects next_id next_session slots.now images.now) }
{
    let mut ids = ids_of(alloc, images)?;
    push_unspent(&mut ids, slots)?;
    let sessions = sessions_of(alloc, slots)?;
    let is_within = ids.len() <= max_objects as usize
        && are_below(ids.as_slice(), next_id as u64)
        && slots_fit(slots, next_id)
        && are_from_one(sessions.as_slice(), next_session)
        && 1 <= next_session;
    if !is_within {
        return Ok(false);
    }
    if !are_distinct(ids)? {
        return Ok(false);
    }
    are_distinct(sessions)
}
