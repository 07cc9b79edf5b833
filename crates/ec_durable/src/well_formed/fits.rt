// What single images, slots and numbers are asked.
ghost use Rattle.std.specs.Prelude.{◌≡◌, ◌==◌, ◌&&◌, true, nat_lt, nat_le};
ghost use Rattle.std.specs.List.{list_all};
ghost use Rattle.ec_volume.specs.Image.{is_dir};
ghost use Rattle.ec_volume.specs.Update.{root};
ghost use Rattle.ec_volume.specs.Volume.{images};
ghost use Rattle.ec_volume.specs.Held.{is_held};
ghost use Rattle.ec_codes.specs.SoundImages.{is_sound_image};
ghost use Rattle.ec_durable.specs.WellFormed.{fits_slot, last_first_fits};

use ec_base::ObjId;
use ec_sessions::Slot;
use ec_volume::{Image, SharedImage};

// The ids of a grant.
const IDS_PER_GRANT: u64 = 16;

/// Whether the root is a directory.
pub(crate) fn has_root(objects: &[(ObjId, SharedImage)]) -> bool
    ensures { result ≡ is_dir (images objects.now root) }
{
    match objects {
        [] => false,
        [(id, image), rest @ ..] => {
            if ObjId::root() == *id {
                matches!(image.get(), Image::Dir { .. })
            } else {
                has_root(rest)
            }
        }
    }
}

/// Whether each of these objects lives.
pub(crate) fn are_held(objects: &[(ObjId, SharedImage)]) -> bool
    requires { list_all (λ e. is_sound_image e.1) objects.now ≡ true }
    ensures { result ≡ list_all (λ e. is_held e.1) objects.now }
{
    match objects {
        [] => true,
        [(_, image), rest @ ..] => is_held(image.get()) && are_held(rest),
    }
}

fn is_held(image: &Image) -> bool
    requires { is_sound_image image.now ≡ true }
    ensures { result ≡ is_held image.now }
{
    match image {
        Image::Gone => false,
        Image::File { .. } => true,
        Image::Dir { entries, .. } => {
            let _count = entries.len();
            true
        }
    }
}

/// Whether each number is below the limit.
pub(crate) fn are_below(numbers: &[u64], limit: u64) -> bool
    ensures { result ≡ list_all (λ n. nat_lt n limit) numbers.now }
{
    match numbers {
        [] => true,
        [number, rest @ ..] => *number < limit && are_below(rest, limit),
    }
}

/// Whether each number is from 1 and below the limit.
pub(crate) fn are_from_one(numbers: &[u64], limit: u64) -> bool
    ensures { result ≡ list_all (λ n. nat_le 1 n && nat_lt n limit) numbers.now }
{
    match numbers {
        [] => true,
        [number, rest @ ..] => 1 <= *number && *number < limit && are_from_one(rest, limit),
    }
}

/// Whether each slot fits the next id.
pub(crate) fn slots_fit(slots: &[Option<Slot>], next_id: u32) -> bool
    ensures { result ≡ list_all (fits_slot next_id) slots.now }
{
    match slots {
        [] => true,
        [slot, rest @ ..] => slot_fits(slot, next_id) && slots_fit(rest, next_id),
    }
}

// Only an open session has unspent ids, and the last grant's first id stands where there was a grant.
fn slot_fits(slot: &Option<Slot>, next_id: u32) -> bool
    ensures { result ≡ fits_slot next_id slot.now }
{
    match slot {
        None => true,
        Some(slot) => {
            (slot.is_open || slot.unspent.as_slice().len() == 0) && last_first_fits(slot, next_id)
        }
    }
}

fn last_first_fits(slot: &Slot, next_id: u32) -> bool
    ensures { result ≡ last_first_fits next_id slot.now }
{
    match slot.last_first {
        None => slot.grants == 0,
        Some(first) => 0 < slot.grants && first.get() as u64 + IDS_PER_GRANT <= next_id as u64,
    }
}
