// The parts of an object's image.
ghost use Rattle.std.specs.Prelude.{◌≡◌, true, false, MatchOption};
ghost use Rattle.ec_volume.specs.Image.{is_gone, is_dir, bytes_of, entries_of};

use ec_base::ObjId;
use ec_volume::{Entries, Image, Look};

pub(crate) fn is_gone<V: Look>(volume: &V, id: ObjId) -> bool
    ensures { result ≡ is_gone (V.images volume.now id) }
{
    volume.look(id).is_none()
}

pub(crate) fn is_dir<V: Look>(volume: &V, id: ObjId) -> bool
    ensures { result ≡ is_dir (V.images volume.now id) }
{
    matches!(volume.look(id), Some(Image::Dir { .. }))
}

// The bytes of an object that is no directory.
pub(crate) fn file_bytes<V: Look>(volume: &V, id: ObjId) -> Option<&[u8]>
    ensures { MatchOption result (is_dir (V.images volume.now id) ≡ true) (λ bytes. (is_dir (V.images volume.now id) ≡ false) × (bytes.now ≡ bytes_of (V.images volume.now id))) }
{
    match volume.look(id) {
        Some(Image::Dir { .. }) => None,
        Some(Image::File { bytes, .. }) => Some(bytes.as_slice()),
        Some(Image::Gone) | None => Some(&[]),
    }
}

// The entries of a directory.
pub(crate) fn entries_of<V: Look>(volume: &V, id: ObjId) -> Option<&Entries>
    ensures { MatchOption result (is_dir (V.images volume.now id) ≡ false) (λ es. (is_dir (V.images volume.now id) ≡ true) × (es.now ≡ entries_of (V.images volume.now id))) }
{
    match volume.look(id) {
        Some(Image::Dir { entries, .. }) => Some(entries),
        _ => None,
    }
}
