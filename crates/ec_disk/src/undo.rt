// Writes over an image, and the old bytes that take them back.
ghost use Rattle.std.specs.Prelude.{◌≡◌, ◌+◌, ◌<◌, ◌≤◌, ℕ, length, OnOk, OnErr, IfOk};
ghost use Rattle.ec_disk.specs.Disk.{byte};
ghost use Rattle.ec_disk.specs.Effects.{written};
ghost use Rattle.ec_disk.specs.Undo.{torn, torn_byte, undone};

use ec_base::List;
use std::alloc::{AllocError, Global};

/// The bytes that stood in a range before a write, zeros past the end.
#[derive(Drop)]
pub struct Undo {
    pub at: u64,
    pub old: List<u8>,
}

/// The bytes from `at` on, zeros past the end.
pub fn bytes_at(alloc: Global, image: &[u8], at: usize, count: usize) -> Result<Vec<u8>, AllocError>
    ensures length { IfOk result (λ bytes. length bytes.items ≡ count) }
    ensures bytes { IfOk result (λ bytes. (i : ℕ) → i < count → byte bytes.items i ≡ byte image.now (at + i)) }
{
    let rest = &image[at.min(image.len())..];
    let mut bytes = rest[..count.min(rest.len())].to_vec(alloc)?;
    bytes.resize(count, 0)?;
    Ok(bytes)
}

/// Writes over an image; a gap past its end is zeros.
pub fn overwrite(image: &mut Vec<u8>, at: usize, piece: &[u8]) -> Result<(), AllocError>
    ensures ok { OnOk result (image.new.items ≡ written at piece.now image.old.items) }
    ensures err { OnErr result (image.new.items ≡ image.old.items) }
{
    let Some(end) = at.checked_add(piece.len()) else {
        return Err(AllocError);
    };
    if end <= image.len() {
        put(image, at, piece);
        return Ok(());
    }
    image.reserve(end - image.len())?;
    image.resize(at, 0)?;
    image.extend_from_slice(piece)?;
    Ok(())
}

/// Writes inside an image.
pub fn put(image: &mut Vec<u8>, at: usize, piece: &[u8])
    requires { at + length piece.now ≤ length image.old.items }
    ensures { image.new.items ≡ written at piece.now image.old.items }
{
    image[at..at + piece.len()].copy_from_slice(piece);
}

/// What the old bytes give when they are written back, the last first.
pub fn put_back(image: &mut Vec<u8>, undos: &[Undo])
    requires { length (undone undos.now image.old.items) ≡ length image.old.items }
    ensures { image.new.items ≡ undone undos.now image.old.items }
{
    let mut left = undos.len();
    'undos: while left > 0 {
        left -= 1;
        let undo = &undos[left];
        put(image, undo.at as usize, undo.old.as_slice());
    }
}

/// A torn write of `new` from `at` on: the old bytes stay at odd places.
pub fn torn(alloc: Global, at: u64, new: &[u8], old: &[u8]) -> Result<Vec<u8>, AllocError>
    requires old { length new.now ≤ length old.now }
    ensures { IfOk result (λ bytes. bytes.items ≡ torn at new.now old.now) }
{
    let mut bytes = Vec::with_capacity(alloc, new.len())?;
    for i in 0..new.len() {
        let byte = torn_byte(at, new, old, i);
        bytes.push(byte)?;
    }
    Ok(bytes)
}

fn torn_byte(at: u64, new: &[u8], old: &[u8], i: usize) -> u8
    requires new { i < length new.now }
    requires old { i < length old.now }
    ensures { result ≡ torn_byte at new.now old.now i }
{
    if at % 2 == i as u64 % 2 {
        new[i]
    } else {
        old[i]
    }
}
