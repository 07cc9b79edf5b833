//! Each public call of volumes once.
ghost use Rattle.std.specs.Prelude.{T, IfSome};
ghost use Rattle.ec_volume.specs.Update.{is_sound};

use ec_base::{Duplicate, Name, ObjId};
use ec_volume::{ApplyFault, Entries, Image, Kind, Look, Update, Volume, operands};
use std::alloc::Global;

fn make(alloc: Global) -> Option<Update>
    ensures { IfSome result (λ update. T (is_sound update)) }
{
    Some(Update::Make {
        dir: ObjId::root(),
        name: Name::read(alloc, b"f").ok()?,
        obj: ObjId::new(2)?,
        kind: Kind::File,
    })
}

fn is_live<V: Look>(volume: &V, id: ObjId) -> bool {
    volume.look(id).is_some()
}

fn count(alloc: Global, update: &Update) -> Option<usize> {
    Some(operands(alloc, update).ok()?.len())
}

// Whether the root and the new file are there.
fn is_made(volume: &Volume) -> bool {
    volume.live() == 2
        && is_live(volume, ObjId::root())
        && matches!(
            volume.look(ObjId::root()),
            Some(Image::Dir { mode: 0o755, .. })
        )
        && matches!(volume.at(1), Some((_, Image::File { mode: 0o644, .. })))
}

fn is_copied(volume: &Volume) -> Option<bool> {
    let copy = volume.duplicate().ok()?;
    Some(is_made(&copy))
}

// The answers to an update and to its copy.
fn applied(
    volume: &mut Volume,
    update: &Update,
) -> Option<(Result<(), ApplyFault>, Result<(), ApplyFault>)> {
    let copy = update.duplicate().ok()?;
    if !update.sound() || !copy.sound() {
        return None;
    }
    Some((volume.apply(update), volume.apply(&copy)))
}

#[test]
fn applies_once(rt: HostRuntime) {
    let mut volume = Volume::formatted(rt.alloc()).expect(&rt, "memory");
    let update = make(rt.alloc()).expect(&rt, "memory");
    assert!(rt; count(rt.alloc(), &update) == Some(2));
    let unfit = Err(ApplyFault::Unfit(ObjId::root()));
    assert!(rt; applied(&mut volume, &update) == Some((Ok(()), unfit)));
    assert!(rt; is_made(&volume));
    assert!(rt; is_copied(&volume) == Some(true));
}

fn directory(alloc: Global) -> Option<Image> {
    let entries = Entries::of(Vec::new(alloc)).ok()?;
    if entries.len() != 0 || entries.at(0).is_some() {
        return None;
    }
    Some(Image::Dir {
        mode: 0,
        stamp: 0,
        owner: 0,
        entries,
    })
}

// Whether an update fits an empty directory, is carried out, and fits no more.
fn fills(alloc: Global) -> Option<(bool, bool, bool)> {
    let mut image = directory(alloc)?;
    let update = make(alloc)?;
    let root = ObjId::root();
    if !image.fits(&update, root) {
        return None;
    }
    let is_done = image.effect(alloc, &update, root).is_ok();
    Some((true, is_done, image.fits(&update, root)))
}

#[test]
fn images_and_entries(rt: HostRuntime) {
    assert!(rt; fills(rt.alloc()) == Some((true, true, false)));
}
