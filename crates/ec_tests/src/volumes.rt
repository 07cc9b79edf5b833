//! Directories that stand alone: with the id of the root they're a well-formed volume.

use ec_base::{NoMemory, ObjId};
use ec_durable::well_formed::is_well_formed_volume;
use ec_volume::{Entries, Image, SharedImage, Volume};
use std::alloc::Global;

fn alone(alloc: Global, id: ObjId) -> Result<Volume, NoMemory> {
    let mut images = Vec::new(alloc);
    let dir = Image::Dir {
        mode: 0o755,
        stamp: 0,
        owner: 0,
        entries: Entries::new(alloc),
    };
    images.push((id, SharedImage::new(alloc, dir)?))?;
    Volume::of(images)
}

fn is_well_formed(alloc: Global, id: ObjId) -> Result<bool, NoMemory> {
    let volume = alone(alloc, id)?;
    let is_well = is_well_formed_volume(alloc, &volume);
    drop(volume);
    is_well
}

#[test]
fn lone_directories(rt: HostRuntime) {
    let other = ObjId::new(2).expect(&rt, "an id");
    assert!(rt; is_well_formed(rt.alloc(), ObjId::root()) == Ok(true));
    assert!(rt; is_well_formed(rt.alloc(), other) == Ok(false));
}
