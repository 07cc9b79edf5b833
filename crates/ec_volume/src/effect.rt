// What an update makes of the image of one of its operands.
ghost use Rattle.std.specs.Prelude.{◌≡◌, ◌+◌, ◌-◌, ◌≤◌, ◌++◌, ℕ, T, true, false, length, take, drop, replicate, OnOk, OnErr};
ghost use Rattle.ec_volume.specs.Entries.{same_name, with_entry, without_entry};
ghost use Rattle.ec_volume.specs.Image.{resized, overwritten, with_bytes, with_entries, with_mode, with_stamp, with_owner};
ghost use Rattle.ec_volume.specs.Limits.{max_file_bytes};
ghost use Rattle.ec_volume.specs.Update.{is_sound, effect};
ghost use Rattle.ec_volume.specs.RoomWanted.{wants_room};
ghost use Rattle.ec_volume.specs.Carry.{renames};

use crate::image::{Image, is_id};
use crate::update::Update;
use ec_base::{List, Name, NoMemory, ObjId};
use std::alloc::Global;
use std::mem;

impl Image {
    /// Makes of the image of the operand `at` what the update makes of it. It takes no memory but for
    /// a directory that gets an entry and a file that gets bytes.
    pub fn effect(&mut self, alloc: Global, update: &Update, at: ObjId) -> Result<(), NoMemory>
        requires { T (is_sound update.now) }
        ensures ok { OnOk result (self.new ≡ effect update.now at self.old) }
        ensures err { OnErr result (self.new ≡ self.old) }
        ensures room { OnErr result (wants_room update.now at ≡ true) }
    {
        match update {
            Update::Make {
                dir,
                name,
                obj,
                kind,
            } => {
                if at == *dir {
                    return self.add_entry(name, *obj);
                }
                *self = Image::new_object(alloc, *kind);
            }
            Update::Drop { dir, name, .. } => {
                if at == *dir {
                    self.remove_entry(name);
                } else {
                    *self = Image::Gone;
                }
            }
            Update::Move {
                dir,
                from,
                to,
                obj,
                ..
            } => {
                if at == *dir {
                    return self.rename_entry(from, to, *obj);
                }
                if at != *obj {
                    *self = Image::Gone;
                }
            }
            Update::Shift {
                dir,
                from,
                into,
                to,
                obj,
                victim,
                ..
            } => {
                if at == *dir {
                    self.remove_entry(from);
                } else if at == *into {
                    return self.add_entry(to, *obj);
                } else if is_id(at, *victim) {
                    *self = Image::Gone;
                }
            }
            _ => return self.change_itself(alloc, update),
        }
        Ok(())
    }

    // What an update of the object's own parts makes of its image.
    fn change_itself(&mut self, alloc: Global, update: &Update) -> Result<(), NoMemory>
        requires sound { T (is_sound update.now) }
        requires itself { renames update.now ≡ false }
        ensures ok { OnOk result ((id : ℕ) → self.new ≡ effect update.now id self.old) }
        ensures err { OnErr result (self.new ≡ self.old) }
        ensures room { OnErr result ((id : ℕ) → wants_room update.now id ≡ true) }
    {
        match update {
            Update::Put { at, bytes, .. } => {
                return self.overwrite(alloc, *at as usize, bytes.as_slice());
            }
            Update::Len { len, .. } => return self.resize(alloc, *len as usize),
            Update::Mode { mode, .. } => self.set_mode(*mode),
            Update::Stamp { stamp, .. } => self.set_stamp(*stamp),
            Update::Owner { owner, .. } => self.set_owner(*owner),
            _ => {}
        }
        Ok(())
    }

    pub(crate) fn add_entry(&mut self, name: &Name, id: ObjId) -> Result<(), NoMemory>
        ensures ok { OnOk result (self.new ≡ with_entries (λ es. with_entry es name.now id) self.old) }
        ensures err { OnErr result (self.new ≡ self.old) }
    {
        match self {
            Image::Dir { entries, .. } => entries.add(name, id),
            Image::File { .. } | Image::Gone => Ok(()),
        }
    }

    pub(crate) fn remove_entry(&mut self, name: &Name)
        ensures { self.new ≡ with_entries (λ es. without_entry es name.now) self.old }
    {
        match self {
            Image::Dir { entries, .. } => entries.remove(name),
            Image::File { .. } | Image::Gone => {}
        }
    }

    fn rename_entry(&mut self, from: &Name, to: &Name, id: ObjId) -> Result<(), NoMemory>
        requires { same_name from.now to.now ≡ false }
        ensures ok { OnOk result (self.new ≡ with_entries (λ es. with_entry (without_entry es from.now) to.now id) self.old) }
        ensures err { OnErr result (self.new ≡ self.old) }
    {
        match self {
            Image::Dir { entries, .. } => entries.rename(from, to, id),
            Image::File { .. } | Image::Gone => Ok(()),
        }
    }

    fn overwrite(&mut self, alloc: Global, at: usize, new: &[u8]) -> Result<(), NoMemory>
        requires { at + length new.now ≤ max_file_bytes }
        ensures ok { OnOk result (self.new ≡ with_bytes (overwritten at new.now) self.old) }
        ensures err { OnErr result (self.new ≡ self.old) }
    {
        match self {
            Image::File { bytes, .. } => {
                let mut held = mem::replace(bytes, List::of(Vec::new(alloc))).into_vec();
                let done = overwrite(&mut held, at, new);
                *bytes = List::of(held);
                done
            }
            Image::Dir { .. } | Image::Gone => Ok(()),
        }
    }

    fn resize(&mut self, alloc: Global, len: usize) -> Result<(), NoMemory>
        ensures ok { OnOk result (self.new ≡ with_bytes (resized len) self.old) }
        ensures err { OnErr result (self.new ≡ self.old) }
    {
        match self {
            Image::File { bytes, .. } => {
                let mut held = mem::replace(bytes, List::of(Vec::new(alloc))).into_vec();
                let done = resize(&mut held, len);
                *bytes = List::of(held);
                done
            }
            Image::Dir { .. } | Image::Gone => Ok(()),
        }
    }

    fn set_mode(&mut self, new: u16)
        ensures { self.new ≡ with_mode new self.old }
    {
        match self {
            Image::File { mode, .. } => *mode = new,
            Image::Dir { mode, .. } => *mode = new,
            Image::Gone => {}
        }
    }

    fn set_stamp(&mut self, new: u64)
        ensures { self.new ≡ with_stamp new self.old }
    {
        match self {
            Image::File { stamp, .. } => *stamp = new,
            Image::Dir { stamp, .. } => *stamp = new,
            Image::Gone => {}
        }
    }

    fn set_owner(&mut self, new: u32)
        ensures { self.new ≡ with_owner new self.old }
    {
        match self {
            Image::File { owner, .. } => *owner = new,
            Image::Dir { owner, .. } => *owner = new,
            Image::Gone => {}
        }
    }
}

// The first bytes, with zeros behind the end.
fn resize(bytes: &mut Vec<u8>, len: usize) -> Result<(), NoMemory>
    ensures ok { OnOk result (bytes.new.items ≡ resized len bytes.old.items) }
    ensures err { OnErr result (bytes.new.items ≡ bytes.old.items) }
{
    bytes.resize(len, 0)?;
    Ok(())
}

// New bytes at a place, in the place of those that stand there.
fn overwrite(bytes: &mut Vec<u8>, at: usize, new: &[u8]) -> Result<(), NoMemory>
    requires { at + length new.now ≤ max_file_bytes }
    ensures ok { OnOk result (bytes.new.items ≡ overwritten at new.now bytes.old.items) }
    ensures err { OnErr result (bytes.new.items ≡ bytes.old.items) }
{
    lengthen(bytes, at + new.len())?;
    write_at(bytes, at, new);
    Ok(())
}

// Zeros behind the end, where the bytes are fewer.
fn lengthen(bytes: &mut Vec<u8>, len: usize) -> Result<(), NoMemory>
    ensures ok { OnOk result (bytes.new.items ≡ bytes.old.items ++ replicate (len - length bytes.old.items) 0) }
    ensures err { OnErr result (bytes.new.items ≡ bytes.old.items) }
{
    if bytes.len() < len {
        bytes.resize(len, 0)?;
    }
    Ok(())
}

fn write_at(bytes: &mut [u8], at: usize, new: &[u8])
    requires { at + length new.now ≤ length bytes.old }
    ensures { bytes.new ≡ take at bytes.old ++ new.now ++ drop (at + length new.now) bytes.old }
{
    bytes[at..at + new.len()].copy_from_slice(new);
}
