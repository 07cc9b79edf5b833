// Whether an update fits the image of one of its operands.
ghost use Rattle.std.specs.Prelude.{false, ◌≡◌, ◌==◌, ◌&&◌, ◌||◌, not, if◌then◌else◌};
ghost use Rattle.ec_volume.specs.Image.{is_kind, is_bare, is_id, yields};
ghost use Rattle.ec_volume.specs.Update.{fits, first_of, leads, has_room};
ghost use Rattle.ec_volume.specs.Carry.{renames};

use crate::image::{Image, Kind, is_id};
use crate::limits::MAX_ENTRIES;
use crate::update::Update;
use ec_base::{Name, ObjId};

impl Image {
    /// Whether the update fits this image of its operand `at`. It takes no memory.
    pub fn fits(&self, update: &Update, at: ObjId) -> bool
        ensures { result ≡ fits update.now at self.now }
    {
        match update {
            Update::Make { dir, name, .. } => {
                if at == *dir {
                    self.lacks(name) && self.entry_count() < MAX_ENTRIES
                } else {
                    self.is_gone()
                }
            }
            Update::Drop {
                dir,
                name,
                obj,
                kind,
            } => {
                if at == *dir {
                    self.gives(name, *obj)
                } else {
                    self.is_bare(*kind)
                }
            }
            Update::Move {
                dir,
                from,
                to,
                obj,
                kind,
                victim,
            } => {
                if at == *dir {
                    self.gives(from, *obj) && self.yields(to, *victim)
                } else if at == *obj {
                    self.is_kind(*kind)
                } else {
                    self.is_bare(*kind)
                }
            }
            Update::Shift {
                dir,
                from,
                into,
                to,
                obj,
                kind,
                victim,
                up,
            } => {
                if !self.leads(up.as_slice(), *into, at) {
                    false
                } else if at == *dir {
                    self.gives(from, *obj)
                } else if at == *into {
                    self.yields(to, *victim) && self.has_room(*victim)
                } else {
                    self.moves(at, *obj, *kind, *victim)
                }
            }
            _ => self.fits_itself(update, at),
        }
    }

    // Whether the update of an object's own parts fits this image of it.
    fn fits_itself(&self, update: &Update, at: ObjId) -> bool
        requires { renames update.now ≡ false }
        ensures { result ≡ fits update.now at self.now }
    {
        match update {
            Update::Put {
                at: place,
                bytes,
                inside,
                ..
            } => {
                self.is_file()
                    && (!*inside || *place as usize + bytes.as_slice().len() <= self.byte_count())
            }
            Update::Len { .. } => self.is_file(),
            _ => !self.is_gone(),
        }
    }

    // Where the id is one of the directories, whether this image names the next one, or the last
    // one the directory that they lead to.
    fn leads(&self, up: &[(ObjId, Name)], into: ObjId, at: ObjId) -> bool
        ensures { result ≡ leads up.now into at self.now }
    {
        match up {
            [] => true,
            [(dir, name), rest @ ..] => {
                (at != *dir || self.gives(name, first_of(rest, into))) && self.leads(rest, into, at)
            }
        }
    }

    // Room for a new name.
    fn has_room(&self, victim: Option<ObjId>) -> bool
        ensures { result ≡ has_room victim self.now }
    {
        victim.is_some() || self.entry_count() < MAX_ENTRIES
    }

    // The object that moves, or its victim.
    fn moves(&self, at: ObjId, obj: ObjId, kind: Kind, victim: Option<ObjId>) -> bool
        ensures { result ≡ (if at == obj then is_kind kind self.now else (not (is_id at victim) || is_bare kind self.now)) }
    {
        if at == obj {
            self.is_kind(kind)
        } else {
            !is_id(at, victim) || self.is_bare(kind)
        }
    }
}

// The first of the directories, or the one that they lead to.
fn first_of(up: &[(ObjId, Name)], into: ObjId) -> ObjId
    ensures { result ≡ first_of up.now into }
{
    match up {
        [] => into,
        [(dir, _), ..] => *dir,
    }
}
