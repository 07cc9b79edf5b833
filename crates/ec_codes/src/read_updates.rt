// The codes of updates are read.
ghost use Rattle.std.specs.Prelude.{◌≡◌, ◌∷◌, ◌++◌, [], ℕ, true, IfOk, List, Ok};
ghost use Rattle.ec_volume.specs.Update.{listed, member, ids_of, is_sound};
ghost use Rattle.ec_volume.specs.declared.update.Update.{Update};
ghost use Rattle.ec_codes.specs.Formats.{byte, such, text, number, rows_read, variant};
ghost use Rattle.ec_codes.specs.Spelling.{Gives, Spells};
ghost use Rattle.ec_codes.specs.Fields.{id_but};
ghost use Rattle.ec_codes.specs.Readers.{Reads};
ghost use Rattle.ec_codes.specs.Updates.{entry_fields, move_fields, is_put_length, put_fields, len_fields, mode_fields, stamp_fields, owner_fields, is_order_count, order_fields, is_way_count, begins_well, step_fields, way_fields, shift_fields, is_tag, made, dropped, moved, put, resized, with_mode, stamped, ordered, shifted, owned, to_make, to_drop, to_move, to_put, to_len, to_mode, to_stamp, to_order, to_shift, to_owner, form, update_code};
ghost use Rattle.std.specs.Int.{w16};

use crate::fault::CodeFault;
use crate::reader::{Reader, member};
use ec_base::{List, Name, ObjId};
use ec_volume::{Kind, Update};
use std::alloc::Global;

impl<'a> Reader<'a> {
    // dir, obj, kind, name
    #[tactic(auto, unfolding(crate::specs::Updates::entry_fields))]
    fn entry(&mut self) -> Result<(ObjId, ObjId, Kind, Name), CodeFault>
        ensures { Reads (λ x. (x.0, (x.1, (x.2, x.3)))) entry_fields.read self.old result self.new }
    {
        let dir = self.id()?;
        let obj = self.id_but(&[dir])?;
        let kind = self.kind()?;
        let name = self.name()?;
        Ok((dir, obj, kind, name))
    }

    fn make(&mut self) -> Result<Update, CodeFault>
        ensures { Reads (λ u. u) (variant made to_make entry_fields).read self.old result self.new }
    {
        let (dir, obj, kind, name) = self.entry()?;
        Ok(Update::Make {
            dir,
            name,
            obj,
            kind,
        })
    }

    fn removal(&mut self) -> Result<Update, CodeFault>
        ensures { Reads (λ u. u) (variant dropped to_drop entry_fields).read self.old result self.new }
    {
        let (dir, obj, kind, name) = self.entry()?;
        Ok(Update::Drop {
            dir,
            name,
            obj,
            kind,
        })
    }

    #[tactic(auto, unfolding(crate::specs::Updates::move_fields))]
    fn renaming(&mut self) -> Result<Update, CodeFault>
        ensures { Reads (λ u. u) (variant moved to_move move_fields).read self.old result self.new }
    {
        let dir = self.id()?;
        let obj = self.id_but(&[dir])?;
        let kind = self.kind()?;
        let victim = self.victim_but(&[dir, obj])?;
        let from = self.name()?;
        let to = self.name_but(&from)?;
        Ok(Update::Move {
            dir,
            from,
            to,
            obj,
            kind,
            victim,
        })
    }

    #[tactic(auto, unfolding(crate::specs::Updates::put_fields))]
    fn writing(&mut self) -> Result<Update, CodeFault>
        ensures { Reads (λ u. u) (variant put to_put put_fields).read self.old result self.new }
    {
        let obj = self.id()?;
        let at = self.u32()?;
        let inside = self.flag()?;
        let bytes = self.written(at)?;
        Ok(Update::Put {
            obj,
            at,
            bytes: List::of(bytes),
            inside,
        })
    }

    // What a Put has to write at this place of its file.
    fn written(&mut self, at: u32) -> Result<Vec<u8>, CodeFault>
        ensures { Reads (λ bytes. bytes.items) (text (such (is_put_length at) (number w16))).read self.old result self.new }
    {
        let start = self.place();
        let count = usize::from(self.u16()?);
        if count < 1 || count > 4096 || at as usize + count > 65536 {
            return Err(CodeFault::Field(start));
        }
        let part = self.part(count)?;
        Ok(Vec::from_slice(self.alloc(), part)?)
    }

    #[tactic(auto, unfolding(crate::specs::Updates::len_fields))]
    fn length(&mut self) -> Result<Update, CodeFault>
        ensures { Reads (λ u. u) (variant resized to_len len_fields).read self.old result self.new }
    {
        let obj = self.id()?;
        let start = self.place();
        let len = self.u32()?;
        if len > 65536 {
            return Err(CodeFault::Field(start));
        }
        Ok(Update::Len { obj, len })
    }

    #[tactic(auto, unfolding(crate::specs::Updates::mode_fields))]
    fn mode(&mut self) -> Result<Update, CodeFault>
        ensures { Reads (λ u. u) (variant with_mode to_mode mode_fields).read self.old result self.new }
    {
        let obj = self.id()?;
        let mode = self.mode_field()?;
        Ok(Update::Mode { obj, mode })
    }

    #[tactic(auto, unfolding(crate::specs::Updates::stamp_fields))]
    fn stamp(&mut self) -> Result<Update, CodeFault>
        ensures { Reads (λ u. u) (variant stamped to_stamp stamp_fields).read self.old result self.new }
    {
        let obj = self.id()?;
        let stamp = self.u64()?;
        Ok(Update::Stamp { obj, stamp })
    }

    #[tactic(auto, unfolding(crate::specs::Updates::owner_fields))]
    fn owner(&mut self) -> Result<Update, CodeFault>
        ensures { Reads (λ u. u) (variant owned to_owner owner_fields).read self.old result self.new }
    {
        let obj = self.id()?;
        let owner = self.u32()?;
        Ok(Update::Owner { obj, owner })
    }

    #[tactic(auto, unfolding(crate::specs::Updates::order_fields))]
    fn order(&mut self) -> Result<Update, CodeFault>
        ensures { Reads (λ u. u) (variant ordered to_order order_fields).read self.old result self.new }
    {
        let start = self.place();
        let count = self.byte()?;
        if count < 1 || count > 8 {
            return Err(CodeFault::Field(start));
        }
        let objs = self.distinct_ids(count)?;
        Ok(Update::Order {
            objs: List::of(objs),
        })
    }

    fn distinct_ids(&mut self, count: u8) -> Result<Vec<ObjId>, CodeFault>
        ensures { Reads (λ ids. ids.items) (rows_read id_but count []) self.old result self.new }
    {
        let mut ids = Vec::new(self.alloc());
        for _ in 0..count {
            let id = self.id_but(&ids)?;
            ids.push(id)?;
        }
        Ok(ids)
    }

    // The directories on the way to `into`; none of them is one of these.
    #[tactic(auto, unfolding(crate::specs::Updates::way_fields))]
    fn way(
        &mut self,
        kind: Kind,
        into: ObjId,
        others: &[ObjId],
    ) -> Result<Vec<(ObjId, Name)>, CodeFault>
        ensures { Reads (λ up. up.items) (way_fields kind into others.now).read self.old result self.new }
    {
        let start = self.place();
        let count = self.byte()?;
        if !is_way_count(kind, into, count) {
            return Err(CodeFault::Field(start));
        }
        self.steps(others, count)
    }

    fn steps(&mut self, others: &[ObjId], count: u8) -> Result<Vec<(ObjId, Name)>, CodeFault>
        ensures { Reads (λ up. up.items) (rows_read (step_fields others.now) count []) self.old result self.new }
    {
        let mut up = Vec::new(self.alloc());
        for _ in 0..count {
            let step = self.step(others, &up)?;
            up.push(step)?;
        }
        Ok(up)
    }

    #[tactic(auto, unfolding(crate::specs::Updates::step_fields))]
    fn step(&mut self, others: &[ObjId], up: &[(ObjId, Name)]) -> Result<(ObjId, Name), CodeFault>
        ensures { Reads (λ x. x) (step_fields others.now up.now).read self.old result self.new }
    {
        let dir = self.directory(others, up)?;
        let name = self.name()?;
        Ok((dir, name))
    }

    // A directory that is none of these; the first one is the root.
    fn directory(&mut self, others: &[ObjId], up: &[(ObjId, Name)]) -> Result<ObjId, CodeFault>
        ensures { Reads (λ x. x) (such (begins_well up.now) (id_but (others.now ++ ids_of up.now))).read self.old result self.new }
    {
        let start = self.place();
        let dir = self.id()?;
        if is_among(dir, others, up) || !begins_well(up, dir) {
            return Err(CodeFault::Field(start));
        }
        Ok(dir)
    }

    #[tactic(auto, unfolding(crate::specs::Updates::shift_fields))]
    fn shift(&mut self) -> Result<Update, CodeFault>
        ensures { Reads (λ u. u) (variant shifted to_shift shift_fields).read self.old result self.new }
    {
        let dir = self.id()?;
        let into = self.id_but(&[dir])?;
        let obj = self.id_but(&[dir, into])?;
        let kind = self.kind()?;
        let victim = self.victim_but(&[dir, into, obj])?;
        let from = self.name()?;
        let to = self.name()?;
        let up = List::of(self.way_past(kind, into, obj, victim)?);
        Ok(Update::Shift {
            dir,
            from,
            into,
            to,
            obj,
            kind,
            victim,
            up,
        })
    }

    // The way of a move; none of its directories is what moves, what goes, or the last one.
    fn way_past(
        &mut self,
        kind: Kind,
        into: ObjId,
        obj: ObjId,
        victim: Option<ObjId>,
    ) -> Result<Vec<(ObjId, Name)>, CodeFault>
        ensures { Reads (λ up. up.items) (way_fields kind into (into ∷ obj ∷ listed victim)).read self.old result self.new }
    {
        match victim {
            Some(id) => self.way(kind, into, &[into, obj, id]),
            None => self.way(kind, into, &[into, obj]),
        }
    }

    // The form of an update that the tag says.
    #[tactic(auto, unfolding(crate::specs::Updates::form))]
    fn form(&mut self, tag: u8) -> Result<Update, CodeFault>
        ensures { Reads (λ u. u) (form tag).read self.old result self.new }
    {
        match tag {
            1 => self.make(),
            2 => self.removal(),
            3 => self.renaming(),
            4 => self.writing(),
            5 => self.length(),
            6 => self.mode(),
            7 => self.stamp(),
            8 => self.order(),
            9 => self.shift(),
            10 => self.owner(),
            _ => Err(CodeFault::Field(self.place())),
        }
    }

    /// An update.
    #[tactic(auto, unfolding(crate::specs::Updates::update_code))]
    pub fn update(&mut self) -> Result<Update, CodeFault>
        ensures { Reads (λ u. u) update_code.read self.old result self.new }
    {
        let start = self.place();
        let tag = self.byte()?;
        if tag < 1 || tag > 10 {
            return Err(CodeFault::Field(start));
        }
        self.form(tag)
    }
}

// Whether so many directories may lead to `into`.
fn is_way_count(kind: Kind, into: ObjId, count: u8) -> bool
    ensures { result ≡ is_way_count kind into count }
{
    match kind {
        Kind::File => count == 0,
        Kind::Dir if into == ObjId::root() => count == 0,
        Kind::Dir => 1 <= count && count <= 15,
    }
}

fn begins_well(up: &[(ObjId, Name)], dir: ObjId) -> bool
    ensures { result ≡ begins_well up.now dir }
{
    !up.is_empty() || dir == ObjId::root()
}

fn is_among(id: ObjId, others: &[ObjId], up: &[(ObjId, Name)]) -> bool
    ensures { result ≡ member id (others.now ++ ids_of up.now) }
{
    member(id, others) || leads(id, up)
}

// Whether the id is that of one of the directories.
fn leads(id: ObjId, up: &[(ObjId, Name)]) -> bool
    ensures { result ≡ member id (ids_of up.now) }
{
    match up {
        [] => false,
        [(dir, _), rest @ ..] => id == *dir || leads(id, rest),
    }
}

/// Reads the update that the bytes spell at a place, and the place behind it.
pub fn get_update(alloc: Global, bytes: &[u8], at: usize) -> Result<(Update, usize), CodeFault>
    // What is read is spelled so.
    ensures found { IfOk result (λ x. Spells update_code bytes.now at x.0 x.1) }
    ensures sound { IfOk result (λ x. is_sound x.0 ≡ true) }
    // What is spelled so is read, unless memory runs out.
    ensures only { (u : Update) (next : ℕ) → Spells update_code bytes.now at u next → Gives (λ x. x) result (Ok (u, next)) }
    // Which fault it is.
    ensures exact { Gives (λ x. x) result (update_code.read bytes.now at) }
{
    read_update(alloc, bytes, at)
}

fn read_update(alloc: Global, bytes: &[u8], at: usize) -> Result<(Update, usize), CodeFault>
    ensures { Gives (λ x. x) result (update_code.read bytes.now at) }
{
    let mut reader = Reader::new(alloc, bytes, at);
    let update = reader.update()?;
    Ok((update, reader.place()))
}
