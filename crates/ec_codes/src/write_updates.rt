// The codes of updates are written.
ghost use Rattle.std.specs.Prelude.{◌≡◌, ◌++◌, ◌&&◌, ◌∷◌, [], ℕ, true, false, List, OnOk, MatchResult, nat_le, length};
ghost use Rattle.std.specs.Int.{w16, w32, to_be_bytes};
ghost use Rattle.std.specs.List.{flat_map, list_all};
ghost use Rattle.ec_volume.specs.Entries.{same_name};
ghost use Rattle.ec_volume.specs.Update.{listed, distinct, ids_of, is_way, is_sound};
ghost use Rattle.ec_codes.specs.Formats.{number, rows_fit};
ghost use Rattle.ec_codes.specs.Spelling.{KeepsFront, Puts, Writes};
ghost use Rattle.ec_codes.specs.Fields.{id, id_but, flag_number};
ghost use Rattle.ec_codes.specs.Updates.{entry_fields, move_fields, is_put_length, put_fields, len_fields, mode_fields, stamp_fields, owner_fields, order_fields, step_spell, way_fields, shift_fields, update_code};
ghost use Rattle.ec_codes.specs.SoundLaws.{is_step, IsWay};

use crate::writer::{
    put_byte, put_flag, put_id, put_kind, put_mode_field, put_name, put_u16, put_u32, put_u64,
    put_victim,
};
use ec_base::{Name, NoMemory, ObjId};
use ec_volume::{Kind, Update};

/// Adds the code of a sound update at the end of the bytes. After want of memory too, what was
/// there stands in front.
#[tactic(auto, unfolding(crate::specs::Updates::update_code, crate::specs::Updates::form))]
pub fn put_update(update: &Update, out: &mut Vec<u8>) -> Result<(), NoMemory>
    requires { is_sound update.now ≡ true }
    ensures { Puts update_code update.now out.old.items result out.new.items }
{
    match update {
        Update::Make {
            dir,
            name,
            obj,
            kind,
        } => {
            put_byte(out, 1)?;
            put_entry(out, *dir, *obj, *kind, name)
        }
        Update::Drop {
            dir,
            name,
            obj,
            kind,
        } => {
            put_byte(out, 2)?;
            put_entry(out, *dir, *obj, *kind, name)
        }
        Update::Move {
            dir,
            from,
            to,
            obj,
            kind,
            victim,
        } => {
            put_byte(out, 3)?;
            let moved = Moved {
                from,
                to,
                obj: *obj,
                kind: *kind,
                victim: *victim,
            };
            put_move(out, *dir, &moved)
        }
        Update::Put {
            obj,
            at,
            bytes,
            inside,
        } => {
            put_byte(out, 4)?;
            put_written(out, *obj, *at, bytes.as_slice(), *inside)
        }
        Update::Len { obj, len } => {
            put_byte(out, 5)?;
            put_len(out, *obj, *len)
        }
        Update::Mode { obj, mode } => {
            put_byte(out, 6)?;
            put_mode(out, *obj, *mode)
        }
        Update::Stamp { obj, stamp } => {
            put_byte(out, 7)?;
            put_stamp(out, *obj, *stamp)
        }
        Update::Order { objs } => {
            put_byte(out, 8)?;
            put_order(out, objs.as_slice())
        }
        Update::Shift {
            dir,
            from,
            into,
            to,
            obj,
            kind,
            victim,
            up,
        } => {
            put_byte(out, 9)?;
            let moved = Moved {
                from,
                to,
                obj: *obj,
                kind: *kind,
                victim: *victim,
            };
            put_shift(out, *dir, *into, &moved, up.as_slice())
        }
        Update::Owner { obj, owner } => {
            put_byte(out, 10)?;
            put_owner(out, *obj, *owner)
        }
    }
}

#[tactic(auto, unfolding(crate::specs::Updates::entry_fields))]
fn put_entry(
    out: &mut Vec<u8>,
    dir: ObjId,
    obj: ObjId,
    kind: Kind,
    name: &Name,
) -> Result<(), NoMemory>
    requires { distinct (dir ∷ obj ∷ []) ≡ true }
    ensures { Puts entry_fields (dir, (obj, (kind, name.now))) out.old.items result out.new.items }
{
    put_id(out, dir)?;
    put_id(out, obj)?;
    put_kind(out, kind)?;
    put_name(out, name)
}

// An object that gets another name, and the one that goes for it, if any.
#[derive(Clone, Copy, Drop)]
struct Moved<'a> {
    from: &'a Name,
    to: &'a Name,
    obj: ObjId,
    kind: Kind,
    victim: Option<ObjId>,
}

#[tactic(auto, unfolding(crate::specs::Updates::move_fields))]
fn put_move(out: &mut Vec<u8>, dir: ObjId, moved: &Moved<'_>) -> Result<(), NoMemory>
    requires apart { distinct (dir ∷ moved.now.obj ∷ listed moved.now.victim) ≡ true }
    requires names { same_name moved.now.from.now moved.now.to.now ≡ false }
    ensures { Puts move_fields (dir, (moved.now.obj, (moved.now.kind, (moved.now.victim, (moved.now.from.now, moved.now.to.now))))) out.old.items result out.new.items }
{
    put_id(out, dir)?;
    put_id(out, moved.obj)?;
    put_kind(out, moved.kind)?;
    put_victim(out, moved.victim)?;
    put_name(out, moved.from)?;
    put_name(out, moved.to)
}

fn put_written(
    out: &mut Vec<u8>,
    obj: ObjId,
    at: u32,
    bytes: &[u8],
    inside: bool,
) -> Result<(), NoMemory>
    requires { is_put_length at (length bytes.now) ≡ true }
    ensures { Puts put_fields (obj, (at, (inside, bytes.now))) out.old.items result out.new.items }
{
    out.extend_from_slice(&put_head(obj, at, inside, bytes.len() as u16))?;
    out.extend_from_slice(bytes)?;
    Ok(())
}

// The fields in front of the bytes.
#[tactic(auto, unfolding(crate::specs::Fields::id))]
fn put_head(obj: ObjId, at: u32, inside: bool, len: u16) -> [u8; 11]
    ensures spelled { result ≡ to_be_bytes w32 obj ++ to_be_bytes w32 at ++ flag_number inside ∷ to_be_bytes w16 len }
    ensures obj { id.fits obj ≡ true }
    ensures at { (number w32).fits at ≡ true }
    ensures len { (number w16).fits len ≡ true }
{
    let [a, b, c, d] = obj.get().to_be_bytes();
    let [e, f, g, h] = at.to_be_bytes();
    let [i, j] = len.to_be_bytes();
    [a, b, c, d, e, f, g, h, u8::from(inside), i, j]
}

#[tactic(auto, unfolding(crate::specs::Updates::len_fields))]
fn put_len(out: &mut Vec<u8>, obj: ObjId, len: u32) -> Result<(), NoMemory>
    requires { nat_le len 65536 ≡ true }
    ensures { Puts len_fields (obj, len) out.old.items result out.new.items }
{
    put_id(out, obj)?;
    put_u32(out, len)
}

#[tactic(auto, unfolding(crate::specs::Updates::mode_fields))]
fn put_mode(out: &mut Vec<u8>, obj: ObjId, mode: u16) -> Result<(), NoMemory>
    requires { nat_le mode 4095 ≡ true }
    ensures { Puts mode_fields (obj, mode) out.old.items result out.new.items }
{
    put_id(out, obj)?;
    put_mode_field(out, mode)
}

#[tactic(auto, unfolding(crate::specs::Updates::stamp_fields))]
fn put_stamp(out: &mut Vec<u8>, obj: ObjId, stamp: u64) -> Result<(), NoMemory>
    ensures { Puts stamp_fields (obj, stamp) out.old.items result out.new.items }
{
    put_id(out, obj)?;
    put_u64(out, stamp)
}

#[tactic(auto, unfolding(crate::specs::Updates::owner_fields))]
fn put_owner(out: &mut Vec<u8>, obj: ObjId, owner: u32) -> Result<(), NoMemory>
    ensures { Puts owner_fields (obj, owner) out.old.items result out.new.items }
{
    put_id(out, obj)?;
    put_u32(out, owner)
}

#[tactic(auto, unfolding(crate::specs::Updates::order_fields))]
fn put_order(out: &mut Vec<u8>, objs: &[ObjId]) -> Result<(), NoMemory>
    requires { (distinct objs.now && (nat_le 1 (length objs.now) && nat_le (length objs.now) 8)) ≡ true }
    ensures { Puts order_fields objs.now out.old.items result out.new.items }
{
    put_byte(out, objs.len() as u8)?;
    put_distinct(out, objs)
}

fn put_distinct(out: &mut Vec<u8>, ids: &[ObjId]) -> Result<(), NoMemory>
    requires { distinct ids.now ≡ true }
    ensures spelled { OnOk result (out.new.items ≡ out.old.items ++ flat_map id.spell ids.now) }
    ensures fit { OnOk result (rows_fit id_but [] ids.now ≡ true) }
    ensures kept { KeepsFront out.old.items out.new.items }
{
    put_ids(out, ids)
}

fn put_ids(out: &mut Vec<u8>, ids: &[ObjId]) -> Result<(), NoMemory>
    ensures spelled { OnOk result (out.new.items ≡ out.old.items ++ flat_map id.spell ids.now) }
    ensures fit { OnOk result (list_all id.fits ids.now ≡ true) }
    ensures kept { KeepsFront out.old.items out.new.items }
{
    for object in ids {
        put_id(out, *object)?;
    }
    Ok(())
}

#[tactic(auto, unfolding(crate::specs::Updates::shift_fields))]
fn put_shift(
    out: &mut Vec<u8>,
    dir: ObjId,
    into: ObjId,
    moved: &Moved<'_>,
    up: &[(ObjId, Name)],
) -> Result<(), NoMemory>
    requires apart { distinct (dir ∷ into ∷ moved.now.obj ∷ listed moved.now.victim) ≡ true }
    requires way { IsWay moved.now.kind into (into ∷ moved.now.obj ∷ listed moved.now.victim) up.now }
    ensures { Puts shift_fields (dir, (into, (moved.now.obj, (moved.now.kind, (moved.now.victim, (moved.now.from.now, (moved.now.to.now, up.now))))))) out.old.items result out.new.items }
{
    put_id(out, dir)?;
    put_id(out, into)?;
    put_id(out, moved.obj)?;
    put_kind(out, moved.kind)?;
    put_victim(out, moved.victim)?;
    put_name(out, moved.from)?;
    put_name(out, moved.to)?;
    put_way(out, moved.kind, into, up)
}

fn put_way(out: &mut Vec<u8>, kind: Kind, into: ObjId, up: &[(ObjId, Name)]) -> Result<(), NoMemory>
    requires { is_way kind into up.now ≡ true }
    ensures { MatchResult result (λ _. (others : List ℕ) → IsWay kind into others up.now → Writes (way_fields kind into others) up.now out.old.items out.new.items) (λ _. KeepsFront out.old.items out.new.items) }
{
    put_byte(out, up.len() as u8)?;
    put_steps(out, up)?;
    Ok(())
}

fn put_steps(out: &mut Vec<u8>, up: &[(ObjId, Name)]) -> Result<(), NoMemory>
    ensures spelled { OnOk result (out.new.items ≡ out.old.items ++ flat_map step_spell up.now) }
    ensures fit { OnOk result (list_all is_step up.now ≡ true) }
    ensures kept { KeepsFront out.old.items out.new.items }
{
    for step in up {
        put_step(out, step)?;
    }
    Ok(())
}

#[tactic(auto, unfolding(crate::specs::Updates::step_spell))]
fn put_step(out: &mut Vec<u8>, step: &(ObjId, Name)) -> Result<(), NoMemory>
    ensures spelled { OnOk result (out.new.items ≡ out.old.items ++ step_spell step.now) }
    ensures fit { OnOk result (is_step step.now ≡ true) }
    ensures kept { KeepsFront out.old.items out.new.items }
{
    put_id(out, step.0)?;
    put_name(out, &step.1)
}
