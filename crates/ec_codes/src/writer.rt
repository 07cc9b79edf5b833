// Fields are written one behind the other. What was there stays in front, after want of memory too.
ghost use Rattle.std.specs.Prelude.{◌≡◌, ◌++◌, ◌≤◌, ◌<◌, ◌^◌, nat_le, List, ℕ, length, true, false};
ghost use Rattle.std.specs.Int.{w16, w32, w64};
ghost use Rattle.ec_codes.specs.Formats.{byte, number, such, standing, text};
ghost use Rattle.ec_codes.specs.Spelling.{Puts};
ghost use Rattle.ec_codes.specs.Fields.{word, long, id, kind_field, flag, is_from_one, id_or_none, mode_field, name};
ghost use Rattle.ec_base.specs.Options.{or_zero};

use ec_base::{Name, NoMemory, ObjId};
use ec_volume::Kind;

/// Adds a byte.
pub fn put_byte(out: &mut Vec<u8>, value: u8) -> Result<(), NoMemory>
    ensures { Puts byte value out.old.items result out.new.items }
{
    out.push(value)?;
    Ok(())
}

pub(crate) fn put_u16(out: &mut Vec<u8>, value: u16) -> Result<(), NoMemory>
    ensures { Puts (number w16) value out.old.items result out.new.items }
{
    out.extend_from_slice(&value.to_be_bytes())?;
    Ok(())
}

pub(crate) fn put_u32(out: &mut Vec<u8>, value: u32) -> Result<(), NoMemory>
    ensures { Puts (number w32) value out.old.items result out.new.items }
{
    out.extend_from_slice(&value.to_be_bytes())?;
    Ok(())
}

pub(crate) fn put_u64(out: &mut Vec<u8>, value: u64) -> Result<(), NoMemory>
    ensures { Puts (number w64) value out.old.items result out.new.items }
{
    out.extend_from_slice(&value.to_be_bytes())?;
    Ok(())
}

/// Adds any `u32`.
#[tactic(auto, unfolding(crate::specs::Fields::word))]
pub fn put_word(out: &mut Vec<u8>, value: u32) -> Result<(), NoMemory>
    ensures { Puts word value out.old.items result out.new.items }
{
    put_u32(out, value)
}

/// Adds any `u64`.
#[tactic(auto, unfolding(crate::specs::Fields::long))]
pub fn put_long(out: &mut Vec<u8>, value: u64) -> Result<(), NoMemory>
    ensures { Puts long value out.old.items result out.new.items }
{
    put_u64(out, value)
}

/// Adds an id.
#[tactic(auto, unfolding(crate::specs::Fields::id))]
pub fn put_id(out: &mut Vec<u8>, object: ObjId) -> Result<(), NoMemory>
    ensures { Puts id object out.old.items result out.new.items }
{
    put_u32(out, object.get())
}

#[tactic(auto, unfolding(crate::specs::Fields::kind_field))]
pub(crate) fn put_kind(out: &mut Vec<u8>, kind: Kind) -> Result<(), NoMemory>
    ensures { Puts kind_field kind out.old.items result out.new.items }
{
    match kind {
        Kind::File => put_byte(out, 1),
        Kind::Dir => put_byte(out, 2),
    }
}

#[tactic(auto, unfolding(crate::specs::Fields::flag))]
pub(crate) fn put_flag(out: &mut Vec<u8>, set: bool) -> Result<(), NoMemory>
    ensures { Puts flag set out.old.items result out.new.items }
{
    put_byte(out, u8::from(set))
}

pub(crate) fn put_victim(out: &mut Vec<u8>, victim: Option<ObjId>) -> Result<(), NoMemory>
    ensures { Puts (standing or_zero is_from_one id_or_none (number w32)) victim out.old.items result out.new.items }
{
    match victim {
        Some(object) => put_u32(out, object.get()),
        None => put_u32(out, 0),
    }
}

#[tactic(auto, unfolding(crate::specs::Fields::mode_field))]
pub(crate) fn put_mode_field(out: &mut Vec<u8>, mode: u16) -> Result<(), NoMemory>
    requires { nat_le mode 4095 ≡ true }
    ensures { Puts mode_field mode out.old.items result out.new.items }
{
    put_u16(out, mode)
}

#[tactic(auto, unfolding(crate::specs::Fields::name))]
pub(crate) fn put_name(out: &mut Vec<u8>, entry: &Name) -> Result<(), NoMemory>
    ensures { Puts name entry.now out.old.items result out.new.items }
{
    let bytes = entry.bytes();
    put_byte(out, bytes.len() as u8)?;
    out.extend_from_slice(bytes)?;
    Ok(())
}
