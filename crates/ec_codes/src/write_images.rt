// The codes of images are written.
ghost use Rattle.std.specs.Prelude.{◌≡◌, ◌++◌, ◌&&◌, true, T, nat_le, length, take, List, ℕ, OnOk};
ghost use Rattle.std.specs.List.{flat_map, list_all};
ghost use Rattle.std.specs.FinMap.{is_sorted};
ghost use Rattle.ec_volume.specs.Entries.{by_bytes};
ghost use Rattle.ec_volume.specs.Update.{distinct};
ghost use Rattle.ec_codes.specs.Spelling.{KeepsFront, Puts};
ghost use Rattle.ec_codes.specs.EntryLaws.{is_entry};
ghost use Rattle.ec_codes.specs.Images.{max_file_bytes, max_entries, ids_under, content, entry_spell, entries_field, file_fields, dir_fields, image_code};
ghost use Rattle.ec_codes.specs.SoundImages.{is_sound_image};

use crate::writer::{put_byte, put_id, put_mode_field, put_name, put_u32, put_u64};
use ec_base::{Name, NoMemory, ObjId};
use ec_volume::{Entries, Image};

/// Adds the code of an image at the end of the bytes. After want of memory too, what was there
/// stands in front.
#[tactic(auto, unfolding(crate::specs::Images::image_code, crate::specs::Images::image_form))]
pub fn put_image(image: &Image, out: &mut Vec<u8>) -> Result<(), NoMemory>
    requires { is_sound_image image.now ≡ true }
    ensures { Puts image_code image.now out.old.items result out.new.items }
{
    match image {
        Image::Gone => put_byte(out, 0),
        Image::File {
            mode,
            stamp,
            owner,
            bytes,
        } => {
            put_byte(out, 1)?;
            put_file(out, *mode, *stamp, *owner, bytes.as_slice())
        }
        Image::Dir {
            mode,
            stamp,
            owner,
            entries,
        } => {
            put_byte(out, 2)?;
            put_dir(out, *mode, *stamp, *owner, entries)
        }
    }
}

#[tactic(auto, unfolding(crate::specs::Images::file_fields))]
fn put_file(
    out: &mut Vec<u8>,
    mode: u16,
    stamp: u64,
    owner: u32,
    bytes: &[u8],
) -> Result<(), NoMemory>
    requires mode { nat_le mode 4095 ≡ true }
    requires most { nat_le (length bytes.now) max_file_bytes ≡ true }
    ensures { Puts file_fields (mode, (stamp, (owner, bytes.now))) out.old.items result out.new.items }
{
    put_mode_field(out, mode)?;
    put_u64(out, stamp)?;
    put_u32(out, owner)?;
    put_content(out, bytes)
}

#[tactic(auto, unfolding(crate::specs::Images::content))]
fn put_content(out: &mut Vec<u8>, bytes: &[u8]) -> Result<(), NoMemory>
    requires { nat_le (length bytes.now) max_file_bytes ≡ true }
    ensures { Puts content bytes.now out.old.items result out.new.items }
{
    put_u32(out, bytes.len() as u32)?;
    out.extend_from_slice(bytes)?;
    Ok(())
}

#[tactic(auto, unfolding(crate::specs::Images::dir_fields))]
fn put_dir(
    out: &mut Vec<u8>,
    mode: u16,
    stamp: u64,
    owner: u32,
    entries: &Entries,
) -> Result<(), NoMemory>
    requires mode { nat_le mode 4095 ≡ true }
    requires most { nat_le (length entries.now) max_entries ≡ true }
    requires once { distinct (ids_under entries.now) ≡ true }
    ensures { Puts dir_fields (mode, (stamp, (owner, entries.now))) out.old.items result out.new.items }
{
    put_mode_field(out, mode)?;
    put_u64(out, stamp)?;
    put_u32(out, owner)?;
    put_entries(out, entries)
}

fn put_entries(out: &mut Vec<u8>, entries: &Entries) -> Result<(), NoMemory>
    requires most { nat_le (length entries.now) max_entries ≡ true }
    requires once { distinct (ids_under entries.now) ≡ true }
    ensures { Puts entries_field entries.now out.old.items result out.new.items }
{
    let count = entries.len();
    put_byte(out, count as u8)?;
    put_rows(out, entries)?;
    Ok(())
}

fn put_rows(out: &mut Vec<u8>, entries: &Entries) -> Result<(), NoMemory>
    ensures spelled { OnOk result (out.new.items ≡ out.old.items ++ flat_map entry_spell entries.now) }
    ensures fit { OnOk result (list_all is_entry entries.now ≡ true) }
    ensures kept { KeepsFront out.old.items out.new.items }
{
    for place in 0..entries.len() {
        if let Some(row) = entries.at(place) {
            put_row(out, row.0, row.1)?;
        }
    }
    Ok(())
}

#[tactic(auto, unfolding(crate::specs::Images::entry_spell))]
fn put_row(out: &mut Vec<u8>, name: &Name, object: ObjId) -> Result<(), NoMemory>
    ensures spelled { OnOk result (out.new.items ≡ out.old.items ++ entry_spell (name.now, object)) }
    ensures fit { OnOk result (is_entry (name.now, object) ≡ true) }
    ensures kept { KeepsFront out.old.items out.new.items }
{
    put_name(out, name)?;
    put_id(out, object)
}
