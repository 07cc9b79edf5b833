// The codes of images are read.
ghost use Rattle.std.specs.Prelude.{◌≡◌, ◌++◌, ◌∷◌, [], T, ℕ, true, not, IfOk, List, Ok};
ghost use Rattle.std.specs.FinMap.{is_sorted};
ghost use Rattle.ec_volume.specs.Entries.{by_bytes};
ghost use Rattle.ec_volume.specs.Update.{member};
ghost use Rattle.ec_volume.specs.declared.image.Image.{Image};
ghost use Rattle.ec_codes.specs.Formats.{such, rows_read, variant, empty};
ghost use Rattle.ec_codes.specs.Spelling.{Gives, Spells};
ghost use Rattle.ec_codes.specs.Fields.{id_but, name};
ghost use Rattle.ec_codes.specs.Images.{content, is_after, ids_under, entry_after, entries_field, file_fields, dir_fields, old_file_fields, old_dir_fields, gone, filed, listing, old_filed, old_listing, to_gone, to_file, to_dir, to_old_file, to_old_dir, image_form, old_image_form, image_code, old_image_code};
ghost use Rattle.ec_codes.specs.SoundImages.{is_sound_image};
ghost use Rattle.ec_codes.specs.Readers.{Reads};

use crate::fault::CodeFault;
use crate::limits::{MAX_ENTRIES, MAX_FILE_BYTES};
use crate::reader::Reader;
use ec_base::{List, Name, ObjId};
use ec_volume::{Entries, Image};
use std::alloc::Global;

impl<'a> Reader<'a> {
    #[tactic(auto, unfolding(crate::specs::Images::content))]
    fn content(&mut self) -> Result<Vec<u8>, CodeFault>
        ensures { Reads (λ bytes. bytes.items) content.read self.old result self.new }
    {
        let start = self.place();
        let count = self.u32()? as usize;
        if count > MAX_FILE_BYTES {
            return Err(CodeFault::Field(start));
        }
        let part = self.part(count)?;
        Ok(Vec::from_slice(self.alloc(), part)?)
    }

    #[tactic(auto, unfolding(crate::specs::Images::entries_field))]
    fn entries(&mut self) -> Result<Vec<(Name, ObjId)>, CodeFault>
        ensures read { Reads (λ entries. entries.items) entries_field.read self.old result self.new }
        ensures sorted { IfOk result (λ entries. T (is_sorted by_bytes entries.items)) }
    {
        let start = self.place();
        let count = self.byte()?;
        if count > MAX_ENTRIES {
            return Err(CodeFault::Field(start));
        }
        self.rows(count)
    }

    fn rows(&mut self, count: u8) -> Result<Vec<(Name, ObjId)>, CodeFault>
        ensures read { Reads (λ entries. entries.items) (rows_read entry_after count []) self.old result self.new }
        ensures sorted { IfOk result (λ entries. T (is_sorted by_bytes entries.items)) }
    {
        let mut entries = Vec::new(self.alloc());
        for _ in 0..count {
            let entry = self.entry_after(&entries)?;
            entries.push(entry)?;
        }
        Ok(entries)
    }

    #[tactic(auto, unfolding(crate::specs::Images::entry_after))]
    fn entry_after(&mut self, before: &[(Name, ObjId)]) -> Result<(Name, ObjId), CodeFault>
        ensures read { Reads (λ x. x) (entry_after before.now).read self.old result self.new }
        ensures after { IfOk result (λ x. T (is_after before.now x.0)) }
    {
        let name = self.name_after(before)?;
        let object = self.id_under_none(before)?;
        Ok((name, object))
    }

    fn name_after(&mut self, before: &[(Name, ObjId)]) -> Result<Name, CodeFault>
        ensures read { Reads (λ x. x) (such (is_after before.now) name).read self.old result self.new }
        ensures after { IfOk result (λ n. T (is_after before.now n)) }
    {
        let start = self.place();
        let name = self.name()?;
        if !is_after(before, &name) {
            return Err(CodeFault::Field(start));
        }
        Ok(name)
    }

    fn id_under_none(&mut self, before: &[(Name, ObjId)]) -> Result<ObjId, CodeFault>
        ensures { Reads (λ x. x) (id_but (ids_under before.now)).read self.old result self.new }
    {
        let start = self.place();
        let object = self.id()?;
        if is_under(object, before) {
            return Err(CodeFault::Field(start));
        }
        Ok(object)
    }

    #[tactic(auto, unfolding(crate::specs::Images::file_fields))]
    fn file(&mut self) -> Result<Image, CodeFault>
        ensures { Reads (λ i. i) (variant filed to_file file_fields).read self.old result self.new }
    {
        let mode = self.mode_field()?;
        let stamp = self.u64()?;
        let owner = self.u32()?;
        let bytes = List::of(self.content()?);
        Ok(Image::File {
            mode,
            stamp,
            owner,
            bytes,
        })
    }

    #[tactic(auto, unfolding(crate::specs::Images::dir_fields))]
    fn dir(&mut self) -> Result<Image, CodeFault>
        ensures { Reads (λ i. i) (variant listing to_dir dir_fields).read self.old result self.new }
    {
        let mode = self.mode_field()?;
        let stamp = self.u64()?;
        let owner = self.u32()?;
        let entries = self.listed()?;
        Ok(Image::Dir {
            mode,
            stamp,
            owner,
            entries,
        })
    }

    fn listed(&mut self) -> Result<Entries, CodeFault>
        ensures { Reads (λ entries. entries) entries_field.read self.old result self.new }
    {
        let entries = self.entries()?;
        match Entries::of(entries) {
            Ok(entries) => Ok(entries),
            Err(_) => Err(CodeFault::NoMemory),
        }
    }

    #[tactic(auto, unfolding(crate::specs::Images::old_file_fields))]
    fn old_file(&mut self) -> Result<Image, CodeFault>
        ensures { Reads (λ i. i) (variant old_filed to_old_file old_file_fields).read self.old result self.new }
    {
        let mode = self.mode_field()?;
        let stamp = self.u64()?;
        let bytes = List::of(self.content()?);
        Ok(Image::File {
            mode,
            stamp,
            owner: 0,
            bytes,
        })
    }

    #[tactic(auto, unfolding(crate::specs::Images::old_dir_fields))]
    fn old_dir(&mut self) -> Result<Image, CodeFault>
        ensures { Reads (λ i. i) (variant old_listing to_old_dir old_dir_fields).read self.old result self.new }
    {
        let mode = self.mode_field()?;
        let stamp = self.u64()?;
        let entries = self.listed()?;
        Ok(Image::Dir {
            mode,
            stamp,
            owner: 0,
            entries,
        })
    }

    /// An image.
    #[tactic(auto, unfolding(crate::specs::Images::image_code, crate::specs::Images::image_form))]
    pub fn image(&mut self) -> Result<Image, CodeFault>
        ensures { Reads (λ i. i) image_code.read self.old result self.new }
    {
        let start = self.place();
        match self.byte()? {
            0 => Ok(Image::Gone),
            1 => self.file(),
            2 => self.dir(),
            _ => Err(CodeFault::Field(start)),
        }
    }

    #[tactic(auto, unfolding(crate::specs::Images::old_image_code, crate::specs::Images::old_image_form))]
    fn old_image(&mut self) -> Result<Image, CodeFault>
        ensures { Reads (λ i. i) old_image_code.read self.old result self.new }
    {
        let start = self.place();
        match self.byte()? {
            0 => Ok(Image::Gone),
            1 => self.old_file(),
            2 => self.old_dir(),
            _ => Err(CodeFault::Field(start)),
        }
    }
}

// Whether the name is above the last one of the entries.
#[tactic(auto, using(crate::specs::EntryLaws::last_is))]
fn is_after(before: &[(Name, ObjId)], name: &Name) -> bool
    ensures { result ≡ is_after before.now name.now }
{
    match before.last() {
        Some((last, _)) => last.cmp(name).is_lt(),
        None => true,
    }
}

// Whether the id stands in one of the entries.
fn is_under(id: ObjId, before: &[(Name, ObjId)]) -> bool
    ensures { result ≡ member id (ids_under before.now) }
{
    match before {
        [] => false,
        [(_, other), rest @ ..] => id == *other || is_under(id, rest),
    }
}

/// Reads the image that the bytes spell at a place, and the place behind it.
pub fn get_image(alloc: Global, bytes: &[u8], at: usize) -> Result<(Image, usize), CodeFault>
    // What is read is spelled so.
    ensures found { IfOk result (λ x. Spells image_code bytes.now at x.0 x.1) }
    ensures sound { IfOk result (λ x. is_sound_image x.0 ≡ true) }
    // What is spelled so is read, unless memory runs out.
    ensures only { (i : Image) (next : ℕ) → Spells image_code bytes.now at i next → Gives (λ x. x) result (Ok (i, next)) }
    // Which fault it is.
    ensures exact { Gives (λ x. x) result (image_code.read bytes.now at) }
{
    read_image(alloc, bytes, at)
}

fn read_image(alloc: Global, bytes: &[u8], at: usize) -> Result<(Image, usize), CodeFault>
    ensures { Gives (λ x. x) result (image_code.read bytes.now at) }
{
    let mut reader = Reader::new(alloc, bytes, at);
    let image = reader.image()?;
    Ok((image, reader.place()))
}

/// Reads an image of version 1, which has no owner: it is 0 then.
pub fn get_image_v1(alloc: Global, bytes: &[u8], at: usize) -> Result<(Image, usize), CodeFault>
    // What is read is spelled so.
    ensures found { IfOk result (λ x. Spells old_image_code bytes.now at x.0 x.1) }
    ensures sound { IfOk result (λ x. is_sound_image x.0 ≡ true) }
    // What is spelled so is read, unless memory runs out.
    ensures only { (i : Image) (next : ℕ) → Spells old_image_code bytes.now at i next → Gives (λ x. x) result (Ok (i, next)) }
    // Which fault it is.
    ensures exact { Gives (λ x. x) result (old_image_code.read bytes.now at) }
{
    read_old_image(alloc, bytes, at)
}

fn read_old_image(alloc: Global, bytes: &[u8], at: usize) -> Result<(Image, usize), CodeFault>
    ensures { Gives (λ x. x) result (old_image_code.read bytes.now at) }
{
    let mut reader = Reader::new(alloc, bytes, at);
    let image = reader.old_image()?;
    Ok((image, reader.place()))
}
