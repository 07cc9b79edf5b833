// Fields are read from the left.
ghost use Rattle.std.specs.Prelude.{◌≡◌, ◌<◌, ◌≤◌, ◌+◌, IfOk, IfErr, not, length, take, drop};
ghost use Rattle.std.specs.Int.{w16, w32, w64};
ghost use Rattle.ec_volume.specs.Entries.{same_name};
ghost use Rattle.ec_volume.specs.Update.{member};
ghost use Rattle.ec_codes.specs.Formats.{such, byte, number, missing};
ghost use Rattle.ec_codes.specs.Fields.{word, long, id, id_but, kind_field, flag, victim_but, mode_field, name};
ghost use Rattle.ec_codes.specs.Readers.{Reads};
ghost use Rattle.ec_codes.specs.declared.fault.CodeFault.TheVariants as fault;

use crate::fault::CodeFault;
use ec_base::{MAX_NAME_BYTES, Name, NameFault, ObjId};
use ec_volume::Kind;
use std::alloc::Global;

/// Bytes that are read from the left, and the place that is read next.
#[derive(Clone, Copy, Debug, Drop)]
pub struct Reader<'a> {
    alloc: Global,
    bytes: &'a [u8],
    at: usize,
}

impl<'a> Reader<'a> {
    /// Reads these bytes from a place on.
    pub fn new(alloc: Global, bytes: &'a [u8], at: usize) -> Reader<'a>
        ensures bytes { result.bytes.now ≡ bytes.now }
        ensures at { result.at ≡ at }
    {
        Reader { alloc, bytes, at }
    }

    /// Where what is read finds its memory.
    pub fn alloc(&self) -> Global {
        self.alloc
    }

    /// The place that is read next.
    pub fn place(&self) -> usize
        ensures { result ≡ self.now.at }
    {
        self.at
    }

    // The next bytes, so many.
    pub(crate) fn part(&mut self, count: usize) -> Result<&'a [u8], CodeFault>
        ensures ok { IfOk result (λ part. (self.old.at + count ≤ length self.old.bytes.now) × (part.now ≡ take count (drop self.old.at self.old.bytes.now)) × (self.new.at ≡ self.old.at + count) × (self.new.bytes.now ≡ self.old.bytes.now)) }
        ensures err { IfErr result (λ f. (length self.old.bytes.now < self.old.at + count) × (f ≡ fault.Short (missing self.old.bytes.now self.old.at))) }
    {
        let len = self.bytes.len();
        if self.at > len || len - self.at < count {
            return Err(CodeFault::Short(self.at.max(len)));
        }
        let part = &self.bytes[self.at..self.at + count];
        self.at += count;
        Ok(part)
    }

    /// Any byte.
    pub fn byte(&mut self) -> Result<u8, CodeFault>
        ensures { Reads (λ x. x) byte.read self.old result self.new }
    {
        if self.at >= self.bytes.len() {
            return Err(CodeFault::Short(self.at));
        }
        let byte = self.bytes[self.at];
        self.at += 1;
        Ok(byte)
    }

    pub(crate) fn u16(&mut self) -> Result<u16, CodeFault>
        ensures { Reads (λ x. x) (number w16).read self.old result self.new }
    {
        let part = self.part(2)?;
        Ok(u16::from_be_bytes([part[0], part[1]]))
    }

    pub(crate) fn u32(&mut self) -> Result<u32, CodeFault>
        ensures { Reads (λ x. x) (number w32).read self.old result self.new }
    {
        let part = self.part(4)?;
        Ok(u32::from_be_bytes([part[0], part[1], part[2], part[3]]))
    }

    pub(crate) fn u64(&mut self) -> Result<u64, CodeFault>
        ensures { Reads (λ x. x) (number w64).read self.old result self.new }
    {
        let part = self.part(8)?;
        Ok(u64::from_be_bytes([
            part[0], part[1], part[2], part[3], part[4], part[5], part[6], part[7],
        ]))
    }

    /// Any `u32`.
    #[tactic(auto, unfolding(crate::specs::Fields::word))]
    pub fn word(&mut self) -> Result<u32, CodeFault>
        ensures { Reads (λ x. x) word.read self.old result self.new }
    {
        self.u32()
    }

    /// Any `u64`.
    #[tactic(auto, unfolding(crate::specs::Fields::long))]
    pub fn long(&mut self) -> Result<u64, CodeFault>
        ensures { Reads (λ x. x) long.read self.old result self.new }
    {
        self.u64()
    }

    /// An id, from 1.
    #[tactic(auto, unfolding(crate::specs::Fields::id))]
    pub fn id(&mut self) -> Result<ObjId, CodeFault>
        ensures { Reads (λ x. x) id.read self.old result self.new }
    {
        let start = self.at;
        let number = self.u32()?;
        ObjId::new(number).ok_or(CodeFault::Field(start))
    }

    // An id other than these.
    pub(crate) fn id_but(&mut self, others: &[ObjId]) -> Result<ObjId, CodeFault>
        ensures { Reads (λ x. x) (id_but others.now).read self.old result self.new }
    {
        let start = self.at;
        let id = self.id()?;
        if member(id, others) {
            return Err(CodeFault::Field(start));
        }
        Ok(id)
    }

    #[tactic(auto, unfolding(crate::specs::Fields::kind_field))]
    pub(crate) fn kind(&mut self) -> Result<Kind, CodeFault>
        ensures { Reads (λ x. x) kind_field.read self.old result self.new }
    {
        let start = self.at;
        match self.byte()? {
            1 => Ok(Kind::File),
            2 => Ok(Kind::Dir),
            _ => Err(CodeFault::Field(start)),
        }
    }

    #[tactic(auto, unfolding(crate::specs::Fields::flag))]
    pub(crate) fn flag(&mut self) -> Result<bool, CodeFault>
        ensures { Reads (λ x. x) flag.read self.old result self.new }
    {
        let start = self.at;
        match self.byte()? {
            0 => Ok(false),
            1 => Ok(true),
            _ => Err(CodeFault::Field(start)),
        }
    }

    // None, or an id other than these.
    pub(crate) fn victim_but(&mut self, others: &[ObjId]) -> Result<Option<ObjId>, CodeFault>
        ensures { Reads (λ x. x) (victim_but others.now).read self.old result self.new }
    {
        let start = self.at;
        let number = self.u32()?;
        let victim = ObjId::new(number);
        match victim {
            Some(id) if others.contains(&id) => Err(CodeFault::Field(start)),
            _ => Ok(victim),
        }
    }

    // A mode, at most 0o7777.
    #[tactic(auto, unfolding(crate::specs::Fields::mode_field))]
    pub(crate) fn mode_field(&mut self) -> Result<u16, CodeFault>
        ensures { Reads (λ x. x) mode_field.read self.old result self.new }
    {
        let start = self.at;
        let mode = self.u16()?;
        if mode > 4095 {
            return Err(CodeFault::Field(start));
        }
        Ok(mode)
    }

    #[tactic(auto, unfolding(crate::specs::Fields::name))]
    pub(crate) fn name(&mut self) -> Result<Name, CodeFault>
        ensures { Reads (λ x. x) name.read self.old result self.new }
    {
        let start = self.at;
        let count = usize::from(self.byte()?);
        if count == 0 || count > MAX_NAME_BYTES {
            return Err(CodeFault::Field(start));
        }
        let part = self.part(count)?;
        match Name::read(self.alloc, part) {
            Ok(name) => Ok(name),
            Err(NameFault::NoMemory) => Err(CodeFault::NoMemory),
            Err(_) => Err(CodeFault::Field(start)),
        }
    }

    // A name other than this one.
    pub(crate) fn name_but(&mut self, other: &Name) -> Result<Name, CodeFault>
        ensures { Reads (λ x. x) (such (λ to. not (same_name other.now to)) name).read self.old result self.new }
    {
        let start = self.at;
        let name = self.name()?;
        if other.cmp(&name).is_eq() {
            return Err(CodeFault::Field(start));
        }
        Ok(name)
    }
}

pub(crate) fn member(id: ObjId, ids: &[ObjId]) -> bool
    ensures { result ≡ member id ids.now }
{
    ids.contains(&id)
}
