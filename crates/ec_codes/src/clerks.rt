// The fields that tell a clerk and its age are written and read.
ghost use Rattle.std.specs.Prelude.{◌≡◌};
ghost use Rattle.ec_codes.specs.Spelling.{Puts};
ghost use Rattle.ec_codes.specs.Readers.{Reads};
ghost use Rattle.ec_codes.specs.Clerks.{clerk_field, age_field};

use crate::fault::CodeFault;
use crate::reader::Reader;
use crate::writer::{put_byte, put_long, put_word};
use ec_base::{Age, ClerkId, NoMemory};

/// Adds a clerk's number.
#[tactic(auto, unfolding(crate::specs::Clerks::clerk_field))]
pub fn put_clerk(out: &mut Vec<u8>, clerk: ClerkId) -> Result<(), NoMemory>
    ensures { Puts clerk_field clerk out.old.items result out.new.items }
{
    put_byte(out, clerk.get())
}

/// Adds an age: boot and round.
#[tactic(auto, unfolding(crate::specs::Clerks::age_field))]
pub fn put_age(out: &mut Vec<u8>, age: Age) -> Result<(), NoMemory>
    ensures { Puts age_field age out.old.items result out.new.items }
{
    put_long(out, age.boot)?;
    put_word(out, age.round)
}

impl<'a> Reader<'a> {
    /// A clerk's number.
    #[tactic(auto, unfolding(crate::specs::Clerks::clerk_field))]
    pub fn clerk(&mut self) -> Result<ClerkId, CodeFault>
        ensures { Reads (λ x. x) clerk_field.read self.old result self.new }
    {
        let start = self.place();
        let number = self.byte()?;
        ClerkId::new(number).ok_or(CodeFault::Field(start))
    }

    /// An age: boot and round.
    #[tactic(auto, unfolding(crate::specs::Clerks::age_field))]
    pub fn age(&mut self) -> Result<Age, CodeFault>
        ensures { Reads (λ x. x) age_field.read self.old result self.new }
    {
        let boot = self.long()?;
        let round = self.word()?;
        Ok(Age { boot, round })
    }
}
