// The text of what a world with leases shows.
ghost use Rattle.std.specs.Prelude.{◌≡◌, ◌++◌, IfOk};
ghost use Rattle.ec_lease_machine.specs.OfWords.Text.{held_text, lease_text};

use crate::world::LeaseShown;
use ec_base::{ClerkId, NoMemory};
use ec_words::text::print;
use itoa::Buffer;
use std::alloc::Global;

/// The text of a line that a world with leases shows, with its end.
pub fn print_lease(alloc: Global, shown: &LeaseShown) -> Result<Vec<u8>, NoMemory>
    ensures { IfOk result (λ text. text.items ≡ lease_text shown.now) }
{
    match shown {
        LeaseShown::Line(line) => print(alloc, line),
        LeaseShown::Held(clerk, moment) => print_held(alloc, *clerk, *moment),
    }
}

/// That the clerk's session doesn't end before this moment.
pub fn print_held(alloc: Global, clerk: ClerkId, moment: u64) -> Result<Vec<u8>, NoMemory>
    ensures { IfOk result (λ text. text.items ≡ held_text clerk moment) }
{
    let mut out = Vec::new(alloc);
    let mut buffer = Buffer::new();
    out.extend_from_slice(b"held ")?;
    out.push(b'A' + clerk.get())?;
    out.push(b' ')?;
    out.extend_from_slice(buffer.format(moment).as_bytes())?;
    out.push(b'\n')?;
    Ok(out)
}
