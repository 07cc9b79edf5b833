//! A row of records on a disk: after a crash each is there whole or not at all.
#![tactic(auto)]

mod device;
mod fault;
mod journal;
pub mod layout;
mod read;
mod staged;

pub use device::{read_part, write_synced};
pub use fault::JournalFault;
pub use journal::{Journal, MAX_RECORD_BYTES};
pub use read::{Found, read_records};
pub use staged::Staged;
