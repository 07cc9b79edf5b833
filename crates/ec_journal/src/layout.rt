//! The layout of a disk: two sides, each a journal and a table, and slots for images that a table names.
//!
//! A checkpoint writes free slots and the other side, syncs, and then turns the select byte. Whatever a crash leaves, one of the two sides is
//! selected and all that it names stands there.
mod checkpoint;
mod free;
mod head;
mod laws;
mod reading;
mod selected;
mod side;
mod slots;

pub use checkpoint::{prepare, select, write_checkpoint};
pub use free::free_slots;
pub use head::{FIRST_WORD, FORM, write_head};
pub use laws::free_pieces_are_apart;
pub use reading::Head;
pub use selected::Selected;
pub use side::{JOURNAL_BYTES, SELECT_AT, Side, TABLE_BYTES};
pub use slots::{SLOT_BYTES, slot_at, write_slots};
