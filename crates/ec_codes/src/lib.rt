//! The bytes of updates and images.
#![tactic(auto)]

mod clerks;
mod fault;
mod laws;
mod limits;
mod read_images;
mod read_updates;
mod reader;
mod write_images;
mod write_updates;
mod writer;

pub use clerks::{put_age, put_clerk};
pub use fault::CodeFault;
pub use laws::codes_are_short;
pub use limits::{MAX_ENTRIES, MAX_FILE_BYTES};
pub use read_images::{get_image, get_image_v1};
pub use read_updates::get_update;
pub use reader::Reader;
pub use write_images::put_image;
pub use write_updates::put_update;
pub use writer::{put_byte, put_id, put_long, put_word};
