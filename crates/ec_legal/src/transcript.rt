//! The lines of a transcript, read from its bytes.
mod lines;
mod parts;

pub use lines::{MAX_TRANSCRIPT_BYTES, ReadFault, count_about, read_lines};
pub use parts::{cut, read_parts};
