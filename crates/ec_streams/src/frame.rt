//! Bodies as frames: a u32 length, the highest byte first, and then the body.
mod fault;
mod frames;
mod laws;

pub use fault::FrameFault;
pub use frames::{Frames, MAX_BODY_BYTES, frame};
pub use laws::{any_pieces, joined_pieces, moved_once, one_beginning, one_reading};
