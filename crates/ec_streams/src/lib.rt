//! Whole streams: a source read to its end, a piece of bytes written whole.
#![tactic(auto)]

pub mod frame;
mod streams;

pub use streams::{ReadFault, WriteFault, read_whole, write_whole};
