//! The text of transcripts.
mod answer;
mod asked;
mod line;
mod pieces;

pub use line::{print, print_answer, print_call};
