//! The generator: scripts of calls of four clerks, drawn from a number.
mod draws;
mod line;
mod whole;

pub use whole::script;
