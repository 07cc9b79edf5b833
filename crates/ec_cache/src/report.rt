//! What a clerk still has to report: lost operations, once for each of their operands.
mod maps;
mod report;

pub use report::Report;
