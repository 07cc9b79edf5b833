//! A table of values by objects, of which each is found and put in a time that doesn't grow with their
//! count.
mod table;

pub use table::ObjTable;
