//! The bytes of a disk's table: the durable state without its images, and in which slots these stand.
mod laws;
mod limits;
mod reading;
mod table;
mod writing;

pub use laws::tables_are_short;
pub use reading::get_table;
pub use table::{Table, Version};
pub use writing::put_table;
