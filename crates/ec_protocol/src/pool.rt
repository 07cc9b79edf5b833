//! The pool of the messages between clerks and the server: which are kept to be sent again, which are pending, and which is due.
//!
//! Each change is the function of its name of the protocol machine, on any world that has this pool.
mod counts;
mod forget;
mod kinds;
mod links;
mod pool;

pub use kinds::{is_for_server, kind_of};
pub use pool::Pool;
