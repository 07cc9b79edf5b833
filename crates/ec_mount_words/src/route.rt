//! Which volume of a mount table a call goes to, the call as that volume sees it, and its answer as the caller sees it.
mod below;
mod raised;
mod routes;
mod table;

pub use below::call_below;
pub use raised::raised_answer;
pub use routes::{Route, route_of};
pub use table::volume_of;
