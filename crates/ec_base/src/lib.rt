//! Ids, names, paths, lists, sources and sinks.
#![tactic(auto)]

mod counter;
mod ids;
mod limits;
mod list;
mod name;
mod outside;
mod sorted;
pub mod trace;

pub use counter::Counter;
pub use ids::{Age, ClerkId, Hold, ObjId, OpNo, SessionNo, next};
pub use limits::{CLERK_COUNT, LAST_COUNTER, MAX_NAME_BYTES, MAX_PATH_NAMES};
pub use list::{Duplicate, List, NoMemory, duplicate_bytes};
pub use name::{Name, NameFault, Path, PathFault};
pub use outside::{Gave, MemSink, MemSource, Sink, Source, StdSink, StdSource, Took};
pub use sorted::{Change, SortedMap};
