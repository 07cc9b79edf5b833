//! What a clerk holds: its log with what it owes, and what a call, a recall, a grant and an epoch make of its tokens, its ids and its images.
mod asking;
mod awaiting;
mod epochs;
mod fitting;
mod granting;
mod issuing;
mod ledger;
mod operands;
mod recalls;
mod using;

pub use asking::{batch_numbers, batch_of};
pub use awaiting::{awaited, is_owing};
pub use epochs::forget_numbers;
pub use fitting::suits;
pub use granting::{run_from, take_each};
pub use issuing::less_id;
pub use ledger::Ledger;
pub use operands::on_objects;
pub use recalls::{is_ready, lower_held, mark_recall};
pub use using::use_all;
