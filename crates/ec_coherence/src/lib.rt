//! What holds of all nodes and messages in every state of a run, and what keeps it: behind a server's records and messages, ends of sessions, a
//! change of one clerk, a crash, a stop and a start. Each function has an empty body, and its contract is a law.
#![tactic(auto)]

mod batches;
mod changes;
mod clerk;
mod clerk_changes;
mod commits;
mod ends;
mod events;
mod makes;
mod opening;
mod server;

pub use batches::{records_keep_logs_and_images, records_keep_nodes_in_agreement};
pub use changes::{
    ids_and_holdings_change_in_agreement, logs_change_in_agreement,
    operations_are_issued_in_agreement, sessions_change_in_agreement,
};
pub use clerk::clerks_keep_tokens;
pub use clerk_changes::{
    batches_stand, clerks_may_ask, clerks_may_change, clerks_may_step, nodes_may_stop,
};
pub use commits::{lines_show_what_stands, messages_stand, records_stand};
pub use ends::{ends_stand, running_servers_keep_all};
pub use events::answers_keep_the_history;
pub use makes::steps_make_their_ghosts;
pub use opening::the_opening_agrees;
pub use server::server_steps_stand;
