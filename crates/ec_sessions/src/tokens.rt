//! The tokens that sessions hold on objects.
mod holds;
mod laws;
mod rows;
mod token;
mod tokens;

pub use holds::{clash, stronger};
pub use laws::one_list;
pub use token::Token;
pub use tokens::{ClaimFault, Tokens};
