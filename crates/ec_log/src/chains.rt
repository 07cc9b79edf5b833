//! The operations that a clerk holds, and their closures.
mod chain;
mod chains;
mod closure;
mod front;
mod held;
mod operand;
mod order;
mod slots;
mod walking;

pub use closure::Ask;
pub use operand::has_operand;
pub use order::{Order, OrderFault};
pub use slots::Slot;
