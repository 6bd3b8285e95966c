//! The message that goes to the service, and the lines that carry it.
#![tactic(auto)]

mod fault;
mod line;
mod messages;
mod radio_cell;
mod spool;

pub use fault::{LineFault, MessageFault};
pub use line::Line;
pub use messages::{check_text, message};
pub use radio_cell::RadioCell;
pub use spool::Spool;
