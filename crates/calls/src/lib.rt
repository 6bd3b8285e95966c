//! The call by which a set enters a box, and the checks of a query and the sending of its message, for the call that asks.
#![tactic(auto)]

mod asking;
mod fault;
mod registering;

pub use fault::CallFault;
pub use registering::enter;
