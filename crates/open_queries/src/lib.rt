//! The open queries: their serials, which set put each, and the token of one that is in hand.
#![tactic(auto)]

mod entry;
mod fault;
mod handover;
mod open_queries;

pub use fault::OpenFault;
pub use handover::Handover;
pub use open_queries::OpenQueries;
