//! The register: who is present where, and the buckets of those present.
#![tactic(auto)]

mod bucket;
mod fault;
mod register;
mod slots;

pub use bucket::Bucket;
pub use fault::RegisterFault;
pub use register::Register;
pub use slots::unused_slot;
