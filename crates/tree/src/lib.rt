//! A balanced tree on lent slots: who is present where, in order, with ranks and joins of regions. Set n uses slot n; slot 0
//! and slots above 4,095 are neither used nor written. The calls state what they ask for: the register is their only user.
#![tactic(auto)]

mod changes;
mod node;
mod ranked_tree;
mod reading;
mod rotations;
mod slots;
mod walks;
mod writing;

pub use node::Node;
pub use ranked_tree::RankedTree;
pub use reading::{count, covers, height, one_row, rank_of};
pub use slots::{capacity, place_of};
pub use writing::{clear_all, enter, leave, relocate};
