// Walks over any readable tree in document order.
#![tactic(auto)]

pub mod nodes;
pub mod walk;
