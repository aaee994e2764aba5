// Searches for phandles in any readable tree.
#![tactic(auto)]

pub mod handles;
