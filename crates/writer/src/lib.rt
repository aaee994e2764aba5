// Writes any readable tree as a blob.
#![tactic(auto)]

pub mod writer;
