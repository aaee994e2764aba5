// Fills a store from a blob: the root alone, then one ordinary write for each node and property.
#![tactic(auto)]

pub mod fill;
pub mod trail;
