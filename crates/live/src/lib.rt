// The live store: a tree in node records, property records and a byte pool.
#![tactic(auto)]

pub mod live_store;
pub mod memory;
