// Names of nodes and properties, paths, and their order.
#![tactic(auto)]

pub mod classes;
pub mod names;
pub mod paths;
#[cfg(test)]
mod tests;
