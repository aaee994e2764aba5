// The format of a blob: its header and the tokens of its structure block.
#![tactic(auto)]

pub mod blob;
pub mod grammar;
pub mod header;
pub mod numbers;
pub mod text;
pub mod tokens;
pub mod types;
