// Reads a blob: says whether it is one within the limits, and hands out its tokens.
#![tactic(auto)]

pub mod cursor;
pub mod flat;
pub mod read;
mod reader;
mod seen;
pub mod tokens;
