// Lists a blob: what `dtstack list` prints of it.
#![tactic(auto)]

pub mod page;
pub mod rows;
pub mod text;
