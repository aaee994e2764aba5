// Tests of the listing, apart from its crate so that it is not proved twice.
#![tactic(auto)]

#[cfg(test)]
mod tests;
