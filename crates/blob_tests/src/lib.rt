// Tests of headers and tokens, apart from their crate so that it is not proved twice.
#![tactic(auto)]

#[cfg(test)]
mod tests;
