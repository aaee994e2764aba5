// Tests of the reader, apart from its crate so that it is not proved twice.
#![tactic(auto)]

#[cfg(test)]
mod build;
#[cfg(test)]
mod faults;
#[cfg(test)]
mod headers;
#[cfg(test)]
mod limits;
