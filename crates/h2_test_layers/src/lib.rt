//! Tests of the lower layers, and of `h2_files`, that are no cases of `h2_cases`.
//!
//! - `layers`: allocations that are refused, what is lent, texts of errors and debug forms, generated
//!   lists, and each law, which is called once. `files`: paths, ranges and dates, with rows of what
//!   each call gives.
//!
//! Tests stand in crates of their own, few of them: a crate with tests is proved twice, and each loads
//! the crates that it tests.
#![tactic(auto)]

#[cfg(test)]
mod files;
#[cfg(test)]
mod layers;
