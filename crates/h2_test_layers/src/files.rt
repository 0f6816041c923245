//! Tests of `h2_files`: that each call succeeds, with rows of what it gives.

mod answers;
mod paths;
