//! Tests of the program and its libraries that are no cases of `h2_cases`: sockets, calls that no
//! case reaches, and texts and statuses of types.
//!
//! - `program`: the commands over sockets, words that can't be had, and the statuses of errors.
//! - `show`: the library as the README shows it, a long input cut in two, and the lines of events
//!   that no input makes.
//!
//! Small functions return whether a case holds: tests are proved as well.
#![tactic(auto)]

#[cfg(test)]
mod devices;
#[cfg(test)]
mod program;
#[cfg(test)]
mod show;
