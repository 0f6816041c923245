//! Tests of the engines, of two joined ends, of laws and of the README's programs that are no
//! cases of `h2_cases`.
//!
//! - `engines`: refused allocations, `Debug`, and a list of acts that is run.
//! - `laws`: that each law can be called. `texts`: what refusals and faults say. `uses`: that the
//!   README's programs run. `calling`: the callers that each CALLING.md quotes.
//! - `parts`: programs whose messages go in parts, with bodies of 8 MiB.
//!
//! Ends that are driven at random are cases: `fuzz/drive` makes them.
#![tactic(auto)]

#[cfg(test)]
mod calling;
#[cfg(test)]
mod engines;
#[cfg(test)]
mod laws;
#[cfg(test)]
mod parts;
#[cfg(test)]
mod texts;
#[cfg(test)]
mod uses;
