//! A host with a party that counts octets, and times and budgets.
//!
//! - `till`: the party. `hosts`: each call of a host on its way, and what it refuses. `times`: what
//!   is late and what a flood is.

mod hosts;
mod till;
mod times;
