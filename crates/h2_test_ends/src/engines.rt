//! Refused allocations, laws, `Debug`, and a list of acts that is run.
//!
//! `rt try --test --fail-alloc N`, by which the allocation N is refused, passes those of refused
//! allocations for each N.

mod acts;
mod engines;
mod joined;
mod settling;
mod shown;
