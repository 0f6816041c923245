//! The library as the README shows it, a long input cut in two, and events that no input makes.
//!
//! Tests are proved as well: small functions return whether a case holds.

mod events;
mod library;
mod long;
