//! Tests, by layers. Tests are proved as well: small functions return whether something holds, and
//! each test has one assert.

mod coders;
mod debug;
mod draw;
mod frames;
mod in_step;
mod laws;
mod lent;
mod memory;
mod numbers;
mod output;
mod output_memory;
mod streams;
mod streams_many;
mod texts;
