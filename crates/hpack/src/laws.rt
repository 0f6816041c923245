//! Laws of field blocks, each the contract of a function that does nothing.

pub(crate) mod blocks;
pub(crate) mod encoder;
