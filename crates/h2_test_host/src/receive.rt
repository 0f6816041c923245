//! Tests of responses that a handler hears, over a link in memory.
//!
//! They stand in a crate of their own, so that the gate proves that library once for them, and not
//! once more with its tests. The crate has nothing else.

mod heard;
mod hearing;
