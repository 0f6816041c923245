//! Drivers of the cases of the layers below an end: texts, field blocks, frames, streams, settings
//! and windows.

pub mod block;
mod coders;
pub mod flow;
pub mod frame;
mod frames;
pub mod hpack_blocks;
mod tables;
pub mod text;
mod text_again;
pub mod wire;
