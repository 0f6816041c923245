//! The result of a gatherer.

use h2_frame::FrameRef;

/// What [`Gather::take`](crate::Gather::take) makes of a frame.
#[derive(Debug, Drop)]
pub enum Gathered<'a> {
    /// The frame itself, which is no part of a block.
    Pass(FrameRef<'a>),
    /// The frame begins or continues a block, and more of the block is to come.
    More,
    /// The block that the frame completes.
    Block {
        /// The block's stream.
        stream: u32,
        /// Whether END_STREAM is set: after the block the sender sends no more fields or DATA on
        /// the stream.
        end: bool,
        /// Its octets: the fragments, joined.
        octets: Vec<u8>,
    },
}
