//! The faults of field blocks.

use thiserror::Error;

/// Why a block cannot be decoded, or a list cannot be encoded.
#[derive(Clone, Copy, Debug, PartialEq, Eq, Hash, Error)]
pub enum Fault {
    /// P1: the octets are no field block for this table and this limit: COMPRESSION_ERROR.
    #[error("P1 Compression: the field block cannot be decoded")]
    Compression,
    /// P2: an allocation was refused.
    #[error("P2 Memory: out of memory")]
    Memory,
    /// P3: an earlier block failed, so that the decoder has lost its table.
    #[error("P3 Failed: an earlier block failed")]
    Failed,
}
