//! What a host keeps.

use crate::limits::Limits;
use crate::table::Table;
use crate::turn::Turn;
use std::collections::VecDeque;

/// The state of a host. Contracts name its parts, and only the host changes them.
#[derive(Drop)]
pub struct HostState<P> {
    pub(crate) table: Table<P>,
    /// The places that wait for a turn, the next one first.
    pub(crate) queue: VecDeque<u32>,
    pub(crate) turn: Turn,
    /// The octets that all connections hold.
    pub(crate) held: u128,
    pub(crate) time: u64,
    pub(crate) limits: Limits,
    /// Scratch space for a step of a connection.
    pub(crate) room: Vec<u8>,
}
