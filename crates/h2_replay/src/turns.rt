//! What a replay keeps.

use crate::acts::Act;
use h2_conn::{Event, Refusal};
use h2_frame::Code;
use hpack::Field;

/// The answer to an act.
#[derive(Clone, Copy, Debug)]
pub enum Answer {
    /// The number of the stream that was opened.
    Id(u32),
    /// The number of octets that were written, or put out.
    Count(usize),
    /// It was done.
    Done,
    /// The call was refused.
    Refused(Refusal),
    /// Octets had come, and the connection has failed with this code.
    Fault(Code),
}

/// One thing that has happened.
#[derive(Drop)]
pub enum Turn {
    /// Octets were used, maybe none, by one call of [`Conn::take`](h2_conn::Conn::take): up to
    /// the end of one frame, or up to the octet that made a fault, or else all of them.
    In(Vec<u8>),
    /// Octets have joined the queued output.
    Out(Vec<u8>),
    /// An act began.
    Call(Act),
    /// The act ended with this answer. What a call writes follows its answer.
    Answer(Answer),
    /// An event was reported; its fields and octets are kept.
    Event(Event<Vec<Field>, Vec<u8>>),
}

/// What has happened in a replay.
#[derive(Drop)]
pub struct Log {
    /// The turns, in order: first the output of the opening; then, for each act, its
    /// [`Turn::Call`], what its octets made, its [`Turn::Answer`], and what the call has
    /// written.
    pub turns: Vec<Turn>,
}
