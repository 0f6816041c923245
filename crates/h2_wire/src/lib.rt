//! Cutting a stream of octets into HTTP/2 frames (RFC 9113, sections 3.4 and 4.1).
//!
//! [`Cutter::cut`] takes the stream in pieces of any length, and lends each frame once it is
//! complete: from the piece, or from the cutter if the frame was cut in two.
//! [`Cutter::advance`] and [`Cutter::frame`] are the two halves of [`Cutter::cut`], for a caller
//! that needs the cutter between them, for [`Cutter::set_limit`] say. The frames, and the place of
//! a fault, are the same however the stream is cut into pieces.
#![tactic(auto)]

mod buffer;
mod cut;
mod cutter;
mod fault;
mod laws;
mod preface;

pub use cut::{Advance, Complete, Cut};
pub use cutter::Cutter;
pub use fault::WireFault;
pub use laws::{
    frames_are_read_with_wider_limits, no_reading_past_a_fault, nothing_in_a_partial_frame,
    one_fault, one_reading,
};
pub use preface::PREFACE;
