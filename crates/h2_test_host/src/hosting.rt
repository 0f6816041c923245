//! Tests of what a host serves, without sockets.
//!
//! - `asking`: a request to a handler, and all that it answers. `sites`: a folder's answers, and
//!   the lines of the log. `seconds`: its answers within a second, and in the next one. `leaving`:
//!   connections that are asked to leave, and are widened. `widening`: what widened ones send.
//!   `hints`: what a host says that can't begin.

mod asking;
mod hints;
mod leaving;
mod seconds;
mod sites;
mod widening;
