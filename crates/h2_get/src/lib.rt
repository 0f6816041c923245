//! What `h2 get` requests and prints.
//!
//! [`location_at`] reads the URL, whose port may come from another option. [`body_of`] reads the
//! body, and [`request_of`] makes the request from it and the options. [`print_asked`] prints
//! the response, and [`is_failure`] says whether `--fail` makes it a failure.
//! [`gather_location`] fetches a response whole; [`stream_location`] fetches one and prints it as
//! it arrives, with the frames of both sides for `--verbose`; [`stream_locations`] does so for
//! several at once over one connection.
//! [`TimedNet`] is a network whose connections end at a deadline.
#![tactic(auto)]

mod begin;
mod body;
mod connect;
mod counted;
mod gathering;
mod pass_error;
mod port;
mod receive;
mod request;
mod response;
mod several;
mod several_locations;
mod stream;
mod streaming;
mod timed;

pub use begin::window_asked;
pub use body::{BodyFault, body_of};
pub use gathering::{gather, gather_location};
pub use pass_error::{PassError, ResponseHead, SeveralStreamed, StreamEnding, StreamError};
pub use port::location_at;
pub use receive::{bodies_are_in_order, next_head, pass_body};
pub use request::{RequestFault, request_of};
pub use response::{is_failure, print_asked, write_failure};
pub use several::stream_several;
pub use several_locations::stream_locations;
pub use stream::stream_response;
pub use streaming::stream_location;
pub use timed::{Deadline, TimedListener, TimedNet, TimedStream};
