//! A handler that keeps what it hears.

use h2_receive::{FetchError, HandlerFault, ResponseHandler, ResponsePart};
use std::alloc::Global;

/// Keeps the body of a response, how many heads have come, and how the fetch has ended.
#[derive(Drop)]
pub(crate) struct Hearing {
    pub(crate) heads: u32,
    pub(crate) body: Vec<u8>,
    /// Whether it refuses a body.
    pub(crate) refuses: bool,
    /// How the fetch has ended, and how often that was said.
    pub(crate) ended: Option<Result<(), FetchError>>,
    pub(crate) times: u32,
}

impl Hearing {
    /// One that has heard nothing.
    pub(crate) fn new(alloc: Global, refuses: bool) -> Hearing {
        Hearing {
            heads: 0,
            body: Vec::new(alloc),
            refuses,
            ended: None,
            times: 0,
        }
    }
}

impl ResponseHandler for Hearing {
    fn part(&mut self, _alloc: Global, part: ResponsePart) -> Result<(), HandlerFault> {
        match part {
            ResponsePart::Head { .. } => self.heads = self.heads.saturating_add(1),
            ResponsePart::Body { octets, .. } => {
                if self.refuses {
                    return Err(HandlerFault::Failed);
                }
                self.body.extend_from_slice(&octets)?;
            }
            _ => {}
        }
        Ok(())
    }

    fn over(&mut self, outcome: Result<(), FetchError>) {
        self.ended = Some(outcome);
        self.times = self.times.saturating_add(1);
    }
}
