//! A handler that says hello.

use crate::server::Handler;
use anyhow::Result;
use h2_ends::{FieldList, Message};
use h2_message::list_asks_head;
use std::alloc::Global;

/// Answers each request with the same text.
#[derive(Clone, Copy, Debug)]
pub struct Hello;

impl Handler for Hello {
    fn answer(&mut self, alloc: Global, head: &FieldList) -> Result<Message> {
        let body: &[u8] = if list_asks_head(head) {
            b""
        } else {
            b"hello\n"
        };
        Ok(Message::response(alloc, 200)?.body(body)?)
    }
}
