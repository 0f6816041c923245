//! Sending messages in parts: each part goes into the output at once.

ghost use Rattle.h2_ends.specs.Heads.{RestOfKept};
ghost use Rattle.h2_ends.specs.Represents.{EndBegins, EndBeginsAnswer, EndSendsBody};
ghost use Rattle.h2_ends.specs.Represents.{EndSendsTrailers};

use crate::end::End;
use crate::outgoing::{Outgoing, Stream};
use crate::refusal::EndRefusal;
use h2_message::{BodyLength, check_request_head, check_response_head};
use hpack::Field;

impl End {
    // rule: 8.1 (own) A part of a message is sent where one was begun, and is checked
    /// Begins a request: sends its head on a new stream.
    pub(crate) fn begin(&mut self, head: &[Field]) -> Result<u32, EndRefusal>
        ensures { EndBegins self.old head.now result self.new }
    {
        let rest = check_request_head(head)?;
        let id = self.open_with(head, false)?;
        self.keep(id, Outgoing::Open(rest));
        Ok(id)
    }

    // rule: 8.1 (own) A part of a message is sent where one was begun, and is checked
    /// Begins a response: sends its head.
    pub(crate) fn begin_answer(&mut self, id: u32, head: &[Field]) -> Result<(), EndRefusal>
        ensures { EndBeginsAnswer self.old id head.now result self.new }
    {
        let Some(stream) = self.streams.get_mut(id) else {
            return Err(EndRefusal::NotAsked);
        };
        let to_head = stream.asks(self.role)?;
        let rest = check_response_head(head, to_head)?;
        self.conn.fields(id, head, false)?;
        stream.outgoing = Outgoing::Open(rest);
        Ok(())
    }

    // rule: 8.1 (own) A part of a message is sent where one was begun, and is checked
    /// Sends octets of the body of a message that was begun, as many as the connection takes
    /// now, and returns how many. With `end`, END_STREAM goes with the last of them once all
    /// are sent.
    pub(crate) fn send_body(
        &mut self,
        id: u32,
        octets: &[u8],
        end: bool,
    ) -> Result<usize, EndRefusal>
        ensures { EndSendsBody self.old id octets.now end result self.new }
    {
        let Some(stream) = self.streams.get_mut(id) else {
            return Err(EndRefusal::NotAsked);
        };
        let rest = stream.rest()?;
        rest.check(octets.len(), end)?;
        let count = self.conn.data(id, octets, end)?;
        if end && count == octets.len() {
            stream.outgoing = Outgoing::Sent;
            self.forget_if_over(id);
        } else {
            stream.outgoing = Outgoing::Open(rest.after(count));
        }
        Ok(count)
    }

    // rule: 8.1 (own) A part of a message is sent where one was begun, and is checked
    /// Ends a message that was begun, with trailers.
    pub(crate) fn send_trailers(&mut self, id: u32, list: &[Field]) -> Result<(), EndRefusal>
        ensures { EndSendsTrailers self.old id list.now result self.new }
    {
        let Some(stream) = self.streams.get_mut(id) else {
            return Err(EndRefusal::NotAsked);
        };
        let rest = stream.rest()?;
        rest.check_trailers(list)?;
        self.conn.fields(id, list, true)?;
        stream.outgoing = Outgoing::Sent;
        self.forget_if_over(id);
        Ok(())
    }
}

impl Stream {
    // rule: 8.1 (own) A part of a message is sent where one was begun, and is checked
    /// Returns the length that the body of the message begun on the stream still needs.
    fn rest(&self) -> Result<BodyLength, EndRefusal>
        ensures { RestOfKept self.now result }
    {
        match &self.outgoing {
            Outgoing::Open(rest) => Ok(*rest),
            _ => Err(EndRefusal::NotAsked),
        }
    }
}
