//! Readers: what waits on a stream, and which part was refused last.

ghost use Rattle.std.specs.Prelude.{◌≡◌};
ghost use Rattle.h2_spec_log.specs.Acts.{Values};
ghost use Rattle.h2_ends.specs.Ends.{EndLog};
ghost use Rattle.h2_ends.specs.EndCalls.{unsent_on};
ghost use Rattle.h2_ends.specs.Represents.{EndRepresents};

use crate::end::End;
use crate::outgoing::Outgoing;
use h2_message::Malformed;

impl End {
    // rule: 8.1 What was sent on a stream is a prefix of its message
    /// Returns how many octets of a body wait on a stream.
    pub(crate) fn unsent(&self, id: u32) -> usize
        ensures { (values : Values) (end : EndLog) → EndRepresents values self.now end
            → result ≡ unsent_on end id }
    {
        let Some(stream) = self.streams.get(id) else {
            return 0;
        };
        match &stream.outgoing {
            Outgoing::Waiting(waiting) => waiting.body.len().saturating_sub(waiting.sent),
            _ => 0,
        }
    }

    // rule: 8.1.1 (own) A part that is refused breaks a rule, the least of which is named
    /// Returns the stream of the part of a message that was refused last, and the rule that it
    /// breaks.
    pub(crate) fn last_malformed(&self) -> Option<(u32, Malformed)>
        ensures { (values : Values) (end : EndLog) → EndRepresents values self.now end
            → result ≡ end.malformed }
    {
        self.spans.malformed
    }
}
