//! What a client and a server have in common.

ghost use Rattle.std.specs.Prelude.{◌≡◌, ◌⊎◌, None, IfOk, IfErr};
ghost use Rattle.h2_flow.specs.ConfigValues.{values_of};
ghost use Rattle.h2_spec_log.specs.Acts.{Values};
ghost use Rattle.h2_ends.specs.Ends.{EndLog};
ghost use Rattle.h2_ends.specs.Represents.{EndRepresents, RepresentsBut, new_end_log};
ghost use Rattle.h2_ends.specs.Represents.{reads_of_new, kept_at};
ghost use Rattle.h2_ends.specs.Sends.{WaitsAsBefore};

use crate::outgoing::Stream;
use crate::span::{Span, Spans, Turn};
use h2_conn::{Config, Conn, Refusal};
use h2_message::Reads;
use h2_numbers::NumberMap;
use h2_spec_log::Role;
use std::alloc::Global;

/// A connection, and what is kept of its streams.
#[derive(Drop)]
pub(crate) struct End {
    /// Client or server.
    pub(crate) role: Role,
    /// The connection.
    pub(crate) conn: Conn,
    /// The active streams, by number.
    pub(crate) streams: NumberMap<Stream>,
    /// The spans of streams where messages wait and where octets are owed, the stream with
    /// which the next pass begins, and the part of a message that was refused last.
    pub(crate) spans: Spans,
}

impl End {
    // rule: 8.1 (own) A new client or server is that end of a connection
    /// Returns an end whose opening is queued.
    pub(crate) fn new(alloc: Global, role: Role, config: Config) -> Result<End, Refusal>
        ensures ok { IfOk result (λ end. EndRepresents (values_of config) end
            (new_end_log role (values_of config))) }
        ensures err { IfErr result (λ refusal. refusal ≡ Refusal.Memory) }
    {
        let conn = match role {
            Role::Client => Conn::client(alloc, config)?,
            Role::Server => Conn::server(alloc, config)?,
        };
        Ok(End {
            role,
            conn,
            streams: NumberMap::new(alloc),
            spans: Spans {
                waiting: Span::none(),
                owing: Span::none(),
                turn: Turn { id: 0, rest: 0 },
                malformed: None,
            },
        })
    }

    /// Returns what is read on a stream of which nothing is kept yet.
    pub(crate) fn first_reads(&self) -> Reads
        ensures { result ≡ reads_of_new self.now.role }
    {
        match self.role {
            Role::Client => Reads::Responses { to_head: false },
            Role::Server => Reads::Requests,
        }
    }

    // rule: 8.1 (own) Something is kept of each active stream, and of no other
    /// Drops what is kept of a stream that is no longer active.
    pub(crate) fn forget_if_over(&mut self, id: u32)
        ensures conn { self.new.conn ≡ self.old.conn }
        ensures waits { WaitsAsBefore self.old self.new id }
        ensures one { (kept_at id self.new.streams.entries ≡ kept_at id self.old.streams.entries)
            ⊎ (kept_at id self.new.streams.entries ≡ None) }
        ensures represents { (values : Values) (end : EndLog)
            → RepresentsBut values self.old end id → EndRepresents values self.new end }
    {
        if !self.conn.is_active(id) {
            self.streams.remove(id);
        }
    }
}
