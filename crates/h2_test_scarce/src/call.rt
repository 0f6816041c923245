//! The calls of an end.

use crate::end::{Answer, End, count, done};
use crate::lists::{Lists, is_same};
use crate::record::Record;
use h2_ends::{Client, Conn, EndRefusal, Message, Refusal, Server};

/// A call of an end.
#[derive(Clone, Copy)]
pub(crate) enum Call {
    /// All of these octets are taken.
    Take(&'static [u8]),
    /// A stream is opened with the request's fields: [`Conn::open`].
    Open {
        end: bool,
    },
    /// The response's fields are sent on a stream: [`Conn::fields`].
    Fields {
        id: u32,
    },
    /// Trailers are sent on a stream.
    Trailers {
        id: u32,
    },
    /// Octets of the long body from `from` on, at most `most`: [`Conn::data`].
    Data {
        id: u32,
        from: usize,
        most: usize,
        end: bool,
    },
    /// [`Conn::release`].
    Release {
        id: u32,
        count: u32,
    },
    /// [`Conn::refuse`].
    Refuse {
        id: u32,
        code: u32,
    },
    Reset {
        id: u32,
        code: u32,
    },
    /// [`Conn::widen`].
    Widen(u32),
    Ping,
    GoAway,
    ChangeSettings,
    PutOut(usize),
    /// The next message is the request of a client.
    Request,
    /// The next message is the response of a server.
    Respond {
        id: u32,
    },
    Pump,
    PumpSome(usize),
    ReleaseAll,
}

/// What the calls of a run send.
#[derive(Drop)]
pub(crate) struct Given<'a> {
    pub(crate) lists: &'a Lists,
    /// What each of the messages equals.
    pub(crate) message: &'a Message,
    pub(crate) messages: Vec<Message>,
}

impl Given<'_> {
    /// A message that was refused is the one that was given, and is given again.
    fn hand_back(&mut self, message: Message, record: &mut Record) {
        record.check(is_same(&message, self.message));
        record.check(self.messages.push(message).is_ok());
    }
}

/// Octets of a body from `from` on, at most `most`.
fn part_of(body: &[u8], from: usize, most: usize) -> &[u8] {
    let others = body.get(from..).unwrap_or(b"");
    others.get(..most).unwrap_or(others)
}

/// A call that a connection alone has.
fn of_conn(conn: &mut Conn, call: Call, lists: &Lists) -> Answer {
    match call {
        Call::Open { end } => match conn.open(&lists.request, end) {
            Ok(id) => Ok(u64::from(id)),
            Err(refusal) => Err(EndRefusal::Conn(refusal)),
        },
        Call::Fields { id } => done(conn.fields(id, &lists.answer, false)),
        Call::Trailers { id } => done(conn.fields(id, &lists.trailers, true)),
        Call::Data {
            id,
            from,
            most,
            end,
        } => count(conn.data(id, part_of(&lists.body, from, most), end)),
        Call::Release { id, count } => done(conn.release(id, count)),
        Call::Refuse { id, code } => done(conn.refuse(id, code)),
        _ => Err(EndRefusal::NotAsked),
    }
}

/// A call of a client alone.
fn of_client(client: &mut Client, call: Call, given: &mut Given, record: &mut Record) -> Answer {
    match call {
        Call::Request => match given.messages.pop() {
            Some(message) => match client.request(message) {
                Ok(id) => Ok(u64::from(id)),
                Err((message, refusal)) => {
                    given.hand_back(message, record);
                    Err(refusal)
                }
            },
            None => Err(EndRefusal::Answered),
        },
        Call::Pump => pumped(client.pump()),
        Call::PumpSome(most) => pumped(client.pump_some(most)),
        Call::ReleaseAll => released(client.release_all()),
        _ => Err(EndRefusal::NotAsked),
    }
}

/// A call of a server alone.
fn of_server(server: &mut Server, call: Call, given: &mut Given, record: &mut Record) -> Answer {
    match call {
        Call::Respond { id } => match given.messages.pop() {
            Some(message) => match server.respond(id, message) {
                Ok(()) => Ok(0),
                Err((message, refusal)) => {
                    given.hand_back(message, record);
                    Err(refusal)
                }
            },
            None => Err(EndRefusal::Answered),
        },
        Call::Pump => pumped(server.pump()),
        Call::PumpSome(most) => pumped(server.pump_some(most)),
        Call::ReleaseAll => released(server.release_all()),
        _ => Err(EndRefusal::NotAsked),
    }
}

/// An answer without a value.
fn released(answered: Result<(), EndRefusal>) -> Answer {
    match answered {
        Ok(()) => Ok(0),
        Err(refusal) => Err(refusal),
    }
}

/// The answer of a pump: the number of octets of bodies that it has sent.
fn pumped(answered: Result<usize, EndRefusal>) -> Answer {
    match answered {
        Ok(count) => Ok(u64::try_from(count).unwrap_or(u64::MAX)),
        Err(refusal) => Err(refusal),
    }
}

/// Makes a call that takes no octets.
pub(crate) fn make(end: &mut End, call: Call, given: &mut Given, record: &mut Record) -> Answer {
    match call {
        Call::Reset { id, code } => end.reset(id, code),
        Call::Widen(count) => end.widen(count),
        Call::Ping => end.ping(),
        Call::GoAway => end.go_away(),
        Call::ChangeSettings => end.change_settings(),
        Call::PutOut(most) => end.put_out(most, record),
        _ => match end {
            End::Conn(conn) => of_conn(conn, call, given.lists),
            End::Client(client) => of_client(client, call, given, record),
            End::Server(server) => of_server(server, call, given, record),
        },
    }
}

/// Whether a call that is refused memory may have done a part of what it does.
pub(crate) fn is_done_in_parts(call: Call) -> bool {
    matches!(call, Call::Pump | Call::PumpSome(_) | Call::ReleaseAll)
}

/// Whether a call is [`Conn::refuse`], which is never refused memory: the connection fails instead.
pub(crate) fn is_refuse(call: Call) -> bool {
    matches!(call, Call::Refuse { .. })
}

/// The refusal for memory.
pub(crate) const MEMORY: EndRefusal = EndRefusal::Conn(Refusal::Memory);

/// The refusal of a connection that has failed.
pub(crate) const CLOSED: EndRefusal = EndRefusal::Conn(Refusal::Closed);
