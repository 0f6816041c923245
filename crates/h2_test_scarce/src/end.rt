//! A connection, a client or a server, by the calls that all of them have.

use crate::record::Record;
use h2_conn::{Event, Taken};
use h2_ends::{
    Client, Code, Config, Conn, ConnFault, EndEvent, EndRefusal, EndTaken, FieldList, Refusal,
    Server,
};
use std::alloc::Global;

/// Which end is made.
#[derive(Clone, Copy)]
pub(crate) enum Kind {
    /// A connection that is a client's.
    ConnOfClient,
    /// A connection that is a server's.
    ConnOfServer,
    Client,
    Server,
}

/// An end.
#[derive(Drop)]
pub(crate) enum End {
    Conn(Conn),
    Client(Client),
    Server(Server),
}

/// An end of a kind.
fn made(alloc: Global, kind: Kind) -> Result<End, EndRefusal> {
    let config = Config::default();
    match kind {
        Kind::Client => Ok(End::Client(Client::new(alloc, config)?)),
        Kind::Server => Ok(End::Server(Server::new(alloc, config)?)),
        Kind::ConnOfClient => of_conn(Conn::client(alloc, config)),
        Kind::ConnOfServer => of_conn(Conn::server(alloc, config)),
    }
}

/// A connection, where there is one.
fn of_conn(conn: Result<Conn, Refusal>) -> Result<End, EndRefusal> {
    match conn {
        Ok(conn) => Ok(End::Conn(conn)),
        Err(refusal) => Err(EndRefusal::Conn(refusal)),
    }
}

/// An end of a kind, which is made again where memory is refused.
pub(crate) fn new_end(kind: Kind, record: &mut Record) -> Option<End> {
    for _ in 0..2 {
        match made(record.alloc, kind) {
            Ok(end) => return Some(end),
            Err(refusal) => {
                record.check(refusal == EndRefusal::Conn(Refusal::Memory));
                record.again();
            }
        }
    }
    record.check(false);
    None
}

/// An answer.
pub(crate) type Answer = Result<u64, EndRefusal>;

/// An answer without a value.
pub(crate) fn done(answered: Result<(), Refusal>) -> Answer {
    match answered {
        Ok(()) => Ok(0),
        Err(refusal) => Err(EndRefusal::Conn(refusal)),
    }
}

/// An answer that is a number.
pub(crate) fn count(answered: Result<usize, Refusal>) -> Answer {
    match answered {
        Ok(count) => Ok(u64::try_from(count).unwrap_or(u64::MAX)),
        Err(refusal) => Err(EndRefusal::Conn(refusal)),
    }
}

impl End {
    /// Its connection.
    pub(crate) fn conn(&self) -> &Conn {
        match self {
            End::Conn(conn) => conn,
            End::Client(client) => client.conn(),
            End::Server(server) => server.conn(),
        }
    }

    pub(crate) fn reset(&mut self, id: u32, code: u32) -> Answer {
        done(match self {
            End::Conn(conn) => conn.reset(id, code),
            End::Client(client) => client.reset(id, code),
            End::Server(server) => server.reset(id, code),
        })
    }

    pub(crate) fn widen(&mut self, count: u32) -> Answer {
        done(match self {
            End::Conn(conn) => conn.widen(count),
            End::Client(client) => client.widen(count),
            End::Server(server) => server.widen(count),
        })
    }

    pub(crate) fn ping(&mut self) -> Answer {
        let octets = *b"12345678";
        done(match self {
            End::Conn(conn) => conn.ping(octets),
            End::Client(client) => client.ping(octets),
            End::Server(server) => server.ping(octets),
        })
    }

    pub(crate) fn go_away(&mut self) -> Answer {
        done(match self {
            End::Conn(conn) => conn.go_away(),
            End::Client(client) => client.go_away(),
            End::Server(server) => server.go_away(),
        })
    }

    pub(crate) fn change_settings(&mut self) -> Answer {
        let config = Config::new(1_000, 100_000, 10).unwrap_or(Config::default());
        done(match self {
            End::Conn(conn) => conn.change_settings(config),
            End::Client(client) => client.change_settings(config),
            End::Server(server) => server.change_settings(config),
        })
    }

    /// Puts out at most `most` octets. Where memory is refused none were put out.
    pub(crate) fn put_out(&mut self, most: usize, record: &mut Record) -> Answer {
        let mut out = Vec::new(record.alloc);
        let answer = count(match self {
            End::Conn(conn) => conn.put_out(most, &mut out),
            End::Client(client) => client.put_out(most, &mut out),
            End::Server(server) => server.put_out(most, &mut out),
        });
        record.check(answer.is_ok() || out.is_empty());
        record.put_out(&out);
        answer
    }

    /// Takes octets, and notes what is handed out.
    pub(crate) fn take(&mut self, piece: &[u8], record: &mut Record) -> Result<Used, Code> {
        match self {
            End::Conn(conn) => note_taken(conn.take(piece), record),
            End::Client(client) => note_handed(client.take(piece), record),
            End::Server(server) => note_handed(server.take(piece), record),
        }
    }
}

/// The number of octets used, and whether nothing was handed out.
pub(crate) type Used = (usize, bool);

/// Notes what a connection has taken.
fn note_taken(taken: Result<Taken<'_>, ConnFault>, record: &mut Record) -> Result<Used, Code> {
    match taken {
        Ok(taken) => {
            note_event(taken.event, record);
            Ok((taken.used, taken.event.is_none()))
        }
        Err(fault) => Err(fault.code),
    }
}

/// Notes what a client or a server has taken.
fn note_handed(taken: Result<EndTaken<'_>, ConnFault>, record: &mut Record) -> Result<Used, Code> {
    match taken {
        Ok(taken) => {
            note_part(taken.event, record);
            Ok((taken.used, taken.event.is_none()))
        }
        Err(fault) => Err(fault.code),
    }
}

/// Notes numbers.
fn note_all(numbers: &[u32], record: &mut Record) {
    for number in numbers {
        record.note(u64::from(*number));
    }
}

/// Notes fields.
fn note_list(list: &FieldList, record: &mut Record) {
    for place in 0..list.len() {
        if let Some(field) = list.get(place) {
            record.note_octets(field.name);
            record.note_octets(field.value);
            record.note(u64::from(field.sensitive));
        }
    }
}

/// Notes what a connection reports.
fn note_event(event: Option<Event<&FieldList, &[u8]>>, record: &mut Record) {
    match event {
        None => {}
        Some(Event::Fields { id, list, end }) => {
            note_all(&[1, id, u32::from(end)], record);
            note_list(list, record);
        }
        Some(
            Event::Data {
                id,
                bytes,
                flow,
                end,
            },
        ) => {
            note_all(&[2, id, flow, u32::from(end)], record);
            record.note_octets(bytes);
        }
        Some(Event::Reset { id, code, ours }) => {
            note_all(&[3, id, code, u32::from(ours)], record);
        }
        Some(Event::GoAway { last, code }) => note_all(&[4, last, code], record),
        Some(Event::Unprocessed { id }) => note_all(&[5, id], record),
        Some(Event::Acked) => record.note(6),
        Some(Event::Pong { octets }) => record.note_octets(&octets),
    }
}

/// Notes what a client or a server hands out.
fn note_part(event: Option<EndEvent<&FieldList, &[u8]>>, record: &mut Record) {
    match event {
        None => {}
        Some(EndEvent::Interim { id, list }) => {
            note_all(&[0, id], record);
            note_list(list, record);
        }
        Some(EndEvent::Head { id, list, end }) => {
            note_all(&[1, id, u32::from(end)], record);
            note_list(list, record);
        }
        Some(EndEvent::Body { id, bytes, end }) => {
            note_all(&[2, id, u32::from(end)], record);
            record.note_octets(bytes);
        }
        Some(EndEvent::Reset { id, code, ours }) => {
            note_all(&[3, id, code, u32::from(ours)], record);
        }
        Some(EndEvent::GoAway { last, code }) => note_all(&[4, last, code], record),
        Some(EndEvent::Unprocessed { id }) => note_all(&[5, id], record),
        Some(EndEvent::Acked) => record.note(6),
        Some(EndEvent::Pong { octets }) => record.note_octets(&octets),
        Some(EndEvent::Trailers { id, list }) => {
            note_all(&[7, id], record);
            note_list(list, record);
        }
    }
}
