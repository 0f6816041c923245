//! Moving and delivering octets.

ghost use Rattle.std.specs.Prelude.{◌≡◌, length};
ghost use Rattle.h2_spec_log.specs.Acts as log;
ghost use Rattle.h2_conn.specs.Conn.{answer_by};
ghost use Rattle.h2_joined.specs.Joints.{Moves, Delivers, acted_as};
ghost use Rattle.h2_joined.specs.Kept.{MakesAct, made};
ghost use Rattle.h2_joined.specs.Delivering.{UsesWithin, TakesOnce, TookAt, TakesNext};
ghost use Rattle.h2_joined.specs.Delivering.{TakesDelivery, TakesPipe, PutsPipe, MakesRoom};

use crate::act::{Acted, Side};
use crate::joined::Joined;
use crate::pipe::Pipe;
use crate::store::Store;
use h2_ends::{Client, Code, EndRefusal, Refusal, Server};
use std::mem;

/// The result of a call of `take`.
#[derive(Clone, Copy)]
pub(crate) enum Taking {
    /// How many octets were used, and whether there was an event, which is kept.
    Took { used: usize, hands: bool },
    /// The connection has failed.
    Failed { code: Code },
}

/// How a delivery goes on after a call of `take`.
#[derive(Clone, Copy)]
pub(crate) enum Next {
    /// It goes on with the octets that follow; the value is how many were used.
    Again(usize),
    /// It is done: all octets were used.
    Whole,
    /// It is done: the connection has failed.
    Failed(Code),
    /// It stops: memory was refused before the call, which was not made.
    Stopped,
}

/// How a delivery has ended.
#[derive(Clone, Copy)]
pub(crate) enum Delivered {
    /// All octets were used.
    Whole,
    /// The connection has failed.
    Failed(Code),
    /// Memory was refused, after this many octets were used.
    Stopped(usize),
}

impl Joined {
    // rule: joined (own) Output is put on the pipe to the other end, as much as is asked
    /// Moves octets of an end's output to the pipe to the other end.
    pub(crate) fn put_on_pipe(&mut self, from: Side, count: usize) -> Acted
        ensures { MakesAct self.old (made from (Moves count) result) self.new }
    {
        moved(match from {
            Side::Client => {
                let octets = &mut self.at_server.incoming.octets;
                self.client.put_out(count, octets)
            }
            Side::Server => {
                let octets = &mut self.at_client.incoming.octets;
                self.server.put_out(count, octets)
            }
        })
    }

    // rule: joined (own) The first octets of a pipe are given to its end
    /// Delivers octets of its pipe to an end.
    pub(crate) fn deliver(&mut self, to: Side, count: usize) -> Acted
        ensures { MakesAct self.old (made to (Delivers count) result) self.new }
    {
        let failed = match to {
            Side::Client => self.client.conn().failed(),
            Side::Server => self.server.conn().failed(),
        };
        if let Some(code) = failed {
            return Acted::Failed(code);
        }
        let mut pipe = self.take_pipe(to);
        let octets = pipe.first(count);
        let size = octets.len();
        let (used, acted, unfinished) = match self.take_all(to, octets) {
            Delivered::Whole => (size, Acted::Count(size), false),
            Delivered::Failed(code) => (size, Acted::Failed(code), false),
            Delivered::Stopped(used) => (used, Acted::Memory, true),
        };
        pipe.deliver(used);
        self.put_pipe(to, pipe, unfinished);
        acted
    }

    /// Takes out the pipe to an end, and leaves an empty one.
    fn take_pipe(&mut self, to: Side) -> Pipe
        ensures { TakesPipe to self.old result self.new }
    {
        let empty = Pipe::new(self.alloc);
        match to {
            Side::Client => mem::replace(&mut self.at_client.incoming, empty),
            Side::Server => mem::replace(&mut self.at_server.incoming, empty),
        }
    }

    /// Puts the pipe to an end back, and keeps whether the delivery stopped early.
    fn put_pipe(&mut self, to: Side, pipe: Pipe, unfinished: bool)
        ensures { PutsPipe to self.old pipe unfinished self.new }
    {
        match to {
            Side::Client => {
                self.at_client.incoming = pipe;
                self.at_client.unfinished = unfinished;
            }
            Side::Server => {
                self.at_server.incoming = pipe;
                self.at_server.unfinished = unfinished;
            }
        }
    }

    // rule: joined (own) The first octets of a pipe are given to its end
    /// Gives octets to `take` until they are used and it returns no event, or the connection has
    /// failed, or memory was refused.
    fn take_all(&mut self, to: Side, octets: &[u8]) -> Delivered
        ensures { TakesDelivery to self.old octets.now result self.new }
    {
        let mut taken = 0usize;
        for _round in 0..u64::MAX {
            match self.take_next(to, &octets[taken..]) {
                Next::Again(used) => taken += used,
                Next::Whole => return Delivered::Whole,
                Next::Failed(code) => return Delivered::Failed(code),
                Next::Stopped => return Delivered::Stopped(taken),
            }
        }
        Delivered::Stopped(taken)
    }

    // rule: joined (own) The first octets of a pipe are given to its end
    // rule: joined (own) A delivery without memory stops before a call and loses nothing
    /// Makes room for an event, calls `take` once, and keeps its event.
    fn take_next(&mut self, to: Side, piece: &[u8]) -> Next
        ensures { TakesNext to self.old piece.now result self.new }
    {
        if !self.make_room(to, piece) {
            return Next::Stopped;
        }
        match self.take_once(to, piece) {
            Taking::Took { used, hands } => {
                if hands {
                    return Next::Again(used);
                }
                if used < piece.len() {
                    return Next::Again(used);
                }
                Next::Whole
            }
            Taking::Failed { code } => Next::Failed(code),
        }
    }

    // rule: joined (own) A delivery without memory stops before a call and loses nothing
    /// Makes room for the largest event that `take` of an end can return for a piece, and returns
    /// whether there was memory for it.
    fn make_room(&mut self, to: Side, piece: &[u8]) -> bool
        ensures { MakesRoom to self.old piece.now result self.new }
    {
        match to {
            Side::Client => {
                let body = self.client.conn().held().saturating_add(piece.len());
                self.at_client.handed.make_room(body)
            }
            Side::Server => {
                let body = self.server.conn().held().saturating_add(piece.len());
                self.at_server.handed.make_room(body)
            }
        }
    }

    /// Calls `take` of an end once, and keeps its event.
    fn take_once(&mut self, to: Side, piece: &[u8]) -> Taking
        ensures { TookAt to self.old piece.now result self.new }
    {
        match to {
            Side::Client => client_takes(&mut self.client, &mut self.at_client.handed, piece),
            Side::Server => server_takes(&mut self.server, &mut self.at_server.handed, piece),
        }
    }
}

/// Returns the result of a move.
fn moved(outcome: Result<usize, Refusal>) -> Acted
    ensures { result ≡ acted_as (answer_by (λ given. log.Count given) outcome) }
{
    match outcome {
        Ok(count) => Acted::Count(count),
        Err(refusal) => Acted::Refused(EndRefusal::Conn(refusal)),
    }
}

// rule: joined (own) Accepted messages, what was handed out, octets on a pipe are kept
/// Calls `take` of a client once, and keeps its event.
fn client_takes(client: &mut Client, store: &mut Store, piece: &[u8]) -> Taking
    ensures within { UsesWithin result (length piece.now) }
    ensures takes { TakesOnce client.old.end store.old piece.now result client.new.end store.new }
{
    match client.take(piece) {
        Ok(taken) => {
            let used = taken.used;
            match taken.event {
                None => Taking::Took { used, hands: false },
                Some(event) => {
                    store.keep(event);
                    Taking::Took { used, hands: true }
                }
            }
        }
        Err(fault) => Taking::Failed { code: fault.code },
    }
}

// rule: joined (own) Accepted messages, what was handed out, octets on a pipe are kept
/// Calls `take` of a server once, and keeps its event.
fn server_takes(server: &mut Server, store: &mut Store, piece: &[u8]) -> Taking
    ensures within { UsesWithin result (length piece.now) }
    ensures takes { TakesOnce server.old.end store.old piece.now result server.new.end store.new }
{
    match server.take(piece) {
        Ok(taken) => {
            let used = taken.used;
            match taken.event {
                None => Taking::Took { used, hands: false },
                Some(event) => {
                    store.keep(event);
                    Taking::Took { used, hands: true }
                }
            }
        }
        Err(fault) => Taking::Failed { code: fault.code },
    }
}
