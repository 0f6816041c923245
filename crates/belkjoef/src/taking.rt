//! Taking octets.

ghost use Rattle.std.specs.Prelude.{◌≡◌, None};
ghost use Rattle.belkjoef.specs.Calls.{OnPlace};
ghost use Rattle.belkjoef.specs.Events.{TakesEvent, TakesHeld, blank, address_of, with_user};
ghost use Rattle.belkjoef.specs.Helds.{held_end, KeepsAllElse};

use crate::event::BjEvent;
use crate::held::{Held, Side};
use crate::numbers::{EMPTY, FAILED, OK};
use crate::place::BjEnd;
use h2_ends::{Client, Server};
use std::alloc::Global;

// contract: c (own) An event has what was handed out, as numbers and addresses
/// Takes octets of a piece, up to the end of one frame or else all of them, and stores the
/// event.
#[unsafe(no_mangle)]
pub extern "C" fn bj_take(alloc: Global, end: &mut BjEnd, octets: &[u8], event: &mut BjEvent) -> i32
    ensures call { OnPlace result (TakesHeld octets.now (blank (address_of octets.entry)) event.new
        result) end.old.held end.new.held }
    ensures unheld { end.old.held ≡ None → event.new ≡ blank (address_of octets.entry) }
{
    event.clear(octets);
    let Some(mut held) = end.open(alloc) else {
        return EMPTY;
    };
    let answer = held.take(octets, event);
    event.user = held.user_of(event.stream);
    end.keep(held);
    answer
}

impl Held {
    /// Takes octets, and stores the event.
    fn take(&mut self, octets: &[u8], event: &mut BjEvent) -> i32
        ensures takes { TakesEvent (held_end self.old) octets.now event.old event.new result
            (held_end self.new) }
        ensures keeps { KeepsAllElse self.old self.new }
    {
        match &mut self.side {
            Side::Client(client) => client_takes(client, octets, event),
            Side::Server(server) => server_takes(server, octets, event),
        }
    }
}

/// Takes octets at a client, and stores the event.
fn client_takes(client: &mut Client, octets: &[u8], event: &mut BjEvent) -> i32
    ensures { TakesEvent client.old.end octets.now event.old event.new result client.new.end }
{
    match client.take(octets) {
        Ok(taken) => {
            event.used = taken.used;
            match taken.event {
                Some(handed) => event.say(handed),
                None => {}
            }
            OK
        }
        Err(fault) => {
            event.code = fault.code.number();
            FAILED
        }
    }
}

/// Takes octets at a server, and stores the event.
fn server_takes(server: &mut Server, octets: &[u8], event: &mut BjEvent) -> i32
    ensures { TakesEvent server.old.end octets.now event.old event.new result server.new.end }
{
    match server.take(octets) {
        Ok(taken) => {
            event.used = taken.used;
            match taken.event {
                Some(handed) => event.say(handed),
                None => {}
            }
            OK
        }
        Err(fault) => {
            event.code = fault.code.number();
            FAILED
        }
    }
}
