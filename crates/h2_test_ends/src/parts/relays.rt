//! The relay, between a client and a server that take octets slowly.

use crate::parts::body::{LONG, SHORTER, WINDOW};
use crate::parts::peer::{CALM, Manner, Peer, Resets, SOME, Wanted, new_peer};
use h2_conn::Role;
use h2_uses::{Relay, Wire, relay_step};
use std::alloc::Global;
use std::cell::Cell;

/// How many octets a peer takes at a time.
const SIP: usize = 4_000;

/// The most octets of one body that are under way: in the relay, whose window is full, and on the
/// way to the peer, whose window is full.
const MOST: u64 = 2 * WINDOW;

/// The most octets that the relay keeps at once: two bodies, and twice as many octets of output.
const KEPT: usize = 4 * 65_536;

/// A client and a server, and what is to come to each.
#[derive(Clone, Copy)]
struct Row {
    client: Manner,
    server: Manner,
    to_client: Wanted,
    to_server: Wanted,
}

/// A client that sends a body, and takes all.
const CLIENT: Manner = Manner {
    role: Role::Client,
    sends: SHORTER,
    begins_at: 0,
    releases: u32::MAX,
    resets: Resets::Never,
    is_odd: false,
};

/// A server that does so.
const SERVER: Manner = Manner {
    role: Role::Server,
    ..CLIENT
};

/// Some octets of a body.
const PIECE: Wanted = Wanted {
    under_way: MOST,
    ..SOME
};

/// A body comes whole.
const BODY: Wanted = Wanted {
    count: (SHORTER, SHORTER),
    is_whole: true,
    ..PIECE
};

/// A long body comes whole.
const LONG_BODY: Wanted = Wanted {
    count: (LONG, LONG),
    ..BODY
};

/// Two bodies come whole.
const WHOLE: Row = Row {
    client: CLIENT,
    server: SERVER,
    to_client: BODY,
    to_server: BODY,
};

const ROWS: [Row; 7] = [
    // Two long bodies come whole.
    Row {
        client: Manner {
            sends: LONG,
            ..CLIENT
        },
        server: Manner {
            sends: LONG,
            ..SERVER
        },
        to_client: LONG_BODY,
        to_server: LONG_BODY,
    },
    // One side returns credit slowly.
    Row {
        server: Manner {
            releases: 999,
            ..SERVER
        },
        ..WHOLE
    },
    // A reset of the client goes to the server, with its code.
    Row {
        client: Manner {
            resets: Resets::At(50_000),
            ..CLIENT
        },
        to_client: Wanted {
            count: (50_000, 100_000),
            ..PIECE
        },
        to_server: Wanted {
            count: (0, 200_000),
            reset: Some(CALM),
            ..PIECE
        },
        ..WHOLE
    },
    // A reset of the server goes to the client.
    Row {
        server: Manner {
            resets: Resets::At(50_000),
            ..SERVER
        },
        to_client: Wanted {
            count: (0, 200_000),
            reset: Some(CALM),
            ..PIECE
        },
        to_server: Wanted {
            count: (50_000, 100_000),
            ..PIECE
        },
        ..WHOLE
    },
    // A whole answer that comes before a reset without an error is passed on before it.
    Row {
        server: Manner {
            sends: 10,
            resets: Resets::Last,
            ..SERVER
        },
        to_client: Wanted {
            count: (10, 10),
            reset: Some(0),
            ..BODY
        },
        to_server: Wanted {
            count: (0, 200_000),
            ..PIECE
        },
        ..WHOLE
    },
    // A second request of the client goes elsewhere.
    Row {
        client: Manner {
            is_odd: true,
            ..CLIENT
        },
        to_client: Wanted {
            unprocessed: 1,
            ..BODY
        },
        ..WHOLE
    },
    // A server that processes no request: the client is told with REFUSED_STREAM.
    Row {
        server: Manner {
            is_odd: true,
            ..SERVER
        },
        to_client: Wanted {
            count: (0, 0),
            reset: Some(7),
            ..PIECE
        },
        to_server: Wanted {
            count: (0, 0),
            ..PIECE
        },
        ..WHOLE
    },
];

/// No octets.
fn empty(alloc: Global) -> Wire {
    Wire {
        input: Vec::new(alloc),
        output: Vec::new(alloc),
    }
}

/// A peer has its turn, and takes a sip of what goes to it. Returns whether anything has moved.
fn sip(peer: &mut Peer, wire: &mut Wire) -> bool {
    peer.turn(usize::MAX, &mut wire.input);
    let count = wire.output.len().min(SIP);
    let is_up = peer.take(wire.output.get(..count).unwrap_or(&[]));
    wire.output.drain(..count);
    is_up && (count > 0 || !wire.input.is_empty())
}

/// A relay and its peers take turns until nothing moves. Returns whether the relay has never kept
/// more than is stated.
fn play(
    relay: &mut Relay,
    client: &mut Peer,
    front: &mut Wire,
    server: &mut Peer,
    back: &mut Wire,
) -> bool {
    let mut is_within = true;
    for _ in 0..u64::MAX {
        let asked = sip(client, front);
        let passed = relay_step(relay, front, back).unwrap_or(false);
        let answered = sip(server, back);
        is_within = is_within && relay.kept() <= KEPT;
        if !asked && !passed && !answered {
            break;
        }
    }
    is_within
}

/// A new relay passes the messages of two peers on.
fn relay(alloc: Global, client: &mut Peer, server: &mut Peer) -> bool {
    let (mut front, mut back) = (empty(alloc), empty(alloc));
    match Relay::new(alloc) {
        Ok(mut relay) => play(&mut relay, client, &mut front, server, &mut back),
        Err(_) => false,
    }
}

/// A new server's turns with a client, and whether a row holds.
fn holds_with(
    alloc: Global,
    row: &Row,
    client: &mut Peer,
    sent: &Cell<u64>,
    made: &Cell<u64>,
) -> bool {
    match new_peer(alloc, row.server, sent, made) {
        Some(mut server) => {
            let is_within = relay(alloc, client, &mut server);
            is_within && server.seen.is(&row.to_server)
        }
        None => false,
    }
}

/// Whether a row holds.
fn holds(alloc: Global, row: &Row) -> bool {
    let (asked, answered) = (Cell::new(0), Cell::new(0));
    match new_peer(alloc, row.client, &asked, &answered) {
        Some(mut client) => {
            let holds = holds_with(alloc, row, &mut client, &answered, &asked);
            holds && client.seen.is(&row.to_client)
        }
        None => false,
    }
}

/// The place of the first row that doesn't hold.
fn first_wrong(alloc: Global) -> usize {
    for (place, row) in ROWS.iter().enumerate() {
        if !holds(alloc, row) {
            return place;
        }
    }
    ROWS.len()
}

#[test]
fn bodies_are_relayed(rt: HostRuntime) {
    assert_eq!(rt; first_wrong(rt.alloc()), ROWS.len());
}
