//! Two joined ends that are driven until they are quiet.

use crate::joined::{conn_of, new_joined};
use crate::lists::request;
use crate::prefix::are_prefixes;
use crate::record::{Record, Scenario, holds};
use h2_ends::Code;
use h2_joined::{Acted, Joined, JointAct, Side};
use h2_settle::{Settled, settle};
use std::alloc::{AllocError, Global};

/// More rounds than the two ends need.
const MOST: u32 = 100;

/// A request of the client.
#[derive(Drop)]
struct Asked<'a> {
    request: &'a JointAct,
}

/// Asks, and once more where memory is refused.
fn ask(joined: &mut Joined, request: &JointAct, record: &mut Record) {
    let mut acted = joined.act(request);
    if acted != Acted::Id(1) {
        record.again();
        acted = joined.act(request);
    }
    record.check(acted == Acted::Id(1));
}

/// Whether an end has failed for refused memory.
fn has_failed(joined: &Joined, side: Side) -> bool {
    conn_of(joined, side).failed() == Some(Code::InternalError)
}

/// Makes one round, if one is needed. It answers that an end has failed where one has, and which.
fn drive_once(joined: &mut Joined, record: &mut Record) -> Settled {
    let settled = settle(joined, 1);
    let client = has_failed(joined, Side::Client);
    let server = has_failed(joined, Side::Server);
    record.check((settled.failed == Some(Side::Client)) == client);
    record.check((settled.failed == Some(Side::Server)) == (server && !client));
    settled
}

/// Drives the two ends until they are quiet, and on where memory is refused; or until one of them
/// has failed for it.
fn drive(joined: &mut Joined, record: &mut Record) {
    for _ in 0..MOST {
        let settled = drive_once(joined, record);
        if settled.failed.is_some() {
            return record.fail();
        }
        if settled.memory {
            record.again();
        } else if settled.rounds == 0 {
            return record.check(joined.quiet());
        }
    }
    record.check(false);
}

impl Scenario for Asked<'_> {
    fn run(&mut self, record: &mut Record) {
        if let Some(mut joined) = new_joined(record) {
            ask(&mut joined, self.request, record);
            drive(&mut joined, record);
            record.check(are_prefixes(&joined, Side::Client, Side::Server, record.failed));
        }
    }
}

/// Whether two ends that are driven withstand refused memory.
fn bear(alloc: Global) -> Result<bool, AllocError> {
    let act = JointAct::Request(request(alloc, 70_000)?);
    Ok(holds(
        alloc,
        &mut Asked { request: &act },
        &mut Asked { request: &act },
    ))
}

#[test]
fn settling_of_a_joined_pair(rt: HostRuntime) {
    assert!(rt; bear(rt.alloc()).unwrap_or(false));
}
