//! What `Debug` prints.

use h2_engines::{Fetched, LinkError, LinkFault};
use h2_joined::{Acted, EndEvent, JointAct, Side};
use std::alloc::{AllocError, Global};

/// Whether what was fetched is printed so.
fn prints_fetched(alloc: Global) -> Result<bool, AllocError> {
    let fetched = Fetched {
        interims: Vec::new(alloc),
        head: Vec::new(alloc),
        body: Vec::from_slice(alloc, b"a")?,
        trailers: None,
    };
    let text = format!(in alloc; "{fetched:?}")?;
    Ok(text.as_str() == "Fetched { interims: [], head: [], body: [97], trailers: None }")
}

/// Whether an act, its answer and an event are printed so.
fn prints_acts(alloc: Global) -> Result<bool, AllocError> {
    let (act, acted) = (JointAct::Pump(Side::Client), Acted::Count(4));
    let event: EndEvent<(), ()> = EndEvent::Unprocessed { id: 3 };
    let text = format!(in alloc; "{act:?} {acted:?} {event:?}")?;
    Ok(text.as_str() == "Pump(Client) Count(4) Unprocessed { id: 3 }")
}

/// Whether errors are printed so.
fn prints_errors(alloc: Global) -> Result<bool, AllocError> {
    let (error, fault) = (LinkError::Reset(7), LinkFault);
    let text = format!(in alloc; "{error:?} {fault:?}")?;
    Ok(text.as_str() == "Reset(7) LinkFault")
}

#[test]
fn debug(rt: HostRuntime) {
    let alloc = rt.alloc();
    assert!(rt; prints_fetched(alloc).unwrap_or(false));
    assert!(rt; prints_acts(alloc).unwrap_or(false));
    assert!(rt; prints_errors(alloc).unwrap_or(false));
}
