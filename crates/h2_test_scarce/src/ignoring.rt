//! A scenario that ignores that memory was refused. It passes with ample memory, and
//! `faults/scarce` wants it to fail where the one allocation that it makes is refused.

use crate::record::{Record, Scenario, holds};
use h2_frame::{FrameRef, write_ref};
use std::alloc::Global;

/// A frame that is written, or not.
#[derive(Drop)]
struct Ignoring;

impl Scenario for Ignoring {
    fn run(&mut self, record: &mut Record) {
        let mut out = Vec::new(record.alloc);
        let _ignored = write_ref(FrameRef::Reset { stream: 1, code: 8 }, &mut out);
        record.put_out(&out);
    }
}

/// Whether a refusal that is ignored shows.
fn ignores(alloc: Global) -> bool {
    holds(alloc, &mut Ignoring, &mut Ignoring)
}

#[test]
fn ignoring_a_refusal(rt: HostRuntime) {
    assert!(rt; ignores(rt.alloc()));
}
