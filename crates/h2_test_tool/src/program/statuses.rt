//! Statuses, and the lines of errors.

use h2_cli::Status;
use h2_net::{Ending, LinkError, Why, report, status_of};
use std::alloc::Global;

/// Whether a connection that ends so has this status, and these lines.
fn reports(alloc: Global, ending: Ending, status: Status, lines: &str) -> bool {
    let mut err = Vec::new(alloc);
    status_of(ending.error) == status
        && report(ending, &mut err) == status
        && err.as_slice() == lines.as_bytes()
}

// rule: engines (own) N1 to N7 end a command with their statuses
// rule: links (own) N1 to N7 are printed with their names and codes
#[test]
fn statuses_of_errors(rt: HostRuntime) {
    let cases = [
        (LinkError::Device, Status::Device, "N1 Device\n"),
        (LinkError::Stream(11), Status::Fault, "N2 Stream 11\n"),
        (LinkError::Memory, Status::Memory, "N3 Memory\n"),
        (LinkError::CutOff, Status::Fault, "N4 CutOff\n"),
        (LinkError::NoProgress, Status::Device, "N5 NoProgress\n"),
        (LinkError::Reset(8), Status::Fault, "N6 Reset 8\n"),
        (LinkError::Refused, Status::Usage, "N7 Refused\n"),
    ];
    for (error, status, line) in cases {
        let ending = Ending::from(error);
        assert!(rt; reports(rt.alloc(), ending, status, line), "{error}");
    }
    let ending = Ending {
        error: LinkError::Memory,
        hint: None,
        why: Some(Why::OutOfMemory),
    };
    assert!(rt; reports(rt.alloc(), ending, Status::Memory, "N3 Memory\n"));
}

// rule (best): show (own) The status is 0 only where the input is good to its end
#[test]
fn exit_codes(rt: HostRuntime) {
    let codes = [
        (Status::Good, 0),
        (Status::Fault, 1),
        (Status::Usage, 2),
        (Status::Device, 3),
        (Status::Memory, 4),
    ];
    for (status, code) in codes {
        assert_eq!(rt; status.code(), code);
    }
}
