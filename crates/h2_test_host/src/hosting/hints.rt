//! What a host says that can't begin.

use h2_cli::Status;
use h2_hosting::{HostOptions, host_port};
use std::net::{IpAddr, Ipv4Addr};
use std::test::Fail;

/// A host of a folder at any port of an address.
fn options_of<'a>(root: Option<&'a str>, address: [u8; 4]) -> HostOptions<'a> {
    let [a, b, c, d] = address;
    HostOptions {
        port: 0,
        address: IpAddr::V4(Ipv4Addr::new(a, b, c, d)),
        root,
        connections: 1,
        idle: 0,
        log: false,
        until_closed: false,
        window: 65_535,
    }
}

/// Whether a host ends with [`Status::Device`] at once, and says so.
fn says(rt: &HostRuntime, options: HostOptions<'_>, text: &str) -> bool {
    let mut out = Vec::new(rt.alloc());
    let mut err = Vec::new(rt.alloc());
    let status = host_port(rt, rt.alloc(), options, &mut out, &mut err);
    status == Status::Device && err.as_slice() == text.as_bytes() && out.is_empty()
}

// rule: hosts (own) A host says which folder, address or input it can't have
#[test]
fn folder_that_is_none_is_named(rt: HostRuntime) -> Result<(), Fail> {
    let missing = options_of(Some("/no/folder"), [127, 0, 0, 1]);
    assert!(rt;
        says(
            &rt,
            missing,
            "N1 Device\nhint: folder /no/folder does not exist\n"
        )
    );
    let device = options_of(Some("/dev/null"), [127, 0, 0, 1]);
    assert!(rt; says(&rt, device, "N1 Device\nhint: /dev/null is not a folder\n"));
    Ok(())
}

// rule: hosts (own) A host says which folder, address or input it can't have
#[test]
fn address_of_another_machine_is_said(rt: HostRuntime) -> Result<(), Fail> {
    let other = options_of(None, [192, 0, 2, 1]); // TEST-NET-1 (RFC 5737)
    let text = "N1 Device\nhint: address not available\n";
    assert!(rt; says(&rt, other, text));
    Ok(())
}
