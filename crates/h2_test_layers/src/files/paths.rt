//! Paths, the names that they give, and types.

use h2_files::{Method, PathFault, file_names, media_type, path_below};
use std::alloc::Global;

/// The path below a root that a request's path gives.
fn path_of(alloc: Global, path: &str) -> Result<String, PathFault> {
    let names = file_names(alloc, path.as_bytes())?;
    Ok(path_below(alloc, "root", &names)?)
}

/// Whether a request's path gives a path below the root.
fn gives(alloc: Global, path: &str, wanted: &str) -> bool {
    path_of(alloc, path).is_ok_and(|found| found.as_str() == wanted)
}

/// Whether a request's path is refused for a fault, with this status.
fn refuses(alloc: Global, path: &str, fault: PathFault, status: u16) -> bool {
    path_of(alloc, path).is_err_and(|found| found == fault) && fault.status() == status
}

#[test]
fn paths_of_files(rt: HostRuntime) {
    let rows = [
        ("/a.txt", "root/a.txt"),
        ("/a/b%20c?d=/..", "root/a/b c"),
        ("/", "root/index.html"),
        ("/%C3%A9/", "root/\u{e9}/index.html"),
        ("/%252e%252e", "root/%2e%2e"),
    ];
    for (path, wanted) in rows {
        assert!(rt; gives(rt.alloc(), path, wanted), "{path}");
    }
}

#[test]
fn paths_that_are_refused(rt: HostRuntime) {
    let rows = [
        ("a", PathFault::NotAbsolute, 400),
        ("/%2", PathFault::BadEscape, 400),
        ("/%00", PathFault::Control, 400),
        ("/%FF", PathFault::NotText, 400),
        ("//a", PathFault::Empty, 404),
        ("/a/%2e%2E/b", PathFault::Dot, 404),
        ("/..%2fb", PathFault::Dot, 404),
        ("/a%2F..%2Fb", PathFault::Separator, 404),
        ("/a\\b", PathFault::Separator, 404),
    ];
    for (path, fault, status) in rows {
        assert!(rt; refuses(rt.alloc(), path, fault, status), "{path}");
    }
}

/// A path of so many octets.
fn long_path(alloc: Global, parts: usize) -> Option<Vec<u8>> {
    let mut path = Vec::new(alloc);
    for _ in 0..parts {
        path.extend_from_slice(b"/aaaaaaaaaaaaaaa").ok()?;
    }
    Some(path)
}

/// Whether a path of so many parts of 16 octets is too long.
fn is_too_long(alloc: Global, parts: usize) -> bool {
    let path = long_path(alloc, parts).unwrap_or(Vec::new(alloc));
    file_names(alloc, path.as_slice()).is_err_and(|fault| fault == PathFault::TooLong)
}

#[test]
fn paths_of_the_greatest_length(rt: HostRuntime) {
    assert!(rt; !is_too_long(rt.alloc(), 256));
    assert!(rt; is_too_long(rt.alloc(), 257));
    assert_eq!(rt; PathFault::TooLong.status(), 414);
    assert_eq!(rt; PathFault::LongName.status(), 404);
    assert_eq!(rt; PathFault::Memory.status(), 503);
}

#[test]
fn types_and_methods(rt: HostRuntime) {
    assert_eq!(rt; media_type("a.b.html"), "text/html; charset=utf-8");
    assert_eq!(rt; media_type("a"), "application/octet-stream");
    assert_eq!(rt; Method::of(b"GET"), Some(Method::Get));
    assert_eq!(rt; Method::of(b"get"), None);
}
