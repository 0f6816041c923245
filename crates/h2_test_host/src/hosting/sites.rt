//! A folder's answers, and the lines of the log.

use crate::hosting::asking::{Answer, ask, list_of};
use h2_folder::Folder;
use h2_hosting::{Journal, Logged, Site};
use std::alloc::Global;
use std::fs;
use std::net::{Ipv4Addr, SocketAddr};
use std::os::unix::fs::symlink;
use std::test::Fail;

/// The folder that is served.
const ROOT: &str = "h2_test_hosting_files";

/// 1 MB, octet by octet another one than the octet before.
const LARGE: usize = 1_000_000;

/// What is asked, and the status and the length of what is answered.
type Row<'a> = (&'a [(&'a [u8], &'a [u8])], &'a [u8], usize);

/// A request of a path, with up to two more fields.
const ROWS: [Row<'static>; 16] = [
    (&[(b":method", b"GET"), (b":path", b"/")], b"200", 6),
    (&[(b":method", b"HEAD"), (b":path", b"/")], b"200", 0),
    (&[(b":method", b"GET"), (b":path", b"/below/")], b"200", 6),
    (
        &[(b":method", b"GET"), (b":path", b"/large")],
        b"200",
        LARGE,
    ),
    (&[(b":method", b"POST"), (b":path", b"/")], b"405", 23),
    (&[(b":method", b"GET"), (b":path", b"/none")], b"404", 14),
    (&[(b":method", b"GET"), (b":path", b"/below")], b"404", 14),
    (&[(b":method", b"GET"), (b":path", b"/.hidden")], b"404", 14),
    (&[(b":method", b"GET"), (b":path", b"/link")], b"403", 14),
    (
        &[(b":method", b"GET"), (b":path", b"/linked/index.html")],
        b"403",
        14,
    ),
    (
        &[
            (b":method", b"GET"),
            (b":path", b"/large"),
            (b"range", b"bytes=10-19"),
        ],
        b"206",
        10,
    ),
    (
        &[
            (b":method", b"GET"),
            (b":path", b"/large"),
            (b"range", b"bytes=9999999-"),
        ],
        b"416",
        26,
    ),
    (
        &[
            (b":method", b"GET"),
            (b":path", b"/"),
            (b"if-match", b"\"x\""),
        ],
        b"412",
        24,
    ),
    (
        &[
            (b":method", b"GET"),
            (b":path", b"/"),
            (b"if-none-match", b"*"),
        ],
        b"304",
        0,
    ),
    // two lines are one list (RFC 9110, section 5.3), in which `*` is no tag
    (
        &[
            (b":method", b"GET"),
            (b":path", b"/"),
            (b"if-none-match", b"*"),
            (b"if-none-match", b"\"x\""),
        ],
        b"200",
        6,
    ),
    // two ranges are a set, which is not served
    (
        &[
            (b":method", b"GET"),
            (b":path", b"/"),
            (b"range", b"bytes=0-1"),
            (b"range", b"bytes=3-4"),
        ],
        b"200",
        6,
    ),
];

/// Makes the folder.
fn make_root(rt: &HostRuntime) -> Result<(), Fail> {
    let _ = fs::remove_dir_all(rt, ROOT); // of an earlier run
    fs::create_dir_all(rt, "h2_test_hosting_files/below")?;
    fs::write(
        rt,
        "h2_test_hosting_files/index.html",
        b"hello\n".as_slice(),
    )?;
    fs::write(
        rt,
        "h2_test_hosting_files/below/index.html",
        b"below\n".as_slice(),
    )?;
    fs::write(rt, "h2_test_hosting_files/.hidden", b"hidden\n".as_slice())?;
    let mut large = vec![in rt.alloc(); 0u8; LARGE]?;
    let mut octet = 0u8;
    for place in large.iter_mut() {
        *place = octet;
        octet = octet.wrapping_add(1);
    }
    fs::write(rt, "h2_test_hosting_files/large", large.as_slice())?;
    symlink(rt, "index.html", "h2_test_hosting_files/link")?;
    symlink(rt, "below", "h2_test_hosting_files/linked")?;
    Ok(())
}

/// What the folder answers to a row, with room for so many octets at once.
fn answer_to(rt: &HostRuntime, alloc: Global, row: &Row<'_>, room: usize) -> Option<Answer> {
    let mut site = Site {
        folder: Folder {
            rt,
            root: ROOT,
            recent: None,
        },
    };
    let list = list_of(alloc, row.0)?;
    let mut room = vec![in alloc; 0u8; room].ok()?;
    ask(alloc, &mut site, &list, &mut room)
}

/// Whether a row is answered as it says.
fn holds(rt: &HostRuntime, alloc: Global, row: &Row<'_>, room: usize) -> bool {
    match answer_to(rt, alloc, row, room) {
        Some(answer) => answer.status.as_slice() == row.1 && answer.body.len() == row.2,
        None => false,
    }
}

/// The number of the first row that is not answered as it says, with room for so many octets.
fn differs(rt: &HostRuntime, alloc: Global, room: usize) -> Option<usize> {
    let mut number = 0usize;
    for row in &ROWS {
        if !holds(rt, alloc, row, room) {
            return Some(number);
        }
        number = number.saturating_add(1);
    }
    None
}

/// The line of a request, without its time; none where it has none.
fn line_of(rt: &HostRuntime, alloc: Global, path: &[u8]) -> Option<Vec<u8>> {
    let journal = Journal::new(alloc);
    let mut logged = Logged {
        clock: rt,
        journal: Some(&journal),
        alloc,
        peer: SocketAddr::from((Ipv4Addr::LOCALHOST, 1)),
        handler: Site {
            folder: Folder {
                rt,
                root: ROOT,
                recent: None,
            },
        },
        lost: 0,
    };
    let list = list_of(alloc, &[(b":method", b"GET"), (b":path", path)])?;
    let mut room = [0u8; 1_000];
    ask(alloc, &mut logged, &list, &mut room)?;
    let mut line = journal.take(alloc);
    let start = line.iter().position(|octet| *octet == b'[')?;
    let end = line.iter().position(|octet| *octet == b']')?;
    let rest = line.split_off(end).ok()?;
    line.truncate(start);
    line.extend_from_slice(&rest).ok()?;
    Some(line)
}

// rule: HTTP 5.3 A field in several lines has their values, joined by commas
// One test, since the folder is one: what is answered, with room for one octet's worth and for
// many, and the lines of two requests.
#[test]
fn a_folder(rt: HostRuntime) -> Result<(), Fail> {
    make_root(&rt)?;
    for room in [1_000usize, 16_384] {
        assert_eq!(rt; differs(&rt, rt.alloc(), room), None);
    }
    let rows: [(&[u8], &[u8]); 2] = [
        (b"/", b"127.0.0.1 - - ] \"GET / HTTP/2.0\" 200 6\n"),
        (
            b"/\"\x01\\",
            b"127.0.0.1 - - ] \"GET /\\x22\\x01\\x5c HTTP/2.0\" 404 14\n",
        ),
    ];
    for (path, wanted) in rows {
        let is_so = match line_of(&rt, rt.alloc(), path) {
            Some(line) => line.as_slice() == wanted,
            None => false,
        };
        assert!(rt; is_so);
    }
    fs::remove_dir_all(&rt, ROOT)?;
    Ok(())
}
