//! A folder's answers within a second, and in the next one.

use crate::hosting::asking::{Answer, ask, list_of};
use h2_folder::{Folder, Recent};
use h2_hosting::Site;
use std::alloc::{Allocator, Global};
use std::cell::Cell;
use std::fs::{self, Files, Metadata, OpenOptions};
use std::io;
use std::test::Fail;
use std::time::{Clock, Duration};

/// The folder that is served.
const ROOT: &str = "h2_test_hosting_seconds";

/// The file system, and a clock that the test sets.
#[derive(Drop)]
struct At<'a, R> {
    rt: &'a R,
    /// The second after 1970.
    second: Cell<u64>,
}

impl<'a, R: Clock> Clock for At<'a, R> {
    fn monotonic(&self) -> io::Result<Duration> {
        self.rt.monotonic()
    }

    fn since_1970(&self) -> io::Result<Duration> {
        Ok(Duration::from_secs(self.second.get()))
    }
}

impl<'a, R: Files> Files for At<'a, R> {
    type File = R::File;

    type Dir = R::Dir;

    fn open_file(&self, how: &OpenOptions, path: &str) -> io::Result<R::File> {
        self.rt.open_file(how, path)
    }

    fn open_dir(&self, path: &str) -> io::Result<R::Dir> {
        self.rt.open_dir(path)
    }

    fn metadata(&self, path: &str) -> io::Result<Metadata> {
        self.rt.metadata(path)
    }

    fn symlink_metadata(&self, path: &str) -> io::Result<Metadata> {
        self.rt.symlink_metadata(path)
    }

    fn copy(&self, from: &str, to: &str) -> io::Result<u64> {
        self.rt.copy(from, to)
    }

    fn rename(&self, from: &str, to: &str) -> io::Result<()> {
        self.rt.rename(from, to)
    }

    fn remove_file(&self, path: &str) -> io::Result<()> {
        self.rt.remove_file(path)
    }

    fn create_dir(&self, path: &str) -> io::Result<()> {
        self.rt.create_dir(path)
    }

    fn remove_dir(&self, path: &str) -> io::Result<()> {
        self.rt.remove_dir(path)
    }

    fn remove_dir_all<B: Allocator>(&self, alloc: B, path: &str) -> io::Result<()> {
        self.rt.remove_dir_all(alloc, path)
    }
}

/// The answer to a GET of a file at once, with one more field where there is one.
fn answer_at<R: Files + Clock>(
    rt: &R,
    alloc: Global,
    recent: &Recent,
    field: Option<(&[u8], &[u8])>,
) -> Option<Answer> {
    let mut site = Site {
        folder: Folder {
            rt,
            root: ROOT,
            recent: Some(recent),
        },
    };
    let get: [(&[u8], &[u8]); 2] = [(b":method", b"GET"), (b":path", b"/")];
    let list = match field {
        Some(field) => list_of(alloc, &[get[0], get[1], field])?,
        None => list_of(alloc, &get)?,
    };
    // Nothing is given in parts: there is no room for them.
    ask(alloc, &mut site, &list, &mut [])
}

/// Whether that answer has this status and this body.
fn is_answer<R: Files + Clock>(
    rt: &R,
    alloc: Global,
    recent: &Recent,
    field: Option<(&[u8], &[u8])>,
    wanted: (&[u8], &[u8]),
) -> bool {
    match answer_at(rt, alloc, recent, field) {
        Some(answer) => answer.status.as_slice() == wanted.0 && answer.body.as_slice() == wanted.1,
        None => false,
    }
}

/// Whether the body of the answer to a GET, with a range where there is one, is this one.
fn is_body<R: Files + Clock>(
    rt: &R,
    alloc: Global,
    recent: &Recent,
    range: Option<&[u8]>,
    wanted: &[u8],
) -> bool {
    match range {
        Some(range) => is_answer(rt, alloc, recent, Some((b"range", range)), (b"206", wanted)),
        None => is_answer(rt, alloc, recent, None, (b"200", wanted)),
    }
}

/// Whether a GET with the tag of the file has 304, without a body.
fn is_not_modified<R: Files + Clock>(rt: &R, alloc: Global, recent: &Recent) -> bool {
    let Some(first) = answer_at(rt, alloc, recent, None) else {
        return false;
    };
    let tag: (&[u8], &[u8]) = (b"if-none-match", first.tag.as_slice());
    !first.tag.is_empty() && is_answer(rt, alloc, recent, Some(tag), (b"304", b""))
}

// rule: files (own) What a small file had in a second is answered in that second alone
// A small file is answered whole, or a part of it, or as not modified, whether it is kept or not;
// one that has changed as it was, within the second, and as it is in the next one, and where the
// time isn't known.
#[test]
fn a_small_file(rt: HostRuntime) -> Result<(), Fail> {
    let _ = fs::remove_dir_all(&rt, ROOT); // of an earlier run
    fs::create_dir_all(&rt, ROOT)?;
    fs::write(
        &rt,
        "h2_test_hosting_seconds/index.html",
        b"before\n".as_slice(),
    )?;
    let at = At {
        rt: &rt,
        second: Cell::new(1_000),
    };
    let alloc = rt.alloc();
    let recent = Recent::new(alloc);
    assert!(rt; is_body(&at, alloc, &recent, None, b"before\n"));
    assert!(rt; is_body(&at, alloc, &recent, Some(b"bytes=2-4"), b"for"));
    assert!(rt; is_not_modified(&at, alloc, &recent));
    assert!(rt; is_body(&at, alloc, &recent, None, b"before\n"));
    fs::write(
        &rt,
        "h2_test_hosting_seconds/index.html",
        b"changed\n".as_slice(),
    )?;
    assert!(rt; is_body(&at, alloc, &recent, None, b"before\n"));
    at.second.set(0);
    assert!(rt; is_body(&at, alloc, &recent, None, b"changed\n"));
    at.second.set(1_000);
    assert!(rt; is_body(&at, alloc, &recent, None, b"before\n"));
    at.second.set(1_001);
    assert!(rt; is_body(&at, alloc, &recent, None, b"changed\n"));
    assert!(rt; is_body(&at, alloc, &recent, Some(b"bytes=-3"), b"ed\n"));
    fs::remove_dir_all(&rt, ROOT)?;
    Ok(())
}
