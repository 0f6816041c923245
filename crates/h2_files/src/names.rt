//! The names that the path of a request gives a file below a root.

ghost use Rattle.std.specs.Prelude.{◌≡◌, ◌++◌, All, IfOk, string_bytes};
ghost use Rattle.h2_files.specs.Paths.{GivesUnlessMemory, StaysInFolder, below, names_of};
ghost use Rattle.h2_files.specs.Paths.{names_of_path, names_of_segments, path_part, segments};
ghost use Rattle.h2_files.specs.Paths.{texts};

use crate::cut::divide;
use crate::fault::PathFault;
use crate::segments::{last_name_of, name_of_segment};
use std::alloc::{AllocError, Global};

/// The most octets of a path, without its query.
pub const MAX_PATH: usize = 4096;

// contract: files (own) A path is cut at its slashes, and a segment decoded once
// contract: files (own) A name that leaves its folder, or is hidden, is refused
/// The names below a root that a `:path` gives, folders first (RFC 9113, section 8.3.1).
///
/// Its query is dropped, and each segment's escapes are decoded once. A path that ends with a
/// slash gives the folder's `index.html`. No name leaves its folder: see [`path_below`].
///
/// # Errors
///
/// The [`PathFault`] of the path, or of the first name that is not served.
pub fn file_names(alloc: Global, path: &[u8]) -> Result<Vec<String>, PathFault>
    ensures exact { GivesUnlessMemory (λ names. texts names.items) result (names_of path.now) }
    ensures below { IfOk result (λ names. All StaysInFolder (texts names.items)) }
{
    names_of_path(alloc, before_query(path))
}

/// The path of names below a root: the root, and a slash before each name.
///
/// With the names of [`file_names`] it stays below the root: its segments after the root are these
/// names (the law [`segments_are_names`](crate::segments_are_names)), and none of them is `..`.
///
/// # Errors
///
/// Where memory is missing.
pub fn path_below(alloc: Global, root: &str, names: &[String]) -> Result<String, AllocError>
    ensures { IfOk result (λ path. string_bytes path ≡ root.now ++ below (texts names.now)) }
{
    let mut path = String::from_str(alloc, root)?;
    for name in names {
        path.push('/')?;
        path.push_str(name.as_str())?;
    }
    Ok(path)
}

/// What stands before the query (RFC 3986, section 3.4).
fn before_query(target: &[u8]) -> &[u8]
    ensures { result.now ≡ path_part target.now }
{
    match divide(target, b'?') {
        Some((path, _query)) => path,
        None => target,
    }
}

/// The names of a path without its query.
#[tactic(auto, unfolding(crate::specs::Paths::names_of_path))]
fn names_of_path(alloc: Global, path: &[u8]) -> Result<Vec<String>, PathFault>
    ensures { GivesUnlessMemory (λ names. texts names.items) result (names_of_path path.now) }
{
    if path.len() > MAX_PATH {
        return Err(PathFault::TooLong);
    }
    let [b'/', rest @ ..] = path else {
        return Err(PathFault::NotAbsolute);
    };
    names_of_segments(alloc, rest)
}

/// The names of the segments that the slashes divide.
fn names_of_segments(alloc: Global, octets: &[u8]) -> Result<Vec<String>, PathFault>
    ensures { GivesUnlessMemory (λ names. texts names.items) result
        (names_of_segments (segments octets.now)) }
{
    let mut names = Vec::new(alloc);
    let mut rest = octets;
    while let Some((segment, after)) = divide(rest, b'/') {
        names.push(name_of_segment(alloc, segment)?)?;
        rest = after;
    }
    names.push(last_name_of(alloc, rest)?)?;
    Ok(names)
}
