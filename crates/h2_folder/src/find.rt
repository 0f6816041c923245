//! Finds the file that a path names, within the folder.

ghost use Rattle.std.specs.Prelude.{◌≡◌, ◌≤◌, IfOk, IfSome};
ghost use Rattle.h2_files.specs.Paths.{texts};
ghost use Rattle.h2_folder.specs.Answering.{most_at_once};
ghost use Rattle.h2_folder.specs.FoundFiles.{IsCopyOf, IsSmallIfRead, ReadsOctets};
ghost use Rattle.h2_folder.specs.FoundFiles.{found_length, found_modified};
ghost use Rattle.h2_folder.specs.Refusals.{missing_at, status_of_missing};

use crate::answer::plain_head;
use crate::recent::{MOST_AT_ONCE, Recent, RecentFile};
use h2_files::path_below;
use std::alloc::{AllocError, Global};
use std::fs::{self, Files, Metadata, OpenFile};
use std::io::{self, ErrorKind, Read};
use std::os::unix::fs::MetadataExt;

/// EMFILE: the process has no file descriptor left; no [`ErrorKind`] names it.
const NO_DESCRIPTOR: i32 = 24;

/// ENFILE: the system has no file descriptor left.
const NO_DESCRIPTOR_OF_ALL: i32 = 23;

/// Why a path has no file that is served.
#[derive(Clone, Copy, Debug, PartialEq, Eq, Hash)]
pub enum Missing {
    /// There is no such file: 404.
    NotFound,
    /// A symbolic link or anything below one, a file that is not regular, or one that may not be
    /// read: 403.
    Forbidden,
    /// The file system failed: 500.
    Failed,
    /// Out of memory, or out of descriptors: 503.
    Busy,
}

impl Missing {
    /// The status of the answer (RFC 9110, section 15).
    pub fn status(self) -> u16
        ensures { result ≡ status_of_missing self }
    {
        match self {
            Missing::NotFound => 404,
            Missing::Forbidden => 403,
            Missing::Failed => 500,
            Missing::Busy => 503,
        }
    }
}

impl From<AllocError> for Missing {
    ghost use Rattle.std.specs.Prelude.{◌≡◌};
    ghost use Rattle.h2_folder.specs.declared.find.Missing.TheVariants.{Busy};

    ghost from_gives = { λ _ missing. missing ≡ Busy };

    fn from(_error: AllocError) -> Missing {
        Missing::Busy
    }
}

/// A file that was found.
#[derive(Drop)]
pub(crate) enum Found<F> {
    /// A small file, which was read.
    Small {
        /// Its octets.
        octets: Vec<u8>,
        /// The time of its last modification, in seconds since 1970.
        modified: u64,
    },
    /// A file that was opened.
    Open {
        /// The file.
        file: F,
        /// The number of its octets.
        length: u64,
        /// The time of its last modification, in seconds since 1970.
        modified: u64,
    },
}

impl<F> Found<F> {
    /// The number of its octets.
    pub(crate) fn length(&self) -> u64
        ensures { result ≡ found_length self.now }
    {
        match self {
            Found::Small { octets, .. } => octets.len() as u64,
            Found::Open { length, .. } => *length,
        }
    }

    /// The time of its last modification, in seconds since 1970.
    pub(crate) fn modified(&self) -> u64
        ensures { result ≡ found_modified self.now }
    {
        match self {
            Found::Small { modified, .. } => *modified,
            Found::Open { modified, .. } => *modified,
        }
    }
}

/// Finds the file with these names below a root: a small one in the cache, if there is one, or
/// else in the file system; a small one is then read and cached.
pub(crate) fn find<R: Files>(
    files: &R,
    alloc: Global,
    root: &str,
    names: &[String],
    recent: Option<&Recent>,
    now: u64,
) -> Result<Found<R::File>, Missing>
    ensures { IfOk result IsSmallIfRead }
{
    // Nothing is cached if the time is unknown.
    let Some(recent) = recent_at(recent, now) else {
        return read_new(files, alloc, root, names);
    };
    if let Some((octets, modified)) = recent.get(alloc, names, now) {
        return Ok(Found::Small { octets, modified });
    }
    let found = read_new(files, alloc, root, names)?;
    if let Some(copy) = copy_of(alloc, names, now, &found) {
        recent.keep(alloc, copy);
    }
    Ok(found)
}

/// The cache; none if the time is unknown.
pub(crate) fn recent_at<'a>(recent: Option<&'a Recent>, now: u64) -> Option<&'a Recent> {
    if now == 0 { None } else { recent }
}

// contract: files (own) What a small file had in a second is answered in that second alone
/// A copy of a small file with these names, read in this second; none if memory is refused.
fn copy_of<F>(alloc: Global, names: &[String], second: u64, found: &Found<F>) -> Option<RecentFile>
    ensures { IfSome result (λ file. IsCopyOf found.now (texts names.now) second file) }
{
    match found {
        Found::Small { octets, modified } => {
            kept_file(alloc, names, second, *modified, octets).ok()
        }
        Found::Open { .. } => None,
    }
}

// contract: files (own) What a small file had in a second is answered in that second alone
/// A small file read in this second, with copies of its names and octets.
fn kept_file(
    alloc: Global,
    names: &[String],
    second: u64,
    modified: u64,
    octets: &[u8],
) -> Result<RecentFile, AllocError>
    ensures { IfOk result (λ file. (file.names ≡ texts names.now) × (file.second ≡ second)
        × (file.modified ≡ modified) × (file.octets ≡ octets.now)) }
{
    let head = plain_head(alloc, names, second, modified, octets)?;
    let copies = copy_names(alloc, names)?;
    let copy = Vec::from_slice(alloc, octets)?;
    Ok(RecentFile {
        names: copies,
        second,
        modified,
        octets: copy,
        head,
    })
}

/// Copies of names.
fn copy_names(alloc: Global, names: &[String]) -> Result<Vec<String>, AllocError>
    ensures { IfOk result (λ copies. texts copies.items ≡ texts names.now) }
{
    let mut copies = Vec::with_capacity(alloc, names.len())?;
    for name in names {
        copies.push(String::from_str(alloc, name.as_str())?)?;
    }
    Ok(copies)
}

/// Opens the file with these names below a root, and reads it if it is small.
fn read_new<R: Files>(
    files: &R,
    alloc: Global,
    root: &str,
    names: &[String],
) -> Result<Found<R::File>, Missing>
    ensures { IfOk result IsSmallIfRead }
{
    let path = path_below(alloc, root, names)?;
    let opened = open(files, alloc, root, names, path.as_str())?;
    read_small(alloc, opened)
}

/// A file that was opened.
#[derive(Drop)]
struct Opened<F> {
    file: F,
    length: u64,
    /// The time of its last modification, in seconds since 1970.
    modified: u64,
}

/// Opens the file with these names below a root, at this path. Neither it nor a folder on its
/// path may be a symbolic link, which is checked before and after it is opened: the second check
/// is of the file that was opened.
fn open<R: Files>(
    files: &R,
    alloc: Global,
    root: &str,
    names: &[String],
    path: &str,
) -> Result<Opened<R::File>, Missing> {
    let before = walk(files, alloc, root, names)?;
    let file = match fs::open(files, path) {
        Ok(file) => file,
        Err(error) => return Err(missing_by(&error)),
    };
    let opened = about(file.metadata())?;
    let after = walk(files, alloc, root, names)?;
    if !is_same(&opened, &before) || !is_same(&opened, &after) {
        return Err(Missing::Forbidden);
    }
    Ok(Opened {
        file,
        length: opened.len(),
        modified: u64::try_from(opened.mtime()).unwrap_or(0),
    })
}

/// Reads an open file if it is small.
fn read_small<F: Read + Drop>(alloc: Global, opened: Opened<F>) -> Result<Found<F>, Missing>
    ensures { IfOk result IsSmallIfRead }
{
    let Opened {
        mut file,
        length,
        modified,
    } = opened;
    if length > MOST_AT_ONCE {
        return Ok(Found::Open {
            file,
            length,
            modified,
        });
    }
    let octets = read_octets(alloc, &mut file, length)?;
    Ok(Found::Small { octets, modified })
}

/// The next `count` octets of a file; [`Missing::Failed`] if it has become shorter.
fn read_octets<F: Read>(alloc: Global, file: &mut F, count: u64) -> Result<Vec<u8>, Missing>
    requires { count ≤ most_at_once }
    ensures { IfOk result (λ octets. ReadsOctets (F.remaining file.old) (F.remaining file.new)
        count octets.items) }
{
    let mut octets = vec![in alloc; 0u8; count as usize]?;
    match file.read_exact(&mut octets) {
        Ok(()) => Ok(octets),
        Err(error) => Err(missing_by(&error)),
    }
}

/// The metadata of the file with these names below a root; each name but the last must be a
/// folder, and the last a regular file.
fn walk<R: Files>(
    files: &R,
    alloc: Global,
    root: &str,
    names: &[String],
) -> Result<Metadata, Missing> {
    for count in 1..names.len() {
        let known = look(files, alloc, root, &names[..count])?;
        if !known.is_dir() {
            return Err(not_folder(&known));
        }
    }
    let known = look(files, alloc, root, names)?;
    if known.is_dir() {
        return Err(Missing::NotFound);
    }
    if !known.is_file() {
        return Err(Missing::Forbidden);
    }
    Ok(known)
}

/// Why there is nothing below something that is not a folder.
fn not_folder(known: &Metadata) -> Missing {
    if known.is_symlink() {
        Missing::Forbidden
    } else {
        Missing::NotFound
    }
}

/// The metadata of these names, without following a link.
fn look<R: Files>(
    files: &R,
    alloc: Global,
    root: &str,
    names: &[String],
) -> Result<Metadata, Missing> {
    let path = path_below(alloc, root, names)?;
    about(fs::symlink_metadata(files, path.as_str()))
}

/// The metadata of a file, or why it is not served.
fn about(known: io::Result<Metadata>) -> Result<Metadata, Missing> {
    match known {
        Ok(known) => Ok(known),
        Err(error) => Err(missing_by(&error)),
    }
}

/// Why a path has no file, by an error: [`Missing::Busy`] if no descriptor is left.
fn missing_by(error: &io::Error) -> Missing {
    match error.raw_os_error() {
        Some(NO_DESCRIPTOR | NO_DESCRIPTOR_OF_ALL) => Missing::Busy,
        _ => missing_at(error.kind()),
    }
}

/// Whether both are of the same file.
fn is_same(one: &Metadata, other: &Metadata) -> bool {
    one.ino() == other.ino() && one.dev() == other.dev()
}

// rule: files (own) What is not there has 404, and what may not be read has 403
/// Why a path has no file, by the error of the file system.
fn missing_at(kind: ErrorKind) -> Missing
    ensures { result ≡ missing_at kind }
{
    match kind {
        ErrorKind::NotFound | ErrorKind::NotADirectory | ErrorKind::InvalidInput => {
            Missing::NotFound
        }
        ErrorKind::PermissionDenied => Missing::Forbidden,
        ErrorKind::OutOfMemory => Missing::Busy,
        _ => Missing::Failed,
    }
}
