//! A cache of small files, each for one second.

ghost use Rattle.std.specs.Prelude.{◌≡◌, ◌≤◌, ◌⊎◌, ℕ, Contains, IfOk, IfSome, Some, length, true};
ghost use Rattle.h2_files.specs.Paths.{texts};
ghost use Rattle.h2_folder.specs.Answering.{most_at_once};
ghost use Rattle.h2_folder.specs.FoundFiles.{GivesKept};
ghost use Rattle.h2_folder.specs.Recents.{IsKeptFile, IsPlainAnswer, KeptFile};

use h2_message::{Field, Message};
use std::alloc::{AllocError, Global};
use std::cell::RefCell;
use std::marker::Model;

/// The maximum length of a file that is read and sent at once.
pub(crate) const MOST_AT_ONCE: u64 = 16_384;

/// The maximum number of cached files.
const PLACES: usize = 256;

/// The hash of no octets (FNV-1a, 64 bits).
const FNV_BASIS: u64 = 0xcbf2_9ce4_8422_2325;

/// The factor by which the hash is multiplied at each octet.
const FNV_PRIME: u64 = 0x0000_0100_0000_01b3;

/// A small file, as it was read in a second.
#[derive(Drop)]
pub struct RecentFile {
    /// The names of its path below its folder.
    pub(crate) names: Vec<String>,
    /// The second since 1970 in which it was read.
    pub(crate) second: u64,
    /// The time of its last modification, in seconds since 1970.
    pub(crate) modified: u64,
    /// Its octets.
    pub(crate) octets: Vec<u8>,
    /// The head of the answer to a GET of it without conditions, in that second.
    pub(crate) head: Vec<Field>,
}

impl Model for RecentFile {
    ghost use Rattle.std.specs.Prelude.{length};
    ghost use Rattle.h2_files.specs.Paths.{texts};
    ghost use Rattle.h2_folder.specs.Recents.{IsPlainHead, KeptFile};

    ghost Value = { KeptFile };

    ghost view = { λ file. record {
      names = texts file.names.items;
      second = file.second;
      modified = file.modified;
      octets = file.octets.items;
    } };

    ghost invariant = { λ file. IsPlainHead (texts file.names.items) file.second file.modified
        (length file.octets.items) file.head.items };
}

impl RecentFile {
    // rule: files (own) What a small file had in a second is answered in that second alone
    /// Whether it has these names and was read in this second.
    fn is_of(&self, names: &[String], second: u64) -> bool
        ensures names { result ≡ true → self.now.names ≡ texts names.now }
        ensures second { result ≡ true → self.now.second ≡ second }
    {
        self.second == second && are_same(&self.names, names)
    }

    /// The place of its names.
    fn place(&self) -> usize {
        place_of(&self.names)
    }

    /// The time of its last modification, in seconds since 1970.
    fn modified(&self) -> u64
        ensures { result ≡ self.now.modified }
    {
        self.modified
    }

    /// A copy of its octets; none if memory is refused.
    fn copy(&self, alloc: Global) -> Option<Vec<u8>>
        ensures same { IfSome result (λ octets. octets.items ≡ self.now.octets) }
        ensures few { IfSome result (λ octets. length octets.items ≤ most_at_once) }
    {
        if self.octets.len() as u64 > MOST_AT_ONCE {
            return None;
        }
        Vec::from_slice(alloc, &self.octets).ok()
    }

    /// A copy of the answer to a GET without conditions; none if the file is empty or memory is
    /// refused.
    fn answer(&self, alloc: Global) -> Option<Message>
        ensures { IfSome result (IsPlainAnswer self.now.names self.now.second self.now.modified) }
    {
        if self.octets.is_empty() || self.octets.len() as u64 > MOST_AT_ONCE {
            return None;
        }
        Some(Message {
            head: copy_fields(alloc, &self.head).ok()?,
            body: Vec::from_slice(alloc, &self.octets).ok()?,
            trailers: None,
        })
    }
}

/// Copies of fields.
fn copy_fields(alloc: Global, fields: &[Field]) -> Result<Vec<Field>, AllocError>
    ensures { IfOk result (λ copies. copies.items ≡ fields.now) }
{
    let mut copies = Vec::with_capacity(alloc, fields.len())?;
    for field in fields {
        let (name, value) = (field.name.as_slice(), field.value.as_slice());
        copies.push(Field::copy_of(alloc, name, value, field.sensitive)?)?;
    }
    Ok(copies)
}

/// Cached files, each in the slot of its names, where it replaces the one before.
#[derive(Drop)]
pub(crate) struct RecentFiles {
    /// The slots; empty before the first file is cached.
    places: Vec<Option<RecentFile>>,
}

impl RecentFiles {
    // contract: files (own) What a small file had in a second is answered in that second alone
    // rule: files (own) What a small file had in a second is answered in that second alone
    /// The file with these names that was read in this second, if it is cached.
    fn at(&self, names: &[String], second: u64) -> Option<&RecentFile>
        ensures { IfSome result (λ file. IsKeptFile self.entry.now.places.items
            (texts names.now) second file.now) }
    {
        match self.places.get(place_of(names)) {
            Some(Some(file)) if file.is_of(names, second) => Some(file),
            _ => None,
        }
    }

    /// A copy of the octets of the file with these names that was read in this second, and the
    /// time of its last modification; none if it is not cached, or memory is refused.
    fn copy_at(&self, alloc: Global, names: &[String], second: u64) -> Option<(Vec<u8>, u64)>
        ensures kept { IfSome result (λ found. GivesKept self.now.places.items (texts names.now)
            second found.0.items found.1) }
        ensures few { IfSome result (λ found. length found.0.items ≤ most_at_once) }
    {
        let file = self.at(names, second)?;
        let octets = file.copy(alloc)?;
        Some((octets, file.modified()))
    }

    // contract: files (own) What a small file had in a second is answered in that second alone
    /// The answer to a GET without conditions for the file with these names that was read in
    /// this second; none if it is not cached, is empty, or memory is refused.
    fn answer_at(&self, alloc: Global, names: &[String], second: u64) -> Option<Message>
        ensures { IfSome result (λ message. (modified : ℕ)
            × IsPlainAnswer (texts names.now) second modified message) }
    {
        let file = self.at(names, second)?;
        file.answer(alloc)
    }

    // contract: files (own) What a small file had in a second is answered in that second alone
    /// Caches a file in the slot of its names, unless memory is refused.
    fn keep(&mut self, alloc: Global, file: RecentFile)
        ensures { (one : KeptFile) → Contains self.new.places.items (Some one)
            → (one ≡ file) ⊎ Contains self.old.places.items (Some one) }
    {
        if self.places.is_empty() {
            match empty_places(alloc) {
                Ok(places) => self.places = places,
                Err(_) => return,
            }
        }
        if let Some(place) = self.places.get_mut(file.place()) {
            *place = Some(file);
        }
    }
}

/// Empty slots.
fn empty_places(alloc: Global) -> Result<Vec<Option<RecentFile>>, AllocError>
    ensures { IfOk result (λ places. (one : KeptFile) → Contains places.items (Some one) → ⊥) }
{
    let mut places = Vec::with_capacity(alloc, PLACES)?;
    for _ in 0..PLACES {
        places.push(None)?;
    }
    Ok(places)
}

/// Whether names are the same.
fn are_same(names: &[String], others: &[String]) -> bool
    ensures { result ≡ true → texts names.now ≡ texts others.now }
{
    if names.len() != others.len() {
        return false;
    }
    for place in 0..names.len() {
        if names[place].as_str() != others[place].as_str() {
            return false;
        }
    }
    true
}

/// The place of names.
fn place_of(names: &[String]) -> usize {
    let mut hash = FNV_BASIS;
    for name in names {
        for octet in name.as_bytes() {
            hash = hash_on(hash, *octet);
        }
        hash = hash_on(hash, 0);
    }
    (hash % PLACES as u64) as usize
}

/// A hash with one more octet.
fn hash_on(hash: u64, octet: u8) -> u64 {
    (hash ^ u64::from(octet)).wrapping_mul(FNV_PRIME)
}

/// A cache of the small files of one folder and the heads of their answers, each for one second.
///
/// It holds at most 256 files of at most 16,384 octets each: 4 MiB. A file that changes is seen
/// in the next second. 404 and 403 are not cached.
#[derive(Drop)]
pub struct Recent {
    files: RefCell<RecentFiles>,
}

impl Recent {
    /// Creates an empty cache.
    pub fn new(alloc: Global) -> Recent {
        Recent {
            files: RefCell::new(RecentFiles {
                places: Vec::new(alloc),
            }),
        }
    }

    /// A copy of the octets of the file with these names that was read in this second, and the
    /// time of its last modification; none if it is not cached, or memory is refused.
    pub(crate) fn get(&self, alloc: Global, names: &[String], second: u64) -> Option<(Vec<u8>, u64)>
        ensures { IfSome result (λ found. length found.0.items ≤ most_at_once) }
    {
        match self.files.try_borrow() {
            Ok(files) => files.copy_at(alloc, names, second),
            Err(_) => None,
        }
    }

    // contract: files (own) What a small file had in a second is answered in that second alone
    /// The answer to a GET without conditions for the file with these names that was read in
    /// this second; none if it is not cached, is empty, or memory is refused.
    pub(crate) fn answer(&self, alloc: Global, names: &[String], second: u64) -> Option<Message>
        ensures { IfSome result (λ message. (modified : ℕ)
            × IsPlainAnswer (texts names.now) second modified message) }
    {
        match self.files.try_borrow() {
            Ok(files) => files.answer_at(alloc, names, second),
            Err(_) => None,
        }
    }

    /// Caches a file, unless memory is refused.
    pub(crate) fn keep(&self, alloc: Global, file: RecentFile) {
        if let Ok(mut files) = self.files.try_borrow_mut() {
            files.keep(alloc, file);
        }
    }
}
