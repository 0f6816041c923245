//! Chains through the entries of a table, which find them by their hashes.

ghost use Rattle.std.specs.Prelude.{◌≡◌, ℕ, ◌^◌, ◌<◌, ◌≤◌, length, slice_index_or};

use circular_buffer::HeapCircularBuffer;

/// For each bucket, the entries in it, newest first. An entry is named by its place, 0 for the
/// newest, or by its number: how many were pushed up to it.
#[derive(Drop)]
pub(crate) struct Chains {
    /// For each bucket, the newest entry that was pushed to it, or 0.
    pub(crate) newest: Vec<u32>,
    /// For each entry, newest first, the number of entries between it and the next one in its
    /// bucket.
    pub(crate) skips: HeapCircularBuffer<u32>,
    /// The number of entries pushed.
    pub(crate) pushed: u32,
    ghost some_bucket: { 0 < length newest.items },
    ghost few_buckets: { length newest.items ≤ 2 ^ 28 },
    ghost few_entries: { skips.capacity ≤ 2 ^ 28 },
    ghost pushed_before: { (one : ℕ) → one < length newest.items
        → slice_index_or newest.items one 0 ≤ pushed },
}

/// The chains of a table's entries by their names, and by their names and values.
#[derive(Drop)]
pub(crate) struct Index {
    /// By the hash of the name.
    pub(crate) names: Chains,
    /// By the hash of the name and the value.
    pub(crate) exacts: Chains,
    ghost same_capacity: { names.skips.capacity ≡ exacts.skips.capacity },
}

/// The hashes of a field or an entry.
#[derive(Clone, Copy)]
pub(crate) struct Hashes {
    /// Of the name.
    pub(crate) name: u64,
    /// Of the name and the value.
    pub(crate) exact: u64,
}
