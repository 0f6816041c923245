//! A list of fields of its own, while their size is within a limit (RFC 9113, section 6.5.2).

ghost use Rattle.std.specs.Prelude.{◌≡◌, true, [], OnOk, IfErr};
ghost use Rattle.hpack.specs.OwnedLists.{RepresentsOwned, AddsOwned};

use crate::table::eviction::size_of_octets;
use crate::types::fault::Fault;
use crate::types::field::{Field, List};
use std::alloc::Global;

/// The capacity that the first field reserves: it holds the fields of most requests, in less
/// than 1,024 octets, above which the C library allocates differently.
const FIRST_CAPACITY: usize = 12;

/// The list so far.
#[derive(Debug, Drop)]
pub(crate) struct OwnedListBuilder {
    /// The fields, or that their size is above the limit.
    pub(crate) list: List,
    /// What the limit leaves, where the fields are within it.
    remaining: u32,
}

impl OwnedListBuilder {
    /// An empty list, for a limit in octets.
    pub(crate) fn new(alloc: Global, list_limit: u32) -> OwnedListBuilder
        ensures { RepresentsOwned list_limit [] result.list result.remaining }
    {
        OwnedListBuilder {
            list: List::Whole(Vec::new(alloc)),
            remaining: list_limit,
        }
    }

    /// Whether the size is above the limit.
    pub(crate) fn is_too_large(&self) -> bool
        ensures { result ≡ true → self.now.list ≡ List.TooLarge }
    {
        matches!(self.list, List::TooLarge)
    }

    // rule: 10.5.1 A list above 65,536 octets is a stream error ENHANCE_YOUR_CALM
    /// Appends a field where the size stays within the limit; otherwise the list is too large.
    #[inline(always)]
    pub(crate) fn push(&mut self, field: Field) -> Result<(), Fault>
        ensures ok { OnOk result (AddsOwned self.old.list self.old.remaining field self.new.list
            self.new.remaining) }
        ensures err { IfErr result (λ fault. fault ≡ Fault.Memory) }
    {
        let size = size_of_octets(field.name.as_slice(), field.value.as_slice());
        let List::Whole(fields) = &mut self.list else {
            return Ok(());
        };
        if size > self.remaining as usize {
            self.list = List::TooLarge;
            return Ok(());
        }
        if fields.is_empty() {
            fields.reserve_exact(FIRST_CAPACITY)?;
        }
        fields.push(field)?;
        self.remaining -= size as u32;
        Ok(())
    }
}
