//! Where a field is among the octets of a list.

ghost use Rattle.std.specs.Prelude.{◌≡◌, length};
ghost use Rattle.hpack.specs.FieldLists.{IsWithin, field_of, field_lent};

use crate::types::field::FieldRef;

/// The place of a field: its name ends where its value starts.
#[derive(Clone, Copy, Debug)]
pub(crate) struct FieldPlace {
    /// Where the name starts.
    pub(crate) start: usize,
    /// Where the name ends.
    pub(crate) name_end: usize,
    /// Where the value ends.
    pub(crate) value_end: usize,
    /// Whether the field was read as a literal that is never indexed.
    pub(crate) sensitive: bool,
}

impl FieldPlace {
    /// The field at this place of the octets of its list.
    #[tactic(auto, unfolding(crate::specs::FieldLists::field_of))]
    pub(crate) fn lend<'a>(&self, octets: &'a [u8]) -> FieldRef<'a>
        requires { IsWithin (length octets.now) self.now }
        ensures { field_lent result ≡ field_of octets.entry.now self.entry.now }
    {
        FieldRef {
            name: &octets[self.start..self.name_end],
            value: &octets[self.name_end..self.value_end],
            sensitive: self.sensitive,
        }
    }
}
