//! The size of a list of fields (RFC 9113, section 6.5.2).

ghost use Rattle.std.specs.Prelude.{◌≡◌, ◌-◌, ◌^◌, min};
ghost use Rattle.hpack.specs.Lists.{list_size as size_of_list};
ghost use Rattle.hpack.specs.Written.{AreOctets};

use crate::table::eviction::size_of_octets;
use crate::types::field::Field;

// rule: 6.5.2 The size of a list is the sum of name, value and 32
/// Returns the size of a list: name, value and 32 octets for each field (RFC 9113, section
/// 6.5.2), up to `usize::MAX`. It takes no memory.
pub fn list_size(fields: &[Field]) -> usize
    ensures size { result ≡ min (size_of_list fields.now) (2 ^ 64 - 1) }

    // Names and values are octets.
    ensures octets { AreOctets fields.now }
{
    let mut size: usize = 0;
    for field in fields {
        let one = size_of_octets(field.name.as_slice(), field.value.as_slice());
        size = size.saturating_add(one);
    }
    size
}
