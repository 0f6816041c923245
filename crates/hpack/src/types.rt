//! Fields, entries, octets and faults.

pub(crate) mod chains;
pub(crate) mod entry;
pub(crate) mod fault;
pub(crate) mod field;
pub(crate) mod field_list;
pub(crate) mod field_place;
pub(crate) mod field_refs;
pub(crate) mod list_size;
pub(crate) mod literal;
pub(crate) mod octets;
pub(crate) mod read_field;
pub(crate) mod shown;
