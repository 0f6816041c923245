//! Encoding of field blocks (RFC 7541, sections 4.2 and 6).

pub(crate) mod chains;
pub(crate) mod choice;
pub(crate) mod encoder;
pub(crate) mod field;
pub(crate) mod fields;
pub(crate) mod hash;
pub(crate) mod index;
pub(crate) mod pending_table;
pub(crate) mod room;
pub(crate) mod search;
pub(crate) mod size_updates;
pub(crate) mod static_chains;
