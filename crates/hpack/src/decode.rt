//! Decoding of field blocks (RFC 7541, sections 3 and 6).

pub(crate) mod block;
pub(crate) mod decoder;
pub(crate) mod field;
pub(crate) mod field_list_builder;
pub(crate) mod fields;
pub(crate) mod literal;
pub(crate) mod owned_fields;
pub(crate) mod owned_list_builder;
pub(crate) mod texts;
pub(crate) mod updates;
