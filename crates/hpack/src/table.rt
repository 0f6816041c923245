//! The dynamic and the static table (RFC 7541, sections 2.3 and 4).

pub(crate) mod dynamic_table;
pub(crate) mod eviction;
pub(crate) mod lookup;
pub(crate) mod static_table;
