//! The callers that each CALLING.md quotes, where they are accepted and where they are refused.

mod conn;
mod ends;
mod octets;
mod shown;
