//! Cases, which are files: how they are read, the words, octets, fields and messages in them, what
//! is printed of those that differ, and the drivers of the cases of the layers below an end.
//! `h2_cases` checks them.
#![tactic(auto)]

pub mod case;
pub mod driver;
pub mod fields;
pub mod layers;
pub mod messages;
pub mod octets;
pub mod report;
pub mod text;
pub mod words;
