//! One end of a connection as values: what an end keeps in place of its log, and when it represents
//! one. The definitions are in
//! `specs/`; code is written against them, and nothing that is promised of an end is said by them.
#![tactic(auto)]
