//! HPACK's integers and strings (RFC 7541, section 5 and appendix B): integers with a prefix,
//! the Huffman code, and string literals.
//!
//! A value is read if and only if the octets encode it, and is written in one stated encoding.
//! Each fault has a number.
#![tactic(auto)]

mod fault;
mod huffman;
mod integers;
mod laws;
mod strings;

pub use fault::TextFault;
pub use huffman::{huff_len, huff_read, huff_step, huff_write};
pub use integers::{MAX_CONTINUATION_OCTETS, read_int, write_int};
pub use laws::{
    no_code_begins_another, no_integer_begins_another, no_string_begins_another, one_coding,
    one_coding_fault, one_text, shortest_integer, some_code_begins, written_string,
};
pub use strings::{read_string, read_string_into, write_string};
