//! Limits that the crates of this library share, each defined once, here.
//!
//! Some are RFC 9113's; those marked "own" are this library's, where the RFC leaves the number
//! open. The text of a limit ends with the name of its definition, if the specs of `h2_spec_log`
//! or of the crate that uses the limit have one. HPACK's limit on the octets of an integer is
//! `hpack_text::MAX_CONTINUATION_OCTETS`.

/// The greatest payload, in octets, that a head can encode: 24 bits (RFC 9113, section 4.1). A
/// frame with a longer one is not written.
pub const MAX_PAYLOAD: u32 = 0xff_ffff;

/// The greatest payload, in octets, that an end reads until its SETTINGS allow more, and the least
/// SETTINGS_MAX_FRAME_SIZE (RFC 9113, sections 4.2 and 6.5.2): `least_max_frame`.
pub const LEAST_MAX_FRAME: u32 = 16_384;

/// The greatest SETTINGS_MAX_FRAME_SIZE, in octets, that an end may be configured with (own; RFC
/// 9113, section 6.5.2): `most_max_frame`.
pub const MOST_MAX_FRAME: u32 = 1_048_576;

/// The greatest payload, in octets, that an end sends, whatever its peer allows (own; RFC 9113,
/// section 4.2): `max_frame_size_sent`.
pub const MAX_FRAME_SENT: u32 = 65_536;

/// The most octets of a field block, over all its frames (own; RFC 9113, sections 4.3 and
/// 10.5.1): `max_block_octets`.
pub const MAX_BLOCK: usize = 65_552;

/// The greatest size of a field list that is reported or sent, in octets: name, value and 32
/// for each field (own; RFC 9113, sections 6.5.2 and 10.5.1): `max_list`.
pub const MAX_LIST: u32 = 65_536;

/// With this many octets of queued output, or more, an end (`Conn`) refuses calls that send frames
/// with C7 (`OutputFull`), except `refuse`, `fail` and the calls that take input, and returns no
/// credit of its own accord (own; RFC 9113, section 10.5): `full_output`.
pub const FULL_OUTPUT: usize = 65_536;

/// The most octets of queued output that a reply, or the reset of a stream, may lead to (own;
/// RFC 9113, section 10.5): `max_output`.
pub const MAX_OUTPUT: usize = 262_144;

/// The most octets of a body that one call sends (own): `max_data`.
pub const MAX_DATA: usize = 65_536;

/// The most streams that an end resets during a connection (own; RFC 9113, section 10.5):
/// `max_resets`.
pub const MAX_RESETS: u32 = 1_000;

/// The least SETTINGS_MAX_CONCURRENT_STREAMS that a server may be configured with, and the most
/// streams that a client keeps active until the server's SETTINGS have come (own; RFC 9113,
/// section 5.1.2): `least_max_streams`.
pub const LEAST_MAX_STREAMS: u32 = 100;

/// The greatest SETTINGS_MAX_CONCURRENT_STREAMS that a server may be configured with, and the most
/// streams that a client keeps active (own; RFC 9113, section 5.1.2): `most_max_streams`.
pub const MOST_MAX_STREAMS: u32 = 1_000;

/// The initial window of a connection, and of a stream until SETTINGS change it, in octets (RFC
/// 9113, section 6.9.2): `first_window`.
pub const FIRST_WINDOW: u32 = 65_535;

/// The greatest window, in octets (RFC 9113, section 6.9.1), and the greatest
/// SETTINGS_INITIAL_WINDOW_SIZE: `greatest_window`.
pub const GREATEST_WINDOW: u32 = 0x7fff_ffff;

/// The greatest stream identifier, of 31 bits (RFC 9113, section 5.1.1): `greatest_number`.
pub const GREATEST_STREAM: u32 = 0x7fff_ffff;

/// The initial SETTINGS_HEADER_TABLE_SIZE, in octets: name, value and 32 for each entry (RFC
/// 9113, section 6.5.2).
pub const FIRST_TABLE: u32 = 4_096;

/// The greatest SETTINGS_HEADER_TABLE_SIZE, in octets, that an end may be configured with (own; RFC
/// 9113, section 6.5.2): `max_table_limit`.
pub const MAX_TABLE_LIMIT: u32 = 65_536;

/// The greatest header table, in octets, that an end's encoder uses, whatever its peer allows
/// (own; RFC 7541, section 4.2).
pub const MAX_ENCODER_TABLE: u32 = 4_096;

/// The octets of one setting in SETTINGS: two of identifier and four of value (RFC 9113,
/// section 6.5.1).
pub const PAIR: usize = 6;

/// The octets of a RST_STREAM (RFC 9113, section 6.4), and of a WINDOW_UPDATE (section 6.9), a
/// head and four more: `reset_size`, `update_size`.
pub const SMALL_FRAME: usize = 13;

/// The octets of a PING (RFC 9113, section 6.7), and of a GOAWAY without debug data (section 6.8):
/// a head, and eight more.
pub const LARGE_FRAME: usize = 17;

/// The most octets of a request's body that a `Responder` (`h2_engines`) echoes, and that
/// `h2 loop` posts (own): `greatest_body`.
pub const GREATEST_BODY: usize = 1_048_576;
