//! Texts of errors and of reasons, and the version.

ghost use Rattle.std.specs.Prelude.{◌≡◌};
ghost use Rattle.belkjoef.specs.Lent.{LendsText};
ghost use Rattle.belkjoef.specs.Texts.{error_text, number_text, text_in, no_error_text};
ghost use Rattle.belkjoef.specs.Texts.{place_texts, config_texts, refusal_texts, message_texts};
ghost use Rattle.belkjoef.specs.Texts.{block_texts};
ghost use Rattle.belkjoef.specs.Texts.{why_text, low_why_texts, high_why_texts, no_why_text};

use crate::place::address;

/// Returns the version, 0.1.0, as 0x00MMmmpp.
#[unsafe(no_mangle)]
pub extern "C" fn bj_version() -> u32
    ensures { result ≡ 0x100 }
{
    0x0000_0100
}

// contract: c (own) Each number of an error or a reason has its text
// rule: c (own) Each number of an error or a reason has its text
/// Stores the text of an error, which ends with a zero octet.
#[unsafe(no_mangle)]
pub extern "C" fn bj_error_text(error: i32, text: &mut *const u8)
    ensures { LendsText (error_text error) text.new }
{
    *text = address(text_of(error));
}

// contract: c (own) Each number of an error or a reason has its text
// rule: c (own) Each number of an error or a reason has its text
/// Stores the text of the reason with a number; the text ends with a zero octet.
#[unsafe(no_mangle)]
pub extern "C" fn bj_why_text(why: u32, text: &mut *const u8)
    ensures { LendsText (why_text why) text.new }
{
    *text = address(text_of_why(why));
}

/// Returns the text of an error.
fn text_of(error: i32) -> &'static [u8]
    ensures { result.now ≡ error_text error }
{
    if error > 0 {
        return b"unknown error\0";
    }
    text_of_number(error.unsigned_abs())
}

/// Returns the text of the error whose number is minus this one.
fn text_of_number(number: u32) -> &'static [u8]
    ensures { result.now ≡ number_text number }
{
    if number < 10 {
        text_of_place(number)
    } else if number < 20 {
        text_of_config(number)
    } else if number < 40 {
        text_of_refusal(number)
    } else if number < 70 {
        text_of_message(number)
    } else {
        text_of_block(number)
    }
}

/// Returns the text of an error of a place.
#[tactic(auto, unfolding(crate::specs::Texts::text_in))]
fn text_of_place(number: u32) -> &'static [u8]
    ensures { result.now ≡ text_in place_texts no_error_text number }
{
    match number {
        0 => b"no error\0",
        1 => b"the object is empty\0",
        2 => b"the object is already in use\0",
        3 => b"the function is for the other role\0",
        4 => b"the connection has failed\0",
        5 => b"no such field\0",
        6 => b"no such value\0",
        7 => b"unknown error code\0",
        _ => b"unknown error\0",
    }
}

/// Returns the text of an error of a configuration.
#[tactic(auto, unfolding(crate::specs::Texts::text_in))]
fn text_of_config(number: u32) -> &'static [u8]
    ensures { result.now ≡ text_in config_texts no_error_text number }
{
    match number {
        11 => b"K1 TableLimit: the header table's limit is above 65536\0",
        12 => b"K2 InitialWindow: the initial window isn't from 1 to 2147483647\0",
        13 => b"K3 MaxStreams: the number of streams isn't from 100 to 1000\0",
        14 => b"K4 MaxFrame: the greatest frame isn't from 16384 to 1048576\0",
        _ => b"unknown error\0",
    }
}

/// Returns the text of a refusal of the connection.
#[tactic(auto, unfolding(crate::specs::Texts::text_in))]
fn text_of_refusal(number: u32) -> &'static [u8]
    ensures { result.now ≡ text_in refusal_texts no_error_text number }
{
    match number {
        21 => b"C1 Closed: the connection has failed\0",
        22 => b"C2 NoSuchStream: the stream is idle or closed\0",
        23 => b"C3 Ended: END_STREAM was already sent on the stream\0",
        24 => b"C4 TooManyStreams: the peer allows no more concurrent streams\0",
        25 => b"C5 StreamsExhausted: no stream number is left\0",
        26 => b"C6 GoingAway: GOAWAY was sent or received\0",
        27 => b"C7 OutputFull: 65,536 octets of output or more are waiting\0",
        28 => b"C8 PingWaits: the last PING is not answered yet\0",
        29 => b"C9 TooManyResets: 1,000 streams were already reset\0",
        30 => b"C10 ListTooLarge: the field list is larger than 65,536 octets\0",
        31 => b"C11 NotOwed: the count is 0, or more than is owed on the stream\0",
        32 => b"C12 Memory: out of memory\0",
        33 => b"C13 SettingsWait: the last SETTINGS are not acknowledged yet\0",
        34 => b"C14 WindowTooLarge: the count is 0, or would widen the window above 2^31 - 1\0",
        _ => b"unknown error\0",
    }
}

/// Returns the text of an error of a message.
#[tactic(auto, unfolding(crate::specs::Texts::text_in))]
fn text_of_message(number: u32) -> &'static [u8]
    ensures { result.now ≡ text_in message_texts no_error_text number }
{
    match number {
        41 => b"M1 BadName: a field name is empty or has a forbidden octet\0",
        42 => b"M2 BadValue: a field value has a forbidden octet, or a blank at either end\0",
        43 => b"M3 PseudoPlace: a pseudo-header field after a regular field, or in trailers\0",
        44 => b"M4 PseudoUnknown: a pseudo-header field that this message may not have\0",
        45 => b"M5 PseudoTwice: a pseudo-header field occurs twice\0",
        46 => b"M6 PseudoMissing: a required pseudo-header field is missing\0",
        47 => b"M7 BadMethod: the method is not a token, or is CONNECT\0",
        48 => b"M8 BadPath: the path neither begins with '/' nor is '*' with OPTIONS\0",
        49 => b"M9 BadStatus: the status is not valid here\0",
        50 => b"M10 ConnectionField: a connection-specific field\0",
        51 => b"M11 BadLength: content-length is invalid, or not the length of the body\0",
        52 => b"M12 BadOrder: the parts of the message are out of order\0",
        61 => b"E3 NotAsked: the stream has no request to answer, or no open message\0",
        62 => b"E4 Answered: the request was answered already\0",
        _ => b"unknown error\0",
    }
}

/// Returns the text of a fault of a field block.
#[tactic(auto, unfolding(crate::specs::Texts::text_in))]
fn text_of_block(number: u32) -> &'static [u8]
    ensures { result.now ≡ text_in block_texts no_error_text number }
{
    match number {
        71 => b"P1 Compression: the field block cannot be decoded\0",
        72 => b"P3 Failed: an earlier block failed\0",
        _ => b"unknown error\0",
    }
}

/// Returns the text of a reason.
fn text_of_why(why: u32) -> &'static [u8]
    ensures { result.now ≡ why_text why }
{
    if why < 15 {
        text_of_low_why(why)
    } else {
        text_of_high_why(why)
    }
}

/// Returns the text of one of the first 14 reasons.
#[tactic(auto, unfolding(crate::specs::Texts::text_in))]
fn text_of_low_why(number: u32) -> &'static [u8]
    ensures { result.now ≡ text_in low_why_texts no_why_text number }
{
    match number {
        1 => b"the connection preface is wrong (PROTOCOL_ERROR)\0",
        2 => b"a frame is longer than the limit (FRAME_SIZE_ERROR)\0",
        3 => b"PUSH_PROMISE, though push is disabled (PROTOCOL_ERROR)\0",
        4 => b"a frame on a stream that its type does not allow (PROTOCOL_ERROR)\0",
        5 => b"a frame of a length that its type and flags do not allow (FRAME_SIZE_ERROR)\0",
        6 => b"padding longer than the payload leaves room for (PROTOCOL_ERROR)\0",
        7 => b"the first frame is not SETTINGS (PROTOCOL_ERROR)\0",
        8 => b"another frame interrupts a field block (PROTOCOL_ERROR)\0",
        9 => b"CONTINUATION outside a field block (PROTOCOL_ERROR)\0",
        10 => b"a field block of more than 65,552 octets (ENHANCE_YOUR_CALM)\0",
        11 => b"a field block cannot be decoded (COMPRESSION_ERROR)\0",
        12 => b"a frame other than HEADERS or PRIORITY on an idle stream (PROTOCOL_ERROR)\0",
        13 => b"DATA on a closed stream (STREAM_CLOSED)\0",
        14 => b"HEADERS on a closed stream (PROTOCOL_ERROR)\0",
        _ => b"unknown reason\0",
    }
}

/// Returns the text of one of the others.
#[tactic(auto, unfolding(crate::specs::Texts::text_in))]
fn text_of_high_why(number: u32) -> &'static [u8]
    ensures { result.now ≡ text_in high_why_texts no_why_text number }
{
    match number {
        15 => b"HEADERS on an idle stream that the peer may not open (PROTOCOL_ERROR)\0",
        16 => b"DATA exceeds the connection's window (FLOW_CONTROL_ERROR)\0",
        17 => b"DATA exceeds the stream's window (FLOW_CONTROL_ERROR)\0",
        18 => b"WINDOW_UPDATE of 0 on the connection (PROTOCOL_ERROR)\0",
        19 => b"the connection's window exceeds 2^31-1 (FLOW_CONTROL_ERROR)\0",
        20 => b"ENABLE_PUSH is above 1, or 1 from a server (PROTOCOL_ERROR)\0",
        21 => b"INITIAL_WINDOW_SIZE is above 2^31-1 (FLOW_CONTROL_ERROR)\0",
        22 => b"MAX_FRAME_SIZE is not from 16,384 to 2^24-1 (PROTOCOL_ERROR)\0",
        23 => b"INITIAL_WINDOW_SIZE brings a stream's window above 2^31-1 (FLOW_CONTROL_ERROR)\0",
        24 => b"1,001 streams would have been reset (ENHANCE_YOUR_CALM)\0",
        25 => b"replies exceed 262,144 octets of waiting output (ENHANCE_YOUR_CALM)\0",
        26 => b"out of memory (INTERNAL_ERROR)\0",
        27 => b"the layer above ended the connection\0",
        _ => b"unknown reason\0",
    }
}
