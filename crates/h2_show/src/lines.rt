//! Frames and fields as lines of text.

ghost use Rattle.std.specs.Prelude.{◌≡◌, ◌<◌, ℕ, ◌+◌, ◌*◌, not, [], ◌∷◌, ◌++◌, length, position};
ghost use Rattle.std.specs.Prelude.{Some};
ghost use Rattle.std.specs.Prelude.{flat_map, if◌then◌else◌, OnOk};
ghost use Rattle.std.specs.Fmt.{WritesOnOk};
ghost use Rattle.std.specs.Io.KnownBytes.{Appends};
ghost use Rattle.hex.specs.Hex.{encode_lower};
ghost use Rattle.h2_frame.specs.Frames.{frame_of, Data, Headers, Reset, Settings, Ping, GoAway};
ghost use Rattle.h2_frame.specs.Frames.{WindowUpdate, Continuation, Unknown};
ghost use Rattle.h2_frame.specs.Pairs.{lent_pairs};
ghost use Rattle.h2_show.specs.Lines.{frame_line, frame_words, flag_word, pad_word, pad_octets};
ghost use Rattle.h2_show.specs.Lines.{is_plain as plain, shown_octets};
ghost use Rattle.h2_show.specs.Lines.{field_line};
ghost use Rattle.hpack.specs.FieldLists.{field_lent};
ghost use Rattle.h2_show.specs.Lines.{listing_lines};
ghost use Rattle.h2_show.specs.ShownLines.{decoded_listing};

use h2_frame::limits::PAIR;
use h2_frame::{FrameRef, Pairs};
use hpack::{Decoded, FieldList, FieldRef};
use std::fmt;
use std::io::{self, Write};

/// The octets of a priority (RFC 9113, section 6.3).
const PRIORITY: usize = 5;

/// The octets of GOAWAY before its debug data (RFC 9113, section 6.8).
const GOAWAY: usize = 8;

// rule: show (own) The line of a frame has its type, stream, octets and more
/// Prints the line of a frame.
pub(crate) fn write_frame<W: Write>(frame: FrameRef<'_>, out: &mut W) -> io::Result<()>
    ensures { OnOk result (Appends (W.contents out.old) (W.contents out.new)
        (frame_line (frame_of frame.entry))) }
{
    writeln!(out, "{}", FrameLine(frame))
}

/// The line of a frame, without its newline: the type, the stream, the payload length, and what
/// the type adds. Words are separated by one space, and numbers are decimal.
#[derive(Clone, Copy)]
pub(crate) struct FrameLine<'a>(pub(crate) FrameRef<'a>);

#[tactic(auto, unfolding(crate::specs::Lines::frame_words))]
impl fmt::Display for FrameLine<'_> {
    ghost output = { λ line. Some (frame_words (frame_of line.0)) };

    fn fmt<W: fmt::Write>(&self, f: &mut fmt::Formatter<W>) -> fmt::Result {
        match self.0 {
            FrameRef::Data {
                stream,
                end,
                octets,
                pad,
            } => write_data(f, stream, end, octets, pad),
            FrameRef::Headers {
                stream,
                end,
                whole,
                fragment,
                pad,
                priority,
            } => write_headers(f, stream, end, whole, fragment, pad, priority),
            FrameRef::Priority { stream, .. } => write!(f, "PRIORITY {stream} {PRIORITY}"),
            FrameRef::Reset { stream, code } => write_reset(f, stream, code),
            FrameRef::Settings { ack, pairs } => write_settings(f, ack, pairs),
            FrameRef::Ping { ack, octets } => write_ping(f, ack, octets),
            FrameRef::GoAway { last, code, debug } => write_goaway(f, last, code, debug),
            FrameRef::WindowUpdate { stream, increment } => {
                write_window_update(f, stream, increment)
            }
            FrameRef::Continuation {
                stream,
                whole,
                fragment,
            } => write_continuation(f, stream, whole, fragment),
            FrameRef::Unknown {
                kind,
                flags,
                stream,
                payload,
            } => write_unknown(f, kind, flags, stream, payload),
        }
    }
}

/// A space and the word of a flag, if it is set.
#[derive(Clone, Copy)]
pub(crate) struct Word<'a>(pub(crate) bool, pub(crate) &'a str);

impl fmt::Display for Word<'_> {
    ghost output = { λ word. Some (flag_word word.0 word.1.now) };

    fn fmt<W: fmt::Write>(&self, f: &mut fmt::Formatter<W>) -> fmt::Result {
        match self.0 {
            true => write!(f, " {}", self.1),
            false => Ok(()),
        }
    }
}

/// A space and the pad length, if there is one.
#[derive(Clone, Copy)]
struct Pad(Option<u8>);

impl fmt::Display for Pad {
    ghost output = { λ pad. Some (pad_word pad.0) };

    fn fmt<W: fmt::Write>(&self, f: &mut fmt::Formatter<W>) -> fmt::Result {
        match self.0 {
            Some(pad) => write!(f, " pad={pad}"),
            None => Ok(()),
        }
    }
}

/// Octets in hexadecimal, two digits each.
#[derive(Clone, Copy)]
struct Hexadecimal([u8; 8]);

impl fmt::Display for Hexadecimal {
    ghost output = { λ octets. Some (encode_lower octets.0) };

    fn fmt<W: fmt::Write>(&self, f: &mut fmt::Formatter<W>) -> fmt::Result {
        match str::from_utf8(&hexadecimal_of(self.0)) {
            Ok(digits) => f.write_str(digits),
            // Unreachable: digits are text.
            Err(_) => Err(fmt::Error),
        }
    }
}

/// Returns the octets of a PING as hexadecimal digits, two an octet.
pub fn hexadecimal_of(octets: [u8; 8]) -> [u8; 16]
    ensures { result ≡ encode_lower octets }
{
    let mut digits = [0; 16];
    hex::encode_to_slice(octets, &mut digits).unwrap();
    digits
}

// rule: show (own) The line of a frame has its type, stream, octets and more
/// The length of a DATA payload.
fn data_length(octets: &[u8], pad: Option<u8>) -> usize
    ensures { result ≡ length octets.now + pad_octets pad }
{
    octets.len().saturating_add(padded(pad))
}

/// The length of a SETTINGS payload.
pub(crate) fn settings_length(pairs: Pairs<'_>) -> usize
    ensures { result ≡ 6 * length (lent_pairs pairs.entry) }
{
    pairs.len().saturating_mul(PAIR)
}

/// The length of a GOAWAY payload.
pub(crate) fn goaway_length(debug: &[u8]) -> usize
    ensures { result ≡ 8 + length debug.now }
{
    debug.len().saturating_add(GOAWAY)
}

// rule: show (own) The line of a frame has its type, stream, octets and more
/// The length of a HEADERS payload.
fn headers_length(fragment: &[u8], pad: Option<u8>, prioritized: bool) -> usize
    ensures { result ≡ length fragment.now + pad_octets pad + (if prioritized then 5 else 0) }
{
    let priority = if prioritized { PRIORITY } else { 0 };
    fragment
        .len()
        .saturating_add(padded(pad))
        .saturating_add(priority)
}

/// The number of octets that the pad length and the padding take.
fn padded(pad: Option<u8>) -> usize
    ensures value { result ≡ pad_octets pad }
    ensures bound { result < 257 }
{
    match pad {
        Some(pad) => usize::from(pad) + 1,
        None => 0,
    }
}

// Each frame type has its own function, so that only its locals are set up.

#[tactic(auto, unfolding(crate::specs::Lines::frame_words))]
fn write_data<W: fmt::Write>(
    f: &mut fmt::Formatter<W>,
    stream: u32,
    end: bool,
    octets: &[u8],
    pad: Option<u8>,
) -> fmt::Result
    ensures { WritesOnOk W.write_str_gives f.old result
        (frame_words (Data stream end octets.now pad)) f.new }
{
    let length = data_length(octets, pad);
    write!(f, "DATA {stream} {length}{}{}", Word(end, "end"), Pad(pad))
}

#[tactic(auto, unfolding(crate::specs::Lines::frame_words))]
fn write_headers<W: fmt::Write>(
    f: &mut fmt::Formatter<W>,
    stream: u32,
    end: bool,
    whole: bool,
    fragment: &[u8],
    pad: Option<u8>,
    priority: Option<[u8; 5]>,
) -> fmt::Result
    ensures { WritesOnOk W.write_str_gives f.old result
        (frame_words (Headers stream end whole fragment.now pad priority)) f.new }
{
    let prioritized = priority.is_some();
    let length = headers_length(fragment, pad, prioritized);
    write!(f, "HEADERS {stream} {length}{}", Word(end, "end"))?;
    write!(f, "{}{}", Word(whole, "whole"), Pad(pad))?;
    write!(f, "{}", Word(prioritized, "priority"))
}

#[tactic(auto, unfolding(crate::specs::Lines::frame_words))]
fn write_reset<W: fmt::Write>(f: &mut fmt::Formatter<W>, stream: u32, code: u32) -> fmt::Result
    ensures { WritesOnOk W.write_str_gives f.old result
        (frame_words (Reset stream code)) f.new }
{
    write!(f, "RST_STREAM {stream} 4 code={code}")
}

#[tactic(auto, unfolding(crate::specs::Lines::frame_words))]
fn write_ping<W: fmt::Write>(f: &mut fmt::Formatter<W>, ack: bool, octets: [u8; 8]) -> fmt::Result
    ensures { WritesOnOk W.write_str_gives f.old result
        (frame_words (Ping ack octets)) f.new }
{
    write!(f, "PING 0 8{} {}", Word(ack, "ack"), Hexadecimal(octets))
}

#[tactic(auto, unfolding(crate::specs::Lines::frame_words))]
fn write_goaway<W: fmt::Write>(
    f: &mut fmt::Formatter<W>,
    last: u32,
    code: u32,
    debug: &[u8],
) -> fmt::Result
    ensures { WritesOnOk W.write_str_gives f.old result
        (frame_words (GoAway last code debug.now)) f.new }
{
    let length = goaway_length(debug);
    let count = debug.len();
    write!(f, "GOAWAY 0 {length} last={last} code={code} debug={count}")
}

#[tactic(auto, unfolding(crate::specs::Lines::frame_words))]
fn write_window_update<W: fmt::Write>(
    f: &mut fmt::Formatter<W>,
    stream: u32,
    increment: u32,
) -> fmt::Result
    ensures { WritesOnOk W.write_str_gives f.old result
        (frame_words (WindowUpdate stream increment)) f.new }
{
    write!(f, "WINDOW_UPDATE {stream} 4 add={increment}")
}

#[tactic(auto, unfolding(crate::specs::Lines::frame_words))]
fn write_continuation<W: fmt::Write>(
    f: &mut fmt::Formatter<W>,
    stream: u32,
    whole: bool,
    fragment: &[u8],
) -> fmt::Result
    ensures { WritesOnOk W.write_str_gives f.old result
        (frame_words (Continuation stream whole fragment.now)) f.new }
{
    let length = fragment.len();
    write!(f, "CONTINUATION {stream} {length}{}", Word(whole, "whole"))
}

#[tactic(auto, unfolding(crate::specs::Lines::frame_words))]
fn write_unknown<W: fmt::Write>(
    f: &mut fmt::Formatter<W>,
    kind: u8,
    flags: u8,
    stream: u32,
    payload: &[u8],
) -> fmt::Result
    ensures { WritesOnOk W.write_str_gives f.old result
        (frame_words (Unknown kind flags stream payload.now)) f.new }
{
    let length = payload.len();
    write!(f, "KIND{kind} {stream} {length} flags={flags}")
}

// rule: show (own) The line of a frame has its type, stream, octets and more
#[tactic(auto, unfolding(crate::specs::Lines::frame_words))]
fn write_settings<W: fmt::Write>(
    f: &mut fmt::Formatter<W>,
    ack: bool,
    pairs: Pairs<'_>,
) -> fmt::Result
    ensures { WritesOnOk W.write_str_gives f.old result
        (frame_words (Settings ack (lent_pairs pairs.entry))) f.new }
{
    let length = settings_length(pairs);
    write!(f, "SETTINGS 0 {length}{}", Word(ack, "ack"))?;
    for (id, value) in pairs.iter() {
        write!(f, " {id}={value}")?;
    }
    Ok(())
}

// contract: show (own) A list above 65,536 octets has one line, without fields
// rule: show (own) A list above 65,536 octets has one line, without fields
/// Prints the fields of the block that a frame ends, if any: one line for each, or one that says
/// that the list is too large.
pub(crate) fn write_list<W: Write>(
    decoded: Option<Decoded>,
    list: &FieldList,
    out: &mut W,
) -> io::Result<()>
    ensures { OnOk result (Appends (W.contents out.old) (W.contents out.new)
        (listing_lines (decoded_listing decoded list.now))) }
{
    match decoded {
        Some(Decoded::Whole) => write_fields(list, out),
        Some(Decoded::TooLarge) => out.write_all(b"  list too large\n"),
        None => Ok(()),
    }
}

// Prints the lines of the fields of a list.
fn write_fields<W: Write>(list: &FieldList, out: &mut W) -> io::Result<()>
    ensures { OnOk result (Appends (W.contents out.old) (W.contents out.new)
        (flat_map field_line list.now)) }
{
    for place in 0..list.len() {
        if let Some(field) = list.get(place) {
            write_field(field, out)?;
        }
    }
    Ok(())
}

// rule: show (own) The line of a field has its mark, its name and its value
/// Prints the line of a field: two spaces, `!` if it is never indexed, the name, a colon and a
/// space, and the value. Octets outside printable ASCII and backslashes are printed as `\x` and
/// two hexadecimal digits.
///
/// # Errors
///
/// Those of the writer.
pub fn write_field<W: Write>(field: FieldRef<'_>, out: &mut W) -> io::Result<()>
    ensures { OnOk result (Appends (W.contents out.old) (W.contents out.new)
        (field_line (field_lent field.entry))) }
{
    out.write_all(if field.sensitive { b"  !" } else { b"  " })?;
    write_text(field.name, out)?;
    out.write_all(b": ")?;
    write_text(field.value, out)?;
    out.write_all(b"\n")
}

// rule: show (own) The line of a field has its mark, its name and its value
/// Prints octets as text. Octets outside printable ASCII and backslashes are printed as `\x` and
/// two hexadecimal digits.
///
/// # Errors
///
/// Those of the writer.
pub fn write_text<W: Write>(octets: &[u8], out: &mut W) -> io::Result<()>
    ensures { OnOk result (Appends (W.contents out.old) (W.contents out.new)
        (shown_octets octets.now)) }
{
    match plain_count(octets) {
        None => out.write_all(octets),
        Some(_) => write_escaped(octets, out),
    }
}

// rule: show (own) The line of a field has its mark, its name and its value
// Prints octets as text, some of them escaped.
fn write_escaped<W: Write>(octets: &[u8], out: &mut W) -> io::Result<()>
    ensures { OnOk result (Appends (W.contents out.old) (W.contents out.new)
        (shown_octets octets.now)) }
{
    let mut rest = octets;
    while let Some(count) = plain_count(rest) {
        out.write_all(&rest[..count])?;
        out.write_all(&escaped(rest[count]))?;
        rest = &rest[count + 1..];
    }
    out.write_all(rest)
}

// rule: show (own) The line of a field has its mark, its name and its value
// The number of octets before the first escaped one, if there is one.
fn plain_count(octets: &[u8]) -> Option<usize>
    ensures { result ≡ position (λ octet. not (plain octet)) octets.now }
{
    octets.iter().position(|octet| !is_plain(*octet))
}

// rule: show (own) The line of a field has its mark, its name and its value
// Whether an octet is printed unescaped.
fn is_plain(octet: u8) -> bool
    ensures { result ≡ plain octet }
{
    (0x20..=0x7e).contains(&octet) && octet != b'\\'
}

// An octet as `\x` and two hexadecimal digits.
fn escaped(octet: u8) -> [u8; 4]
    ensures { result ≡ 92 ∷ 120 ∷ encode_lower (octet ∷ []) }
{
    let mut escape = *b"\\x00";
    hex::encode_to_slice([octet], &mut escape[2..]).unwrap();
    escape
}
