//! Lines as JSON objects.

ghost use Rattle.std.specs.Prelude.{◌≡◌, ℕ, ◌++◌, [], ◌∷◌, codes, decimal, map};
ghost use Rattle.std.specs.Prelude.{OnOk, Some, option_map};
ghost use Rattle.hex.specs.Hex.{encode_lower};
ghost use Rattle.std.specs.Io.KnownBytes.{Appends};
ghost use Rattle.json.specs.Json as json;
ghost use Rattle.json.specs.Print.{print};
ghost use Rattle.json.specs.Token.{begin_array, begin_object, end_array, end_object, key, number};
ghost use Rattle.json.specs.Token.{string, boolean};
ghost use Rattle.json.specs.Tree.{json_tokens};
ghost use Rattle.h2_frame.specs.Frames.{frame_of};
ghost use Rattle.h2_frame.specs.Pairs.{lent_pairs};
ghost use Rattle.hpack.specs.FieldLists.{field_lent};
ghost use Rattle.h2_show.specs.Named.{code_name, setting_name};
ghost use Rattle.h2_show.specs.ShownLines.{decoded_listing, fault_shown, frame_shown};
ghost use Rattle.h2_show.specs.ShownLines.{rest_shown};
ghost use Rattle.h2_show.specs.JsonLines.{array_of, code_members, field_json, first_members};
ghost use Rattle.h2_show.specs.JsonLines.{frame_json, json_line, json_text, listing_members};
ghost use Rattle.h2_show.specs.JsonLines.{member_tokens, members_written, more_members};
ghost use Rattle.h2_show.specs.JsonLines.{name_members};
ghost use Rattle.h2_show.specs.JsonLines.{number_of_json, object_of, octets_member, pad_members};
ghost use Rattle.h2_show.specs.JsonLines.{pair_json, too_large_text, type_name, WritesTokens};

use crate::naming::{code_name, setting_name};
use h2_frame::{Code, FrameRef, Kind, Pairs};
use hpack::{Decoded, FieldList, FieldRef};
use json::Writer;
use std::alloc::{AllocError, Global};
use std::io::{self, Write};

// rule: show (own) With --json each line is a JSON object
/// Prints an object with a position and a type only.
pub(crate) fn write_json_line<W: Write>(
    alloc: Global,
    at: u64,
    name: &str,
    out: &mut W,
) -> io::Result<()>
    ensures { OnOk result (Appends (W.contents out.old) (W.contents out.new)
        (json_text (object_of (first_members at name.now)))) }
{
    let mut writer = Writer::new(Vec::new(alloc));
    begin_line(&mut writer, at, name)?;
    end_line(writer, out)
}

// rule: show (own) With --json each line is a JSON object
/// Prints the object of a frame at position `at`, with the list of the block that it ends, if
/// any; then the object of a list that is too large.
pub(crate) fn write_json_frame<W: Write>(
    alloc: Global,
    at: u64,
    frame: FrameRef<'_>,
    decoded: Option<Decoded>,
    list: &FieldList,
    out: &mut W,
) -> io::Result<()>
    ensures { OnOk result (Appends (W.contents out.old) (W.contents out.new)
        (json_line at (frame_shown (frame_of frame.entry) (decoded_listing decoded list.now)))) }
{
    let mut writer = Writer::new(Vec::new(alloc));
    begin_line(&mut writer, at, type_name(frame.kind()))?;
    number_member(&mut writer, "stream", u64::from(frame.stream()))?;
    number_member(&mut writer, "length", frame.payload_len() as u64)?;
    frame_members(alloc, &mut writer, frame)?;
    list_members(alloc, &mut writer, decoded, list)?;
    end_line(writer, out)?;
    write_too_large(alloc, at, decoded, list, out)
}

// Prints the object of a list that is too large, after that of the frame that ends its block.
fn write_too_large<W: Write>(
    alloc: Global,
    at: u64,
    decoded: Option<Decoded>,
    _list: &FieldList,
    out: &mut W,
) -> io::Result<()>
    ensures { OnOk result (Appends (W.contents out.old) (W.contents out.new)
        (too_large_text at (decoded_listing decoded _list.now))) }
{
    match decoded {
        Some(ended) => write_ended(alloc, at, ended, _list, out),
        None => Ok(()),
    }
}

// Prints the object of a list that is too large, for a block that has ended.
fn write_ended<W: Write>(
    alloc: Global,
    at: u64,
    ended: Decoded,
    _list: &FieldList,
    out: &mut W,
) -> io::Result<()>
    ensures { OnOk result (Appends (W.contents out.old) (W.contents out.new)
        (too_large_text at (decoded_listing (Some ended) _list.now))) }
{
    match ended {
        Decoded::TooLarge => write_json_line(alloc, at, "list too large", out),
        Decoded::Whole => Ok(()),
    }
}

// rule: show (own) With --json each line is a JSON object
/// Prints the object of a fault, at the octet with this number.
pub(crate) fn write_json_fault<W: Write>(
    alloc: Global,
    code: Code,
    place: u64,
    out: &mut W,
) -> io::Result<()>
    ensures { OnOk result (Appends (W.contents out.old) (W.contents out.new)
        (json_line 1 (fault_shown code place))) }
{
    let mut writer = Writer::new(Vec::new(alloc));
    begin_line(&mut writer, place, "fault")?;
    number_member(&mut writer, "code", u64::from(code.number()))?;
    text_member(&mut writer, "name", code.name())?;
    end_line(writer, out)
}

/// Prints the object of an incomplete frame or preface at position `at`.
pub(crate) fn write_json_rest<W: Write>(
    alloc: Global,
    at: u64,
    count: usize,
    out: &mut W,
) -> io::Result<()>
    ensures { OnOk result (Appends (W.contents out.old) (W.contents out.new)
        (json_line at (rest_shown count))) }
{
    let mut writer = Writer::new(Vec::new(alloc));
    begin_line(&mut writer, at, "rest")?;
    number_member(&mut writer, "octets", count as u64)?;
    end_line(writer, out)
}

/// The type of a frame by name.
fn type_name(kind: Kind) -> &'static str
    ensures { result.now ≡ type_name kind }
{
    match kind {
        Kind::Data => "DATA",
        Kind::Headers => "HEADERS",
        Kind::Priority => "PRIORITY",
        Kind::RstStream => "RST_STREAM",
        Kind::Settings => "SETTINGS",
        Kind::PushPromise => "PUSH_PROMISE",
        Kind::Ping => "PING",
        Kind::GoAway => "GOAWAY",
        Kind::WindowUpdate => "WINDOW_UPDATE",
        Kind::Continuation => "CONTINUATION",
        Kind::Unknown(_) => "UNKNOWN",
    }
}

// Begins an object with its position and its type.
fn begin_line(writer: &mut Writer, at: u64, name: &str) -> Result<(), AllocError>
    ensures { WritesTokens result writer.old writer.new
        (begin_object ∷ members_written (first_members at name.now)) }
{
    writer.begin_object()?;
    number_member(writer, "at", at)?;
    text_member(writer, "type", name)
}

// Ends the object, and prints it as a line.
fn end_line<W: Write>(mut writer: Writer, out: &mut W) -> io::Result<()>
    requires { writer.before ≡ [] }
    ensures { OnOk result (Appends (W.contents out.old) (W.contents out.new)
        (print (writer.tokens ++ end_object ∷ []) ++ codes "\n")) }
{
    writer.end_object()?;
    out.write_all(&writer.into_inner())?;
    out.write_all(b"\n")
}

fn number_member(writer: &mut Writer, name: &str, count: u64) -> Result<(), AllocError>
    ensures { WritesTokens result writer.old writer.new
        (key name.now ∷ number (decimal count) ∷ []) }
{
    writer.key(name)?;
    writer.u64(count)
}

fn text_member(writer: &mut Writer, name: &str, text: &str) -> Result<(), AllocError>
    ensures { WritesTokens result writer.old writer.new (key name.now ∷ string text.now ∷ []) }
{
    writer.key(name)?;
    writer.string(text)
}

fn flag_member(writer: &mut Writer, name: &str, value: bool) -> Result<(), AllocError>
    ensures { WritesTokens result writer.old writer.new (key name.now ∷ boolean value ∷ []) }
{
    writer.key(name)?;
    writer.boolean(value)
}

// The member for a name, if there is one.
fn name_member(writer: &mut Writer, found: Option<&'static str>) -> Result<(), AllocError>
    ensures { WritesTokens result writer.old writer.new
        (members_written (name_members (option_map (λ text. text.now) found.entry))) }
{
    match found {
        Some(name) => text_member(writer, "name", name),
        None => Ok(()),
    }
}

// The member for a pad length, if there is one.
fn pad_member(writer: &mut Writer, pad: Option<u8>) -> Result<(), AllocError>
    ensures { WritesTokens result writer.old writer.new (members_written (pad_members pad)) }
{
    match pad {
        Some(pad) => number_member(writer, "pad", u64::from(pad)),
        None => Ok(()),
    }
}

// rule: show (own) Settings and error codes have their names where words ask for them
// An error code, and its name if it has one.
fn code_members(writer: &mut Writer, code: u32) -> Result<(), AllocError>
    ensures { WritesTokens result writer.old writer.new (members_written (code_members code)) }
{
    number_member(writer, "code", u64::from(code))?;
    name_member(writer, code_name(code))
}

// rule: show (own) With --json each line is a JSON object
// What the type of a frame adds.
#[tactic(auto, unfolding(crate::specs::JsonLines::more_members))]
fn frame_members(alloc: Global, writer: &mut Writer, frame: FrameRef<'_>) -> Result<(), AllocError>
    ensures { WritesTokens result writer.old writer.new
        (members_written (more_members (frame_of frame.entry))) }
{
    match frame {
        FrameRef::Data { end, pad, .. } => {
            flag_member(writer, "end", end)?;
            pad_member(writer, pad)
        }
        FrameRef::Headers {
            end,
            whole,
            pad,
            priority,
            ..
        } => headers_members(writer, end, whole, priority.is_some(), pad),
        FrameRef::Priority { .. } => Ok(()),
        FrameRef::Reset { code, .. } => code_members(writer, code),
        FrameRef::Settings { ack, pairs } => settings_members(writer, ack, pairs),
        FrameRef::Ping { ack, octets } => ping_members(alloc, writer, ack, octets),
        FrameRef::GoAway { last, code, debug } => {
            number_member(writer, "last", u64::from(last))?;
            code_members(writer, code)?;
            number_member(writer, "debug", debug.len() as u64)
        }
        FrameRef::WindowUpdate { increment, .. } => {
            number_member(writer, "add", u64::from(increment))
        }
        FrameRef::Continuation { whole, .. } => flag_member(writer, "whole", whole),
        FrameRef::Unknown { kind, flags, .. } => {
            number_member(writer, "kind", u64::from(kind))?;
            number_member(writer, "flags", u64::from(flags))
        }
    }
}

fn headers_members(
    writer: &mut Writer,
    end: bool,
    whole: bool,
    prioritized: bool,
    pad: Option<u8>,
) -> Result<(), AllocError>
    ensures { WritesTokens result writer.old writer.new
        (members_written ((codes "end", json.boolean end) ∷ (codes "whole", json.boolean whole)
        ∷ (codes "priority", json.boolean prioritized) ∷ pad_members pad)) }
{
    flag_member(writer, "end", end)?;
    flag_member(writer, "whole", whole)?;
    flag_member(writer, "priority", prioritized)?;
    pad_member(writer, pad)
}

fn ping_members(
    alloc: Global,
    writer: &mut Writer,
    ack: bool,
    octets: [u8; 8],
) -> Result<(), AllocError>
    ensures { WritesTokens result writer.old writer.new
        (members_written ((codes "ack", json.boolean ack)
        ∷ (codes "octets", json.string (encode_lower octets)) ∷ [])) }
{
    flag_member(writer, "ack", ack)?;
    hex_member(alloc, writer, "octets", &octets)
}

// Octets in hexadecimal.
fn hex_member(
    alloc: Global,
    writer: &mut Writer,
    name: &str,
    octets: &[u8],
) -> Result<(), AllocError>
    ensures { WritesTokens result writer.old writer.new
        (key name.now ∷ string (encode_lower octets.now) ∷ []) }
{
    let digits = hex::encode(alloc, octets)?;
    text_member(writer, name, digits.as_str())
}

// rule: show (own) With --json each line is a JSON object
fn settings_members(writer: &mut Writer, ack: bool, pairs: Pairs<'_>) -> Result<(), AllocError>
    ensures { WritesTokens result writer.old writer.new
        (members_written ((codes "ack", json.boolean ack)
        ∷ (codes "settings", array_of (map pair_json (lent_pairs pairs.entry))) ∷ [])) }
{
    flag_member(writer, "ack", ack)?;
    writer.key("settings")?;
    writer.begin_array()?;
    for (id, value) in pairs.iter() {
        write_pair(writer, id, value)?;
    }
    writer.end_array()
}

// The object of a setting.
fn write_pair(writer: &mut Writer, id: u16, value: u32) -> Result<(), AllocError>
    ensures { WritesTokens result writer.old writer.new (json_tokens (pair_json (id, value))) }
{
    writer.begin_object()?;
    number_member(writer, "id", u64::from(id))?;
    name_member(writer, setting_name(id))?;
    number_member(writer, "value", u64::from(value))?;
    writer.end_object()
}

// The fields of the block that a frame ends, if they are shown.
fn list_members(
    alloc: Global,
    writer: &mut Writer,
    decoded: Option<Decoded>,
    list: &FieldList,
) -> Result<(), AllocError>
    ensures { WritesTokens result writer.old writer.new
        (members_written (listing_members (decoded_listing decoded list.now))) }
{
    match decoded {
        Some(Decoded::Whole) => fields_member(alloc, writer, list),
        Some(Decoded::TooLarge) | None => Ok(()),
    }
}

// rule: show (own) With --json each line is a JSON object
fn fields_member(alloc: Global, writer: &mut Writer, list: &FieldList) -> Result<(), AllocError>
    ensures { WritesTokens result writer.old writer.new
        (members_written ((codes "fields", array_of (map field_json list.now)) ∷ [])) }
{
    writer.key("fields")?;
    writer.begin_array()?;
    for place in 0..list.len() {
        if let Some(field) = list.get(place) {
            write_json_field(alloc, writer, field)?;
        }
    }
    writer.end_array()
}

// The object of a field.
fn write_json_field(
    alloc: Global,
    writer: &mut Writer,
    field: FieldRef<'_>,
) -> Result<(), AllocError>
    ensures { WritesTokens result writer.old writer.new
        (json_tokens (field_json (field_lent field.entry))) }
{
    writer.begin_object()?;
    octets_member(alloc, writer, "name", "name_hex", field.name)?;
    octets_member(alloc, writer, "value", "value_hex", field.value)?;
    flag_member(writer, "never_indexed", field.sensitive)?;
    writer.end_object()
}

// rule: show (own) With --json octets that are not UTF-8 are in hexadecimal under another key
// Octets as text under one key, or in hexadecimal under the other.
fn octets_member(
    alloc: Global,
    writer: &mut Writer,
    name: &str,
    hex_name: &str,
    octets: &[u8],
) -> Result<(), AllocError>
    requires { hex_name.now ≡ name.now ++ codes "_hex" }
    ensures { WritesTokens result writer.old writer.new
        (member_tokens (octets_member name.now octets.now)) }
{
    match str::from_utf8(octets) {
        Ok(text) => text_member(writer, name, text),
        Err(_) => hex_member(alloc, writer, hex_name, octets),
    }
}
