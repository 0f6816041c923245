//! Lines with names, positions and colors.

ghost use Rattle.std.specs.Prelude.{◌≡◌, ◌≤◌, ◌==◌, ◌++◌, [], flat_map, length, position};
ghost use Rattle.std.specs.Prelude.{OnOk, Some, if◌then◌else◌};
ghost use Rattle.std.specs.Fmt.{WritesOnOk};
ghost use Rattle.std.specs.Io.KnownBytes.{Appends};
ghost use Rattle.h2_frame.specs.Frames.{frame_of, GoAway, Reset, Settings};
ghost use Rattle.h2_frame.specs.Pairs.{lent_pairs};
ghost use Rattle.hpack.specs.FieldLists.{field_lent};
ghost use Rattle.h2_show.specs.ShownLines.{decoded_listing, fault_shown, frame_shown};
ghost use Rattle.h2_show.specs.ShownLines.{preface_shown, rest_shown, too_large, unfinished_shown};
ghost use Rattle.h2_show.specs.StyledLines.{field_words, first_in_bold, first_length};
ghost use Rattle.h2_show.specs.StyledLines.{name_word, named_words, place_word, styled_field};
ghost use Rattle.h2_show.specs.StyledLines.{setting_word, styled_line, styled_listing};
ghost use Rattle.h2_show.specs.StyledLines.{styled_words};

use crate::lines::{FrameLine, Word, goaway_length, settings_length, write_text};
use crate::naming::{code_name, setting_name};
use crate::options::TextStyle;
use h2_frame::{Code, FrameRef, Pairs};
use hpack::{Decoded, FieldList, FieldRef};
use std::alloc::Global;
use std::fmt;
use std::io::{self, Write};

// Escape sequences for bold, faint, red and normal (ECMA-48, SGR).
const BOLD: &[u8] = b"\x1b[1m";

const FAINT: &[u8] = b"\x1b[2m";

const RED: &[u8] = b"\x1b[31m";

const RESET: &[u8] = b"\x1b[0m";

/// Prints the line of the preface, at position `at`.
pub(crate) fn write_styled_preface<W: Write>(
    style: TextStyle,
    at: u64,
    out: &mut W,
) -> io::Result<()>
    ensures { OnOk result (Appends (W.contents out.old) (W.contents out.new)
        (styled_line style at preface_shown)) }
{
    write_place(style.places, at, out)?;
    write_if(style.colors, BOLD, out)?;
    out.write_all(b"preface")?;
    write_if(style.colors, RESET, out)?;
    out.write_all(b"\n")
}

// rule: show (own) A frame's place is the number of its first octet, in ten digits
/// Prints the lines of a frame at position `at`, and of the fields of the block that it ends, if
/// any.
pub(crate) fn write_styled_frame<W: Write>(
    alloc: Global,
    style: TextStyle,
    at: u64,
    frame: FrameRef<'_>,
    decoded: Option<Decoded>,
    list: &FieldList,
    out: &mut W,
) -> io::Result<()>
    ensures { OnOk result (Appends (W.contents out.old) (W.contents out.new)
        (styled_line style at
        (frame_shown (frame_of frame.entry) (decoded_listing decoded list.now)))) }
{
    write_place(style.places, at, out)?;
    write_frame_words(alloc, style, frame, out)?;
    out.write_all(b"\n")?;
    write_styled_list(style.colors, decoded, list, out)
}

// Prints the words of a frame, the first one bold if there are colors.
fn write_frame_words<W: Write>(
    alloc: Global,
    style: TextStyle,
    frame: FrameRef<'_>,
    out: &mut W,
) -> io::Result<()>
    ensures { OnOk result (Appends (W.contents out.old) (W.contents out.new)
        (first_in_bold style.colors (styled_words style.names (frame_of frame.entry)))) }
{
    let mut words = Vec::new(alloc);
    write_words(style.names, frame, &mut words)?;
    write_bold(style.colors, &words, out)
}

/// Prints the line of a fault, at the octet with this number.
pub(crate) fn write_styled_fault<W: Write>(
    style: TextStyle,
    code: Code,
    place: u64,
    out: &mut W,
) -> io::Result<()>
    ensures { OnOk result (Appends (W.contents out.old) (W.contents out.new)
        (styled_line style 1 (fault_shown code place))) }
{
    write_if(style.colors, RED, out)?;
    write!(out, "fault {code} at {place}")?;
    write_if(style.colors, RESET, out)?;
    out.write_all(b"\n")
}

/// Prints the line for an incomplete frame or preface.
pub(crate) fn write_styled_rest<W: Write>(
    style: TextStyle,
    count: usize,
    out: &mut W,
) -> io::Result<()>
    ensures { OnOk result (Appends (W.contents out.old) (W.contents out.new)
        (styled_line style 1 (rest_shown count))) }
{
    write_if(style.colors, RED, out)?;
    write!(out, "rest {count}")?;
    write_if(style.colors, RESET, out)?;
    out.write_all(b"\n")
}

/// Prints the line for an incomplete field block.
pub(crate) fn write_styled_unfinished<W: Write>(style: TextStyle, out: &mut W) -> io::Result<()>
    ensures { OnOk result (Appends (W.contents out.old) (W.contents out.new)
        (styled_line style 1 unfinished_shown)) }
{
    write_if(style.colors, RED, out)?;
    out.write_all(b"unfinished block")?;
    write_if(style.colors, RESET, out)?;
    out.write_all(b"\n")
}

// rule: show (own) A frame's place is the number of its first octet, in ten digits
// Prints a position and a space, if positions are shown.
fn write_place<W: Write>(places: bool, at: u64, out: &mut W) -> io::Result<()>
    ensures { OnOk result (Appends (W.contents out.old) (W.contents out.new)
        (place_word places at)) }
{
    match places {
        true => write!(out, "{at:010} "),
        false => Ok(()),
    }
}

// Prints octets, if the condition holds.
fn write_if<W: Write>(condition: bool, octets: &[u8], out: &mut W) -> io::Result<()>
    ensures { OnOk result (Appends (W.contents out.old) (W.contents out.new)
        (if condition then octets.now else [])) }
{
    match condition {
        true => out.write_all(octets),
        false => Ok(()),
    }
}

// rule: show (own) Colors begin and end within each line
// Prints words, the first one bold if there are colors.
fn write_bold<W: Write>(colors: bool, words: &[u8], out: &mut W) -> io::Result<()>
    ensures { OnOk result (Appends (W.contents out.old) (W.contents out.new)
        (first_in_bold colors words.now)) }
{
    let end = first_length(words);
    write_if(colors, BOLD, out)?;
    out.write_all(&words[..end])?;
    write_if(colors, RESET, out)?;
    out.write_all(&words[end..])
}

// The length of the first word.
fn first_length(words: &[u8]) -> usize
    ensures value { result ≡ first_length words.now }
    ensures within { result ≤ length words.now }
{
    match first_space(words) {
        Some(end) => end,
        None => words.len(),
    }
}

// The index of the first space, if there is one.
fn first_space(words: &[u8]) -> Option<usize>
    ensures { result ≡ position (λ octet. octet == 32) words.now }
{
    words.iter().position(|octet| *octet == b' ')
}

// Prints the words of a frame, with names or without.
fn write_words(names: bool, frame: FrameRef<'_>, words: &mut Vec<u8>) -> io::Result<()>
    ensures { OnOk result (words.new.items ≡ words.old.items
        ++ styled_words names (frame_of frame.entry)) }
{
    match names {
        true => write!(words, "{}", NamedLine(frame)),
        false => write!(words, "{}", FrameLine(frame)),
    }
}

// rule: show (own) Settings and error codes have their names where words ask for them
/// The line of a frame with names, without its newline.
#[derive(Clone, Copy)]
struct NamedLine<'a>(FrameRef<'a>);

#[tactic(auto, unfolding(crate::specs::StyledLines::named_words))]
impl fmt::Display for NamedLine<'_> {
    ghost output = { λ line. Some (named_words (frame_of line.0)) };

    fn fmt<W: fmt::Write>(&self, f: &mut fmt::Formatter<W>) -> fmt::Result {
        match self.0 {
            FrameRef::Reset { code, .. } => {
                write!(f, "{}{}", FrameLine(self.0), Name(code_name(code)))
            }
            FrameRef::Settings { ack, pairs } => write_named_settings(f, ack, pairs),
            FrameRef::GoAway { last, code, debug } => write_named_goaway(f, last, code, debug),
            _ => write!(f, "{}", FrameLine(self.0)),
        }
    }
}

/// A space and a name, if there is one.
#[derive(Clone, Copy)]
struct Name(Option<&'static str>);

impl fmt::Display for Name {
    ghost use Rattle.std.specs.Prelude.{option_map};

    ghost output = { λ name. Some (name_word (option_map (λ text. text.now) name.0)) };

    fn fmt<W: fmt::Write>(&self, f: &mut fmt::Formatter<W>) -> fmt::Result {
        match self.0 {
            Some(name) => write!(f, " {name}"),
            None => Ok(()),
        }
    }
}

/// The name of a setting, or its number if it has none.
#[derive(Clone, Copy)]
struct Setting(u16);

impl fmt::Display for Setting {
    ghost output = { λ setting. Some (setting_word setting.0) };

    fn fmt<W: fmt::Write>(&self, f: &mut fmt::Formatter<W>) -> fmt::Result {
        match setting_name(self.0) {
            Some(name) => write!(f, "{name}"),
            None => write!(f, "{}", self.0),
        }
    }
}

// rule: show (own) Settings and error codes have their names where words ask for them
#[tactic(auto, unfolding(crate::specs::StyledLines::named_words))]
fn write_named_goaway<W: fmt::Write>(
    f: &mut fmt::Formatter<W>,
    last: u32,
    code: u32,
    debug: &[u8],
) -> fmt::Result
    ensures { WritesOnOk W.write_str_gives f.old result
        (named_words (GoAway last code debug.now)) f.new }
{
    let length = goaway_length(debug);
    let name = Name(code_name(code));
    let count = debug.len();
    write!(
        f,
        "GOAWAY 0 {length} last={last} code={code}{name} debug={count}"
    )
}

// rule: show (own) Settings and error codes have their names where words ask for them
#[tactic(auto, unfolding(crate::specs::StyledLines::named_words))]
fn write_named_settings<W: fmt::Write>(
    f: &mut fmt::Formatter<W>,
    ack: bool,
    pairs: Pairs<'_>,
) -> fmt::Result
    ensures { WritesOnOk W.write_str_gives f.old result
        (named_words (Settings ack (lent_pairs pairs.entry))) f.new }
{
    let length = settings_length(pairs);
    write!(f, "SETTINGS 0 {length}{}", Word(ack, "ack"))?;
    for (id, value) in pairs.iter() {
        write!(f, " {}={value}", Setting(id))?;
    }
    Ok(())
}

// Prints the fields of the block that a frame ends, if any.
fn write_styled_list<W: Write>(
    colors: bool,
    decoded: Option<Decoded>,
    list: &FieldList,
    out: &mut W,
) -> io::Result<()>
    ensures { OnOk result (Appends (W.contents out.old) (W.contents out.new)
        (styled_listing colors (decoded_listing decoded list.now))) }
{
    match decoded {
        Some(Decoded::Whole) => write_styled_fields(colors, list, out),
        Some(Decoded::TooLarge) => write_styled_too_large(colors, out),
        None => Ok(()),
    }
}

// Prints the line that a list is too large.
fn write_styled_too_large<W: Write>(colors: bool, out: &mut W) -> io::Result<()>
    ensures { OnOk result (Appends (W.contents out.old) (W.contents out.new)
        (styled_listing colors (Some too_large))) }
{
    write_if(colors, FAINT, out)?;
    out.write_all(b"  list too large")?;
    write_if(colors, RESET, out)?;
    out.write_all(b"\n")
}

// Prints the lines of the fields of a list.
fn write_styled_fields<W: Write>(colors: bool, list: &FieldList, out: &mut W) -> io::Result<()>
    ensures { OnOk result (Appends (W.contents out.old) (W.contents out.new)
        (flat_map (styled_field colors) list.now)) }
{
    for place in 0..list.len() {
        if let Some(field) = list.get(place) {
            write_styled_field(colors, field, out)?;
        }
    }
    Ok(())
}

// Prints the line of a field.
fn write_styled_field<W: Write>(colors: bool, field: FieldRef<'_>, out: &mut W) -> io::Result<()>
    ensures { OnOk result (Appends (W.contents out.old) (W.contents out.new)
        (styled_field colors (field_lent field.entry))) }
{
    write_if(colors, FAINT, out)?;
    write_field_words(field, out)?;
    write_if(colors, RESET, out)?;
    out.write_all(b"\n")
}

// Prints the words of a field.
fn write_field_words<W: Write>(field: FieldRef<'_>, out: &mut W) -> io::Result<()>
    ensures { OnOk result (Appends (W.contents out.old) (W.contents out.new)
        (field_words (field_lent field.entry))) }
{
    out.write_all(if field.sensitive { b"  !" } else { b"  " })?;
    write_text(field.name, out)?;
    out.write_all(b": ")?;
    write_text(field.value, out)
}
