//! Shows both sides of a connection from two inputs.

ghost use Rattle.std.specs.Prelude.{◌≡◌, ◌++◌, ℕ, List, true, Err, IfOk, IfSome, OnOk};
ghost use Rattle.std.specs.Io.KnownBytes.{Appends};
ghost use Rattle.h2_cli.specs.Hexadecimal.{IsBadHex};
ghost use Rattle.h2_show.specs.Shown.{ShowsInput};
ghost use Rattle.h2_follow.specs.Follows.{status_of_both};
ghost use Rattle.h2_follow.specs.Sides.{HasBadHex, ShowsSides, object_mark, objects_with};
ghost use Rattle.h2_follow.specs.Sides.{options_from, side_text};

use crate::follower::both;
use crate::marks::{mark_lines, mark_of};
use h2_cli::{Failure, Status};
use h2_show::{ShowOptions, Shown, Side, Style, show_input};
use std::alloc::{AllocError, Global};
use std::io::{self, Read, Write};

// contract: sides (own) The client's input is shown whole, and then the server's
// rule: sides (own) The client's input is shown whole, and then the server's
// contract: sides (own) Each line has its side: a mark, or with --json the first key
/// Shows the inputs of both sides as `h2 show` shows one, each line with its side: first all
/// lines of the client, then those of the server. `from` of the options is ignored.
///
/// The lines of each are those of [`h2_show::show_input`]. Returns [`Status::Good`] only if both
/// inputs are valid and complete, and the hint of the client's input, or else of the server's.
/// All lines are kept in memory until both inputs have ended.
///
/// # Errors
///
/// [`Failure::BadHex`] if an input is not the hexadecimal text announced, or [`Failure::Device`]
/// if a read failed: then nothing is written. [`Failure::Device`] also if a write failed, and
/// [`Failure::Memory`] if out of memory.
pub fn show_sides<C: Read, S: Read, W: Write>(
    alloc: Global,
    options: ShowOptions,
    client: &mut C,
    server: &mut S,
    out: &mut W,
) -> Result<Shown, Failure>
    ensures shows { IfOk result (λ shown. IfSome (C.remaining client.old) (λ one.
        IfSome (S.remaining server.old) (λ two.
        (lines : List ℕ) × ShowsSides options one two shown.status lines
        × Appends (W.contents out.old) (W.contents out.new) lines))) }
    ensures bad_hex { result ≡ Err Failure.BadHex
        → HasBadHex options (C.remaining client.old) (S.remaining server.old) }
{
    let mut lines = Vec::new(alloc);
    let one = add_side(alloc, options, Side::Client, client, &mut lines)?;
    let two = add_side(alloc, options, Side::Server, server, &mut lines)?;
    if write_lines(&lines, out).is_err() {
        return Err(Failure::Device);
    }
    Ok(Shown {
        status: both(one.status, two.status),
        hint: one.hint.or(two.hint),
    })
}

// rule: sides (own) The client's input is shown whole, and then the server's
// Adds the lines of the input of a side.
fn add_side<R: Read>(
    alloc: Global,
    options: ShowOptions,
    side: Side,
    input: &mut R,
    lines: &mut Vec<u8>,
) -> Result<Shown, Failure>
    ensures shows { IfOk result (λ shown. IfSome (R.remaining input.old) (λ given.
        (text : List ℕ) × ShowsInput (options_from side options) given shown.status text
        × (lines.new.items ≡ lines.old.items ++ side_text options.style side text))) }
    ensures bad_hex { result ≡ Err Failure.BadHex
        → (options.hex ≡ true) × IfSome (R.remaining input.old) IsBadHex }
{
    let mut text = Vec::new(alloc);
    let shown = show_input(alloc, options_from(side, options), input, &mut text)?;
    if add_text(options.style, side, &text, lines).is_err() {
        return Err(Failure::Memory);
    }
    Ok(shown)
}

// The options for a side.
fn options_from(side: Side, options: ShowOptions) -> ShowOptions
    ensures { result ≡ options_from side options }
{
    ShowOptions {
        hex: options.hex,
        from: side,
        max_frame: options.max_frame,
        style: options.style,
    }
}

// contract: sides (own) Each line has its side: a mark, or with --json the first key
// rule: sides (own) Each line has its side: a mark, or with --json the first key
// Adds lines of a side in a style, each with its side.
fn add_text(style: Style, side: Side, text: &[u8], lines: &mut Vec<u8>) -> Result<(), AllocError>
    ensures { OnOk result (lines.new.items ≡ lines.old.items ++ side_text style side text.now) }
{
    match style {
        Style::Plain | Style::Text(_) => mark_lines(text, mark_of(side), lines),
        Style::Json => mark_objects(text, object_mark(side), lines),
    }
}

// rule: sides (own) Each line has its side: a mark, or with --json the first key
// Adds lines that are objects, with `mark` in place of the first octet of each.
fn mark_objects(text: &[u8], mark: &[u8], lines: &mut Vec<u8>) -> Result<(), AllocError>
    ensures { OnOk result (lines.new.items ≡ lines.old.items ++ objects_with mark.now true text.now) }
{
    let mut starts = true;
    for octet in text {
        if starts {
            lines.extend_from_slice(mark)?;
        } else {
            lines.push(*octet)?;
        }
        starts = *octet == b'\n';
    }
    Ok(())
}

// How the object of a side's line begins.
fn object_mark<'a>(side: Side) -> &'a [u8]
    ensures { result.now ≡ object_mark side }
{
    match side {
        Side::Client => b"{\"side\":\"client\",",
        Side::Server => b"{\"side\":\"server\",",
    }
}

// Writes lines.
fn write_lines<W: Write>(lines: &[u8], out: &mut W) -> io::Result<()>
    ensures { OnOk result (Appends (W.contents out.old) (W.contents out.new) lines.now) }
{
    out.write_all(lines)?;
    out.flush()
}
