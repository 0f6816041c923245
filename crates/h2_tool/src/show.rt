//! The command `h2 show`.

ghost use Rattle.std.specs.Prelude.{◌≡◌, List, ℕ, Option, map, string_bytes};
ghost use Rattle.h2_cli.specs.declared.status.Status.TheVariants.{Device};
ghost use Rattle.h2_args.specs.Words.{show_asked_by};
ghost use Rattle.h2_tool.specs.Commands.{EndsShow, ShowsAsked, ShowsFile};

use crate::follow::cmd_follow;
use crate::program::{answer, end_input};
use crate::sides::{refuse_files, show_files};
use h2_args::{ShowWords, asks_follow, show_args};
use h2_cli::{Failure, Status};
use h2_show::{ShowOptions, show_input};
use std::alloc::Global;
use std::fs::{File, Files, OpenFile};
use std::io::{self, ErrorKind, Read, Write};

// rule: show (own) The status is 0 only where the input is good to its end
// contract: show (own) The words choose the end and hexadecimal
// rule: show (own) The words choose the end and hexadecimal
// contract: show (own) With --file the input is that of a file
/// Runs `h2 show` with the words after `show`: prints the frames of the input, one line each,
/// the fields under each block, and then the fault that ends the stream or what the end of the
/// input leaves unfinished. If the first octets are not the preface, a hint names the option
/// that is likely missing.
///
/// The words are checked before anything is read. Lines are written after each piece that was
/// read. Files are opened by `files` only.
///
/// The status is that of [`show_input`]; for help it is [`Status::Good`], and for wrong words
/// [`Status::Usage`], with nothing read. With `--file` a file is read; if it cannot be opened,
/// the status is [`Status::Device`], and a hint says why. With `--client` and `--server` both
/// files are shown, as by [`h2_follow::show_sides`]; one of them alone, or both with `--file`,
/// is [`Status::Usage`]. `colored` says whether `--color auto` has colors. With `--follow` the
/// input is tshark's text of both sides of a connection, and the status that of
/// [`h2_follow::follow_input`]; with `--page` a page is written to a file instead of lines.
pub fn cmd_show<F: Files, R: Read, W: Write, E: Write>(
    files: &F,
    alloc: Global,
    words: &[String],
    colored: bool,
    input: &mut R,
    out: &mut W,
    err: &mut E,
) -> Status
    ensures { EndsShow colored (map string_bytes words.now) (R.remaining input.old)
        (R.remaining input.new) (W.contents out.old) (W.contents out.new) result }
{
    if asks_follow(words) {
        return cmd_follow(files, alloc, words, input, out, err);
    }
    match show_args(alloc, words, colored) {
        Ok(asked) => show_asked(files, alloc, asked, input, out, err),
        Err(error) => answer(&error, out, err),
    }
}

// rule: show (own) With --file the input is that of a file
// rule: sides (own) --client and --server go together, and without --file
// Shows what is asked for.
fn show_asked<F: Files, R: Read, W: Write, E: Write>(
    files: &F,
    alloc: Global,
    asked: ShowWords<'_>,
    input: &mut R,
    out: &mut W,
    err: &mut E,
) -> Status
    ensures { ShowsAsked (show_asked_by asked.entry) (R.remaining input.old) (R.remaining input.new)
        (W.contents out.old) (W.contents out.new) result }
{
    match (asked.file, asked.client, asked.server) {
        (None, None, None) => {
            let shown = show_input(alloc, asked.options, input, out);
            end_input(shown, "--from server", err)
        }
        (Some(path), None, None) => show_file(files, alloc, asked.options, path, out, err),
        (None, Some(client), Some(server)) => {
            show_files(files, alloc, asked.options, (client, server), out, err)
        }
        _ => refuse_files(err),
    }
}

// rule: show (own) With --file the input is that of a file
// Shows the contents of a file.
fn show_file<F: Files, W: Write, E: Write>(
    files: &F,
    alloc: Global,
    options: ShowOptions,
    path: &str,
    out: &mut W,
    err: &mut E,
) -> Status
    ensures { (known : Option (List ℕ))
        → ShowsFile options known known (W.contents out.old) (W.contents out.new) result }
{
    match open(files, path) {
        Ok(mut file) => {
            let shown = show_input(alloc, options, &mut file, out);
            end_input(shown, "--from server", err)
        }
        Err(error) => end_unopened(path, &error, err),
    }
}

/// Opens a file that is not a folder.
pub(crate) fn open<F: Files>(files: &F, path: &str) -> io::Result<F::File> {
    let file = File::open(files, path)?;
    if file.metadata()?.is_dir() {
        return Err(io::Error::from(ErrorKind::IsADirectory));
    }
    Ok(file)
}

// rule (tested): show (own) A hint names a file that can't be opened, and why
/// Ends the command for a file that cannot be opened.
pub(crate) fn end_unopened<E: Write>(path: &str, error: &io::Error, err: &mut E) -> Status
    ensures { result ≡ Device }
{
    let why = match error.kind() {
        ErrorKind::NotFound => " does not exist",
        ErrorKind::PermissionDenied => ": permission denied",
        ErrorKind::IsADirectory => " is a folder",
        _ => " cannot be opened",
    };
    // There is no place left to report that these writes fail.
    let _ = writeln!(err, "{}", Failure::Device);
    let _ = writeln!(err, "hint: file {path}{why}");
    Status::Device
}
