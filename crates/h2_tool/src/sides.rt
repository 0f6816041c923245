//! The command `h2 show` with the files of both sides.

ghost use Rattle.std.specs.Prelude.{◌≡◌, List, ℕ, MatchResult, Option};
ghost use Rattle.h2_cli.specs.Status.{failure_status};
ghost use Rattle.h2_cli.specs.declared.status.Status.TheVariants.{Usage};
ghost use Rattle.h2_tool.specs.Commands.{ShowsFiles};

use crate::program::end_input;
use crate::show::{end_unopened, open};
use h2_cli::{Failure, Status};
use h2_follow::show_sides;
use h2_show::{Hint, ShowOptions, Shown};
use std::alloc::Global;
use std::fs::Files;
use std::io::Write;

// contract: sides (own) --client and --server go together, and without --file
// rule: sides (own) --client and --server go together, and without --file
/// Shows the files of the client and of the server.
pub(crate) fn show_files<F: Files, W: Write, E: Write>(
    files: &F,
    alloc: Global,
    options: ShowOptions,
    paths: (&str, &str),
    out: &mut W,
    err: &mut E,
) -> Status
    ensures { (known : Option (List ℕ))
        → ShowsFiles options known known (W.contents out.old) (W.contents out.new) result }
{
    let (client, server) = paths;
    let mut one = match open(files, client) {
        Ok(file) => file,
        Err(error) => return end_unopened(client, &error, err),
    };
    let mut two = match open(files, server) {
        Ok(file) => file,
        Err(error) => return end_unopened(server, &error, err),
    };
    let shown = show_sides(alloc, options, &mut one, &mut two, out);
    end_sides(shown, err)
}

// rule: sides (own) The client's input is shown whole, and then the server's
// Ends the command with the result of the inputs.
fn end_sides<E: Write>(shown: Result<Shown, Failure>, err: &mut E) -> Status
    ensures { MatchResult shown (λ shown. result ≡ shown.status)
        (λ failure. result ≡ failure_status failure) }
{
    match shown {
        Ok(
            Shown {
                status,
                hint: Some(Hint::FromServer | Hint::ClientPreface),
            },
        ) => {
            // The status is that of the inputs, whether or not this write fails.
            let _ = writeln!(
                err,
                "hint: the preface belongs in the client's file: are the files swapped?"
            );
            status
        }
        _ => end_input(shown, "--from server", err),
    }
}

// rule: sides (own) --client and --server go together, and without --file
/// Ends the command for a wrong combination of `--client`, `--server` and `--file`.
pub(crate) fn refuse_files<E: Write>(err: &mut E) -> Status
    ensures { result ≡ Usage }
{
    // There is no place left to report that this write fails.
    let _ = writeln!(
        err,
        "error: --client and --server must be used together, and without --file"
    );
    Status::Usage
}
