//! Words that do not begin with a command's name.

ghost use Rattle.std.specs.Prelude.{◌≡◌, IfErr, IfOk, Ok, OnOk, map, string_bytes};
ghost use Rattle.clap.specs.Words.{AddsSubcommand, app_of};
ghost use Rattle.h2_args.specs.Commands.{IsProgram, bare_program, named_program};
ghost use Rattle.h2_args.specs.Words.{ProgramWordsFail, ProgramWordsPass};

use crate::get::get_command;
use crate::host::host_command;
use crate::replay::replay_command;
use crate::show::show_command;
use crate::sockets::{loop_command, serve_command};
use clap::{Command, Error};
use std::alloc::{AllocError, Global};

// contract: show (own) The words choose the end and hexadecimal
// rule: show (own) The words choose the end and hexadecimal
/// Reads words that do not begin with a command's name: they ask for help or the version, or are
/// wrong.
///
/// # Errors
///
/// Those of [`crate::show_args`], and `DisplayVersion` if the version is asked for.
pub fn no_command(alloc: Global, words: &[String]) -> Result<(), Error>
    ensures ok { OnOk result (ProgramWordsPass (map string_bytes words.now)) }
    ensures err { IfErr result (ProgramWordsFail (map string_bytes words.now)) }
{
    let command = program_command(alloc)?;
    command.try_get_matches_from(words)?;
    Ok(())
}

// The program with its commands.
fn program_command<'a>(alloc: Global) -> Result<Command<'a>, AllocError>
    ensures { IfOk result (λ command. IsProgram (app_of command)) }
{
    let program = bare_program(alloc)?;
    let shown = with_command(program, show_command(alloc))?;
    let replayed = with_command(shown, replay_command(alloc))?;
    let served = with_command(replayed, serve_command(alloc))?;
    let fetched = with_command(served, get_command(alloc))?;
    let looped = with_command(fetched, loop_command(alloc))?;
    with_command(looped, host_command(alloc))
}

// A program with one more command.
fn with_command<'a>(
    program: Command<'a>,
    command: Result<Command<'a>, AllocError>,
) -> Result<Command<'a>, AllocError>
    ensures { IfOk result (λ one. (added : Command) × (command.entry ≡ Ok added)
        × AddsSubcommand program.entry added one) }
{
    match command {
        Ok(command) => program.subcommand(command),
        Err(error) => Err(error),
    }
}

// The program with no command yet.
fn bare_program<'a>(alloc: Global) -> Result<Command<'a>, AllocError>
    ensures { IfOk result (λ command. app_of command ≡ bare_program) }
{
    let program = named_program(alloc)?
        .subcommand_required(true)
        .arg_required_else_help(true);
    Ok(program)
}

// The program, without constraints on its words.
fn named_program<'a>(alloc: Global) -> Result<Command<'a>, AllocError>
    ensures { IfOk result (λ command. app_of command ≡ named_program) }
{
    let program = Command::new(alloc, "h2")
        .no_binary_name(true)
        .bin_name("h2")?
        .about("Show, replay, serve and fetch HTTP/2 over cleartext")
        .version("0.1.0");
    Ok(program)
}
