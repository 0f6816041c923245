//! What the commands have in common.

ghost use Rattle.std.specs.Prelude.{◌≡◌, IfOk, false, map, string_bytes};
ghost use Rattle.clap.specs.Words.{app_of, first_of, found_of, one_of, rows_of, rule_of};
ghost use Rattle.h2_args.specs.Commands.{IsSideRule, flag_rule, hex_rule, named_app, path_rule};
ghost use Rattle.h2_args.specs.Words.{has_value, has_word, is_set};

use clap::{Arg, ArgAction, ArgMatches, Command};
use std::alloc::{AllocError, Global};

/// The name of a command, and the text of its help.
#[derive(Clone, Copy)]
pub(super) struct CommandText<'a> {
    /// The program's name, and the command's.
    pub(super) called: &'a str,
    /// What it does.
    pub(super) about: &'a str,
    /// Which words it takes.
    pub(super) usage: &'a str,
    /// What it prints, how it ends, and an example.
    pub(super) more: &'a str,
}

/// A command of this name with no arguments yet.
pub(super) fn named_command<'a>(
    alloc: Global,
    name: &'a str,
    text: CommandText<'a>,
) -> Result<Command<'a>, AllocError>
    ensures { IfOk result (λ command. app_of command ≡ named_app name.entry.now) }
{
    let command = Command::new(alloc, name)
        .no_binary_name(true)
        .bin_name(text.called)?;
    Ok(with_help(command, text))
}

// The command with its help. A proof about a longer chain of calls takes much longer.
fn with_help<'a>(command: Command<'a>, text: CommandText<'a>) -> Command<'a>
    ensures { app_of result ≡ app_of command.entry }
{
    command
        .about(text.about)
        .override_usage(text.usage)
        .after_help(text.more)
}

/// The name of the flag for hexadecimal input.
pub(super) const HEX: &str = "hex";

const HEX_HELP: &str = r"Read the input as hexadecimal text; spaces, tabs and line
ends are ignored";

/// The flag as clap has it.
pub(super) fn hex_arg<'a>(alloc: Global) -> Arg<'a>
    ensures rule { rule_of result ≡ hex_rule }
    ensures local { result.global ≡ false }
{
    Arg::new(alloc, HEX)
        .long(HEX)
        .action(ArgAction::SetTrue)
        .help(HEX_HELP)
}

/// A flag.
pub(super) fn flag_arg<'a>(alloc: Global, name: &'a str, help: &'a str) -> Arg<'a>
    ensures rule { rule_of result ≡ flag_rule name.entry.now }
    ensures local { result.global ≡ false }
{
    Arg::new(alloc, name)
        .long(name)
        .action(ArgAction::SetTrue)
        .help(help)
}

/// An option whose value is any text, without a letter.
pub(super) fn valued_arg<'a>(alloc: Global, name: &'a str, value: &'a str, help: &'a str) -> Arg<'a>
    ensures rule { rule_of result ≡ path_rule name.entry.now }
    ensures local { result.global ≡ false }
{
    Arg::new(alloc, name)
        .long(name)
        .value_name(value)
        .help(help)
}

/// An option that names a side, with its default.
pub(super) fn side_arg<'a>(alloc: Global, name: &'a str, default: &'a str, help: &'a str) -> Arg<'a>
    ensures rule { IsSideRule name.entry.now default.entry.now (rule_of result) }
    ensures local { result.global ≡ false }
{
    Arg::new(alloc, name)
        .long(name)
        .value_name("SIDE")
        .value_parser(["client", "server"].as_slice())
        // The help says the default and the words, within 80 columns.
        .default_value(default)
        .hide_default_value(true)
        .hide_possible_values(true)
        .help(help)
}

/// Whether one of the words is this one.
pub(super) fn has_word(words: &[String], wanted: &str) -> bool
    ensures { result ≡ has_word (map string_bytes words.now) wanted.now }
{
    for word in words {
        if word.as_str() == wanted {
            return true;
        }
    }
    false
}

/// Whether a flag was given.
pub(super) fn is_set(matches: &ArgMatches<'_>, flag: &str) -> bool
    ensures { result ≡ is_set (one_of flag.now (rows_of (found_of matches.now))) }
{
    matches.get_one::<bool>(flag).unwrap_or(false)
}

/// Whether an option has this value.
pub(super) fn is_named(matches: &ArgMatches<'_>, option: &str, name: &str) -> bool
    ensures { result ≡ has_value name.now (first_of option.now (rows_of (found_of matches.now))) }
{
    match matches.get_str(option) {
        Some(given) => given == name,
        None => false,
    }
}
