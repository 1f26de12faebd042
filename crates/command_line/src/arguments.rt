//! The definition of the command line, for `clap`.
ghost use Rattle.std.specs.Prelude.{◌≡◌, IfOk, false, true, codes};
ghost use Rattle.clap.specs.Words.{app_of, new_rule, rule_of};
ghost use Rattle.command_line.specs.CommandLine.{file_rule, flag_rule, lrupd, number_rule, stream_rule};
ghost use Rattle.command_line.specs.internal.Matches.{with_numbers, without_arguments};

use crate::help;
use clap::builder::ValueParser;
use clap::{Arg, ArgAction, Command};
use std::alloc::{AllocError, Global};

/// The largest value of `--tries`.
const MAX_TRIES: u64 = 1_000_000;

/// The largest value of `--lines`.
pub(crate) const MAX_LINES: u64 = 268_435_456;

/// The largest value of `--room`.
pub(crate) const MAX_ROOM: u64 = 268_435_456;

/// The command, with its arguments.
pub fn program<'a>(alloc: Global) -> Result<Command<'a>, AllocError>
    ensures { IfOk result (λ program. app_of program ≡ lrupd) }
{
    let command = with_numbers(alloc)?;
    let command = command.arg(file(alloc, "assume", "FILE", help::ASSUME))?;
    let command = command.arg(file(alloc, "checkpoint", "FILE", help::CHECKPOINT))?;
    let command = command.arg(file(alloc, "rounds", "DIR", help::ROUNDS))?;
    let command = command.arg(flag(alloc, "serial", help::SERIAL))?;
    let command = command.arg(flag(alloc, "watch", help::WATCH))?;
    let command = command.arg(formula(alloc))?;
    command.arg(stream(alloc))
}

/// The command with the options that take a number.
fn with_numbers<'a>(alloc: Global) -> Result<Command<'a>, AllocError>
    ensures { IfOk result (λ command. app_of command ≡ with_numbers) }
{
    let command = bare(alloc);
    let command = command.arg(number(alloc, "tries", MAX_TRIES, help::TRIES))?;
    let command = command.arg(number(alloc, "lines", MAX_LINES, help::LINES))?;
    command.arg(number(alloc, "room", MAX_ROOM, help::ROOM))
}

/// The command with its help text and without arguments.
fn bare<'a>(alloc: Global) -> Command<'a>
    ensures { app_of result ≡ without_arguments }
{
    Command::new(alloc, "lrupd")
        .no_binary_name(true)
        .version(help::VERSION)
        .about(help::PROGRAM)
        .after_help(help::EXAMPLE)
        .next_line_help(true)
}

/// The option `--name N` for a number from 0 to `most`.
fn number<'a>(alloc: Global, name: &'a str, most: u64, help: &'a str) -> Arg<'a>
    ensures rule { rule_of result ≡ number_rule name.now most }
    ensures local { result.global ≡ false }
{
    Arg::new(alloc, name)
        .long(name)
        .value_name("N")
        .value_parser(ValueParser::Unsigned(0, most))
        .help(help)
}

/// The option `--name FILE`; the help shows `value` in place of FILE.
fn file<'a>(alloc: Global, name: &'a str, value: &'a str, help: &'a str) -> Arg<'a>
    ensures rule { rule_of result ≡ file_rule name.now }
    ensures local { result.global ≡ false }
{
    Arg::new(alloc, name)
        .long(name)
        .value_name(value)
        .help(help)
}

/// The flag `--name`.
fn flag<'a>(alloc: Global, name: &'a str, help: &'a str) -> Arg<'a>
    ensures rule { rule_of result ≡ flag_rule name.now }
    ensures local { result.global ≡ false }
{
    Arg::new(alloc, name)
        .long(name)
        .action(ArgAction::SetTrue)
        .value_parser(ValueParser::Bool)
        .help(help)
}

/// The word FORMULA.
fn formula<'a>(alloc: Global) -> Arg<'a>
    ensures rule { rule_of result ≡ record (new_rule (codes "FORMULA")) { required = true } }
    ensures local { result.global ≡ false }
{
    Arg::new(alloc, "FORMULA")
        .required(true)
        .help(help::FORMULA)
}

/// The words STREAM, one or more.
fn stream<'a>(alloc: Global) -> Arg<'a>
    ensures rule { rule_of result ≡ stream_rule }
    ensures local { result.global ≡ false }
{
    Arg::new(alloc, "STREAM")
        .required(true)
        .action(ArgAction::Append)
        .num_args(1..)
        .help(help::STREAM)
}
