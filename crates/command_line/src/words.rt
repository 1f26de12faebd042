//! The words of the command line.
ghost use Rattle.std.specs.Prelude.{◌≡◌, IfErr, IfNone, IfOk, IfSome, IsSome, Some, codes, is_some, option_map};
ghost use Rattle.clap.specs.Walk.{rows_of, texts};
ghost use Rattle.clap.specs.Words.{FailsBy, all_of, fault_of, first_of, found_of};
ghost use Rattle.command_line.specs.CommandLine.{IsCommandLineOf, IsWordsFault, IsSaidBy, checkpoint_of, is_set, lrupd, option_number, rounds_of};
ghost use Rattle.command_line.specs.internal.Matches.{AreBothIn, AreRowsOf, AreWhole, HasNumber, HasTruth, IsFaultFrom, IsRowsFault};

use crate::arguments::program;
use clap::error::ErrorKind;
use clap::{ArgMatches, Error as ClapError};
use std::alloc::{AllocError, Global};
use std::fmt;
use std::marker::Model;
use thiserror::Error;

/// What the words ask for.
#[derive(Debug, Drop)]
pub struct CommandLine<'a> {
    /// How many times a vacant hint is looked up again: at most 1,000,000.
    pub tries: u64,
    /// The identities of each stream, at most 268,435,456.
    pub lines: u64,
    /// The literals of each stream's own clauses, at most 268,435,456.
    pub room: u64,
    /// The path of the assumed literals, if any.
    pub assume: Option<&'a str>,
    /// For which run, if any, the clauses that are live at the end are saved.
    pub next: Next<'a>,
    /// Whether one thread checks all streams, a line of each in turn.
    pub serial: bool,
    /// Whether to report progress while streams are checked.
    pub watch: bool,
    /// The path of the formula.
    pub formula: &'a str,
    /// The paths of the streams.
    pub streams: Paths<'a>,
}

/// For which run, if any, the clauses that are live at the end are saved.
#[derive(Clone, Copy, Debug, PartialEq, Eq)]
pub enum Next<'a> {
    /// For no run: the clauses aren't saved.
    Nothing,
    /// For a later run: the path of its formula.
    Checkpoint(&'a str),
    /// For the next round: the folder of the rounds after the first.
    Rounds(&'a str),
}

impl<'a> Next<'a> {
    /// Whether the words ask for rounds.
    pub fn asks_for_rounds(self) -> bool
        ensures { result ≡ is_some (rounds_of self.entry) }
    {
        matches!(self, Next::Rounds(_))
    }
}

/// Paths, in order.
#[derive(Debug, Drop)]
pub struct Paths<'a> {
    paths: Vec<&'a str>,
}

impl<'a> Model for Paths<'a> {
    ghost use Rattle.std.specs.Prelude.{List, ℕ};
    ghost use Rattle.clap.specs.Walk.{texts};

    ghost Value = { List (List ℕ) };

    ghost view = { λ p. texts p.paths.items };
}

impl<'a> Paths<'a> {
    /// These paths, in this order.
    pub fn new(paths: Vec<&'a str>) -> Paths<'a>
        ensures { result ≡ texts paths.entry.items }
    {
        Paths { paths }
    }

    /// The paths.
    pub fn as_slice(&self) -> &[&'a str]
        ensures { texts result.now ≡ self.now }
    {
        self.paths.as_slice()
    }
}

/// The text of a usage fault or of the help. It ends with LF.
#[derive(Debug, Drop)]
pub struct UsageText {
    text: String,
}

impl Model for UsageText {
    ghost use Rattle.std.specs.Prelude.{List, ℕ, string_bytes};

    ghost Value = { List ℕ };

    ghost view = { λ t. string_bytes t.text };
}

impl UsageText {
    /// The text.
    pub fn as_str(&self) -> &str
        ensures { result.now ≡ self.now }
    {
        self.text.as_str()
    }
}

impl fmt::Display for UsageText {
    ghost output = { λ text. Some text };

    fn fmt<W: fmt::Write>(&self, f: &mut fmt::Formatter<W>) -> fmt::Result {
        f.write_str(self.as_str())
    }
}

/// Why the words give no command line.
#[derive(Debug, Drop, Error)]
pub enum WordsFault {
    /// The words have a mistake, or ask for help; the text comes from `clap`.
    #[error("{0}")]
    Usage(UsageText),
    /// The words ask both for a checkpoint and for rounds, which name their checkpoints themselves.
    #[error("--checkpoint and --rounds exclude each other")]
    TwoCheckpoints,
    /// Out of memory.
    #[error("out of memory")]
    Memory,
}

impl From<AllocError> for WordsFault {
    ghost use Rattle.command_line.specs.declared.words.WordsFault.TheVariants.{Memory};

    ghost from_gives = { λ _ fault. fault ≡ Memory };

    fn from(_error: AllocError) -> Self {
        WordsFault::Memory
    }
}

/// Reads the words after the program's name.
pub fn read_words<'a>(alloc: Global, words: &'a [&str]) -> Result<CommandLine<'a>, WordsFault>
    ensures ok { IfOk result (IsCommandLineOf (texts words.now)) }
    ensures fault { IfErr result (IsWordsFault (texts words.now)) }
{
    match matches_in(alloc, words) {
        Ok(matches) => command_line(alloc, &matches),
        Err(error) => Err(words_fault(alloc, &error)),
    }
}

/// What `clap` finds in the words after the program's name.
fn matches_in<'a>(alloc: Global, words: &'a [&str]) -> Result<ArgMatches<'a>, ClapError>
    ensures ok { IfOk result (λ matches. AreRowsOf (texts words.now) (rows_of (found_of matches))) }
    ensures faults { FailsBy (fault_of lrupd (texts words.now)) result }
{
    let mut program = program(alloc)?;
    program.try_get_matches_from_mut(words)
}

/// The number given with an option, or the option's default.
fn option_number(matches: &ArgMatches<'_>, name: &str, default: u64) -> u64
    requires { HasNumber name.now (rows_of (found_of matches.now)) }
    ensures { result ≡ option_number name.now default (rows_of (found_of matches.now)) }
{
    matches.get_one::<u64>(name).unwrap_or(default)
}

/// The command line that the words give, from what `clap` found in them.
fn command_line<'a>(alloc: Global, matches: &ArgMatches<'a>) -> Result<CommandLine<'a>, WordsFault>
    requires { AreWhole (rows_of (found_of matches.now)) }
    ensures ok { IfOk result (IsSaidBy (rows_of (found_of matches.now))) }
    ensures fault { IfErr result (IsRowsFault (rows_of (found_of matches.now))) }
{
    let Some(next) = next_of(matches) else {
        return Err(WordsFault::TwoCheckpoints);
    };
    Ok(CommandLine {
        tries: option_number(matches, "tries", 1_000),
        lines: option_number(matches, "lines", 65_536),
        room: option_number(matches, "room", 1_048_576),
        assume: file_of(matches, "assume"),
        next,
        serial: is_set(matches, "serial"),
        watch: is_set(matches, "watch"),
        formula: formula_of(matches),
        streams: streams_of(alloc, matches)?,
    })
}

/// Whether the words have the flag.
fn is_set(matches: &ArgMatches<'_>, name: &str) -> bool
    requires { HasTruth name.now (rows_of (found_of matches.now)) }
    ensures { result ≡ is_set name.now (rows_of (found_of matches.now)) }
{
    matches.get_flag(name)
}

/// What the clauses are saved for; `None` if the words have both `--checkpoint` and `--rounds`.
fn next_of<'a>(matches: &ArgMatches<'a>) -> Option<Next<'a>>
    ensures checkpoint { IfSome result (λ next. checkpoint_of next
        ≡ first_of (codes "checkpoint") (rows_of (found_of matches.now))) }
    ensures rounds { IfSome result (λ next. rounds_of next
        ≡ first_of (codes "rounds") (rows_of (found_of matches.now))) }
    ensures both { IfNone result (AreBothIn (rows_of (found_of matches.now))) }
{
    match (file_of(matches, "checkpoint"), file_of(matches, "rounds")) {
        (None, None) => Some(Next::Nothing),
        (Some(path), None) => Some(Next::Checkpoint(path)),
        (None, Some(folder)) => Some(Next::Rounds(folder)),
        (Some(_), Some(_)) => None,
    }
}

/// The path given with an option, if the words have the option.
fn file_of<'a>(matches: &ArgMatches<'a>, name: &str) -> Option<&'a str>
    ensures { option_map (λ path. path.now) result
        ≡ first_of name.now (rows_of (found_of matches.now)) }
{
    matches.get_str(name)
}

/// The word FORMULA.
fn formula_of<'a>(matches: &ArgMatches<'a>) -> &'a str
    requires { IsSome (first_of (codes "FORMULA") (rows_of (found_of matches.now))) }
    ensures { first_of (codes "FORMULA") (rows_of (found_of matches.now)) ≡ Some result.now }
{
    matches.get_str("FORMULA").unwrap()
}

/// The words STREAM, in order.
fn streams_of<'a>(alloc: Global, matches: &ArgMatches<'a>) -> Result<Paths<'a>, AllocError>
    requires { IsSome (all_of (codes "STREAM") (rows_of (found_of matches.now))) }
    ensures { IfOk result (λ streams.
        all_of (codes "STREAM") (rows_of (found_of matches.now)) ≡ Some streams) }
{
    let mut paths = Vec::new(alloc);
    paths.extend_from_slice(matches.get_strs("STREAM").unwrap())?;
    Ok(Paths { paths })
}

/// The fault for an error from `clap`.
fn words_fault(alloc: Global, error: &ClapError) -> WordsFault
    ensures { IsFaultFrom error.now result }
{
    if error.kind() == ErrorKind::OutOfMemory {
        return WordsFault::Memory;
    }
    match format!(in alloc; "{error}") {
        Ok(text) => WordsFault::Usage(UsageText { text }),
        Err(_) => WordsFault::Memory,
    }
}
