//! Laws of groups. Each function does nothing: its contract is the law, which holds for every
//! formula, layout, set and run.
ghost use Rattle.run_laws.specs.GroupLaws.{BeginningsWithin, ReadersClosed, ClosedIsGroup, OthersEmpty, AloneHasOneReport, RunIsolated, MatchIsReading, SameReadingAgrees, SameBytesAgree};

use lrup_text::laws::{a_beginning_is_cut_alike, every_stream_is_cut};
use stream_check::laws::{
    alone_decides, cited_fetched, decided_before_failure, end_judged, finished_stays, fresh_left,
};

/// If the lines of some bytes cite no identity of a stream outside a set of streams, neither do the
/// lines of a prefix of the bytes.
pub fn beginnings_within()
    ensures { BeginningsWithin }
{
    every_stream_is_cut();
    a_beginning_is_cut_alike();
}

/// A set of streams is closed if, in the bytes that its streams' readers have at the start, no line
/// cites an identity of a stream outside the set.
pub fn readers_closed()
    ensures { ReadersClosed }
{
    beginnings_within();
}

/// A closed set of streams that is judged by one legal history is a group.
pub fn closed_is_group()
    ensures { ClosedIsGroup }
{
    cited_fetched();
}

/// A group is judged as in a run in which all other streams are empty.
pub fn others_empty()
    ensures { OthersEmpty }
{
    fresh_left();
    end_judged();
}

/// At most one report fits a stream on its own, however much of it was read.
pub fn alone_has_one_report()
    ensures { AloneHasOneReport }
{
    finished_stays();
    alone_decides();
}

/// The groups of every run are isolated.
pub fn run_isolated()
    ensures { RunIsolated }
{
    closed_is_group();
    alone_has_one_report();
}

/// If a reader hasn't failed, its stream is a reading of the bytes that the reader had left at the
/// start.
pub fn match_is_reading()
    ensures { MatchIsReading }
{}

/// In two runs, a stream that cites only its own clauses and the formula's has the same report if
/// its readers delivered the same bytes and end, unless memory ran out.
pub fn same_reading_agrees()
    ensures { SameReadingAgrees }
{
    beginnings_within();
    closed_is_group();
    alone_has_one_report();
}

/// In two runs, a stream that cites only its own clauses and the formula's has the same report if
/// its readers have the same bytes at the start, unless memory ran out or a read failed.
pub fn same_bytes_agree()
    ensures { SameBytesAgree }
{
    beginnings_within();
    closed_is_group();
    alone_decides();
    decided_before_failure();
}
