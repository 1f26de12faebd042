//! Laws of the order of lines. Each function does nothing: its contract is the law, which holds for
//! every formula, layout, set and history.
ghost use Rattle.run_laws.specs.OrderLaws.{JudgedBlocks, DeletedRetired, LinesOrdered, ClosedOrdered, AllClosed, AllOrdered, OwnersAloneSuffices, SharedStays, RunSerializable};

use lrup_text::laws::{bytes_begin_with_one_line, every_stream_is_cut};
use stream_check::laws::{cited_fetched, early_events, reduced_stream, vacant_tries_again};

/// Each block by which a stream is judged has the form of a line's events.
pub fn judged_blocks()
    ensures { JudgedBlocks }
{
    early_events();
    vacant_tries_again();
}

/// A stream retires only identities that its lines delete.
pub fn deleted_retired()
    ensures { DeletedRetired }
{
    bytes_begin_with_one_line();
}

/// If the streams of a set find no clause of a stream outside the set, and each clause of another
/// stream that they find live stays live, their lines have an order.
pub fn lines_ordered()
    ensures { LinesOrdered }
{}

/// If a closed set of streams is judged by one legal history, and each clause of another stream
/// that they find live stays live, their reports have an order of lines.
pub fn closed_ordered()
    ensures { ClosedOrdered }
{
    lines_ordered();
    judged_blocks();
    cited_fetched();
    reduced_stream();
}

/// All streams together are a closed set.
pub fn all_closed()
    ensures { AllClosed }
{
    every_stream_is_cut();
}

/// If each clause of another stream that a stream finds live stays live, the reports have an order
/// of lines, and that order gives the same verdict as the reports.
pub fn all_ordered()
    ensures { AllOrdered }
{
    closed_ordered();
    all_closed();
}

/// If each identity that the history retires was found only by its owner, each clause of another
/// stream that a stream found live stays live.
pub fn owners_alone_suffices()
    ensures { OwnersAloneSuffices }
{}

/// If no stream deletes an identity of its own that a line of another stream cites, each clause of
/// another stream that a stream found live stays live.
pub fn shared_stays()
    ensures { SharedStays }
{
    cited_fetched();
    deleted_retired();
}

/// The lines of every run are serializable.
pub fn run_serializable()
    ensures { RunSerializable }
{
    closed_ordered();
    all_ordered();
}
