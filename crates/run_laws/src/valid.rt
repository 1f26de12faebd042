//! Laws of valid proofs. Each function does nothing: its contract is the law, which holds for every
//! formula, layout, stream and run.
ghost use Rattle.run_laws.specs.AnyRun.{ValidInAnyRun};
ghost use Rattle.run_laws.specs.Together.{ValidTogether, TogetherBegins};
ghost use Rattle.run_laws.specs.ValidLaws.{ValidCiteWithin, ValidAccepted, ValidHasOneReport, ValidReported, ValidBegins, ValidCounted, ValidEmpty};

use crate::groups::{alone_has_one_report, beginnings_within, closed_is_group};
use lrup_text::laws::{
    a_refused_text_holds_no_line, a_stream_is_cut_in_one_way, a_text_has_one_fault,
    bytes_begin_with_one_line, no_bytes_have_no_lines, no_bytes_may_become_a_line,
};
use stream_check::laws::{
    alone_decides, cited_fetched, counts_within, decided_before_failure, end_judged, fresh_left,
    good_line_taken,
};

/// A valid proof cites only its own clauses and the formula's.
pub fn valid_cite_within()
    ensures { ValidCiteWithin }
{
    no_bytes_have_no_lines();
}

/// On its own, a valid proof may have its valid report, which says that it ended, and counts its
/// additions and deletions.
pub fn valid_accepted()
    ensures { ValidAccepted }
{
    good_line_taken();
    fresh_left();
    end_judged();
    no_bytes_have_no_lines();
    a_stream_is_cut_in_one_way();
}

/// On its own, a valid proof has only its valid report.
pub fn valid_has_one_report()
    ensures { ValidHasOneReport }
{
    valid_accepted();
    alone_has_one_report();
}

/// In every run a valid proof has its valid report, unless memory ran out or a read failed.
pub fn valid_reported()
    ensures { ValidReported }
{
    good_line_taken();
    fresh_left();
    end_judged();
    no_bytes_have_no_lines();
    a_stream_is_cut_in_one_way();
    valid_cite_within();
    beginnings_within();
    closed_is_group();
    alone_decides();
    decided_before_failure();
}

/// In every run the report of a stream that begins with valid lines says at least what the report
/// of these lines says, no matter what follows, unless memory ran out or a read failed in these
/// lines.
pub fn valid_begins()
    ensures { ValidBegins }
{
    good_line_taken();
    fresh_left();
    end_judged();
    no_bytes_have_no_lines();
    a_stream_is_cut_in_one_way();
    bytes_begin_with_one_line();
    a_refused_text_holds_no_line();
}

/// All identities that a valid proof deletes are counted.
pub fn valid_counted()
    ensures { ValidCounted }
{
    good_line_taken();
    fresh_left();
    end_judged();
    no_bytes_have_no_lines();
    a_stream_is_cut_in_one_way();
    counts_within();
}

/// The report of a valid proof says 'empty' exactly if some line adds the empty clause.
pub fn valid_empty()
    ensures { ValidEmpty }
{}

/// Suppose that a closed set of streams is judged by a legal history, and that one of these streams
/// is reported as ended. Take a run in which this stream's reader has the stream's bytes, and the
/// readers of the set's other streams have at least those streams' bytes. There the stream has the
/// same report, unless memory ran out, a read failed, or a line of the stream cites another
/// stream's clause that wasn't there yet or was no longer there.
pub fn valid_in_any_run()
    ensures { ValidInAnyRun }
{
    bytes_begin_with_one_line();
    a_refused_text_holds_no_line();
    a_text_has_one_fault();
    no_bytes_may_become_a_line();
    cited_fetched();
}

/// Suppose that lines of a set of streams have a valid order, and that the bytes of a run's readers
/// begin with these lines. Then the report of each stream says at least what the report of its
/// lines says, unless memory ran out or a read failed in these lines, or one of them cites another
/// stream's clause that wasn't there yet or was no longer there.
pub fn together_begins()
    ensures { TogetherBegins }
{
    good_line_taken();
    fresh_left();
    end_judged();
    no_bytes_have_no_lines();
    a_stream_is_cut_in_one_way();
    bytes_begin_with_one_line();
    a_refused_text_holds_no_line();
    cited_fetched();
}

/// Suppose that lines of a set of streams have a valid order, that the bytes of a run's readers
/// begin with these lines, and that one stream has nothing after its lines. Then that stream ended
/// with its valid report, unless memory ran out, a read failed, or one of its lines cites another
/// stream's clause that wasn't there yet or was no longer there.
pub fn valid_together()
    ensures { ValidTogether }
{
    good_line_taken();
    fresh_left();
    end_judged();
    no_bytes_have_no_lines();
    a_stream_is_cut_in_one_way();
    valid_in_any_run();
}
