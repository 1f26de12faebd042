//! Laws of judging. Each function does nothing: its contract is the law, which holds for every
//! stream, layout and history. If it calls another function, its proof uses that function's law.
ghost use Rattle.stream_check.specs.Laws.{FreshLeft, GoodLineTaken, EndJudged, FinishedStays, DecidedBeforeFailure, DroppedOnce, ReadyNew, ReadyBeside, OneReport, RepliesDecide, BlocksGoAlike, LegalNeverFork, AloneDecides, GoodFollows, EarlyEvents, VacantTriesAgain, ReducedStream, CitedFetched, WithinReported, EmptyCubeReported, CountsWithin};

use lrup_text::laws::{
    a_text_has_one_fault, a_text_spells_one_line, bytes_begin_with_one_line,
    no_bytes_have_no_lines, no_text_begins_another, texts_are_lines,
};

/// A checker that has taken no bytes and no blocks is fresh.
pub fn fresh_left()
    ensures { FreshLeft }
{
    texts_are_lines();
    no_bytes_have_no_lines();
}

/// One more good line, with its block of events, leads to the state after that line.
pub fn good_line_taken()
    ensures { GoodLineTaken }
{
    texts_are_lines();
    no_bytes_have_no_lines();
}

/// At the end of the stream, or after a failed read, the report made from the checker's counts is
/// right.
pub fn end_judged()
    ensures { EndJudged }
{}

/// A report that is right whether the stream ended or a read failed stays right for any further
/// bytes.
pub fn finished_stays()
    ensures { FinishedStays }
{}

/// If a read failed and the report doesn't say so, the report is right for either end and for any
/// further bytes.
pub fn decided_before_failure()
    ensures { DecidedBeforeFailure }
{}

/// If a line stopped a stream, and its report's numbers are below 2^64 - 1, the stream's bytes and
/// the report determine what it dropped.
pub fn dropped_once()
    ensures { DroppedOnce }
{
    bytes_begin_with_one_line();
}

/// A new checker can be fed at the start of a run.
pub fn ready_new()
    ensures { ReadyNew }
{}

/// On the map of one thread, a checker that can be fed can also be fed after another stream's
/// calls.
pub fn ready_beside()
    ensures { ReadyBeside }
{}

/// A stream's bytes, end and events allow only one report and one list of blocks, unless memory ran
/// out.
pub fn one_report()
    ensures { OneReport }
{
    a_text_spells_one_line();
    no_text_begins_another();
    texts_are_lines();
    a_text_has_one_fault();
}

/// If the same call after the same events always has the same reply, a stream always gets the same
/// report.
pub fn replies_decide()
    ensures { RepliesDecide }
{
    a_text_spells_one_line();
    no_text_begins_another();
    texts_are_lines();
    a_text_has_one_fault();
}

/// If a stream is judged twice, and its blocks begin alike, they continue alike, unless memory ran
/// out.
pub fn blocks_go_alike()
    ensures { BlocksGoAlike }
{
    a_text_spells_one_line();
    no_text_begins_another();
    texts_are_lines();
    a_text_has_one_fault();
}

/// In legal histories, the same call after the same events always has the same reply.
pub fn legal_never_fork()
    ensures { LegalNeverFork }
{}

/// A stream on its own has only one report, unless memory ran out.
pub fn alone_decides()
    ensures { AloneDecides }
{
    a_text_spells_one_line();
    no_text_begins_another();
    texts_are_lines();
    a_text_has_one_fault();
}

/// The clause of a good addition follows from the formula if the clauses that its hints found do.
pub fn good_follows()
    ensures { GoodFollows }
{}

/// Before a line's last event there are only fetches, and retires with the reply Done.
pub fn early_events()
    ensures { EarlyEvents }
{}

/// A vacant fetch is a line's last event, or the next event fetches the same identity again.
pub fn vacant_tries_again()
    ensures { VacantTriesAgain }
{}

/// The vacant fetches of a hint that was found later can be left out: the report stays right.
pub fn reduced_stream()
    ensures { ReducedStream }
{}

/// A stream fetches only identities that its lines cite.
pub fn cited_fetched()
    ensures { CitedFetched }
{
    a_text_spells_one_line();
    no_text_begins_another();
    texts_are_lines();
    a_text_has_one_fault();
}

/// A report says 'within' exactly if a good addition's clause is within the cube.
pub fn within_reported()
    ensures { WithinReported }
{}

/// With the empty cube a report says 'within' exactly if it says 'empty'.
pub fn empty_cube_reported()
    ensures { EmptyCubeReported }
{}

/// In a legal history a stream adds at most as many clauses as there are identities, and deletes at
/// most as many identities.
pub fn counts_within()
    ensures { CountsWithin }
{}
