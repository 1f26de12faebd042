//! The laws of the judge. Each function does nothing: its contract is the law.
ghost use Rattle.judge.specs.Laws.{LookUpJudged, HintsJudged, LineJudged, LineJudgedOnRefusal, StreamJudged, StreamJudgedWithMemory, AnyStreamJudged};

use lrup_text::laws::{
    a_beginning_is_cut_alike, a_refused_text_holds_no_line, a_text_has_one_fault,
    no_bytes_may_become_a_line,
};

/// The judge looks an identity up exactly as the relation says, in both directions.
pub fn look_up_judged()
    ensures { LookUpJudged }
{}

/// The judge takes an addition's hints exactly as the relation says, in both directions.
pub fn hints_judged()
    ensures { HintsJudged }
{}

/// If memory isn't refused, a line has a verdict by the relation exactly if the judge gives it.
pub fn line_judged()
    ensures { LineJudged }
{}

/// A line has an outcome by the relation, a verdict or want of memory, exactly if the judge gives
/// it for some place where memory is refused, or for none.
pub fn line_judged_on_refusal()
    ensures { LineJudgedOnRefusal }
{}

/// A report is right by the relation that the contracts cite exactly if it is the judge's, for some
/// place where memory is refused, or for none.
pub fn stream_judged()
    ensures { StreamJudged }
{
    a_beginning_is_cut_alike();
    no_bytes_may_become_a_line();
    a_refused_text_holds_no_line();
    a_text_has_one_fault();
}

/// A report that doesn't say that memory ran out is right by the relation that the contracts cite
/// exactly if it is the judge's with memory refused nowhere.
pub fn stream_judged_with_memory()
    ensures { StreamJudgedWithMemory }
{
    a_beginning_is_cut_alike();
    no_bytes_may_become_a_line();
    a_refused_text_holds_no_line();
    a_text_has_one_fault();
}

/// For any stream, a report is right by the relation that the contracts cite exactly if it is the
/// judge's, for the fault of the text after the lines; or whatever that fault, if a line stops the
/// stream.
pub fn any_stream_judged()
    ensures { AnyStreamJudged }
{
    a_beginning_is_cut_alike();
    no_bytes_may_become_a_line();
    a_refused_text_holds_no_line();
    a_text_has_one_fault();
}
