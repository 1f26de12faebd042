//! Laws of runs on one thread. Each function does nothing: its contract is the law, which holds for
//! every formula and run.
ghost use Rattle.run_laws.specs.TurnsLaws.{BytesDecide, ValidRoundRobin};

use lrup_text::laws::{a_stream_is_cut_in_one_way, no_bytes_have_no_lines};
use stream_check::laws::{
    blocks_go_alike, decided_before_failure, end_judged, fresh_left, good_line_taken,
    legal_never_fork, one_report,
};

/// Two runs on one thread over the same bytes have the same reports, unless memory ran out or a
/// read failed.
pub fn bytes_decide()
    ensures { BytesDecide }
{
    decided_before_failure();
    one_report();
    legal_never_fork();
    blocks_go_alike();
}

/// If the lines of streams have a valid order that takes the streams in turn, a run on one thread
/// gives each stream its valid report, unless memory ran out or a read failed.
pub fn valid_round_robin()
    ensures { ValidRoundRobin }
{
    good_line_taken();
    fresh_left();
    end_judged();
    no_bytes_have_no_lines();
    a_stream_is_cut_in_one_way();
    decided_before_failure();
    one_report();
    legal_never_fork();
    blocks_go_alike();
}
