//! Laws of outcomes. Each function does nothing; its contract is the law.
ghost use Rattle.std.specs.Prelude.{ℕ};
ghost use Rattle.outcome_laws.specs.Laws.{CubeIsIrrelevant, SameBytesSameReport, OneCommandLine, OneRoundAlone, OutcomesAgree, Status0HasACommandLine};
ghost use Rattle.outcome_laws.specs.Refuting.{OutcomesRefute, OutcomesRefuteUnder};
ghost use Rattle.outcome_laws.specs.Serial.{SerialOutcomesAgree};
ghost use Rattle.outcome_laws.specs.ValidLaws.{OutcomeOfValidRounds};

use checkpoint::laws::{
    entails_itself, entails_onward, files_refute, files_refute_under, refutes_back,
    refutes_back_under,
};
use command::{Machine, Viewed};
use dimacs::laws::{formula_or_fault, one_formula};
use run_laws::groups::same_bytes_agree;
use run_laws::turns::bytes_decide;
use run_laws::valid::{valid_begins, valid_empty, valid_reported};
use stream_check::laws::empty_cube_reported;

/// If a stream is judged under a cube, it can also be judged without a cube, with a report that is
/// the same except about clauses within the cube.
pub fn cube_is_irrelevant()
    ensures { CubeIsIrrelevant }
{}

/// Take two runs of one formula with the same layout and tries, and a stream that cites only its
/// own clauses and the formula's. If its readers have the same bytes at the start, and neither
/// report says that memory ran out or a read failed, the two reports are the same except about
/// clauses within a cube. The cubes, the other streams and the use of threads make no difference.
pub fn same_bytes_same_report()
    ensures { SameBytesSameReport }
{
    cube_is_irrelevant();
    same_bytes_agree();
}

/// Two command lines of the same words have the same tries, sizes, streams and formula.
pub fn one_command_line()
    ensures { OneCommandLine }
{}

/// A run whose words ask for no rounds consists of round 1.
pub fn one_round_alone<F: Machine>(files: &F)
    ensures { OneRoundAlone (⟦<F as Viewed>⟧.view files.now) }
{}

/// Take two runs of the program with the same tries and sizes, and a stream that cites only its own
/// clauses and the formula's. If each of the two files, the formula's and the stream's, is known to
/// have the same bytes before both runs, the stream has the same line in round 1 of both, unless a
/// report of the stream says that memory ran out or a read failed. A run without rounds consists of
/// round 1 (`one_round_alone`).
pub fn outcomes_agree<F: Machine, G: Machine>(files: &F, others: &G)
    ensures { OutcomesAgree (⟦<F as Viewed>⟧.view files.now) (⟦<G as Viewed>⟧.view others.now) }
{
    one_formula();
    same_bytes_same_report();
}

/// With status 0, the words give a command line, and the bytes read from its FORMULA are a text of
/// a formula that no assignment satisfies. This follows from the clause `ends` of `command`.
pub fn status_0_has_a_command_line<F: Machine>(files: &F)
    ensures { Status0HasACommandLine (⟦<F as Viewed>⟧.view files.now) }
{
    entails_itself();
    entails_onward();
    refutes_back();
}

/// Take two runs of the program on one thread with the same tries, sizes and assumed literals. If
/// each of the files, the formula's and the streams', is known to have the same bytes before both
/// runs, the reports and the verdicts of round 1 are the same, unless some report says that memory
/// ran out or a read failed. A run without rounds consists of round 1 (`one_round_alone`).
pub fn serial_outcomes_agree<F: Machine, G: Machine>(files: &F, others: &G)
    ensures { SerialOutcomesAgree (⟦<F as Viewed>⟧.view files.now)
        (⟦<G as Viewed>⟧.view others.now) }
{
    one_formula();
    bytes_decide();
}

/// Suppose that each stream of each round before the last is valid and cites only its own clauses
/// and the formula's, and that some stream of the last round is a valid refutation. (Without
/// `--rounds`, round 1 is the last.) Then the program ends with status 0; with 7, because the
/// report couldn't be written; with 5 or 6, for a fault of the machine; with 9, because a
/// checkpoint or the next round's formula couldn't be saved; with 8, and then there are assumed
/// literals, and the report says 'unsatisfiable under assumptions'; or with 3. With 3, and with 8
/// or 9 if the run ended in the last round, the report says that memory ran out or a read failed,
/// in the refutation's lines or in some stream of an earlier round. This follows from the clause
/// `ends` of `command`.
pub fn outcome_of_valid_rounds<F: Machine>(files: &F)
    ensures { (last : ℕ) → OutcomeOfValidRounds (⟦<F as Viewed>⟧.view files.now) last }
{
    one_formula();
    formula_or_fault();
    empty_cube_reported();
    one_command_line();
    valid_reported();
    valid_begins();
    valid_empty();
}

/// Suppose that a stream of round 1 (without `--rounds`, of the whole run) is a valid refutation.
/// Then the program ends with status 0; with 7, because the report couldn't be written; with 5 or
/// 6, for a fault of the machine; with 3 or 8, because memory ran out or a read failed in the
/// refutation's lines; or with 9 instead of 3 or 8, because a checkpoint or the formula of round 2
/// couldn't be saved.
pub fn outcome_of_valid_refutation<F: Machine>(files: &F)
    ensures { OutcomeOfValidRounds (⟦<F as Viewed>⟧.view files.now) 1 }
{
    outcome_of_valid_rounds(files);
}

/// Suppose that several runs of the program, each of one round or more, follow one another: each
/// run after the first starts from the checkpoint that the last round of the previous run saved. If
/// the last run ends with status 0, the first run read a text of a formula that no assignment
/// satisfies. This follows from the clause `ends` of `command`.
pub fn outcomes_refute<F: Machine>(_files: &F)
    ensures { OutcomesRefute ⟦<F as Viewed>⟧.view }
{
    entails_itself();
    entails_onward();
    refutes_back();
    files_refute();
}

/// If several runs follow one another as in `outcomes_refute`, and the last run ends with status 8,
/// no assignment satisfies the first run's formula together with the literals that the last run
/// assumed.
pub fn outcomes_refute_under<F: Machine>(_files: &F)
    ensures { OutcomesRefuteUnder ⟦<F as Viewed>⟧.view }
{
    entails_itself();
    entails_onward();
    refutes_back_under();
    files_refute_under();
}
