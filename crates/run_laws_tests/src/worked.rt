//! Lines that are proved valid or invalid from the definitions alone.
ghost use Rattle.std.specs.Prelude.{◌≡◌, ◌++◌, ℕ, true, List, [], ◌∷◌, pos, negsuc, Some, codes};
ghost use Rattle.lrup_text.specs.Lines.{Addition, Deletion, Import};
ghost use Rattle.stream_check.specs.Excuses.{CutOff, OutOfMemory, ReadFailed, IsExcusedAt};
ghost use Rattle.stream_check.specs.declared.fault.Fault.TheVariants as faults;
ghost use Rattle.stream_check.specs.declared.report.Ending.TheVariants as endings;
ghost use Rattle.stream_check.specs.Turns.{IsRoundRobin};
ghost use Rattle.run_laws.specs.Valid.{IsValidLine, IsValidRefutation, IsValidProof, SaysAtLeast, first_database};
ghost use Rattle.run_laws.specs.Together.{IsValidOrder};
ghost use Rattle.run_laws_tests.specs.Worked.{at_first, at_roomy, crossed, one_added, one_stream, retired_first, roomy, shared, two_streams, with_five, with_repeat, without_five, without_one, BeginningCounted, RefutationCounted, SharedCounted};
ghost use Rattle.test_support.specs.Worked.{four, unit};

use lrup_text::laws::{bytes_begin_with_one_line, no_bytes_may_become_a_line};
use run_laws::valid::{valid_begins, valid_reported, valid_together};

/// The worked stream is a valid refutation, even if a torn line or anything else comes after it.
fn the_stream_is_valid()
    ensures whole { IsValidRefutation four one_stream 1 (codes "5 2 0 1 2 0\n6 0 5 3 4 0\n") }
    ensures torn { IsValidRefutation four one_stream 1
        (codes "5 2 0 1 2 0\n6 0 5 3 4 0\n7 0 5") }
    ensures any_more { (more : List ℕ)
        → IsValidRefutation four one_stream 1 (codes "5 2 0 1 2 0\n6 0 5 3 4 0\n" ++ more) }
{}

/// By itself, the first line of the worked stream is no refutation: it doesn't add the empty
/// clause.
fn the_first_line_is_no_refutation()
    ensures { ¬ IsValidRefutation four one_stream 1 (codes "5 2 0 1 2 0\n") }
{
    bytes_begin_with_one_line();
    no_bytes_may_become_a_line();
}

/// A stream isn't valid with bytes after the lines, or with a line beyond the limits.
fn streams_are_not_valid()
    ensures rest { ¬ IsValidProof four one_stream 1 (codes "5 d 0\n5") (Deletion 5 [] ∷ []) }
    ensures limits { ¬ IsValidProof four one_stream 1 (codes "0 d 0\n") (Deletion 0 [] ∷ []) }
{}

/// These hints may be in either order, identities may have gaps, and an import may repeat and
/// reorder literals. A deletion may list clauses of the formula and of the stream.
fn lines_are_valid()
    ensures swapped { IsValidLine one_stream 1 at_first (Addition 5 unit (2 ∷ 1 ∷ [])) }
    ensures repeated { IsValidLine one_stream 1 at_first
        (Addition 5 (pos 2 ∷ pos 2 ∷ []) (1 ∷ 2 ∷ [])) }
    ensures gap { IsValidLine two_streams 1 (first_database four two_streams)
        (Addition 7 unit (1 ∷ 2 ∷ [])) }
    ensures deleted { IsValidLine one_stream 1 with_five (Deletion 5 (1 ∷ 5 ∷ [])) }
    ensures imported { IsValidLine one_stream 1 at_first
        (Import 1 (pos 2 ∷ pos 1 ∷ pos 2 ∷ [])) }
{}

/// A literal that is written twice occurs once in the clause, and uses room once.
fn repeats_are_left_out()
    ensures clause { with_repeat.clauses 5 ≡ Some unit }
    ensures room { IsValidLine roomy 1 with_repeat (Addition 6 unit (5 ∷ [])) }
{}

/// An addition isn't valid if its identity is another stream's or was used before, or if its clause
/// has an unknown variable, needs more room than is left, or is a tautology.
fn additions_are_not_valid()
    ensures foreign { ¬ IsValidLine two_streams 1 (first_database four two_streams)
        (Addition 6 unit (1 ∷ 2 ∷ [])) }
    ensures again { ¬ IsValidLine one_stream 1 with_five (Addition 5 unit (1 ∷ 2 ∷ [])) }
    ensures variable { ¬ IsValidLine one_stream 1 at_first (Addition 5 (pos 3 ∷ []) (1 ∷ [])) }
    ensures room { ¬ IsValidLine one_stream 1 at_first
        (Addition 5 (pos 1 ∷ pos 2 ∷ []) (1 ∷ [])) }
    ensures tautology { ¬ IsValidLine one_stream 1 at_first
        (Addition 5 (pos 1 ∷ negsuc 0 ∷ []) (1 ∷ 2 ∷ [])) }
{}

/// Each of these faults makes an addition invalid, even if nothing else is wrong. Deleting a clause
/// gives no room back.
fn nothing_else_is_wrong()
    ensures again { ¬ IsValidLine one_stream 1 with_five (Addition 5 [] (5 ∷ 3 ∷ 4 ∷ [])) }
    ensures variable { ¬ IsValidLine roomy 1 with_repeat
        (Addition 6 (pos 3 ∷ []) (5 ∷ 3 ∷ 4 ∷ [])) }
    ensures tautology { ¬ IsValidLine roomy 1 at_roomy
        (Addition 5 (pos 1 ∷ negsuc 0 ∷ []) (1 ∷ 3 ∷ [])) }
    ensures room { ¬ IsValidLine one_stream 1 without_five (Addition 6 unit (1 ∷ 2 ∷ [])) }
{}

/// Hints aren't valid if there are none, if one is missing or deleted, if there is no conflict, or
/// if the conflict comes before the last hint.
fn hints_are_not_valid()
    ensures none { ¬ IsValidLine one_stream 1 at_first (Addition 5 unit []) }
    ensures missing { ¬ IsValidLine one_stream 1 at_first (Addition 5 unit (1 ∷ 6 ∷ [])) }
    ensures deleted { ¬ IsValidLine one_stream 1 without_one (Addition 5 unit (1 ∷ 2 ∷ [])) }
    ensures no_conflict { ¬ IsValidLine one_stream 1 at_first (Addition 5 unit (1 ∷ [])) }
    ensures excess { ¬ IsValidLine one_stream 1 at_first (Addition 5 unit (1 ∷ 2 ∷ 3 ∷ [])) }
{}

/// A deletion isn't valid if its clause was deleted before, in the same line or an earlier one, or
/// isn't there; an import isn't valid if its clause is the stream's own, was deleted, or has other
/// literals.
fn other_lines_are_not_valid()
    ensures twice { ¬ IsValidLine one_stream 1 with_five (Deletion 5 (5 ∷ 5 ∷ [])) }
    ensures again { ¬ IsValidLine one_stream 1 without_one (Deletion 5 (1 ∷ [])) }
    ensures nothing { ¬ IsValidLine one_stream 1 at_first (Deletion 5 (5 ∷ [])) }
    ensures own { ¬ IsValidLine one_stream 1 with_five (Import 5 unit) }
    ensures gone { ¬ IsValidLine one_stream 1 without_one (Import 1 (pos 1 ∷ pos 2 ∷ [])) }
    ensures differs { ¬ IsValidLine one_stream 1 at_first (Import 1 unit) }
    ensures more { ¬ IsValidLine one_stream 1 at_first
        (Import 1 (pos 1 ∷ pos 2 ∷ negsuc 0 ∷ [])) }
    ensures nought { ¬ IsValidLine one_stream 1 at_first (Deletion 5 (0 ∷ [])) }
{}

/// Two streams are valid together: the first derives the unit clause, and the second imports it,
/// cites it and drops it.
fn streams_are_valid_together()
    ensures { IsValidOrder four two_streams shared }
{}

/// A stream's additions don't change another stream's last identity or room, and a clause that one
/// stream drops may still be cited by another.
fn streams_leave_one_another_alone()
    ensures { IsValidOrder four two_streams crossed }
{}

/// An order isn't valid if a stream imports a clause that its owner deleted, if a line is beyond
/// the limits, or if a line's stream doesn't exist.
fn orders_are_not_valid()
    ensures retired { ¬ IsValidOrder four two_streams retired_first }
    ensures limits { ¬ IsValidOrder four two_streams
        (record { stream = 1; line = Deletion 0 [] } ∷ []) }
    ensures stream { ¬ IsValidOrder four two_streams
        (record { stream = 3; line = Deletion 5 [] } ∷ []) }
{}

/// A report with one addition doesn't say that there were two, or a deletion, or an empty clause,
/// or a clause within the cube.
fn reports_say_less()
    ensures added { ¬ SaysAtLeast one_added (record one_added { added = 2 }) }
    ensures deleted { ¬ SaysAtLeast one_added (record one_added { deleted = 1 }) }
    ensures empty { ¬ SaysAtLeast one_added (record one_added { empty = true }) }
    ensures within { ¬ SaysAtLeast one_added (record one_added { within = true }) }
{}

/// An excuse in line 3 doesn't excuse line 2; running out of memory isn't a failed read, nor vice
/// versa; and citing a clause that another stream retired is neither.
fn no_other_excuse()
    ensures memory { ¬ IsExcusedAt CutOff (record one_added { ending = endings.Memory 3 }) 2 }
    ensures read { ¬ IsExcusedAt CutOff (record one_added { ending = endings.ReadFailed 3 }) 2 }
    ensures no_read { ¬ IsExcusedAt ReadFailed (record one_added { ending = endings.Memory 3 }) 3 }
    ensures no_memory { ¬ IsExcusedAt OutOfMemory
        (record one_added { ending = endings.ReadFailed 3 }) 3 }
    ensures lacking { ¬ IsExcusedAt CutOff
        (record one_added { ending = endings.Bad 3 (faults.Retired 5) }) 3 }
{}

/// By the law of valid proofs, every run reports the worked stream's two additions.
fn the_refutation_is_counted()
    ensures { RefutationCounted }
{
    valid_reported();
}

/// By the law of valid beginnings, every run reports at least two additions, whatever comes after
/// the refutation.
fn the_beginning_is_counted()
    ensures { BeginningCounted }
{
    valid_begins();
}

/// By the law of valid orders, every run reports the second stream's addition and deletion.
fn shared_lines_are_counted()
    ensures { SharedCounted }
{
    valid_together();
}

/// In a round-robin order, stream 1 comes first, then stream 2, and so on; a stream that has no
/// line left drops out. An order isn't round-robin if stream 1 comes later, if a stream takes two
/// lines in a row while another has lines left, or if a stream is passed over.
fn lines_go_round()
    ensures round { IsRoundRobin (1 ∷ 2 ∷ 1 ∷ []) }
    ensures late { ¬ IsRoundRobin (2 ∷ 1 ∷ []) }
    ensures twice { ¬ IsRoundRobin (1 ∷ 1 ∷ 2 ∷ []) }
    ensures left_out { ¬ IsRoundRobin (1 ∷ 2 ∷ 2 ∷ 1 ∷ []) }
{}
