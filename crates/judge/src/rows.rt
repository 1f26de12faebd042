//! Rows of lines and streams, with the values that the rules of the stream format give, worked out
//! by hand. The prover computes the judge's. Each function does nothing: its contract is the rows.
ghost use Rattle.std.specs.Prelude.{◌≡◌, ◌++◌, ◌-◌, ◌^◌, ℕ, List, Option, [], ◌∷◌, pos, negsuc, true, false, Some, None, codes};
ghost use Rattle.lrup_model.specs.Event.{vacant, live, retired, fetch, publish};
ghost use Rattle.lrup_text.specs.Lines.{StreamLine, Addition, Deletion, Import};
ghost use Rattle.stream_check.specs.Verdicts.{Good, Bad};
ghost use Rattle.test_support.specs.Worked.{first, second, third, fourth, unit};
ghost use Rattle.judge.specs.Judge.{Judged, OutOfMemory, judged_line, first_state, judged, judged_from};
ghost use Rattle.judge.specs.Rows.{row_params, stream_in, with_room, with_tries, assuming, found, publishes, retires, does_not_retire, fetches_six, adds_unit, unit_events, adds_first, first_events, adds_empty, empty_events, other_unit, cites_six, LineRow, MayAdd, MayNotAdd, StreamRow, reports};

use lrup_model::Published;
use lrup_text::{LineFault, StreamEnd};
use stream_check::{Ending, Fault};

/// Streams own the identities after the formula's in turn, as many as the layout says.
pub fn identities_are_owned()
    ensures formula { MayNotAdd (stream_in 1 1 2) [] 4 }
    ensures first_of_one { MayAdd (stream_in 1 1 2) [] 5 }
    ensures last_of_one { MayAdd (stream_in 1 1 2) [] 6 }
    ensures beyond_one { MayNotAdd (stream_in 1 1 2) [] 7 }
    ensures first_of_two { MayAdd (stream_in 1 2 2) [] 5 }
    ensures not_the_second { MayNotAdd (stream_in 1 2 2) [] 6 }
    ensures again_the_first { MayAdd (stream_in 1 2 2) [] 7 }
    ensures again_the_second { MayAdd (stream_in 2 2 2) [] 8 }
    ensures not_the_first { MayNotAdd (stream_in 2 2 2) [] 5 }
    ensures beyond_first { MayNotAdd (stream_in 1 2 2) [] 9 }
    ensures beyond_second { MayNotAdd (stream_in 2 2 2) [] 10 }
    ensures first_of_three { MayAdd (stream_in 1 3 2) [] 5 }
    ensures third_of_three { MayAdd (stream_in 3 3 2) [] 7 }
    ensures again_of_three { MayAdd (stream_in 2 3 2) [] 9 }
    ensures last_of_three { MayAdd (stream_in 3 3 2) [] 10 }
    ensures beyond_three { MayNotAdd (stream_in 1 3 2) [] 11 }
    ensures zero { MayNotAdd row_params [] 0 }
{}

/// The identities of a stream's additions rise, with gaps or without. No other line counts.
pub fn identities_rise()
    ensures repeated { MayNotAdd row_params (adds_unit 7 ∷ []) 7 }
    ensures fallen { MayNotAdd row_params (adds_unit 7 ∷ []) 5 }
    ensures next { MayAdd row_params (adds_unit 5 ∷ []) 7 }
    ensures gap { MayAdd row_params (adds_unit 5 ∷ []) 9 }
    ensures after_import { MayAdd row_params (Import 6 unit ∷ []) 5 }
    ensures after_deletion { MayAdd row_params (Deletion 9 (3 ∷ []) ∷ []) 5 }
{}

/// Additions that fail two tests: the fault is that of the earlier one.
pub fn the_first_test_that_fails_decides()
    ensures identity { LineRow row_params [] (Addition 11 (pos 3 ∷ negsuc 2 ∷ []) (1 ∷ [])) []
        (Bad 0 Fault.Identity) }
    ensures literal { LineRow row_params [] (Addition 5 (pos 3 ∷ negsuc 2 ∷ []) (1 ∷ [])) []
        (Bad 0 Fault.Literal) }
    ensures tautology { LineRow (with_room 1) [] (Addition 5 (pos 1 ∷ negsuc 0 ∷ []) (1 ∷ [])) []
        (Bad 0 Fault.Tautology) }
    ensures room { LineRow (with_room 0) [] (Addition 5 unit (11 ∷ [])) [] (Bad 0 Fault.NoRoom) }
    ensures excess_dropped { LineRow row_params (Deletion 5 (3 ∷ []) ∷ [])
        (Addition 5 unit (1 ∷ 2 ∷ 3 ∷ [])) (found 1 first ∷ found 2 second ∷ [])
        (Bad 0 (Fault.Excess 3)) }
    ensures excess_missing { LineRow row_params [] (Addition 5 unit (1 ∷ 2 ∷ 11 ∷ []))
        (found 1 first ∷ found 2 second ∷ []) (Bad 0 (Fault.Excess 11)) }
    ensures excess_vacant { LineRow row_params [] (Addition 5 unit (1 ∷ 2 ∷ 6 ∷ []))
        (found 1 first ∷ found 2 second ∷ []) (Bad 0 (Fault.Excess 6)) }
    ensures dropped_vacant { LineRow row_params (Deletion 5 (6 ∷ []) ∷ []) cites_six []
        (Bad 0 (Fault.Dropped 6)) }
{}

/// Clauses that hints name: unit, in conflict, or neither.
pub fn hints_are_exact()
    ensures good { LineRow row_params [] (adds_unit 5) (unit_events 5) Good }
    ensures at_once { LineRow row_params [] adds_first first_events Good }
    ensures negative { LineRow row_params [] (Addition 5 other_unit (3 ∷ 4 ∷ []))
        (found 3 third ∷ found 4 fourth ∷ publishes 5 other_unit ∷ []) Good }
    ensures empty { LineRow row_params (adds_unit 5 ∷ []) adds_empty empty_events Good }
    ensures true_literal { LineRow row_params [] (Addition 5 unit (2 ∷ 3 ∷ []))
        (found 2 second ∷ found 3 third ∷ []) (Bad 0 (Fault.NotUnit 3)) }
    ensures hinted_twice { LineRow row_params [] (Addition 5 unit (1 ∷ 1 ∷ 2 ∷ []))
        (found 1 first ∷ found 1 first ∷ []) (Bad 0 (Fault.NotUnit 1)) }
    ensures two_open { LineRow row_params [] (Addition 5 [] (1 ∷ [])) (found 1 first ∷ [])
        (Bad 0 (Fault.NotUnit 1)) }
    ensures tautology { LineRow row_params [] (Addition 5 (pos 1 ∷ []) (1 ∷ []))
        (found 1 (pos 1 ∷ negsuc 0 ∷ []) ∷ []) (Bad 0 (Fault.NotUnit 1)) }
    ensures excess { LineRow row_params [] (Addition 5 unit (1 ∷ 2 ∷ 3 ∷ []))
        (found 1 first ∷ found 2 second ∷ []) (Bad 0 (Fault.Excess 3)) }
    ensures no_conflict { LineRow row_params [] (Addition 5 unit (1 ∷ [])) (found 1 first ∷ [])
        (Bad 0 Fault.NoConflict) }
    ensures no_hints { LineRow row_params [] (Addition 5 unit []) [] (Bad 0 Fault.NoConflict) }
    ensures taken { judged_line row_params (first_state row_params).context None adds_first
        (found 1 first ∷ publish 1 5 first Published.Taken ∷ []) ≡ None }
{}

/// How hints are looked up: another stream's again while it is vacant, and others once or never.
pub fn hints_are_looked_up()
    ensures outside { LineRow row_params [] (Addition 5 unit (11 ∷ [])) []
        (Bad 0 (Fault.Missing 11)) }
    ensures zero { LineRow row_params [] (Addition 5 unit (0 ∷ [])) [] (Bad 0 (Fault.Missing 0)) }
    ensures last { LineRow (with_tries 0) [] (Addition 5 unit (10 ∷ [])) (fetch 1 10 vacant ∷ [])
        (Bad 0 (Fault.Missing 10)) }
    ensures formula { LineRow row_params [] (adds_unit 5) (fetch 1 1 vacant ∷ [])
        (Bad 0 (Fault.Missing 1)) }
    ensures itself { LineRow row_params [] (Addition 5 unit (5 ∷ [])) (fetch 1 5 vacant ∷ [])
        (Bad 0 (Fault.Missing 5)) }
    ensures dropped { LineRow row_params (Deletion 5 (1 ∷ []) ∷ []) (adds_unit 5) []
        (Bad 0 (Fault.Dropped 1)) }
    ensures retired_own { LineRow row_params (adds_unit 5 ∷ Deletion 5 (5 ∷ []) ∷ []) adds_empty
        (fetch 1 5 retired ∷ []) (Bad 0 (Fault.Retired 5)) }
    ensures now { LineRow (with_tries 0) [] cites_six
        (fetches_six (live other_unit ∷ []) ++ publishes 5 other_unit ∷ []) Good }
    ensures never { LineRow (with_tries 0) [] cites_six (fetches_six (vacant ∷ []))
        (Bad 0 (Fault.Missing 6)) }
    ensures at_last { LineRow row_params [] cites_six
        (fetches_six (vacant ∷ vacant ∷ live other_unit ∷ []) ++ publishes 5 other_unit ∷ []) Good }
    ensures too_late { LineRow row_params [] cites_six (fetches_six (vacant ∷ vacant ∷ vacant ∷ []))
        (Bad 0 (Fault.Missing 6)) }
    ensures retired_late { LineRow row_params [] cites_six (fetches_six (vacant ∷ retired ∷ []))
        (Bad 0 (Fault.Retired 6)) }
    ensures given_up { judged_line row_params (first_state row_params).context None cites_six
        (fetches_six (vacant ∷ vacant ∷ [])) ≡ None }
{}

/// Each literal takes room once, and an addition may use up what is left. Nothing gives room back.
pub fn the_room_ends()
    ensures empty_clause { LineRow (with_room 0) [] (Addition 5 [] (1 ∷ [])) (found 1 first ∷ [])
        (Bad 0 (Fault.NotUnit 1)) }
    ensures none { LineRow (with_room 0) [] (adds_unit 5) [] (Bad 0 Fault.NoRoom) }
    ensures repeated { LineRow (with_room 1) [] (Addition 5 (pos 2 ∷ pos 2 ∷ []) (1 ∷ 2 ∷ []))
        (unit_events 5) Good }
    ensures too_many { LineRow (with_room 1) [] adds_first [] (Bad 0 Fault.NoRoom) }
    ensures used_up { LineRow (with_room 2) [] adds_first first_events Good }
    ensures none_left { LineRow (with_room 2) (adds_first ∷ []) (adds_unit 7) []
        (Bad 0 Fault.NoRoom) }
    ensures one_left { LineRow row_params (adds_first ∷ []) (adds_unit 7) (unit_events 7) Good }
    ensures repeated_before { LineRow (with_room 2)
        (Addition 5 (pos 2 ∷ pos 2 ∷ []) (1 ∷ 2 ∷ []) ∷ []) (adds_unit 7) (unit_events 7) Good }
    ensures after_empty { LineRow (with_room 2) (adds_unit 5 ∷ adds_empty ∷ []) (adds_unit 9)
        (unit_events 9) Good }
    ensures after_import { LineRow (with_room 1) (Import 1 first ∷ []) (adds_unit 5) (unit_events 5)
        Good }
    ensures after_deletion { LineRow (with_room 1) (adds_unit 5 ∷ Deletion 5 (5 ∷ []) ∷ [])
        (adds_unit 7) [] (Bad 0 Fault.NoRoom) }
{}

/// Deletions: the stream's own clauses are retired by an event, and all others dropped without one.
pub fn identities_are_deleted_from_the_left()
    ensures nothing { LineRow row_params [] (Deletion 5 []) [] Good }
    ensures others { LineRow row_params [] (Deletion 5 (1 ∷ 6 ∷ 4 ∷ 10 ∷ [])) [] Good }
    ensures all_kinds { LineRow row_params (adds_unit 5 ∷ []) (Deletion 5 (1 ∷ 5 ∷ 6 ∷ []))
        (retires 5 ∷ []) Good }
    ensures not_added { LineRow row_params [] (Deletion 5 (1 ∷ 7 ∷ 5 ∷ []))
        (does_not_retire 7 ∷ []) (Bad 1 (Fault.NotLive 7)) }
    ensures retired_twice { LineRow row_params (adds_unit 5 ∷ []) (Deletion 5 (5 ∷ 5 ∷ []))
        (retires 5 ∷ does_not_retire 5 ∷ []) (Bad 1 (Fault.NotLive 5)) }
    ensures dropped_twice { LineRow row_params [] (Deletion 5 (1 ∷ 1 ∷ 5 ∷ [])) []
        (Bad 1 (Fault.NotLive 1)) }
    ensures dropped_before { LineRow row_params (Deletion 5 (1 ∷ []) ∷ []) (Deletion 5 (2 ∷ 1 ∷ []))
        [] (Bad 1 (Fault.NotLive 1)) }
    ensures foreign_before { LineRow row_params (Deletion 5 (6 ∷ []) ∷ []) (Deletion 5 (6 ∷ [])) []
        (Bad 0 (Fault.NotLive 6)) }
    ensures outside { LineRow row_params [] (Deletion 5 (11 ∷ 5 ∷ [])) []
        (Bad 0 (Fault.NotLive 11)) }
    ensures zero { LineRow row_params [] (Deletion 5 (0 ∷ [])) [] (Bad 0 (Fault.NotLive 0)) }
    ensures first_number { LineRow row_params (Deletion 1 (2 ∷ []) ∷ []) adds_first first_events
        Good }
{}

/// Memory may be refused only for an identity that would be dropped; here it is refused for a
/// line's first or second.
pub fn memory_is_refused()
    ensures second { judged_line row_params (first_state row_params).context (Some 1)
        (Deletion 5 (1 ∷ 2 ∷ [])) [] ≡ Some (OutOfMemory 1, []) }
    ensures own { judged_line row_params (first_state row_params).context (Some 0)
        (Deletion 5 (5 ∷ [])) (retires 5 ∷ []) ≡ Some (Judged Good, []) }
    ensures dropped { judged_line row_params (first_state row_params).context (Some 1)
        (Deletion 5 (1 ∷ 1 ∷ [])) [] ≡ Some (Judged (Bad 1 (Fault.NotLive 1)), []) }
{}

/// Imports that are good: their literals are the clause's, as a set.
pub fn clauses_are_imported()
    ensures another_order { LineRow row_params [] (Import 1 (pos 2 ∷ pos 1 ∷ []))
        (found 1 first ∷ []) Good }
    ensures repeated { LineRow row_params []
        (Import 2 (pos 2 ∷ negsuc 0 ∷ negsuc 0 ∷ pos 2 ∷ [])) (found 2 second ∷ []) Good }
    ensures no_room { LineRow (with_room 0) [] (Import 1 first) (found 1 first ∷ []) Good }
    ensures tautology { LineRow row_params [] (Import 1 (pos 1 ∷ negsuc 0 ∷ []))
        (found 1 (pos 1 ∷ negsuc 0 ∷ []) ∷ []) Good }
    ensures empty { LineRow row_params [] (Import 1 []) (found 1 [] ∷ []) Good }
    ensures foreign { LineRow row_params [] (Import 6 other_unit)
        (fetches_six (vacant ∷ vacant ∷ live other_unit ∷ [])) Good }
{}

/// Imports that are bad: their tests, in order.
pub fn imports_are_tested_in_order()
    ensures own { LineRow row_params [] (Import 5 (pos 3 ∷ [])) [] (Bad 0 Fault.Identity) }
    ensures own_added { LineRow row_params (adds_unit 5 ∷ []) (Import 5 unit) []
        (Bad 0 Fault.Identity) }
    ensures outside { LineRow row_params [] (Import 11 unit) [] (Bad 0 Fault.Identity) }
    ensures zero { LineRow row_params [] (Import 0 unit) [] (Bad 0 Fault.Identity) }
    ensures literal { LineRow row_params [] (Import 1 (pos 3 ∷ [])) [] (Bad 0 Fault.Literal) }
    ensures literal_first { LineRow row_params (Deletion 5 (6 ∷ []) ∷ [])
        (Import 6 (negsuc 2 ∷ [])) [] (Bad 0 Fault.Literal) }
    ensures dropped { LineRow row_params (Deletion 5 (6 ∷ []) ∷ []) (Import 6 unit) []
        (Bad 0 (Fault.Dropped 6)) }
    ensures dropped_first { LineRow row_params (Deletion 5 (1 ∷ []) ∷ []) (Import 1 unit) []
        (Bad 0 (Fault.Dropped 1)) }
    ensures missing { LineRow row_params [] (Import 6 unit)
        (fetches_six (vacant ∷ vacant ∷ vacant ∷ [])) (Bad 0 (Fault.Missing 6)) }
    ensures missing_last { LineRow (with_tries 0) [] (Import 10 unit) (fetch 1 10 vacant ∷ [])
        (Bad 0 (Fault.Missing 10)) }
    ensures gone { LineRow row_params [] (Import 6 unit) (fetches_six (retired ∷ []))
        (Bad 0 (Fault.Retired 6)) }
    ensures part { LineRow row_params [] (Import 1 unit) (found 1 first ∷ [])
        (Bad 0 (Fault.Differs 1)) }
    ensures nothing { LineRow row_params [] (Import 1 []) (found 1 first ∷ [])
        (Bad 0 (Fault.Differs 1)) }
    ensures same_length { LineRow row_params [] (Import 1 third) (found 1 first ∷ [])
        (Bad 0 (Fault.Differs 1)) }
    ensures more { LineRow row_params [] (Import 1 (pos 1 ∷ pos 2 ∷ negsuc 0 ∷ []))
        (found 1 first ∷ []) (Bad 0 (Fault.Differs 1)) }
{}

/// A good addition is within the cube if the cube has the complement of each of its literals.
pub fn clauses_are_within_the_cube()
    ensures complement { StreamRow (assuming (negsuc 1 ∷ [])) (adds_unit 5 ∷ []) (unit_events 5)
        (reports 1 0 false true Ending.Ended) }
    ensures itself { StreamRow (assuming unit) (adds_unit 5 ∷ []) (unit_events 5)
        (reports 1 0 false false Ending.Ended) }
    ensures nothing { StreamRow row_params (adds_unit 5 ∷ []) (unit_events 5)
        (reports 1 0 false false Ending.Ended) }
    ensures other_variable { StreamRow (assuming (pos 1 ∷ negsuc 0 ∷ [])) (adds_unit 5 ∷ [])
        (unit_events 5) (reports 1 0 false false Ending.Ended) }
    ensures both { StreamRow (assuming (negsuc 1 ∷ negsuc 0 ∷ [])) (adds_first ∷ []) first_events
        (reports 1 0 false true Ending.Ended) }
    ensures one_of_two { StreamRow (assuming (negsuc 1 ∷ [])) (adds_first ∷ []) first_events
        (reports 1 0 false false Ending.Ended) }
    ensures imported { StreamRow (assuming (negsuc 0 ∷ negsuc 1 ∷ [])) (Import 1 first ∷ [])
        (found 1 first ∷ []) (reports 0 0 false false Ending.Ended) }
    ensures earlier { StreamRow (assuming (negsuc 1 ∷ []))
        (adds_unit 5 ∷ Addition 7 (pos 1 ∷ []) (1 ∷ 3 ∷ []) ∷ [])
        (unit_events 5 ++ found 1 first ∷ found 3 third ∷ publishes 7 (pos 1 ∷ []) ∷ [])
        (reports 2 0 false true Ending.Ended) }
    ensures bad { StreamRow (assuming (negsuc 0 ∷ []))
        (adds_unit 5 ∷ Addition 7 (pos 1 ∷ []) (1 ∷ []) ∷ [])
        (unit_events 5 ++ found 1 first ∷ [])
        (reports 1 0 false false (Ending.Bad 2 Fault.NoConflict)) }
    ensures empty { StreamRow (assuming unit) (adds_unit 5 ∷ adds_empty ∷ [])
        (unit_events 5 ++ empty_events) (reports 2 0 true true Ending.Ended) }
{}

/// Whole streams with lines of all kinds; the first two are the example of the stream format.
pub fn lines_are_counted()
    ensures first_example { StreamRow row_params
        (adds_unit 5 ∷ Import 6 other_unit ∷ Addition 7 [] (5 ∷ 6 ∷ []) ∷ [])
        (unit_events 5 ++ fetches_six (vacant ∷ live other_unit ∷ [])
        ++ found 5 unit ∷ found 6 other_unit ∷ publishes 7 [] ∷ [])
        (reports 2 0 true true Ending.Ended) }
    ensures second_example { StreamRow (stream_in 2 2 3)
        (Addition 6 other_unit (3 ∷ 4 ∷ []) ∷ Deletion 6 (3 ∷ 4 ∷ []) ∷ [])
        (fetch 2 3 (live third) ∷ fetch 2 4 (live fourth)
        ∷ publish 2 6 other_unit Published.Done ∷ []) (reports 1 2 false false Ending.Ended) }
    ensures none { StreamRow row_params [] [] (reports 0 0 false false Ending.Ended) }
    ensures imports { StreamRow row_params (Import 1 first ∷ Import 1 [] ∷ [])
        (found 1 first ∷ found 1 [] ∷ []) (reports 0 0 false false Ending.Ended) }
    ensures deletions { StreamRow row_params
        (Deletion 1 (1 ∷ 2 ∷ []) ∷ adds_unit 5 ∷ Deletion 5 (5 ∷ 6 ∷ 3 ∷ []) ∷ []) []
        (reports 0 2 false false (Ending.Bad 2 (Fault.Dropped 1))) }
    ensures bad_deletion { StreamRow row_params
        (adds_unit 5 ∷ Deletion 5 (5 ∷ 6 ∷ []) ∷ Deletion 5 (3 ∷ 6 ∷ 4 ∷ []) ∷ [])
        (unit_events 5 ++ retires 5 ∷ [])
        (reports 1 3 false false (Ending.Bad 3 (Fault.NotLive 6))) }
    ensures after_empty { StreamRow row_params (adds_unit 5 ∷ adds_empty ∷ adds_unit 9 ∷ [])
        (unit_events 5 ++ empty_events ++ unit_events 9) (reports 3 0 true true Ending.Ended) }
    ensures capped { judged_from row_params StreamEnd.Failed [] None None
        (record (first_state row_params) {
          tally = record { added = 0; deleted = 2 ^ 64 - 2; empty = false; within = false };
          number = 2 ^ 64 - 1;
        })
        (Deletion 1 (1 ∷ 2 ∷ 3 ∷ []) ∷ []) []
        ≡ Some (reports 0 (2 ^ 64 - 1) false false (Ending.ReadFailed (2 ^ 64 - 1))) }
{}

/// How streams end.
pub fn streams_end()
    ensures failed { judged row_params (adds_unit 5 ∷ adds_empty ∷ []) [] None StreamEnd.Failed None
        (unit_events 5 ++ empty_events)
        ≡ Some (reports 2 0 true true (Ending.ReadFailed 3)) }
    ensures failed_in_line { judged row_params (adds_unit 5 ∷ []) (codes "9 2 0") None
        StreamEnd.Failed None (unit_events 5)
        ≡ Some (reports 1 0 false false (Ending.ReadFailed 2)) }
    ensures truncated { judged row_params (adds_unit 5 ∷ []) (codes "9 2 0") None StreamEnd.Ended
        None (unit_events 5)
        ≡ Some (reports 1 0 false false (Ending.Bad 2 (Fault.Text LineFault.Truncated))) }
    ensures bad_line { (more : List StreamLine) (rest : List ℕ) (fault : Option LineFault)
        (end : StreamEnd)
        → judged row_params (adds_unit 5 ∷ adds_empty ∷ Addition 9 unit (1 ∷ []) ∷ more) rest fault
        end None (unit_events 5 ++ empty_events ++ found 1 first ∷ [])
        ≡ Some (reports 2 0 true true (Ending.Bad 3 Fault.NoConflict)) }
    ensures bad_text { (rest : List ℕ) (end : StreamEnd)
        → judged row_params (adds_unit 5 ∷ []) rest (Some LineFault.Spelling) end None
        (unit_events 5)
        ≡ Some (reports 1 0 false false (Ending.Bad 2 (Fault.Text LineFault.Spelling))) }
    ensures memory { (more : List StreamLine) (rest : List ℕ) (fault : Option LineFault)
        (end : StreamEnd)
        → judged row_params (Deletion 1 (1 ∷ []) ∷ Deletion 1 (2 ∷ 3 ∷ []) ∷ more) rest fault end
        (Some (1, 1)) [] ≡ Some (reports 0 2 false false (Ending.Memory 2)) }
    ensures event_missing { judged row_params (adds_unit 5 ∷ adds_empty ∷ []) [] None
        StreamEnd.Ended None (unit_events 5) ≡ None }
    ensures event_left { judged row_params (adds_unit 5 ∷ []) [] None StreamEnd.Ended None
        (unit_events 5 ++ found 1 first ∷ []) ≡ None }
    ensures event_after_a_fault { judged row_params (Addition 5 unit (1 ∷ []) ∷ []) [] None
        StreamEnd.Ended None (found 1 first ∷ found 2 second ∷ []) ≡ None }
{}
