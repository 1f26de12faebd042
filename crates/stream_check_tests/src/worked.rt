//! How lines are judged, proved from nothing but the definitions.
ghost use Rattle.std.specs.Prelude.{◌≡◌, true, false, [], ◌∷◌, pos, negsuc};
ghost use Rattle.lrup_text.specs.Lines.{Addition, Deletion, Import};
ghost use Rattle.stream_check.specs.StreamContext.{is_within};
ghost use Rattle.stream_check.specs.Verdicts.{Good, Bad};
ghost use Rattle.stream_check.specs.Judging.{JudgesLine};
ghost use Rattle.stream_check_tests.specs.Worked.{first_stream, at_start, after_drop, first_found, second_found, six_vacant, unit_published, five_retired, five_refused};

use stream_check::Fault;

/// A clause is within the cube of its literals' complements, but not within the cube of its
/// literals.
fn clauses_within_are_judged()
    ensures within { is_within (pos 1 ∷ negsuc 1 ∷ []) (pos 2 ∷ []) ≡ true }
    ensures itself { is_within (pos 2 ∷ []) (pos 2 ∷ []) ≡ false }
    ensures one_alone { is_within (negsuc 1 ∷ []) (pos 1 ∷ pos 2 ∷ []) ≡ false }
    ensures nothing { is_within [] [] ≡ true }
{}

/// A good addition, whose last event is its publish; and one whose hint after the conflict isn't
/// fetched.
fn additions_are_judged()
    ensures good { JudgesLine first_stream at_start (Addition 5 (pos 2 ∷ []) (1 ∷ 2 ∷ []))
        (first_found ∷ second_found ∷ unit_published ∷ []) Good }
    ensures excess { JudgesLine first_stream at_start (Addition 5 (pos 2 ∷ []) (1 ∷ 2 ∷ 3 ∷ []))
        (first_found ∷ second_found ∷ []) (Bad 0 (Fault.Excess 3)) }
    ensures no_conflict { JudgesLine first_stream at_start (Addition 5 (pos 2 ∷ []) (1 ∷ []))
        (first_found ∷ []) (Bad 0 Fault.NoConflict) }
    ensures no_hint { JudgesLine first_stream at_start (Addition 5 (pos 2 ∷ []) [])
        [] (Bad 0 Fault.NoConflict) }
{}

/// The tests before the hints, in order: a line that fails one makes no event.
fn tests_are_judged()
    ensures foreign { JudgesLine first_stream at_start (Addition 6 (pos 3 ∷ []) [])
        [] (Bad 0 Fault.Identity) }
    ensures literal { JudgesLine first_stream at_start (Addition 5 (pos 3 ∷ negsuc 2 ∷ []) [])
        [] (Bad 0 Fault.Literal) }
    ensures tautology { JudgesLine first_stream at_start (Addition 5 (pos 1 ∷ negsuc 0 ∷ []) [])
        [] (Bad 0 Fault.Tautology) }
    ensures room { JudgesLine first_stream at_start (Addition 5 (pos 1 ∷ pos 2 ∷ []) [])
        [] (Bad 0 Fault.NoRoom) }
{}

/// Hints that aren't found: another stream's identity is fetched once more; a hint that isn't an
/// identity, or was dropped, isn't fetched.
fn missing_hints_are_judged()
    ensures foreign { JudgesLine first_stream at_start (Addition 5 (pos 2 ∷ []) (6 ∷ []))
        (six_vacant ∷ six_vacant ∷ []) (Bad 0 (Fault.Missing 6)) }
    ensures too_soon { ¬ JudgesLine first_stream at_start (Addition 5 (pos 2 ∷ []) (6 ∷ []))
        (six_vacant ∷ []) (Bad 0 (Fault.Missing 6)) }
    ensures outside { JudgesLine first_stream at_start (Addition 5 (pos 2 ∷ []) (9 ∷ []))
        [] (Bad 0 (Fault.Missing 9)) }
    ensures dropped { JudgesLine first_stream after_drop (Addition 5 (pos 2 ∷ []) (1 ∷ 2 ∷ []))
        [] (Bad 0 (Fault.Dropped 1)) }
{}

/// Deletions: the stream's own identity is retired, and the formula's is dropped, once each.
fn deletions_are_judged()
    ensures own { JudgesLine first_stream at_start (Deletion 5 (5 ∷ 5 ∷ []))
        (five_retired ∷ five_refused ∷ []) (Bad 1 (Fault.NotLive 5)) }
    ensures formula { JudgesLine first_stream at_start (Deletion 5 (1 ∷ 1 ∷ [])) []
        (Bad 1 (Fault.NotLive 1)) }
    ensures again { JudgesLine first_stream after_drop (Deletion 5 (2 ∷ 1 ∷ [])) []
        (Bad 1 (Fault.NotLive 1)) }
    ensures both { JudgesLine first_stream at_start (Deletion 5 (1 ∷ 5 ∷ 6 ∷ []))
        (five_retired ∷ []) Good }
    ensures outside { JudgesLine first_stream at_start (Deletion 5 (9 ∷ [])) []
        (Bad 0 (Fault.NotLive 9)) }
{}

/// Imports: a clause of the formula is compared; another stream's, while vacant, is fetched once
/// more; and nothing is added.
fn imports_are_judged()
    ensures good { JudgesLine first_stream at_start (Import 1 (pos 2 ∷ pos 1 ∷ pos 2 ∷ []))
        (first_found ∷ []) Good }
    ensures differs { JudgesLine first_stream at_start (Import 1 (pos 2 ∷ []))
        (first_found ∷ []) (Bad 0 (Fault.Differs 1)) }
    ensures tautology { JudgesLine first_stream at_start (Import 1 (pos 1 ∷ negsuc 0 ∷ []))
        (first_found ∷ []) (Bad 0 (Fault.Differs 1)) }
    ensures own { JudgesLine first_stream at_start (Import 5 (pos 3 ∷ [])) []
        (Bad 0 Fault.Identity) }
    ensures outside { JudgesLine first_stream at_start (Import 9 []) [] (Bad 0 Fault.Identity) }
    ensures literal { JudgesLine first_stream after_drop (Import 1 (pos 3 ∷ [])) []
        (Bad 0 Fault.Literal) }
    ensures dropped { JudgesLine first_stream after_drop (Import 1 (pos 1 ∷ pos 2 ∷ []))
        [] (Bad 0 (Fault.Dropped 1)) }
    ensures missing { JudgesLine first_stream at_start (Import 6 (pos 2 ∷ []))
        (six_vacant ∷ six_vacant ∷ []) (Bad 0 (Fault.Missing 6)) }
    ensures too_soon { ¬ JudgesLine first_stream at_start (Import 6 (pos 2 ∷ []))
        (six_vacant ∷ []) (Bad 0 (Fault.Missing 6)) }
{}
