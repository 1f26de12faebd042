//! The row word by word, and two streams in turn.
ghost use Rattle.std.specs.Prelude.{◌≡◌, ◌≤◌, [], length, IfOk, IsTrue};
ghost use Rattle.lrup_model.specs.History.{IsPublishable};
ghost use Rattle.lrup_model.specs.Layout.{Fits};
ghost use Rattle.lrup_model.specs.Pass.{pass_caller_view};
ghost use Rattle.test_support.specs.Worked.{four};
ghost use Rattle.idwords_tests.specs.Worked.{IsSeatAt};

use idwords::{LIVE, RETIRED, Row, Seat, len, start, state};
use lrup_model::{Formula, Layout, Lit, Owner, Published, Retired};
use std::alloc::{AllocError, Global};
use std::fmt;
use std::process::Abort;
use std::test::Fail;
use test_support::{four_clauses, lit};

/// Stops the test if two values differ. This is a function, so the assertion is proved only once.
fn same<T: PartialEq + fmt::Debug + Drop>(rt: &impl Abort, value: T, wanted: T) {
    assert_eq!(rt; value, wanted);
}

/// Stops the test if the fact is false.
fn holds(rt: &impl Abort, fact: bool)
    ensures { IsTrue fact }
{
    assert!(rt; fact);
}

/// A row of one stream, and its seat.
fn open_one(
    rt: &(impl Abort + AllocGlobal),
    formula: &Formula,
    layout: &Layout,
) -> Result<(Row, Seat), AllocError>
    requires fits { Fits layout.now formula.now }
    requires streams { layout.now.streams ≡ 1 }
    ensures { IfOk result (λ opened. IsSeatAt formula.now opened.0 layout.now 1 opened.1) }
{
    let (row, mut seats) = Row::open(rt.alloc(), formula, layout)?;
    let seat = seats.pop().expect(rt, "no seat");
    Ok((row, seat))
}

/// A row of one stream over the worked formula, and its seat.
fn open_worked(rt: &(impl Abort + AllocGlobal), layout: &Layout) -> Result<(Row, Seat), AllocError>
    requires { layout.now.streams ≡ 1 }
    ensures { IfOk result (λ opened. IsSeatAt four opened.0 layout.now 1 opened.1) }
{
    let formula = four_clauses(rt.alloc())?;
    holds(rt, layout.fits(&formula));
    open_one(rt, &formula, layout)
}

/// A row of two streams, and their seats.
fn open_two(
    rt: &(impl Abort + AllocGlobal),
    formula: &Formula,
    layout: &Layout,
) -> Result<(Row, Seat, Seat), AllocError>
    requires formula { formula.now ≡ four }
    requires fits { Fits layout.now formula.now }
    requires streams { layout.now.streams ≡ 2 }
    ensures { IfOk result (λ opened. IsSeatAt four opened.0 layout.now 1 opened.1
        × IsSeatAt four opened.0 layout.now 2 opened.2) }
{
    let (row, mut seats) = Row::open(rt.alloc(), formula, layout)?;
    let second = seats.pop().expect(rt, "no seat");
    let first = seats.pop().expect(rt, "one seat");
    Ok((row, first, second))
}

/// A row of two streams over the worked formula, and their seats.
fn open_worked_two(
    rt: &(impl Abort + AllocGlobal),
    layout: &Layout,
) -> Result<(Row, Seat, Seat), AllocError>
    requires { layout.now.streams ≡ 2 }
    ensures { IfOk result (λ opened. IsSeatAt four opened.0 layout.now 1 opened.1
        × IsSeatAt four opened.0 layout.now 2 opened.2) }
{
    let formula = four_clauses(rt.alloc())?;
    holds(rt, layout.fits(&formula));
    open_two(rt, &formula, layout)
}

/// Whether the row has these words.
fn has_words(row: &Row, layout: &Layout, seat: &mut Seat, words: &[u64]) -> bool
    requires row { seat.old.table ≡ row.now }
    requires layout { seat.old.view.caller.layout ≡ layout.now }
    ensures { seat.new ≡ seat.old }
{
    if layout.row_words() != words.len() as u64 {
        return false;
    }
    for (place, word) in words.iter().enumerate() {
        if row.word(seat, place as u64) != *word {
            return false;
        }
    }
    true
}

/// The word of an identity; `None` if the number isn't an identity.
fn look(row: &Row, layout: &Layout, seat: &mut Seat, stream: u64, id: u64) -> Option<u64>
    requires { IsSeatAt four row.now layout.now stream seat.old }
    ensures { IsSeatAt four row.now layout.now stream seat.new }
{
    if !layout.covers(id) {
        return None;
    }
    Some(row.look(seat, id))
}

/// Drafts a clause of at most two literals.
fn draft(row: &Row, seat: &mut Seat, clause: &[Lit])
    requires row { seat.old.table ≡ row.now }
    requires draft { seat.old.draft ≡ [] }
    requires length { length clause.now ≤ 2 }
    requires room { length clause.now ≤ (pass_caller_view seat.old.view).room }
    ensures { seat.new ≡ record seat.old { draft = clause.now } }
{
    match clause {
        [only] => row.write(seat, *only, None),
        [first, second] => row.write(seat, *first, Some(*second)),
        _ => {}
    }
}

/// Publishes a clause of at most two literals under one of the stream's own identities.
fn publish(
    row: &Row,
    layout: &Layout,
    seat: &mut Seat,
    stream: u64,
    id: u64,
    clause: &[Lit],
) -> Option<Published>
    requires at { IsSeatAt four row.now layout.now stream seat.old }
    requires clause { IsPublishable four clause.now }
    ensures { IsSeatAt four row.now layout.now stream seat.new }
{
    let length = clause.len() as u64;
    if layout.owner(id) != Owner::Stream(stream) || length > 2 || seat.room() < length {
        return None;
    }
    draft(row, seat, clause);
    Some(row.claim(seat, id))
}

/// Retires the clause of one of the stream's own identities.
fn retire(row: &Row, layout: &Layout, seat: &mut Seat, stream: u64, id: u64) -> Option<Retired>
    requires { IsSeatAt four row.now layout.now stream seat.old }
    ensures { IsSeatAt four row.now layout.now stream seat.new }
{
    if layout.owner(id) != Owner::Stream(stream) {
        return None;
    }
    Some(row.withdraw(seat, id))
}

/// Words of two literals each; the first literal is in the lower half.
const PAIR_1_2: u64 = 17179869186;

const PAIR_N1_2: u64 = 17179869187;

const PAIR_1_N2: u64 = 21474836482;

const PAIR_N1_N2: u64 = 21474836483;

/// The worked formula's row for one stream with one identity and room for two literals, as opened.
static OPENED: [u64; 16] = [
    0, 25165833, 29360137, 33554441, 37748745, 0, PAIR_1_2, PAIR_N1_2, PAIR_1_N2, PAIR_N1_N2, 0, 0,
    0, 0, 0, 0,
];

/// Checks the row of `OPENED` after opening, after a publish, and after the published clause has
/// been retired.
fn check_words(rt: &impl Abort, row: &Row, layout: &Layout, seat: &mut Seat)
    requires { IsSeatAt four row.now layout.now 1 seat.old }
{
    let mut words = OPENED;
    holds(rt, has_words(row, layout, seat, &words));
    same(rt, seat.room(), 2);
    let answer = publish(row, layout, seat, 1, 5, &[lit(2)]);
    same(rt, answer, Some(Published::Done));
    words[5] = 58720261;
    words[14] = 4;
    holds(rt, has_words(row, layout, seat, &words));
    same(rt, seat.room(), 1);
    let answer = retire(row, layout, seat, 1, 5);
    same(rt, answer, Some(Retired::Done));
    words[5] = 58720262;
    holds(rt, has_words(row, layout, seat, &words));
    same(rt, seat.room(), 1);
}

#[test]
fn the_row_has_its_words(rt: HostRuntime) -> Result<(), Fail> {
    let layout = Layout::new(2, 4, 8, 1, 1, 2)?;
    let (row, mut seat) = open_worked(&rt, &layout)?;
    check_words(&rt, &row, &layout, &mut seat);
    Ok(())
}

/// The words of the row after a clause of one literal and then one of two have been published.
static ONE_AND_TWO: [u64; 18] = [
    0, 29360137, 33554441, 37748745, 41943049, 62914565, 67108873, PAIR_1_2, PAIR_N1_2, PAIR_1_N2,
    PAIR_N1_N2, 0, 0, 0, 0, 4, PAIR_1_2, 0,
];

/// Publishes a clause of one literal, and then a clause of two.
fn publish_one_and_two(rt: &impl Abort, row: &Row, layout: &Layout, seat: &mut Seat)
    requires { IsSeatAt four row.now layout.now 1 seat.old }
{
    let answer = publish(row, layout, seat, 1, 5, &[lit(2)]);
    same(rt, answer, Some(Published::Done));
    let answer = publish(row, layout, seat, 1, 6, &[lit(1), lit(2)]);
    same(rt, answer, Some(Published::Done));
    same(rt, seat.room(), 0);
    holds(rt, has_words(row, layout, seat, &ONE_AND_TWO));
}

/// The clause of two literals begins in a word of its own.
#[test]
fn a_clause_begins_in_a_word_of_its_own(rt: HostRuntime) -> Result<(), Fail> {
    let layout = Layout::new(2, 4, 8, 1, 2, 3)?;
    let (row, mut seat) = open_worked(&rt, &layout)?;
    publish_one_and_two(&rt, &row, &layout, &mut seat);
    Ok(())
}

/// Clauses of three literals, of none and of two.
fn uneven_clauses(alloc: Global) -> Result<Formula, AllocError> {
    let mut formula = Formula::new(alloc, 3);
    formula.push(&[lit(1), lit(2), lit(3)])?;
    formula.push(&[])?;
    formula.push(&[lit(-1), lit(-2)])?;
    Ok(formula)
}

/// The words of the row for these clauses.
static UNEVEN: [u64; 11] = [
    0, 20971533, 29360129, 29360137, 0, PAIR_1_2, 6, PAIR_N1_N2, 0, 0, 0,
];

/// The row for these clauses, and its seat.
fn open_uneven(rt: &(impl Abort + AllocGlobal), layout: &Layout) -> Result<(Row, Seat), AllocError>
    requires { layout.now.streams ≡ 1 }
    ensures { IfOk result (λ opened. (opened.1.table ≡ opened.0)
        × (opened.1.view.caller.layout ≡ layout.now)) }
{
    let formula = uneven_clauses(rt.alloc())?;
    holds(rt, layout.fits(&formula));
    open_one(rt, &formula, layout)
}

/// The row of a formula with clauses of odd length and an empty one, after opening.
#[test]
fn a_formulas_clause_begins_in_a_word_of_its_own(rt: HostRuntime) -> Result<(), Fail> {
    let layout = Layout::new(3, 3, 5, 1, 1, 1)?;
    let (row, mut seat) = open_uneven(&rt, &layout)?;
    holds(&rt, has_words(&row, &layout, &mut seat, &UNEVEN));
    Ok(())
}

/// Whether a row can be opened.
fn opens(alloc: Global, formula: &Formula, layout: &Layout) -> bool
    requires { Fits layout.now formula.now }
{
    Row::open(alloc, formula, layout).is_ok()
}

/// If memory is refused, `open` returns an error, and may be called again.
#[test]
fn an_open_may_be_refused(rt: HostRuntime) -> Result<(), Fail> {
    let layout = Layout::new(2, 4, 8, 2, 2, 1)?;
    let Ok(formula) = four_clauses(rt.alloc()) else {
        return Ok(());
    };
    holds(&rt, layout.fits(&formula));
    let opened = opens(rt.alloc(), &formula, &layout);
    holds(&rt, opened || opens(rt.alloc(), &formula, &layout));
    Ok(())
}

/// The second stream publishes as much as its identities and room allow.
fn spend_all(rt: &impl Abort, row: &Row, layout: &Layout, seat: &mut Seat)
    requires { IsSeatAt four row.now layout.now 2 seat.old }
    ensures { IsSeatAt four row.now layout.now 2 seat.new }
{
    let answer = publish(row, layout, seat, 2, 6, &[lit(-2)]);
    same(rt, answer, Some(Published::Done));
    same(rt, seat.room(), 0);
    let answer = publish(row, layout, seat, 2, 8, &[]);
    same(rt, answer, Some(Published::Done));
    let answer = publish(row, layout, seat, 2, 8, &[]);
    same(rt, answer, Some(Published::Taken));
    same(rt, seat.room(), 0);
}

/// The second stream retires a clause, and can then neither retire it again nor publish under its
/// identity.
fn retire_six(rt: &impl Abort, row: &Row, layout: &Layout, seat: &mut Seat)
    requires { IsSeatAt four row.now layout.now 2 seat.old }
{
    let answer = retire(row, layout, seat, 2, 6);
    same(rt, answer, Some(Retired::Done));
    let answer = retire(row, layout, seat, 2, 6);
    same(rt, answer, Some(Retired::NotLive));
    let answer = publish(row, layout, seat, 2, 6, &[]);
    same(rt, answer, Some(Published::Taken));
}

/// Two streams, each with two identities and room for one literal.
#[test]
fn two_streams_take_turns(rt: HostRuntime) -> Result<(), Fail> {
    let layout = Layout::new(2, 4, 8, 2, 2, 1)?;
    let (row, _first, mut second) = open_worked_two(&rt, &layout)?;
    spend_all(&rt, &row, &layout, &mut second);
    retire_six(&rt, &row, &layout, &mut second);
    Ok(())
}

/// The first literal of an identity's clause, if the clause is live.
fn first_literal(row: &Row, layout: &Layout, seat: &mut Seat, stream: u64, id: u64) -> Option<i64>
    requires { IsSeatAt four row.now layout.now stream seat.old }
    ensures { IsSeatAt four row.now layout.now stream seat.new }
{
    let found = look(row, layout, seat, stream, id)?;
    if state(found) != LIVE || len(found) == 0 || layout.row_words() <= start(found) {
        return None;
    }
    let word = row.word(seat, start(found));
    let code = word % (1 << 32);
    if code < 2 || 33_554_431 < code {
        return None;
    }
    Some(idwords::lit(word, 0).value())
}

/// Both streams publish a clause.
fn publish_both(rt: &impl Abort, row: &Row, layout: &Layout, first: &mut Seat, second: &mut Seat)
    requires first { IsSeatAt four row.now layout.now 1 first.old }
    requires second { IsSeatAt four row.now layout.now 2 second.old }
    ensures first { IsSeatAt four row.now layout.now 1 first.new }
    ensures second { IsSeatAt four row.now layout.now 2 second.new }
{
    let one = publish(row, layout, first, 1, 5, &[lit(2)]);
    let other = publish(row, layout, second, 2, 6, &[lit(-2)]);
    let done = Some(Published::Done);
    same(rt, (one, other), (done, done));
}

/// Once the streams have met, each sees what the other did; then the first stream sees that the
/// second stream's clause is retired.
fn meet_and_look(rt: &impl Abort, row: &Row, layout: &Layout, first: &mut Seat, second: &mut Seat)
    requires first { IsSeatAt four row.now layout.now 1 first.old }
    requires second { IsSeatAt four row.now layout.now 2 second.old }
    ensures { IsSeatAt four row.now layout.now 1 first.new }
{
    row.meet(first, second);
    same(rt, first_literal(row, layout, first, 1, 6), Some(-2));
    same(rt, first_literal(row, layout, second, 2, 5), Some(2));
    let answer = retire(row, layout, second, 2, 6);
    same(rt, answer, Some(Retired::Done));
    row.meet(first, second);
}

/// After `meet_and_look`, the first stream finds a retired clause of one literal, and the formula's
/// first clause.
fn look_later(rt: &impl Abort, row: &Row, layout: &Layout, first: &mut Seat)
    requires { IsSeatAt four row.now layout.now 1 first.old }
{
    let found = match look(row, layout, first, 1, 6) {
        Some(word) => Some((state(word), len(word))),
        None => None,
    };
    same(rt, found, Some((RETIRED, 1)));
    let found = look(row, layout, first, 1, 1);
    same(rt, found, Some(25165833 + 4194304));
}

/// Once two streams have met, each sees what the other did.
#[test]
fn two_streams_use_one_row(rt: HostRuntime) -> Result<(), Fail> {
    let layout = Layout::new(2, 4, 8, 2, 1, 1)?;
    let (row, mut first, mut second) = open_worked_two(&rt, &layout)?;
    publish_both(&rt, &row, &layout, &mut first, &mut second);
    meet_and_look(&rt, &row, &layout, &mut first, &mut second);
    look_later(&rt, &row, &layout, &mut first);
    Ok(())
}
