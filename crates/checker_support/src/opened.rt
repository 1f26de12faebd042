//! The map of the example formula, and new checkers.
ghost use Rattle.std.specs.Prelude.{◌≡◌, [], IfOk, replicate};
ghost use Rattle.lrup_model.specs.Layout.{IsStream};
ghost use Rattle.lrup_model.specs.Plain.{formula_of, plain_caller_view};
ghost use Rattle.test_support.specs.Worked.{four};
ghost use Rattle.stream_check.specs.Checker.{IsNew, IsReadyAt};
ghost use Rattle.checker_support.specs.Opened.{IsPlainOpened};

use lrup_model::{Cube, Formula, Layout, PlainMap};
use std::alloc::Global;
use std::test::Fail;
use stream_check::Checker;
use stream_check::laws::ready_new;
use test_support::four_clauses;

/// The map of the four clauses, for `streams` streams, each with `lines` identities and room for
/// `room` literals.
pub fn open_map(alloc: Global, streams: u64, lines: u64, room: u64) -> Result<PlainMap, Fail>
    ensures opened { IfOk result IsPlainOpened }
    ensures formula { IfOk result (λ map. formula_of map ≡ four) }
    ensures streams { IfOk result (λ map. map.layout.streams ≡ streams) }
    ensures room { IfOk result (λ map. map.free ≡ replicate streams room) }
{
    let formula = four_clauses(alloc)?;
    let layout = Layout::new(2, 4, 8, streams, lines, room)?;
    open_formula(alloc, &formula, &layout)
}

/// The map of a formula with this layout.
pub fn open_formula(alloc: Global, formula: &Formula, layout: &Layout) -> Result<PlainMap, Fail>
    ensures opened { IfOk result IsPlainOpened }
    ensures formula { IfOk result (λ map. formula_of map ≡ formula.now) }
    ensures layout { IfOk result (λ map. map.layout ≡ layout.now) }
    ensures room { IfOk result (λ map.
        map.free ≡ replicate layout.now.streams layout.now.room) }
{
    if !layout.fits(formula) {
        return Err("no layout".into());
    }
    let map = PlainMap::open(alloc, formula, layout)?;
    Ok(map)
}

/// A new checker of this stream.
pub fn checker_at(alloc: Global, map: &PlainMap, stream: u64, tries: u64) -> Result<Checker, Fail>
    requires { IsPlainOpened map.now }
    ensures stream { IfOk result (λ _. IsStream map.now.layout stream) }
    ensures new { IfOk result (λ checker. IsNew map.now.layout [] stream tries checker) }
    ensures ready { IfOk result (λ checker. IsReadyAt checker (plain_caller_view map.now stream)) }
{
    checker_under(alloc, map, &Cube::empty(alloc), stream, tries)
}

/// A new checker of this stream, under this cube.
pub fn checker_under(
    alloc: Global,
    map: &PlainMap,
    cube: &Cube,
    stream: u64,
    tries: u64,
) -> Result<Checker, Fail>
    requires { IsPlainOpened map.now }
    ensures stream { IfOk result (λ _. IsStream map.now.layout stream) }
    ensures new { IfOk result (λ checker. IsNew map.now.layout cube.now stream tries checker) }
    ensures ready { IfOk result (λ checker. IsReadyAt checker (plain_caller_view map.now stream)) }
{
    ready_new();
    let layout = map.layout();
    if stream == 0 || stream > layout.streams() || tries > Checker::MAX_TRIES {
        return Err("no such stream".into());
    }
    let checker = Checker::new(alloc, stream, layout, cube, tries)?;
    Ok(checker)
}
