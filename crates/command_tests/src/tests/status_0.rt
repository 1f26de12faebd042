//! What status 0 means for files whose bytes are known to contracts, for a file that changes after
//! its first opening, and for a formula that is lent.
ghost use Rattle.std.specs.Prelude.{◌≡◌, ◌≤◌, [], ◌∷◌, IsTrue, None, codes};
ghost use Rattle.run_files.specs.declared.files.OpenFault.TheVariants.{NotOpened};
ghost use Rattle.command_line.specs.CommandLine.{IsCommandLineOf};
ghost use Rattle.command_line.specs.declared.words.CommandLine.{CommandLine};
ghost use Rattle.dimacs.specs.FormulaText.{IsFormulaText};
ghost use Rattle.lrup_model.specs.Entailment.{IsUnsatisfiable};
ghost use Rattle.lrup_model.specs.Formula.{Cnf};
ghost use Rattle.stream_check.specs.StreamParams.{max_tries};

use super::shelf::OpenFile;
use super::shelf::Thing::Text;
use super::watching::Watcher;
use super::*;
use crate::exact_files::ExactFiles;
use command::{Files, Machine, OpenFault, check_formula};
use command_line::laws::plain_words;
use command_line::{CommandLine, read_words};
use lrup_model::{Cube, Formula};
use lrup_text::WriteFault;
use outcome_laws::laws::status_0_has_a_command_line;
use std::borrow::Cow;
use test_support::four_clauses;

/// Whether the program ends with status 0. If it does, the formula's text describes a formula that
/// no assignment satisfies.
fn refutes<'a, T: Threads + Wait + Sync + Clock>(
    rt: &T,
    alloc: Global,
    formula: &'a str,
    stream: &'a str,
) -> bool
    // From `sound`.
    ensures sound { IsTrue result → (f : Cnf) × IsFormulaText formula.now f × IsUnsatisfiable f }
    // From `ends`, by a law: the words also give a whole command line, whose FORMULA names the
    // text.
    ensures ends { IsTrue result → (given : CommandLine) × (f : Cnf)
        × IsCommandLineOf (codes "f" ∷ codes "s1" ∷ []) given
        × IsFormulaText formula.now f × IsUnsatisfiable f }
{
    plain_words();
    let mut files = ExactFiles::new(alloc, formula, stream, None, false, 0);
    status_0_has_a_command_line(&files);
    let mut out = Paper::new(alloc, 7, 0);
    let mut err = Paper::new(alloc, 7, 0);
    command(rt, rt, alloc, &["f", "s1"], &mut files, &mut out, &mut err) == 0
}

#[test]
fn a_formula_whose_bytes_are_known(rt: HostRuntime) {
    same(&rt, refutes(&rt, rt.alloc(), FOUR, REFUTES), true);
    same(&rt, refutes(&rt, rt.alloc(), FOUR, ""), false);
}

/// Every path has a file. The first opening finds one text, and all later openings find a second
/// one. Creating files fails.
#[derive(Drop)]
struct Changing<'a> {
    text: &'a str,
    later: &'a str,
}

impl<'a> Files for Changing<'a> {
    type Input = OpenFile<'a>;

    ghost contents = { λ _ _. None };

    ghost refuses = { λ _ _ _ _. ⊥ };

    ghost opens = { λ before _ input after. (input.text.left.now ≡ before.text.now)
        × (after.text.now ≡ before.later.now) × (after.later.now ≡ before.later.now) };

    fn open(&mut self, _path: &str) -> Result<OpenFile<'a>, OpenFault> {
        let text = self.text;
        self.text = self.later;
        Ok(OpenFile::new(&SETUP, text, 0))
    }
}

impl<'a> Machine for Changing<'a> {
    type Output = Paper;

    type Watcher = Watcher<'a>;

    ghost lacks = { λ _ _ _. ⊥ };

    ghost fails = { λ _ _ _ _. ⊥ };

    ghost creates = { λ _ _ _ _. ⊥ };

    ghost refuses_new = { λ before _ fault after. (fault ≡ NotOpened) × (after ≡ before) };

    ghost keeps = { λ _ _ _. ⊥ };

    ghost loses = { λ before _ after. after ≡ before };

    ghost discards = { λ before _ after. after ≡ before };

    fn open_if_there(&mut self, path: &str) -> Result<Option<OpenFile<'a>>, OpenFault> {
        Ok(Some(self.open(path)?))
    }

    fn create(&mut self, _path: &str) -> Result<Paper, OpenFault> {
        Err(OpenFault::NotOpened)
    }

    fn keep(&mut self, _output: Paper) -> Result<(), WriteFault> {
        Err(WriteFault)
    }

    fn discard(&mut self, _output: Paper) {}

    fn watcher(&self) -> Watcher<'a> {
        Watcher::new(None)
    }
}

/// Whether the program ends with status 0 if one path names both the formula and the stream. If it
/// does, the text that the first opening found describes a formula that no assignment satisfies.
fn refutes_the_first<T: Threads + Wait + Sync + Clock>(
    rt: &T,
    alloc: Global,
    text: &str,
    later: &str,
) -> bool
    ensures { IsTrue result → (f : Cnf) × IsFormulaText text.now f × IsUnsatisfiable f }
{
    let mut files = Changing { text, later };
    let mut out = Paper::new(alloc, 7, 0);
    let mut err = Paper::new(alloc, 7, 0);
    command(rt, rt, alloc, &["f", "f"], &mut files, &mut out, &mut err) == 0
}

#[test]
fn a_formula_that_changes(rt: HostRuntime) {
    same(&rt, refutes_the_first(&rt, rt.alloc(), FOUR, REFUTES), true);
    same(
        &rt,
        refutes_the_first(&rt, rt.alloc(), REFUTES, FOUR),
        false,
    );
}

/// Whether a run refutes a formula that is lent to it.
fn refutes_lent<T: Threads + Wait + Sync + Clock>(
    rt: &T,
    alloc: Global,
    line: &CommandLine<'_>,
    formula: &Formula,
    setup: Setup,
) -> bool
    requires { line.now.tries ≤ max_tries }
{
    let cube = Cube::empty(alloc);
    let mut files = Shelf::new(alloc, setup);
    let mut out = Paper::new(alloc, 7, 0);
    let mut err = Paper::new(alloc, 7, 0);
    let lent = Cow::Borrowed(formula);
    check_formula(
        rt, rt, alloc, line, lent, &cube, &mut files, &mut out, &mut err,
    ) == 0
}

/// Several runs, also in rounds, check one formula, which is still there after them.
#[test]
fn a_formula_that_is_lent(rt: HostRuntime) -> Result<(), Fail> {
    let alloc = rt.alloc();
    let formula = four_clauses(alloc)?;
    for way in &WAYS {
        let once = [*way, "f", "1"];
        let line = read_words(alloc, &once)?;
        let found = refutes_lent(&rt, alloc, &line, &formula, Setup::of(&[REFUTES]));
        same(&rt, (*way, found), (*way, true));
        let found = refutes_lent(&rt, alloc, &line, &formula, Setup::of(&[ADDS]));
        same(&rt, (*way, found), (*way, false));
        let rounds = [*way, "--rounds", "d", "f", "1"];
        let line = read_words(alloc, &rounds)?;
        let later = [("d/round-2.stream-1", Text("6 0 5 3 4 0\n"))];
        let setup = Setup::of(&[ADDS]).with(&later);
        let found = refutes_lent(&rt, alloc, &line, &formula, setup);
        same(&rt, (*way, found), (*way, true));
    }
    same(&rt, formula.len(), 4);
    Ok(())
}
