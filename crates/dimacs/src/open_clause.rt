//! The clause being read, as the set of its literals.
ghost use Rattle.std.specs.Prelude.{◌≡◌, ◌↔◌, ◌<◌, ◌≤◌, ℤ, [], List, IsTrue, length, OnOk, OnErr};
ghost use Rattle.lrup_model.specs.Clause.{EachOnce, Has};
ghost use Rattle.dimacs.specs.internal.Places.{AddsLiteral};
ghost use Rattle.dimacs.specs.internal.Marks.{MarksAre, all_words};

use crate::marks::{clear_marks, has_mark, set_mark, set_marks};
use lrup_model::Lit;
use std::alloc::{AllocError, Global};
use std::marker::Model;

/// The literals of a clause, each once. A short clause is searched from its start; in a longer one,
/// each literal has a mark.
#[derive(Drop)]
pub struct OpenClause {
    literals: Vec<Lit>,
    marks: Vec<u64>,
    marked: bool,
}

impl Model for OpenClause {
    ghost use Rattle.std.specs.Prelude.{List, ℤ};
    ghost use Rattle.lrup_model.specs.Clause.{EachOnce};
    ghost use Rattle.dimacs.specs.internal.Marks.{MarksFit};

    ghost Value = { List ℤ };

    ghost view = { λ c. c.literals.items };

    ghost invariant = { λ c. EachOnce c.literals.items × MarksFit c.marked c.marks.items c.literals.items };
}

/// The maximum number of literals of a clause without marks.
const SHORT: usize = 8;

fn has(literals: &[Lit], l: Lit) -> bool
    ensures { IsTrue result ↔ Has literals.now l }
{
    for m in literals {
        if *m == l {
            return true;
        }
    }
    false
}

/// Adds a literal to a clause whose literals have marks, unless the clause already has it.
fn add_marked(literals: &mut Vec<Lit>, marks: &mut [u64], l: Lit) -> Result<(), AllocError>
    requires each_once { EachOnce literals.old.items }
    requires marks { MarksAre marks.old literals.old.items }
    requires words { all_words ≤ length marks.old }
    ensures marks { MarksAre marks.new literals.new.items }
    ensures each_once { EachOnce literals.new.items }
    ensures ok { OnOk result (AddsLiteral literals.old.items literals.new.items l) }
    ensures err { OnErr result (literals.new.items ≡ literals.old.items) }
{
    if has_mark(marks, l) {
        return Ok(());
    }
    literals.push(l)?;
    set_mark(marks, l);
    Ok(())
}

impl OpenClause {
    /// The clause without literals.
    pub fn new(alloc: Global) -> Self
        ensures { result ≡ [] }
    {
        OpenClause {
            literals: Vec::new(alloc),
            marks: Vec::new(alloc),
            marked: false,
        }
    }

    /// The literals, each once.
    pub fn literals(&self) -> &[Lit]
        ensures literals { result.now ≡ self.now }
        ensures each_once { EachOnce self.now }
    {
        self.literals.as_slice()
    }

    /// Adds a literal, unless the clause already has it. If memory is refused, nothing changes.
    pub fn add(&mut self, l: Lit) -> Result<(), AllocError>
        ensures ok { OnOk result (AddsLiteral self.old self.new l) }
        ensures err { OnErr result (self.new ≡ self.old) }
    {
        if !self.marked {
            if has(&self.literals, l) {
                return Ok(());
            }
            if self.literals.len() < SHORT {
                self.literals.push(l)?;
                return Ok(());
            }
            set_marks(&mut self.marks, &self.literals)?;
            self.marked = true;
        }
        add_marked(&mut self.literals, &mut self.marks, l)
    }

    /// Removes all literals.
    pub fn clear(&mut self)
        ensures { self.new ≡ [] }
    {
        if self.marked {
            clear_marks(&mut self.marks, &self.literals);
            self.marked = false;
        }
        self.literals.clear();
    }
}
