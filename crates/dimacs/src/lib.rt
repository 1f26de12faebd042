//! Reads a formula in DIMACS CNF: the result is exactly the text's formula, or the text's first
//! fault.
#![tactic(auto)]

ghost use Rattle.std.specs.Prelude.{◌≢◌, IfOk, IfErr};
ghost use Rattle.dimacs.specs.FormulaText.{IsFormulaText};
ghost use Rattle.dimacs.specs.FormulaFault.{IsFormulaFault};
ghost use Rattle.dimacs.specs.declared.fault.DimacsFault.TheVariants.{Memory};

mod body;
mod fault;
mod header;
pub mod laws;
mod marks;
mod open_clause;
mod tokens;

pub use fault::DimacsFault;
use lrup_model::Formula;
use std::alloc::Global;

/// Reads the formula of a whole file. The result is what the bytes say, with each literal of a
/// clause once. A file that isn't a formula is refused with its first fault in byte order, and all
/// memory is freed; `Memory` says nothing about the file.
///
/// Though no contract says so, the time is linear in the size of the file, however long clauses
/// and numbers are. A formula takes 4 bytes for each literal and 8 for each clause, in two
/// lists that double when they are full: so they take up to twice as much, and three times as much
/// while they grow. The clause being read takes at most 11 MB more.
pub fn parse(alloc: Global, bytes: &[u8]) -> Result<Formula, DimacsFault>
    ensures formula { IfOk result (λ f. IsFormulaText bytes.now f) }
    ensures fault { IfErr result (λ fault. fault ≢ Memory → IsFormulaFault bytes.now fault) }
{
    let mut tokens = tokens::Tokens::new(bytes);
    let Some(line) = tokens.next_line() else {
        return Err(DimacsFault::NoHeader);
    };
    let header = header::parse_header(line)?;
    body::read_clauses(alloc, tokens, header)
}
