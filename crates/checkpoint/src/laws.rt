//! Laws of checkpoints: what holds for a formula that entails another formula. Each function does
//! nothing: its contract is the law. If it calls another function, its proof uses that function's
//! law.
ghost use Rattle.checkpoint.specs.Checkpoints.{FilesRefute, FilesRefuteUnder};
ghost use Rattle.checkpoint.specs.Entails.{ChainRefutes, ChainRefutesUnder, EntailsItself, EntailsOnward, RefutesBack, RefutesBackUnder};
ghost use Rattle.checkpoint.specs.Printing.{ABeginningIsNoText, PrintedIsRead};

use dimacs::laws::one_formula;

/// A formula entails itself.
pub fn entails_itself()
    ensures { EntailsItself }
{}

/// Entailment is transitive.
pub fn entails_onward()
    ensures { EntailsOnward }
{}

/// A formula that entails an unsatisfiable one is unsatisfiable.
pub fn refutes_back()
    ensures { RefutesBack }
{}

/// A formula that entails one that is unsatisfiable under a cube is unsatisfiable under that cube,
/// too.
pub fn refutes_back_under()
    ensures { RefutesBackUnder }
{}

/// If each formula of a chain entails the next, and no assignment satisfies the last, none
/// satisfies the first.
pub fn chain_refutes()
    ensures { ChainRefutes }
{}

/// If each formula of a chain entails the next, and the last is unsatisfiable under a cube, the
/// first is, too.
pub fn chain_refutes_under()
    ensures { ChainRefutesUnder }
{}

/// The printed text of a checkpoint is a text of its formula.
pub fn printed_is_read()
    ensures { PrintedIsRead }
{}

/// If more than the last byte of a checkpoint's text is missing, the rest isn't the text of any
/// formula: a file that was cut off is refused.
pub fn a_beginning_is_no_text()
    ensures { ABeginningIsNoText }
{}

/// If each file is a text of a formula, and the next file is a checkpoint of that formula, and no
/// assignment satisfies the last file's formula, then none satisfies the first file's.
pub fn files_refute()
    ensures { FilesRefute }
{
    one_formula();
}

/// Like `files_refute`, under a cube: only assignments that satisfy each of its literals count.
pub fn files_refute_under()
    ensures { FilesRefuteUnder }
{
    one_formula();
}
