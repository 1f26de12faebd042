//! Laws of the definitions. Each function does nothing: its contract is the law.
ghost use Rattle.command_line.specs.Laws.{PlainWords};

/// If no word begins with a hyphen, the words are a formula and its streams, with each option's
/// default.
pub fn plain_words()
    ensures { PlainWords }
{}
