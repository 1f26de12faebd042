//! Laws of the definitions. Each function does nothing: its contract is the law.
ghost use Rattle.model_check.specs.Laws.{ModelTextIsRead};

/// Bytes are an answer with these literals exactly if reading them token by token gives the
/// literals. So a text has one list of literals, and a text has no fault.
pub fn model_text_is_read()
    ensures { ModelTextIsRead }
{}
