//! The files that the words name.
ghost use Rattle.std.specs.Prelude.{◌≡◌, ℕ, List, Option, MatchOption, map, string_bytes};
ghost use Rattle.lrup_model_check.specs.Asking.{NamePaths, begins_option, lent_path};

/// The paths of the files of a check.
#[derive(Clone, Copy, Debug, PartialEq, Eq)]
pub struct Paths<'a> {
    /// The assumed literals, if there are any.
    pub assumed: Option<&'a str>,
    /// The formula.
    pub formula: &'a str,
    /// The model.
    pub model: &'a str,
}

/// Whether the word is an option; a single `-` isn't.
fn is_option(word: &str) -> bool
    ensures { result ≡ begins_option word.now }
{
    let bytes = word.as_bytes();
    bytes.len() > 1 && bytes[0] == b'-'
}

/// The files that the words name; `None` if they ask for anything else.
pub fn paths_of(words: &[String]) -> Option<Paths<'_>>
    ensures { MatchOption result
        ((assumed : Option (List ℕ)) (formula model : List ℕ)
        → ¬ NamePaths (map string_bytes words.now) assumed formula model)
        (λ paths. NamePaths (map string_bytes words.now) (lent_path paths.assumed) paths.formula.now
        paths.model.now) }
{
    match words {
        [formula, model] if !is_option(formula) && !is_option(model) => Some(Paths {
            assumed: None,
            formula,
            model,
        }),
        [option, file, formula, model]
            if option.as_str() == "--assume" && !is_option(formula) && !is_option(model) => {
            Some(Paths {
                assumed: Some(file),
                formula,
                model,
            })
        }
        _ => None,
    }
}
