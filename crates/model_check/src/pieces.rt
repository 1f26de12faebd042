//! Cuts bytes into lines, and lines into tokens.
ghost use Rattle.std.specs.Prelude.{◌≡◌, ◌<◌, ◌≤◌, [], ◌∷◌, false, length, slice_index, IfSome, MatchOption};
ghost use Rattle.std.specs.List.{slice_split};
ghost use Rattle.dimacs.specs.Lines.{ends_line, runs, is_separator as separates};

use memchr::memchr;

/// Whether the byte separates tokens: space, tab, CR or LF.
fn is_separator(byte: u8) -> bool
    ensures { result ≡ separates byte }
{
    matches!(byte, b' ' | b'\t' | b'\r' | b'\n')
}

/// The bytes before the first LF, and the bytes after it, if there is one.
pub(crate) fn split_line(text: &[u8]) -> (&[u8], Option<&[u8]>)
    ensures lines { MatchOption result.1
        (slice_split ends_line text.now ≡ result.0.now ∷ [])
        (λ rest. slice_split ends_line text.now ≡ result.0.now ∷ slice_split ends_line rest.now) }
    ensures shorter { IfSome result.1 (λ rest. length rest.now < length text.now) }
{
    match memchr(b'\n', text) {
        Some(end) => (&text[..end], Some(&text[end + 1..])),
        None => (text, None),
    }
}

/// The first token of a line, and the bytes after it. `None` if there is no token.
pub(crate) fn first_token(line: &[u8]) -> Option<(&[u8], &[u8])>
    ensures tokens { MatchOption result (runs line.now ≡ [])
        (λ found. runs line.now ≡ found.0.now ∷ runs found.1.now) }
    ensures shorter { IfSome result (λ found. length found.1.now < length line.now) }
{
    let mut rest = line;
    while let Some((&byte, after)) = rest.split_first() {
        if !is_separator(byte) {
            return Some(split_token(rest));
        }
        rest = after;
    }
    None
}

/// The token with which the text begins, and the bytes after it.
fn split_token(text: &[u8]) -> (&[u8], &[u8])
    requires some { 0 < length text.now }
    requires begins { separates (slice_index text.now 0) ≡ false }
    ensures token { runs text.now ≡ result.0.now ∷ runs result.1.now }
    ensures shorter { length result.1.now < length text.now }
{
    let mut end = 1;
    while end < text.len() && !is_separator(text[end]) {
        end += 1;
    }
    text.split_at(end)
}
