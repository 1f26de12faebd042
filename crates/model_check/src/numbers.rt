//! The numbers that tokens spell.
ghost use Rattle.std.specs.Prelude.{◌≡◌, ◌<◌, ◌≤◌, false, true, ℕ, None, Some, MatchOption};
ghost use Rattle.lrup_model.specs.Literal.{max_variable};
ghost use Rattle.dimacs.specs.Numerals.{is_numeral, value as value_of, number_of};
ghost use Rattle.model_check.specs.internal.Numbers.{IsCapped, signed};

use lrup_model::Lit;

/// The number that a numeral spells; `None` if the digits aren't a numeral. For a number above
/// every variable the result may be any such number.
fn magnitude(digits: &[u8]) -> Option<u32>
    ensures { MatchOption result (is_numeral digits.now ≡ false)
        (λ kept. (is_numeral digits.now ≡ true) × IsCapped kept (value_of digits.now)) }
{
    let Some((&first, rest)) = digits.split_first() else {
        return None;
    };
    if first < b'1' || first > b'9' {
        return None;
    }
    let mut value = u32::from(first - b'0');
    for &byte in rest {
        if byte < b'0' || byte > b'9' {
            return None;
        }
        if value <= Lit::MAX_VARIABLE {
            value = 10 * value + u32::from(byte - b'0');
        }
    }
    Some(value)
}

/// Whether the number that a token spells is negative, and its magnitude; `None` if the token
/// spells no number. For a number above every variable the result may be any such number.
pub(crate) fn number(token: &[u8]) -> Option<(bool, u32)>
    ensures { MatchOption result (number_of token.now ≡ None)
        (λ read. (whole : ℕ) × IsCapped read.1 whole
        × (number_of token.now ≡ Some (signed read.0 whole))) }
{
    if token == b"0".as_slice() {
        return Some((false, 0));
    }
    if let Some((&first, digits)) = token.split_first() {
        if first == b'-' {
            return match magnitude(digits) {
                Some(value) => Some((true, value)),
                None => None,
            };
        }
    }
    match magnitude(token) {
        Some(value) => Some((false, value)),
        None => None,
    }
}

/// The literal of this variable and sign.
pub(crate) fn literal(variable: u32, negative: bool) -> Lit
    requires some { 0 < variable }
    requires few { variable ≤ max_variable }
    ensures { result ≡ signed negative variable }
{
    let number = i64::from(variable);
    Lit::new(if negative { -number } else { number }).unwrap()
}
