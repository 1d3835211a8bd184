//! The fields of a line: names and numbers.
ghost use Rattle.std.specs.Prelude.{◌≡◌, ◌↔◌, ◌<◌, ◌^◌, IsTrue, IfSome, IfNone, ℕ};
ghost use Rattle.uv_script.specs.Words.{IsName, IsNumber};
ghost use Rattle.uv_script.specs.Checks.{is_letter, is_name_byte, is_name, is_canonical, number_of};

use std::str;

fn is_name_byte(byte: u8) -> bool
    ensures { result ≡ is_name_byte byte }
{
    matches!(byte, b'a'..=b'z' | b'0'..=b'9' | b'_')
}

/// Whether a field is a name: a lower case letter, and then up to 31 lower case letters, digits or `_`.
pub fn is_name(field: &[u8]) -> bool
    ensures rule { IsTrue result ↔ IsName field.now }
    // The same, as the readers of lines compute it.
    ensures test { result ≡ is_name field.now }
{
    match field {
        [first, rest @ ..] => {
            first.is_ascii_lowercase()
                && rest.len() <= 31
                && rest.iter().all(|byte| is_name_byte(*byte))
        }
        [] => false,
    }
}

/// Whether digits have neither a sign nor a zero too many in front.
fn is_canonical(digits: &[u8]) -> bool
    ensures { result ≡ is_canonical digits.now }
{
    match digits {
        [first] => *first != b'+',
        [first, ..] => *first != b'+' && *first != b'0',
        [] => true,
    }
}

/// The number that a field is: decimal digits with no zero in front, less than 2^64.
pub fn number(field: &[u8]) -> Option<u64>
    ensures some { IfSome result (IsNumber field.now) }
    ensures none { IfNone result ((n : ℕ) → IsNumber field.now n → ⊥) }
    // The same, as the readers of lines compute it.
    ensures value { result ≡ number_of field.now }
{
    if !is_canonical(field) {
        return None;
    }
    let Ok(digits) = str::from_utf8(field) else {
        return None;
    };
    let Ok(number) = digits.parse::<u64>() else {
        return None;
    };
    Some(number)
}
