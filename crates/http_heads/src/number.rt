//! Numbers in decimal digits, as a field tells a length (RFC 9110, 8.6).
ghost use Rattle.std.specs.Prelude.{◌≡◌, ◌≤◌, true, false, length, MatchOption};
ghost use Rattle.std.specs.Char.{is_ascii_digit};
ghost use Rattle.std.specs.List.{list_all};
ghost use Rattle.std.specs.Str.Parse.{digits_value};
ghost use Rattle.http_heads.specs.Heads.{is_number};

/// How many digits a length has at most.
const DIGITS: usize = 10;

/// The number that 1 to 10 digits spell; nothing where the text is not such digits alone.
pub fn number_of(text: &[u8]) -> Option<usize>
    ensures { MatchOption result (is_number text.now ≡ false) (λ n. (is_number text.now ≡ true) × (n ≡ digits_value 10 text.now)) }
{
    if text.is_empty() || text.len() > DIGITS || !are_digits(text) {
        return None;
    }
    Some(spelled(text))
}

// Whether each octet is a digit.
fn are_digits(text: &[u8]) -> bool
    ensures { result ≡ list_all is_ascii_digit text.now }
{
    for octet in text {
        if !octet.is_ascii_digit() {
            return false;
        }
    }
    true
}

// The number that the digits spell.
fn spelled(digits: &[u8]) -> usize
    requires few { length digits.now ≤ 10 }
    requires digits { list_all is_ascii_digit digits.now ≡ true }
    ensures { result ≡ digits_value 10 digits.now }
{
    let mut number = 0;
    for digit in digits {
        number = number * 10 + usize::from(*digit - b'0');
    }
    number
}
