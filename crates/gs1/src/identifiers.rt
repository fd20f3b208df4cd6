//! GS1 Application Identifiers: lengths, characters and check digits.
ghost use Rattle.std.specs.Prelude.{◌≡◌, ◌↔◌, ◌+◌, ◌-◌, ◌%◌, ◌<◌, ◌^◌, length, IfSome, IsSome};
ghost use Rattle.gs1.specs.Identifiers.{prefix, identifier_length_of, predefined_length_of};
ghost use Rattle.gs1.specs.Identifiers.{identifier_length, predefined_length, is_encodable};
ghost use Rattle.gs1.specs.Identifiers.{is_of_82};
ghost use Rattle.gs1.specs.Identifiers.{has_check_digit, has_right_check_digit, weighted_sum};
ghost use Rattle.gs1.specs.Identifiers.{IsRightDigit, AreFewDigits};

use gs1_base::characters::are_digits;

/// The least number of digits that is too great for a check digit.
const FEW_DIGITS: usize = 0x1_0000;

/// Returns the number that the first two bytes write, if they are digits.
#[tactic(auto, unfolding(crate::specs::Identifiers::prefix))]
pub(crate) fn prefix(bytes: &[u8]) -> Option<u8>
    ensures { result ≡ prefix bytes.now }
{
    match bytes {
        [tens @ b'0'..=b'9', ones @ b'0'..=b'9', ..] => Some(10 * (tens - b'0') + (ones - b'0')),
        _ => None,
    }
}

/// Returns how many digits the identifiers have that begin with these two.
#[tactic(auto, unfolding(crate::specs::Identifiers::identifier_length_of))]
fn identifier_length_of(number: u8) -> Option<usize>
    ensures { result ≡ identifier_length_of number }
{
    match number {
        0..=4 | 10..=13 | 15..=17 | 20..=22 | 30 | 37 | 90..=99 => Some(2),
        23..=25 | 40..=42 | 71 => Some(3),
        31..=36 | 39 | 43 | 70 | 72 | 80..=82 => Some(4),
        _ => None,
    }
}

/// Returns the length of the elements whose identifiers begin with these digits, if predefined.
#[tactic(auto, unfolding(crate::specs::Identifiers::predefined_length_of))]
fn predefined_length_of(number: u8) -> Option<usize>
    ensures { result ≡ predefined_length_of number }
{
    match number {
        0 => Some(20),
        1..=3 | 41 => Some(16),
        4 => Some(18),
        11..=19 => Some(8),
        20 => Some(4),
        31..=36 => Some(10),
        _ => None,
    }
}

/// Returns the length of the identifier with which the bytes begin.
pub(crate) fn identifier_length(bytes: &[u8]) -> Option<usize>
    ensures { result ≡ identifier_length bytes.now }
{
    match prefix(bytes) {
        Some(number) => identifier_length_of(number),
        None => None,
    }
}

/// Returns the length of the element with which the bytes begin, if it is predefined.
pub(crate) fn predefined_length(bytes: &[u8]) -> Option<usize>
    ensures { result ≡ predefined_length bytes.now }
{
    match prefix(bytes) {
        Some(number) => predefined_length_of(number),
        None => None,
    }
}

/// Returns whether a byte is one of the 82 characters of most values.
pub(crate) fn is_of_82(byte: u8) -> bool
    ensures { result ≡ is_of_82 byte }
{
    matches!(byte, 0x21..=0x22 | 0x25..=0x3f | b'A'..=b'Z' | b'_' | b'a'..=b'z')
}

/// Returns whether a byte is a character of values: one of the 82, or the number sign.
pub(crate) fn is_encodable(byte: u8) -> bool
    ensures { result ≡ is_encodable byte }
{
    is_of_82(byte) || byte == b'#'
}

/// Returns whether the values of an identifier end with a check digit.
#[tactic(auto, unfolding(crate::specs::Identifiers::has_check_digit))]
pub(crate) fn has_check_digit(identifier: &[u8]) -> bool
    ensures { result ≡ has_check_digit identifier.now }
{
    matches!(
        identifier,
        [b'0', b'0'..=b'2', ..] | [b'4', b'1', b'0'..=b'7', ..]
    )
}

/// Returns the sum of digits with the weights 1 and 3 in turn from the right.
#[tactic(auto, using(crate::proofs::Digits::weighted_sum_more))]
pub(crate) fn weighted_sum(digits: &[u8]) -> usize
    requires { length digits.now < 2 ^ 16 }
    ensures { result ≡ weighted_sum digits.now }
{
    let mut sum = 0;
    for (place, digit) in digits.iter().enumerate() {
        let weight = if (digits.len() - 1 - place) % 2 == 0 {
            1
        } else {
            3
        };
        sum += weight * usize::from(digit.saturating_sub(b'0'));
    }
    sum
}

/// Returns whether digits end with their check digit.
pub(crate) fn has_right_check_digit(digits: &[u8]) -> bool
    requires { length digits.now < 2 ^ 16 }
    ensures { result ≡ has_right_check_digit digits.now }
{
    weighted_sum(digits) % 10 == 0
}

/// Returns the check digit of a value, in ASCII: the one digit with which in its last place the
/// value ends with its right check digit (GS1 General Specifications, "Standard check digit
/// calculations"). It is `b'2'` of `9506000134351`, whose last digit is wrong, and of
/// `9506000134352`. Returns `None` if the value is empty, has a character that is no digit, also in
/// the last place, or has 65536 characters or more.
pub fn right_check_digit(value: &[u8]) -> Option<u8>
    ensures right { IfSome result (λ digit. IsRightDigit value.now digit) }
    ensures digits { IsSome result ↔ AreFewDigits value.now }
{
    if FEW_DIGITS <= value.len() || !are_digits(value) {
        return None;
    }
    let last = usize::from(value.last()? - b'0');
    Some(completing_digit(weighted_sum(value) - last))
}

/// Returns the digit that makes a sum a multiple of ten.
fn completing_digit(sum: usize) -> u8
    ensures { result ≡ 0x30 + (10 - sum % 10) % 10 }
{
    b'0' + ((10 - sum % 10) % 10) as u8
}
