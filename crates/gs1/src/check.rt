//! The faults of a text, in the order in which they are looked for.
ghost use Rattle.std.specs.Prelude.{◌≡◌, ◌+◌, ◌≤◌, ◌==◌, length, position, not};
ghost use Rattle.std.specs.Result.{result_err};
ghost use Rattle.gs1.specs.Elements.{is_identifier, identifier_fault, length_fault, character_fault};
ghost use Rattle.gs1.specs.Elements.{digits_fault, is_value_character, element_of, fault_of};
ghost use Rattle.gs1.specs.Elements.{elements_behind, first_fault, text_fault};

use crate::error::Gs1Error;
use crate::identifiers::{
    has_check_digit, has_right_check_digit, identifier_length, is_encodable, predefined_length,
};
use gs1_base::characters::are_digits;
use gs1_base::cuts::{behind, first_of};

/// The greatest length of a value.
const LONGEST_VALUE: usize = 90;

/// Checks the identifier of an element.
#[tactic(auto, unfolding(crate::specs::Elements::identifier_fault))]
fn check_identifier(element: usize, identifier: &[u8]) -> Result<(), Gs1Error>
    ensures { result_err result ≡ identifier_fault element identifier.now }
{
    if !is_identifier(identifier) {
        return Err(Gs1Error::InvalidIdentifier { element });
    }
    if identifier_length(identifier).unwrap_or(0) != identifier.len() {
        return Err(Gs1Error::UnknownIdentifier { element });
    }
    Ok(())
}

/// Returns whether an identifier has two to four digits.
pub fn is_identifier(identifier: &[u8]) -> bool
    ensures { result ≡ is_identifier identifier.now }
{
    2 <= identifier.len() && identifier.len() <= 4 && are_digits(identifier)
}

/// Checks the length of a value.
#[tactic(auto, unfolding(crate::specs::Elements::length_fault))]
fn check_length(element: usize, value: &[u8]) -> Result<(), Gs1Error>
    ensures { result_err result ≡ length_fault element value.now }
{
    if value.is_empty() {
        return Err(Gs1Error::EmptyValue { element });
    }
    if LONGEST_VALUE < value.len() {
        return Err(Gs1Error::ValueTooLong { element });
    }
    Ok(())
}

/// Checks that each character of a value is one that it may have.
#[tactic(auto, unfolding(crate::specs::Elements::character_fault))]
fn check_characters(element: usize, identifier: &[u8], value: &[u8]) -> Result<(), Gs1Error>
    ensures { result_err result ≡ character_fault element identifier.now value.now }
{
    let is_digits = predefined_length(identifier).is_some();
    match wrong_character(is_digits, value) {
        Some(position) => {
            let byte = value[position];
            Err(Gs1Error::InvalidCharacter {
                element,
                position,
                byte,
            })
        }
        None => Ok(()),
    }
}

/// Returns the position of the first character that a value may not have.
fn wrong_character(is_digits: bool, value: &[u8]) -> Option<usize>
    ensures { result ≡ position (λ c. not (is_value_character is_digits c)) value.now }
{
    value
        .iter()
        .position(|c| !is_value_character(is_digits, *c))
}

/// Returns whether a value may have a character: a digit, or any of the 82 and `#`.
fn is_value_character(is_digits: bool, c: u8) -> bool
    ensures { result ≡ is_value_character is_digits c }
{
    if is_digits {
        matches!(c, b'0'..=b'9')
    } else {
        is_encodable(c)
    }
}

/// Checks the predefined length of an element, and its check digit.
#[tactic(auto, unfolding(crate::specs::Elements::digits_fault))]
fn check_digits(element: usize, identifier: &[u8], value: &[u8]) -> Result<(), Gs1Error>
    requires { length value.now ≤ LONGEST_VALUE }
    ensures { result_err result ≡ digits_fault element identifier.now value.now }
{
    let length = identifier.len() + value.len();
    if predefined_length(identifier).unwrap_or(length) != length {
        return Err(Gs1Error::WrongLength { element });
    }
    if has_check_digit(identifier) && !has_right_check_digit(value) {
        return Err(Gs1Error::WrongCheckDigit { element });
    }
    Ok(())
}

/// Checks the element that is written between two opening brackets.
fn check_element(element: usize, part: &[u8]) -> Result<(), Gs1Error>
    ensures { result_err result ≡ fault_of element (element_of part.now) }
{
    let close = first_of(part, b')');
    check_parts(element, &part[..close], behind(part, close))
}

/// Checks an element of this identifier and value.
#[tactic(auto, using(crate::proofs::Parts::within_longest), unfolding(crate::specs::Elements::fault_of))]
pub(crate) fn check_parts(element: usize, identifier: &[u8], value: &[u8]) -> Result<(), Gs1Error>
    ensures { result_err result
        ≡ fault_of element (record { identifier = identifier.now; value = value.now }) }
{
    check_identifier(element, identifier)?;
    check_length(element, value)?;
    check_characters(element, identifier, value)?;
    check_digits(element, identifier, value)
}

/// Checks the elements that are written behind a first opening bracket.
#[tactic(auto, using(crate::proofs::Parts::fault_last))]
fn check_elements(text: &[u8]) -> Result<(), Gs1Error>
    ensures { result_err result ≡ first_fault 0 (elements_behind text.now) }
{
    let mut rest = text;
    let mut element = 0;
    loop {
        let end = first_of(rest, b'(');
        let part = &rest[..end];
        check_element(element, part)?;
        if end == rest.len() {
            return Ok(());
        }
        rest = behind(rest, end);
        element += 1;
    }
}

/// Checks a text.
pub(crate) fn check_text(text: &[u8]) -> Result<(), Gs1Error>
    ensures { result_err result ≡ text_fault text.now }
{
    if first_of(text, b'(') != 0 || text.is_empty() {
        return Err(Gs1Error::NoElements);
    }
    check_elements(behind(text, 0))
}
