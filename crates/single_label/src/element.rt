//! What is wrong with a GS1 element, and which it is.
ghost use Rattle.std.specs.Prelude.{◌≡◌, Some, None};
ghost use Rattle.single_label.specs.Faults.{element_number, digits_of, IsDigitFor, IsNamedBy};
ghost use Rattle.single_label.specs.Faults.{IsWrittenAt, IsFoundAt, IsFaultIn};
ghost use Rattle.single_label.specs.Element.{given_element};

use crate::stop::ElementStop;
use gs1::{Element, Gs1Error, read_element, right_check_digit, written_element};

/// Returns the number of the element at fault, counted from 0, if it is one element's.
pub fn element_number(error: Gs1Error) -> Option<usize>
    ensures { result ≡ element_number error }
{
    match error {
        Gs1Error::InvalidIdentifier { element } => Some(element),
        Gs1Error::UnknownIdentifier { element } => Some(element),
        Gs1Error::EmptyValue { element } => Some(element),
        Gs1Error::ValueTooLong { element } => Some(element),
        Gs1Error::InvalidCharacter { element, .. } => Some(element),
        Gs1Error::WrongLength { element } => Some(element),
        Gs1Error::WrongCheckDigit { element } => Some(element),
        Gs1Error::NoElements | Gs1Error::OutOfMemory => None,
    }
}

/// Returns the digits of an identifier, and zeros (not `b'0'`) after them. There are only zeros if
/// it is not two to four digits.
fn digits_of(identifier: &[u8]) -> [u8; 4]
    ensures { result ≡ digits_of identifier.now }
{
    if !identifier.iter().all(|byte| byte.is_ascii_digit()) {
        return [0; 4];
    }
    match identifier {
        [a, b] => [*a, *b, 0, 0],
        [a, b, c] => [*a, *b, *c, 0],
        [a, b, c, d] => [*a, *b, *c, *d],
        _ => [0; 4],
    }
}

/// Returns the check digit that a value should end with, if it ends with a wrong one, else 0.
fn digit_for(error: Gs1Error, value: &[u8]) -> u8
    ensures { IsDigitFor error value.now result }
{
    match error {
        Gs1Error::WrongCheckDigit { .. } => match right_check_digit(value) {
            Some(digit) => digit,
            None => 0,
        },
        Gs1Error::NoElements | Gs1Error::OutOfMemory => 0,
        Gs1Error::InvalidIdentifier { .. } | Gs1Error::UnknownIdentifier { .. } => 0,
        Gs1Error::EmptyValue { .. } | Gs1Error::ValueTooLong { .. } => 0,
        Gs1Error::InvalidCharacter { .. } | Gs1Error::WrongLength { .. } => 0,
    }
}

/// Returns an error with the identifier of its element, and with the right check digit.
fn named(error: Gs1Error, element: Element) -> ElementStop
    ensures error { result.error ≡ error }
    ensures named { IsNamedBy (Some (given_element element.entry)) result }
{
    ElementStop {
        error,
        identifier: digits_of(element.identifier),
        digit: digit_for(error, element.value),
    }
}

/// Returns an error that is not one element's, or whose element is not found.
fn unnamed(error: Gs1Error) -> ElementStop
    ensures error { result.error ≡ error }
    ensures named { IsNamedBy None result }
{
    ElementStop {
        error,
        identifier: [0; 4],
        digit: 0,
    }
}

/// Returns an error of a bracketed text with the element that has it.
pub fn written_stop(error: Gs1Error, text: &[u8]) -> ElementStop
    ensures error { result.error ≡ error }
    ensures named { IsFaultIn (IsWrittenAt text.now error) result }
{
    match element_number(error) {
        Some(number) => match written_element(text, number) {
            Some(element) => named(error, element),
            None => unnamed(error),
        },
        None => unnamed(error),
    }
}

/// Returns an error of an element string with the element that has it.
pub fn read_stop(error: Gs1Error, bytes: &[u8]) -> ElementStop
    ensures error { result.error ≡ error }
    ensures named { IsFaultIn (IsFoundAt bytes.now error) result }
{
    match element_number(error) {
        Some(number) => match read_element(bytes, number) {
            Some(element) => named(error, element),
            None => unnamed(error),
        },
        None => unnamed(error),
    }
}
