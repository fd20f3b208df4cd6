//! Why GS1 elements are refused: the error, and where the element is that has the fault.
ghost use Rattle.std.specs.Prelude.{◌≡◌};
ghost use Rattle.qrcode_c.specs.Faults.{refusal_for, value_refusal, table_refusal, link_refusal};
ghost use Rattle.qrcode_c.specs.Faults.{counted, identifier_argument, reason_argument, nowhere};
ghost use Rattle.qrcode_c.specs.Faults.{at_element, fault_place, link_place_of};
ghost use Rattle.qrcode_c.specs.Faults.{together_refusal, together_place_of};

use crate::refusal::Refusal;
use gs1::{CheckError, Gs1Error, Reason, TogetherError};
use gs1_links::LinkError;

/// Where the fault of a text of elements is, and its reason.
#[repr(C)]
#[derive(Clone, Copy, Debug, PartialEq, Eq)]
pub struct ElementFault {
    /// The number of the element, from 1, or 0 if the fault is none of an element.
    pub element: usize,
    /// The character of the value, from 1, or 0 if the fault is none of a value.
    pub character: usize,
    /// The identifier of the element as a number, or -1 if it is not known.
    pub identifier: i32,
    /// The number of the reason for which a value is wrong, from 1 in the order of `gs1::Reason`,
    /// or 0.
    pub reason: i32,
}

/// Returns the error that tells a fault of a text, which is tested for what a reader needs.
pub fn refusal_of(error: Gs1Error) -> Refusal
    ensures { result ≡ refusal_for error }
{
    match error {
        Gs1Error::NoElements => Refusal::NoElements,
        Gs1Error::InvalidIdentifier { .. } => Refusal::InvalidIdentifier,
        Gs1Error::UnknownIdentifier { .. } => Refusal::UnknownIdentifier,
        Gs1Error::EmptyValue { .. } => Refusal::EmptyValue,
        Gs1Error::ValueTooLong { .. } => Refusal::ValueTooLong,
        Gs1Error::InvalidCharacter { .. } => Refusal::InvalidCharacter,
        Gs1Error::WrongLength { .. } => Refusal::WrongLength,
        Gs1Error::WrongCheckDigit { .. } => Refusal::WrongCheckDigit,
        Gs1Error::OutOfMemory => Refusal::OutOfMemory,
    }
}

/// Returns the error that tells a fault at a place of a value.
fn value_refusal(place: usize, reason: Reason) -> Refusal
    ensures { result ≡ value_refusal place reason }
{
    match reason {
        Reason::TooShort => {
            if place == 0 {
                Refusal::EmptyValue
            } else {
                Refusal::WrongLength
            }
        }
        Reason::TooLong => Refusal::ValueTooLong,
        Reason::WrongCharacter { .. } => Refusal::InvalidCharacter,
        Reason::WrongCheckDigit { .. } | Reason::WrongCheckPair { .. } => Refusal::WrongCheckDigit,
        _ => Refusal::WrongValue,
    }
}

/// Returns the error that tells a fault by the table of identifiers.
pub fn table_refusal(error: CheckError) -> Refusal
    ensures { result ≡ table_refusal error }
{
    match error {
        CheckError::NoElements => Refusal::NoElements,
        CheckError::InvalidIdentifier { .. } => Refusal::InvalidIdentifier,
        CheckError::UnknownIdentifier { .. } => Refusal::UnknownIdentifier,
        CheckError::WrongValue { place, reason, .. } => value_refusal(place, reason),
        CheckError::OutOfMemory => Refusal::OutOfMemory,
    }
}

/// Returns the error that tells why elements may not stand together.
pub fn together_refusal(error: TogetherError) -> Refusal
    ensures { result ≡ together_refusal error }
{
    match error {
        TogetherError::TextTooLong => Refusal::DataTooLong,
        TogetherError::MissingElement { .. } => Refusal::MissingElement,
        TogetherError::ConflictingElement { .. } => Refusal::ConflictingElement,
    }
}

/// Returns the error that tells why there is no link.
pub fn link_refusal(error: LinkError) -> Refusal
    ensures { result ≡ link_refusal error }
{
    match error {
        LinkError::TextTooLong => Refusal::DataTooLong,
        LinkError::Elements(error) => table_refusal(error),
        LinkError::WrongDomain => Refusal::WrongDomain,
        LinkError::NoKey => Refusal::NoKey,
        LinkError::SecondKey { .. } => Refusal::SecondKey,
        LinkError::WrongQualifier { .. } => Refusal::WrongQualifier,
        LinkError::RepeatedElement { .. } => Refusal::RepeatedElement,
        LinkError::Together(error) => together_refusal(error),
        LinkError::OutOfMemory => Refusal::OutOfMemory,
    }
}

/// Returns the number of a reason.
fn reason_number(reason: Reason) -> i32
    ensures { result ≡ reason_argument reason }
{
    match reason {
        Reason::TooShort => 1,
        Reason::TooLong => 2,
        Reason::WrongCharacter { .. } => 3,
        Reason::WrongCheckDigit { .. } => 4,
        Reason::WrongCheckPair { .. } => 5,
        Reason::NoCompanyPrefix => 6,
        Reason::WrongMonth => 7,
        Reason::WrongDay => 8,
        Reason::WrongHour => 9,
        Reason::WrongMinute => 10,
        Reason::WrongSecond => 11,
        Reason::WrongCountry => 12,
        Reason::WrongCurrency => 13,
        Reason::WrongFlag => 14,
        Reason::WrongPiece => 15,
        Reason::WrongWinding => 16,
        Reason::NoZero => 17,
        Reason::OnlyZeros => 18,
        Reason::LeadingZero => 19,
        Reason::WrongEscape => 20,
        Reason::WrongLatitude => 21,
        Reason::WrongLongitude => 22,
        Reason::NoMinus => 23,
        Reason::WrongMedia => 24,
        Reason::WrongSex => 25,
        Reason::WrongSequence => 26,
        Reason::WrongIban => 27,
        Reason::WrongImporter => 28,
    }
}

/// Returns a number counted from 1 that is counted from 0.
fn counted(number: usize) -> usize
    ensures { result ≡ counted number }
{
    number.saturating_add(1)
}

/// Returns the number of an identifier for C.
fn identifier_number(identifier: usize) -> i32
    ensures { result ≡ identifier_argument identifier }
{
    if identifier < 10000 {
        identifier as i32
    } else {
        -1
    }
}

/// Returns no place: that of a fault of no element.
pub fn nowhere() -> ElementFault
    ensures { result ≡ nowhere }
{
    ElementFault {
        element: 0,
        character: 0,
        identifier: -1,
        reason: 0,
    }
}

/// Returns the place of an element.
fn at_element(element: usize, identifier: i32) -> ElementFault
    ensures { result ≡ at_element element identifier }
{
    ElementFault {
        element: counted(element),
        character: 0,
        identifier,
        reason: 0,
    }
}

/// Returns where a fault by the table of identifiers is.
pub fn place_of(error: CheckError) -> ElementFault
    ensures { result ≡ fault_place error }
{
    match error {
        CheckError::InvalidIdentifier { element } => at_element(element, -1),
        CheckError::UnknownIdentifier {
            element,
            identifier,
        } => at_element(element, identifier_number(identifier)),
        CheckError::WrongValue {
            element,
            identifier,
            place,
            reason,
        } => ElementFault {
            element: counted(element),
            character: counted(place),
            identifier: identifier_number(identifier),
            reason: reason_number(reason),
        },
        CheckError::NoElements | CheckError::OutOfMemory => nowhere(),
    }
}

/// Returns where the element is that may not stand beside the others.
pub fn together_place_of(error: TogetherError) -> ElementFault
    ensures { result ≡ together_place_of error }
{
    match error {
        TogetherError::MissingElement {
            element,
            identifier,
        } => at_element(element, identifier_number(identifier)),
        TogetherError::ConflictingElement {
            element,
            identifier,
            ..
        } => at_element(element, identifier_number(identifier)),
        TogetherError::TextTooLong => nowhere(),
    }
}

/// Returns where the fault is for which there is no link.
pub fn link_place_of(error: LinkError) -> ElementFault
    ensures { result ≡ link_place_of error }
{
    match error {
        LinkError::Elements(error) => place_of(error),
        LinkError::SecondKey { element } => at_element(element, -1),
        LinkError::WrongQualifier {
            element,
            identifier,
        } => at_element(element, identifier_number(identifier)),
        LinkError::RepeatedElement {
            element,
            identifier,
        } => at_element(element, identifier_number(identifier)),
        LinkError::Together(error) => together_place_of(error),
        LinkError::TextTooLong | LinkError::WrongDomain => nowhere(),
        LinkError::NoKey | LinkError::OutOfMemory => nowhere(),
    }
}
