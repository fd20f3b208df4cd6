//! Element strings without brackets, cut as a reader cuts them.
ghost use Rattle.std.specs.Prelude.{◌≡◌, ◌+◌, length, Some, None, Err, IfSome, IfNone};
ghost use Rattle.std.specs.Prelude.{OnOk, IfErr, slice_get};
ghost use Rattle.gs1.specs.Elements.{element_of, written_elements};
ghost use Rattle.gs1.specs.Reader.{BeginsWith, first_text, behind_first};
ghost use Rattle.gs1.specs.Strings.{FindsAt, FindsNoneAt, AreFaultless, IsRefusedString};
ghost use Rattle.gs1.specs.Strings.{BeginsWithNone, BeginsWithFault, no_element_fault};
ghost use Rattle.gs1.specs.Strings.{IsSoundFirst};

use crate::check::check_parts;
use crate::error::Gs1Error;
use crate::identifiers::{identifier_length, predefined_length, prefix};
use crate::write::GROUP_SEPARATOR;
use gs1_base::cuts::{behind, first_of};

/// An element as it stands in a text or in an element string: its identifier and its value.
#[derive(Clone, Copy, Debug, PartialEq, Eq)]
pub struct Element<'a> {
    /// The bytes of the identifier, which are digits in an element without a fault.
    pub identifier: &'a [u8],
    /// The bytes of the value.
    pub value: &'a [u8],
}

/// Checks an element string without brackets, such as `010950600013435210ABC`: a reader finds
/// elements in it, at least one, and no others, and none of them has a fault (GS1 General
/// Specifications, "Processing of data from a GS1 symbology using GS1 Application Identifiers").
///
/// An element of predefined length ends there; any other ends before the next separator 1D (hex),
/// which may also be the last byte, or at the end. Separators elsewhere begin no identifier. The
/// encoder, `Symbol::elements` of `qrcode_core`, takes none as the last byte.
///
/// # Errors
///
/// `NoElements` if there are no bytes, else the fault of the first element that has one. Where the
/// bytes that are left begin with no element, that is `UnknownIdentifier` if they begin with two
/// digits with which no identifier is assigned, and `InvalidIdentifier` if they do not begin with
/// two digits, or end before the last digit of the identifier. An element is checked in the order
/// of `element_string`: `InvalidIdentifier`, `EmptyValue`, `ValueTooLong`, `InvalidCharacter`,
/// `WrongLength` (also where the bytes end too early) and `WrongCheckDigit`. Nothing is allocated,
/// so `OutOfMemory` is never returned.
pub fn check_element_string(bytes: &[u8]) -> Result<(), Gs1Error>
    ensures faultless { OnOk result (AreFaultless bytes.now) }
    ensures refusal { IfErr result (IsRefusedString bytes.now) }
    // Nothing is allocated.
    ensures memory { result ≡ Err Gs1Error.OutOfMemory → ⊥ }
{
    if bytes.is_empty() {
        return Err(Gs1Error::NoElements);
    }
    let mut rest = bytes;
    let mut element = 0;
    while !rest.is_empty() {
        check_first(element, rest)?;
        rest = behind_first(rest);
        element += 1;
    }
    Ok(())
}

/// Returns the element of this number, counted from 0, that a reader finds in an element string, or
/// `None` if it finds no more than `number` of them before the end, or before bytes that begin with
/// no element. The element may have a fault, such as a value that is cut short.
pub fn read_element<'a>(bytes: &'a [u8], number: usize) -> Option<Element<'a>>
    ensures found { IfSome result (λ e. FindsAt bytes.now number
        (record { identifier = e.identifier.now; value = e.value.now })) }
    ensures none { IfNone result (FindsNoneAt bytes.now number) }
{
    let mut left = bytes;
    for _ in 0..number {
        first_element(left)?;
        left = behind_first(left);
    }
    first_element(left)
}

/// Returns the element of this number, counted from 0, that a text such as
/// `(01)09506000134352(10)ABC` writes, or `None` if it writes no more than `number`. The first byte
/// is taken for the first opening bracket, and each further one begins another element. The element
/// may have a fault, such as a missing closing bracket: all is identifier then.
pub fn written_element<'a>(text: &'a [u8], number: usize) -> Option<Element<'a>>
    ensures written { IfSome result (λ e. slice_get (written_elements text.now) number
        ≡ Some (record { identifier = e.identifier.now; value = e.value.now })) }
    ensures none { IfNone result (slice_get (written_elements text.now) number ≡ None) }
{
    let mut rest = behind(text, 0);
    for _ in 0..number {
        let end = first_of(rest, b'(');
        if end == rest.len() {
            return None;
        }
        rest = behind(rest, end);
    }
    let end = first_of(rest, b'(');
    Some(element_of(&rest[..end]))
}

/// Returns the element that is written between two opening brackets.
pub fn element_of<'a>(part: &'a [u8]) -> Element<'a>
    ensures { element_of part.now
        ≡ record { identifier = result.identifier.now; value = result.value.now } }
{
    let close = first_of(part, b')');
    Element {
        identifier: &part[..close],
        value: behind(part, close),
    }
}

/// Checks the element with which bytes begin.
fn check_first(element: usize, bytes: &[u8]) -> Result<(), Gs1Error>
    ensures sound { OnOk result (IsSoundFirst element bytes.now) }
    ensures fault { IfErr result (λ fault. BeginsWithFault element bytes.now fault) }
{
    match first_element(bytes) {
        Some(first) => check_parts(element, first.identifier, first.value),
        None => Err(no_element_fault(element, bytes)),
    }
}

/// Returns why bytes begin with no element.
fn no_element_fault(element: usize, bytes: &[u8]) -> Gs1Error
    ensures { result ≡ no_element_fault element bytes.now }
{
    if prefix(bytes).is_some() && identifier_length(bytes).is_none() {
        return Gs1Error::UnknownIdentifier { element };
    }
    Gs1Error::InvalidIdentifier { element }
}

/// Returns the element with which bytes begin.
pub(crate) fn first_element<'a>(bytes: &'a [u8]) -> Option<Element<'a>>
    ensures begins { IfSome result (λ e. BeginsWith bytes.now
        (record { identifier = e.identifier.now; value = e.value.now })) }
    ensures none { IfNone result (BeginsWithNone bytes.now) }
{
    let length = identifier_length(bytes)?;
    let text = first_text(bytes);
    let (identifier, value) = text.split_at_checked(length)?;
    Some(Element { identifier, value })
}

/// Returns the bytes of the first element: as many as are predefined, or those before the
/// first separator.
fn first_text(bytes: &[u8]) -> &[u8]
    ensures { result.now ≡ first_text bytes.now }
{
    match predefined_length(bytes) {
        Some(length) => &bytes[..length.min(bytes.len())],
        None => &bytes[..first_of(bytes, GROUP_SEPARATOR)],
    }
}

/// Returns the bytes after the first element and its separator.
pub(crate) fn behind_first(bytes: &[u8]) -> &[u8]
    ensures { result.now ≡ behind_first bytes.now }
{
    match predefined_length(bytes) {
        Some(length) => &bytes[length.min(bytes.len())..],
        None => behind(bytes, first_of(bytes, GROUP_SEPARATOR)),
    }
}
