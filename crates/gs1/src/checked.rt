//! Element strings whose values are those that the table of identifiers allows.
ghost use Rattle.std.specs.Prelude.{◌≡◌, None, Err, IfOk, OnOk, IfErr};
ghost use Rattle.gs1.specs.Elements.{written_elements, bracketed};
ghost use Rattle.gs1.specs.Reader.{FindsOnly, AreSymbolData};
ghost use Rattle.gs1.specs.Values.{text_error, IsRefusedByTable};
ghost use Rattle.gs1.specs.Checked.{AreAllowedElements, IsRefusedStringByTable, IsAllowedFirst};
ghost use Rattle.gs1.specs.Checked.{BeginsWithError, no_element_error};
ghost use Rattle.qrcode_bits.specs.Contents.{AreElements};

use crate::dates::two_digits;
use crate::identifiers::{identifier_length, prefix};
use crate::refusal::CheckError;
use crate::strings::{behind_first, first_element};
use crate::values::{check_element, check_text};
use crate::write::string_of;
use gs1_base::cuts::behind;
use std::alloc::Global;

/// Returns the element string of a text such as `(01)09506000134352(10)ABC123`, as
/// `element_string` does, if the table of identifiers allows each element: its identifier is
/// assigned, and its value has the components of this identifier, each of the right characters and
/// length, with the right check digit, a date that there is, and so on (GS1 General Specifications,
/// release 25 of 2025, "GS1 Application Identifier definitions").
///
/// # Errors
///
/// `NoElements` if the text does not begin with an opening bracket, else the fault of the first
/// element that has one. An element is checked in this order: `InvalidIdentifier` (not two to four
/// digits), `UnknownIdentifier` (the table does not have it) and `WrongValue`, whose reason is the
/// first fault of the value from the left. A component is checked in this order: its length
/// (`TooShort`), its characters (`WrongCharacter`), and what else it has to satisfy; characters
/// after the last component are `TooLong`. `OutOfMemory` if the text has no fault and an
/// allocation failed.
pub fn checked_element_string(alloc: Global, text: &str) -> Result<Vec<u8>, CheckError>
    // The text writes the elements, and a reader finds them.
    ensures written { OnOk result (bracketed (written_elements text.now) ≡ text.now) }
    ensures found { IfOk result (λ bytes. FindsOnly bytes.items (written_elements text.now)) }
    ensures data { IfOk result (λ bytes. AreSymbolData bytes.items) }
    // The encoder takes all of its bytes.
    ensures elements { IfOk result (λ bytes. AreElements bytes.items) }

    ensures allowed { OnOk result (text_error text.now ≡ None) }
    ensures refusal { IfErr result (IsRefusedByTable text.now) }
{
    let text = text.as_bytes();
    check_text(text)?;
    let bytes = string_of(alloc, behind(text, 0))?;
    Ok(bytes)
}

/// Checks an element string without brackets, such as `010950600013435210ABC`, as
/// `check_element_string` does, and each element by the table of identifiers.
///
/// # Errors
///
/// `NoElements` if there are no bytes, else the fault of the first element that has one. Where the
/// bytes that are left begin with no element, that is `UnknownIdentifier` with their first two
/// digits if no identifier begins with these, and `InvalidIdentifier` if they do not begin with two
/// digits, or end before the last digit of the identifier. An element is checked in the order of
/// `checked_element_string`. Nothing is allocated, so `OutOfMemory` is never returned.
pub fn check_element_values(bytes: &[u8]) -> Result<(), CheckError>
    ensures allowed { OnOk result (AreAllowedElements bytes.now) }
    ensures refusal { IfErr result (IsRefusedStringByTable bytes.now) }
    // Nothing is allocated.
    ensures memory { result ≡ Err CheckError.OutOfMemory → ⊥ }
{
    if bytes.is_empty() {
        return Err(CheckError::NoElements);
    }
    let mut rest = bytes;
    let mut element = 0;
    while !rest.is_empty() {
        check_first(element, rest)?;
        rest = behind_first(rest);
        element += 1;
    }
    Ok(())
}

/// Checks the element with which bytes begin.
fn check_first(element: usize, bytes: &[u8]) -> Result<(), CheckError>
    ensures allowed { OnOk result (IsAllowedFirst element bytes.now) }
    ensures fault { IfErr result (λ error. BeginsWithError element bytes.now error) }
{
    match first_element(bytes) {
        Some(first) => check_element(element, first.identifier, first.value),
        None => Err(no_element_error(element, bytes)),
    }
}

/// Returns why bytes begin with no element.
fn no_element_error(element: usize, bytes: &[u8]) -> CheckError
    ensures { result ≡ no_element_error element bytes.now }
{
    if prefix(bytes).is_some() && identifier_length(bytes).is_none() {
        let identifier = two_digits(bytes, 0);
        return CheckError::UnknownIdentifier {
            element,
            identifier,
        };
    }
    CheckError::InvalidIdentifier { element }
}
