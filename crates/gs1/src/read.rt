//! The elements of what a scanner gives.
ghost use Rattle.std.specs.Prelude.{◌≡◌, ◌++◌, ◌∷◌, map, IfOk, OnOk, IfErr};
ghost use Rattle.gs1.specs.Elements.{bracketed};
ghost use Rattle.gs1.specs.Reader.{FindsOnly};
ghost use Rattle.gs1.specs.Checked.{AreAllowedElements};
ghost use Rattle.gs1.specs.Read.{without_symbology, without_separator, scanned};
ghost use Rattle.gs1.specs.Read.{IsRefusedScan, WritesFirst};

use crate::checked::check_element_values;
use crate::refusal::CheckError;
use crate::strings::{Element, behind_first, first_element};
use crate::write::GROUP_SEPARATOR;
use gs1_base::cuts::byte;
use std::alloc::{AllocError, Global};

/// Returns bytes without `]Q3` in front.
#[tactic(auto, unfolding(crate::specs::Read::without_symbology))]
fn without_symbology(bytes: &[u8]) -> &[u8]
    ensures { result.now ≡ without_symbology bytes.now }
{
    match bytes {
        [b']', b'Q', b'3', rest @ ..] => rest,
        _ => bytes,
    }
}

/// Returns bytes without a separator at the end.
#[tactic(auto, unfolding(crate::specs::Read::without_separator))]
fn without_separator(bytes: &[u8]) -> &[u8]
    ensures { result.now ≡ without_separator bytes.now }
{
    let last = bytes.len().saturating_sub(1);
    if byte(bytes, last) == GROUP_SEPARATOR {
        return &bytes[..last];
    }
    bytes
}

/// Returns what a scanner gives without its marks: `]Q3` in front, the symbology identifier of a QR
/// Code symbol of GS1 elements, and one separator 1D (hex) at the end.
pub fn scanned(bytes: &[u8]) -> &[u8]
    ensures { result.now ≡ scanned bytes.now }
{
    without_separator(without_symbology(bytes))
}

/// Returns the elements of what a scanner gives, such as `]Q3010950600013435210ABC`, with or
/// without the marks that `scanned` leaves out: those that a reader finds, in their order, if the
/// table of identifiers allows each. Nothing is allocated before all is tested.
///
/// # Errors
///
/// Those of `check_element_values`, which speak of the bytes without the marks, and `OutOfMemory`
/// if it has none and an allocation failed.
pub fn elements_of<'a>(alloc: Global, bytes: &'a [u8]) -> Result<Vec<Element<'a>>, CheckError>
    ensures found { IfOk result (λ elements. FindsOnly (scanned bytes.now)
        (map (λ e. record { identifier = e.identifier.now; value = e.value.now }) elements.items)) }
    ensures allowed { OnOk result (AreAllowedElements (scanned bytes.now)) }
    ensures refusal { IfErr result (IsRefusedScan (scanned bytes.now)) }
{
    let mut rest = scanned(bytes);
    check_element_values(rest)?;
    let mut elements = Vec::new(alloc);
    while !rest.is_empty() {
        let Some(first) = first_element(rest) else {
            unreachable!()
        };
        elements.push(first)?;
        rest = behind_first(rest);
    }
    Ok(elements)
}

/// Returns the text that writes elements, each identifier in brackets. Of elements that a text
/// writes, it is this text. An opening bracket in a value, which `elements_of` may return, begins
/// another element to those who read the text.
pub fn brackets<'a>(alloc: Global, elements: &[Element<'a>]) -> Result<Vec<u8>, AllocError>
    ensures { IfOk result (λ text. text.items ≡ bracketed
        (map (λ e. record { identifier = e.identifier.now; value = e.value.now }) elements.now)) }
{
    let mut text = Vec::new(alloc);
    for element in elements {
        push_brackets(&mut text, element.identifier, element.value)?;
    }
    Ok(text)
}

/// Returns the text that writes the elements which a reader finds first in an element string, each
/// identifier in brackets: all of them, unless the bytes that are left begin with no element. The
/// elements are not checked.
pub fn string_brackets(alloc: Global, bytes: &[u8]) -> Result<Vec<u8>, AllocError>
    ensures { IfOk result (λ text. WritesFirst bytes.now text.items) }
{
    let mut elements = Vec::new(alloc);
    let mut rest = bytes;
    while let Some(first) = first_element(rest) {
        elements.push(first)?;
        rest = behind_first(rest);
    }
    brackets(alloc, elements.as_slice())
}

/// Appends an element in brackets.
fn push_brackets(text: &mut Vec<u8>, identifier: &[u8], value: &[u8]) -> Result<(), AllocError>
    ensures { OnOk result (text.new.items
        ≡ text.old.items ++ (0x28 ∷ identifier.now ++ 0x29 ∷ value.now)) }
{
    text.push(b'(')?;
    text.extend_from_slice(identifier)?;
    text.push(b')')?;
    text.extend_from_slice(value)
}
