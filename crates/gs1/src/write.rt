//! The element string of elements.
ghost use Rattle.std.specs.Prelude.{◌≡◌, ◌++◌, IfOk, OnOk};
ghost use Rattle.gs1.specs.Elements.{elements_behind};
ghost use Rattle.gs1.specs.Reader.{string_of, separator_behind};

use crate::identifiers::predefined_length;
use gs1_base::cuts::{behind, first_of};
use std::alloc::{AllocError, Global};

/// The byte as which readers give FNC1 between two elements.
pub(crate) const GROUP_SEPARATOR: u8 = 0x1d;

/// Returns the element string of the elements that are written behind a first opening bracket.
pub(crate) fn string_of(alloc: Global, text: &[u8]) -> Result<Vec<u8>, AllocError>
    ensures { IfOk result (λ bytes. bytes.items ≡ string_of (elements_behind text.now)) }
{
    let mut bytes = Vec::with_capacity(alloc, text.len())?;
    let mut rest = text;
    loop {
        let end = first_of(rest, b'(');
        let part = &rest[..end];
        let close = first_of(part, b')');
        let identifier = &part[..close];
        push_element(&mut bytes, identifier, behind(part, close))?;
        if end == rest.len() {
            return Ok(bytes);
        }
        push_separator(&mut bytes, identifier)?;
        rest = behind(rest, end);
    }
}

/// Appends an identifier and a value.
fn push_element(bytes: &mut Vec<u8>, identifier: &[u8], value: &[u8]) -> Result<(), AllocError>
    ensures { OnOk result (bytes.new.items ≡ bytes.old.items ++ identifier.now ++ value.now) }
{
    bytes.extend_from_slice(identifier)?;
    bytes.extend_from_slice(value)
}

/// Appends the separator behind an element that is not the last, if it needs one.
fn push_separator(bytes: &mut Vec<u8>, identifier: &[u8]) -> Result<(), AllocError>
    ensures { OnOk result (bytes.new.items ≡ bytes.old.items ++ separator_behind identifier.now) }
{
    if predefined_length(identifier).is_none() {
        bytes.push(GROUP_SEPARATOR)?;
    }
    Ok(())
}
