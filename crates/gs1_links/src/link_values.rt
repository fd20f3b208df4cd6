//! The values of elements in links, which are written with percent-escapes.
ghost use Rattle.std.specs.Prelude.{◌≡◌, ◌<◌, ◌≤◌, None, Some, length, take, IfOk};
ghost use Rattle.std.specs.Prelude.{if◌then◌else◌};
ghost use Rattle.std.specs.Option.{option_map};
ghost use Rattle.std.specs.Result.{result_err};
ghost use Rattle.gs1_base.specs.Percent.{begins_with_byte};
ghost use Rattle.gs1.specs.Values.{element_error};
ghost use Rattle.gs1_links.specs.LinkFaults.{decoded, is_readable_link, escaped_fault, written_fault};

use crate::link_error::LinkReadError;
use gs1::values::check_element;
use gs1_base::percent::{after_byte, first_byte};
use std::alloc::{AllocError, Global};

/// The greatest length of a value.
const LONGEST_VALUE: usize = 90;

/// Returns whether a text begins with a byte that can be read.
fn begins_with_byte(text: &[u8]) -> bool
    ensures { result ≡ begins_with_byte text.now }
{
    first_byte(text).is_some()
}

/// Returns how many bytes an escaped text writes, if each can be read.
fn decoded_length(text: &[u8]) -> Option<usize>
    ensures { result
        ≡ if is_readable_link text.now then Some (length (decoded text.now)) else None }
{
    let mut rest = text;
    let mut length = 0;
    while begins_with_byte(rest) {
        rest = after_byte(rest);
        length += 1;
    }
    if !rest.is_empty() {
        return None;
    }
    Some(length)
}

/// Writes the bytes of an escaped text to the front of a buffer.
fn decode_to(text: &[u8], buffer: &mut [u8; 90])
    requires { length (decoded text.now) ≤ 90 }
    ensures { take (length (decoded text.now)) buffer.new ≡ decoded text.now }
{
    let mut rest = text;
    let mut length = 0;
    while let Some(byte) = first_byte(rest) {
        buffer[length] = byte;
        length += 1;
        rest = after_byte(rest);
    }
}

/// Returns the bytes of an escaped text, up to the first that cannot be read.
pub(crate) fn decoded(alloc: Global, text: &[u8]) -> Result<Vec<u8>, AllocError>
    ensures { IfOk result (λ bytes. bytes.items ≡ decoded text.now) }
{
    let mut bytes = Vec::new(alloc);
    let mut rest = text;
    while let Some(byte) = first_byte(rest) {
        bytes.push(byte)?;
        rest = after_byte(rest);
    }
    Ok(bytes)
}

/// Checks the length of a value that an escaped text writes, and returns it.
#[tactic(auto, unfolding(crate::specs::LinkFaults::escaped_fault))]
fn check_escaped(element: usize, text: &[u8]) -> Result<usize, LinkReadError>
    ensures fault { result_err result ≡ escaped_fault element text.now }
    ensures value { IfOk result (λ n. (n ≡ length (decoded text.now)) × (n ≤ 90)) }
{
    let Some(length) = decoded_length(text) else {
        return Err(LinkReadError::WrongEscape { element });
    };
    if LONGEST_VALUE < length {
        return Err(LinkReadError::ValueTooLong { element });
    }
    Ok(length)
}

/// Checks an element by the table.
fn check_by_table(element: usize, identifier: &[u8], value: &[u8]) -> Result<(), LinkReadError>
    ensures { result_err result ≡ option_map (λ error. LinkReadError.Elements error)
        (element_error element (record { identifier = identifier.now; value = value.now })) }
{
    match check_element(element, identifier, value) {
        Ok(()) => Ok(()),
        Err(error) => Err(LinkReadError::Elements(error)),
    }
}

/// Checks an element whose value is escaped.
pub(crate) fn check_written(
    element: usize,
    identifier: &[u8],
    text: &[u8],
) -> Result<(), LinkReadError>
    ensures { result_err result
        ≡ written_fault element (record { identifier = identifier.now; value = text.now }) }
{
    let length = check_escaped(element, text)?;
    let mut buffer = [0; LONGEST_VALUE];
    decode_to(text, &mut buffer);
    check_by_table(element, identifier, &buffer[..length])
}
