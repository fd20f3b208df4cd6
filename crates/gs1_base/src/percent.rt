//! Percent-escapes, in which links write the values of elements.
ghost use Rattle.std.specs.Prelude.{◌≡◌, ◌<◌, ◌+◌, ◌*◌, ◌&&◌, ◌++◌, true, false};
ghost use Rattle.std.specs.Prelude.{IfOk, OnOk, IfErr, IfNone, IfSome};
ghost use Rattle.gs1_base.specs.Characters.{is_hexadecimal};
ghost use Rattle.gs1_base.specs.Percent.{is_unreserved, capital_digit, byte_escape, percent_text};
ghost use Rattle.gs1_base.specs.Percent.{stands_for_itself, hexadecimal_value, begins_with_byte};
ghost use Rattle.gs1_base.specs.Percent.{first_byte, after_byte, ReadsAs, IsReadableText};
ghost use Rattle.gs1_base.specs.Percent.{IsUnreadableText, IsRefusedEscapes};

use std::alloc::{AllocError, AllocFailed, Global};
use thiserror::Error;

/// Why a text is not one of bytes with percent-escapes.
#[derive(Clone, Copy, Debug, PartialEq, Eq, Error)]
pub enum PercentError {
    /// A character that stands only in an escape, or a percent sign without two hexadecimal digits.
    #[error("a character that has to be escaped, or a percent sign without two hexadecimal digits")]
    WrongCharacter,
    /// An allocation failed.
    #[error("out of memory")]
    OutOfMemory,
}

impl From<AllocError> for PercentError {
    ghost use Rattle.gs1_base.specs.declared.percent.PercentError.TheVariants.{OutOfMemory};

    ghost from_gives = { λ _ e. e ≡ OutOfMemory };

    fn from(_error: AllocError) -> PercentError {
        PercentError::OutOfMemory
    }
}

impl<T: Drop> From<AllocFailed<T>> for PercentError {
    ghost use Rattle.gs1_base.specs.declared.percent.PercentError.TheVariants.{OutOfMemory};

    ghost from_gives = { λ _ e. e ≡ OutOfMemory };

    fn from(_error: AllocFailed<T>) -> PercentError {
        PercentError::OutOfMemory
    }
}

/// Returns bytes with percent-escapes: letters, digits and `-._~` as they are, and each other byte
/// as a percent sign and two hexadecimal digits with capital letters (RFC 3986, section 2).
pub fn percent_escaped(alloc: Global, bytes: &[u8]) -> Result<Vec<u8>, AllocError>
    ensures written { IfOk result (λ text. text.items ≡ percent_text bytes.now) }
    ensures read { IfOk result (λ text. ReadsAs text.items bytes.now) }
{
    let mut text = Vec::new(alloc);
    push_escaped(&mut text, bytes)?;
    Ok(text)
}

/// Returns the bytes that a text with percent-escapes writes. Each character of paths and queries
/// stands for itself (RFC 3986, sections 3.3 and 3.4), and the letters of escapes may be small.
///
/// # Errors
///
/// `WrongCharacter` if the text has another character (`#`, a space, a byte beyond ASCII), or
/// a percent sign without two hexadecimal digits. `OutOfMemory` if it has none and an
/// allocation failed.
pub fn percent_decoded(alloc: Global, text: &[u8]) -> Result<Vec<u8>, PercentError>
    ensures read { IfOk result (λ bytes. ReadsAs text.now bytes.items) }
    ensures refusal { IfErr result (IsRefusedEscapes text.now) }
{
    let Some(length) = decoded_length(text) else {
        return Err(PercentError::WrongCharacter);
    };
    let mut bytes = Vec::with_capacity(alloc, length)?;
    let mut rest = text;
    while !rest.is_empty() {
        let Some(byte) = first_byte(rest) else {
            unreachable!()
        };
        bytes.push(byte)?;
        rest = after_byte(rest);
    }
    Ok(bytes)
}

/// Appends bytes with percent-escapes.
pub fn push_escaped(text: &mut Vec<u8>, bytes: &[u8]) -> Result<(), AllocError>
    ensures { OnOk result (text.new.items ≡ text.old.items ++ percent_text bytes.now) }
{
    for byte in bytes {
        push_escape(text, *byte)?;
    }
    Ok(())
}

/// Appends a byte, with an escape if it needs one.
#[tactic(auto, unfolding(crate::specs::Percent::byte_escape))]
fn push_escape(text: &mut Vec<u8>, byte: u8) -> Result<(), AllocError>
    ensures { OnOk result (text.new.items ≡ text.old.items ++ byte_escape byte) }
{
    if is_unreserved(byte) {
        text.push(byte)?;
        return Ok(());
    }
    text.extend_from_slice(&[b'%', capital_digit(byte / 16), capital_digit(byte % 16)])
}

/// Returns whether a byte needs no escape.
pub(crate) fn is_unreserved(byte: u8) -> bool
    ensures { result ≡ is_unreserved byte }
{
    matches!(byte, b'-' | b'.' | b'0'..=b'9' | b'A'..=b'Z' | b'_' | b'a'..=b'z' | b'~')
}

/// Returns the hexadecimal digit of a number below 16.
fn capital_digit(number: u8) -> u8
    requires { number < 16 }
    ensures { result ≡ capital_digit number }
{
    if number < 10 {
        b'0' + number
    } else {
        b'A' - 10 + number
    }
}

/// Returns how many bytes a text writes, if a reader finds bytes in it.
fn decoded_length(text: &[u8]) -> Option<usize>
    ensures some { IfSome result (λ _. IsReadableText text.now) }
    ensures none { IfNone result (IsUnreadableText text.now) }
{
    let mut length = 0;
    let mut rest = text;
    while !rest.is_empty() {
        first_byte(rest)?;
        rest = after_byte(rest);
        length += 1;
    }
    Some(length)
}

/// Returns the byte with which a text begins.
#[tactic(auto, unfolding(crate::specs::Percent::begins_with_byte, crate::specs::Percent::first_byte))]
pub fn first_byte(text: &[u8]) -> Option<u8>
    ensures some { IfSome result (λ byte. (begins_with_byte text.now ≡ true)
        × (first_byte text.now ≡ byte)) }
    ensures none { IfNone result (begins_with_byte text.now ≡ false) }
{
    match text {
        [b'%', high, low, ..] => escape_value(*high, *low),
        [byte, ..] if *byte != b'%' && stands_for_itself(*byte) => Some(*byte),
        _ => None,
    }
}

/// Returns the byte of an escape with these digits.
fn escape_value(high: u8, low: u8) -> Option<u8>
    ensures some { IfSome result (λ byte. ((is_hexadecimal high && is_hexadecimal low) ≡ true)
        × (byte ≡ 16 * hexadecimal_value high + hexadecimal_value low)) }
    ensures none { IfNone result ((is_hexadecimal high && is_hexadecimal low) ≡ false) }
{
    let high = hexadecimal_value(high)?;
    let low = hexadecimal_value(low)?;
    Some(16 * high + low)
}

/// Returns the number of a hexadecimal digit.
fn hexadecimal_value(digit: u8) -> Option<u8>
    ensures some { IfSome result (λ value. (is_hexadecimal digit ≡ true)
        × (value ≡ hexadecimal_value digit) × (value < 16)) }
    ensures none { IfNone result (is_hexadecimal digit ≡ false) }
{
    match digit {
        b'0'..=b'9' => Some(digit - b'0'),
        b'A'..=b'F' => Some(digit - b'A' + 10),
        b'a'..=b'f' => Some(digit - b'a' + 10),
        _ => None,
    }
}

/// Returns whether a character of a path or of a query stands for itself.
pub fn stands_for_itself(byte: u8) -> bool
    ensures { result ≡ stands_for_itself byte }
{
    matches!(
        byte,
        b'!' | b'$' | 0x26..=0x3b | b'=' | 0x3f..=b'Z' | b'_' | b'a'..=b'z' | b'~'
    )
}

/// Returns the text after the byte with which it begins.
#[tactic(auto, unfolding(crate::specs::Percent::after_byte))]
pub fn after_byte(text: &[u8]) -> &[u8]
    ensures { result.now ≡ after_byte text.now }
{
    match text {
        [b'%', _, _, rest @ ..] => rest,
        [b'%', ..] | [] => &[],
        [_, rest @ ..] => rest,
    }
}
