//! Strings of PostScript.
ghost use Rattle.std.specs.Prelude.{◌≡◌, ◌<◌, ◌≤◌, ◌+◌, ◌/◌, ◌%◌, ◌^◌, ◌++◌, [], ◌∷◌, OnOk};
ghost use Rattle.std.specs.Prelude.{length, nat_le};
ghost use Rattle.std.specs.String.{string_bytes};
ghost use Rattle.picture_settings.specs.PostScript.{string_escape, string_text};
ghost use Rattle.picture_settings.specs.declared.bounds.TheConstants.{MAX_PS_TITLE};

use crate::bounds::MAX_PS_TITLE;
use std::alloc::AllocError;

/// Appends the bytes of a text as a string of PostScript has them. It fails only for lack
/// of memory.
pub fn push_string(out: &mut String, text: &str) -> Result<(), AllocError>
    ensures { OnOk result
        (string_bytes out.new ≡ string_bytes out.old ++ string_text text.now) }
{
    push_bytes(out, text.as_bytes())
}

/// Appends bytes as a string has them.
#[tactic(auto, using(crate::proofs::StringLemmas::strings))]
fn push_bytes(out: &mut String, bytes: &[u8]) -> Result<(), AllocError>
    ensures { OnOk result
        (string_bytes out.new ≡ string_bytes out.old ++ string_text bytes.now) }
{
    for i in 0..bytes.len() {
        push_byte(out, bytes[i])?;
    }
    Ok(())
}

/// Appends a byte, after a backslash or in octal digits where a string wants that.
fn push_byte(out: &mut String, byte: u8) -> Result<(), AllocError>
    ensures { OnOk result
        (string_bytes out.new ≡ string_bytes out.old ++ string_escape byte) }
{
    match byte {
        b'(' => out.push_str("\\("),
        b')' => out.push_str("\\)"),
        b'\\' => out.push_str("\\\\"),
        b' '..=b'~' => out.push(char::from(byte)),
        _ => push_octal(out, byte),
    }
}

/// Appends a byte as a backslash and three octal digits.
fn push_octal(out: &mut String, byte: u8) -> Result<(), AllocError>
    ensures { OnOk result (string_bytes out.new ≡ string_bytes out.old
        ++ (92 ∷ (48 + byte / 64) ∷ (48 + byte / 8 % 8) ∷ (48 + byte % 8) ∷ [])) }
{
    out.push('\\')?;
    out.push(char::from(b'0' + byte / 64))?;
    out.push(char::from(b'0' + byte / 8 % 8))?;
    out.push(char::from(b'0' + byte % 8))
}

/// Returns how many characters a byte takes in a string.
fn escape_length(byte: u8) -> usize
    ensures exact { result ≡ length (string_escape byte) }
    ensures few { result ≤ 4 }
{
    match byte {
        b'(' | b')' | b'\\' => 2,
        b' '..=b'~' => 1,
        _ => 4,
    }
}

/// Returns how many characters bytes take in a string.
#[tactic(auto, using(crate::proofs::StringLemmas::strings))]
fn text_length(bytes: &[u8]) -> usize
    requires { length bytes.now < 2 ^ 32 }
    ensures { result ≡ length (string_text bytes.now) }
{
    let mut count = 0;
    for i in 0..bytes.len() {
        count += escape_length(bytes[i]);
    }
    count
}

/// Whether a title is short enough for a line of comments.
pub(crate) fn is_short(title: &str) -> bool
    ensures { result ≡ nat_le (length (string_text title.now)) MAX_PS_TITLE }
{
    // Each byte takes a character at least.
    title.len() <= MAX_PS_TITLE && text_length(title.as_bytes()) <= MAX_PS_TITLE
}
