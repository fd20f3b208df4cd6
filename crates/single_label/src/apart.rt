//! GS1 elements that may not stand together, and the marks of what a scanner gives.
ghost use Rattle.std.specs.Prelude.{◌≡◌, ◌≤◌, length, IfOk, IfErr, OnOk};
ghost use Rattle.single_label.specs.Contents.{has_bracket, IsTextOfBytes, StandTogether, IsApart};
ghost use Rattle.single_label.specs.Contents.{without_marks, IsShownOf};

use crate::content::{content_of, is_bracketed};
use crate::stop::Stop;
use gs1::{check_together, scanned, string_brackets};
use gs1_links::LinkError;
use label_words::Content;
use std::alloc::{AllocError, Global};

/// Returns the text of elements: as it is given in brackets, or of those that a reader finds first
/// in an element string. It fails only for lack of memory.
pub fn elements_text(alloc: Global, bytes: &[u8]) -> Result<Vec<u8>, AllocError>
    ensures { IfOk result (λ text. IsTextOfBytes bytes.now text.items) }
{
    if !is_bracketed(bytes) {
        return string_brackets(alloc, bytes);
    }
    let mut text = Vec::new(alloc);
    text.extend_from_slice(bytes)?;
    Ok(text)
}

/// Whether a value has an opening bracket, which begins an element in a text.
pub fn has_bracket(bytes: &[u8]) -> bool
    ensures { result ≡ has_bracket bytes.now }
{
    bytes.iter().any(|byte| *byte == b'(')
}

/// Checks that GS1 elements may stand together, as `check_together` does. Of an element string with
/// an opening bracket in a value this is not tested. It fails with `NoLink`, and for lack of memory.
pub fn check_apart(alloc: Global, bytes: &[u8]) -> Result<(), Stop>
    ensures together { OnOk result (StandTogether bytes.now) }
    ensures refusal { IfErr result (IsApart bytes.now) }
{
    if !is_bracketed(bytes) && has_bracket(bytes) {
        return Ok(());
    }
    let text = elements_text(alloc, bytes)?;
    let Ok(text) = str::from_utf8(&text) else {
        return Ok(());
    };
    match check_together(text) {
        Ok(()) => Ok(()),
        Err(error) => Err(Stop::NoLink(LinkError::Together(error))),
    }
}

/// Returns what of a content is drawn: of GS1 elements that a scanner gives, what stands between
/// its marks, `]Q3` in front and a separator at the end.
fn without_marks(content: Content, bytes: &[u8]) -> &[u8]
    ensures unmarked { result.now ≡ without_marks content bytes.now }
    ensures shorter { length result.now ≤ length bytes.now }
{
    match content {
        Content::Gs1 | Content::UncheckedGs1 if !is_bracketed(bytes) => scanned(bytes),
        _ => bytes,
    }
}

/// Returns what of the bytes a label shows: of a text that is trimmed, not its byte order mark and its
/// newline, and of GS1 elements not the marks of a scanner.
pub fn shown_of(trims: bool, content: Content, bytes: &[u8]) -> &[u8]
    ensures shown { IsShownOf trims content bytes.now result.now }
    ensures shorter { length result.now ≤ length bytes.now }
{
    without_marks(content, content_of(trims, bytes))
}
