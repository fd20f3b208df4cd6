//! The text below the symbol of GS1 elements, or of a link of them.
ghost use Rattle.std.specs.Prelude.{◌≡◌, ◌⊎◌, ◌++◌, List, true, IfOk, IfErr, OnOk};
ghost use Rattle.std.specs.Option.{option_copied, option_map};
ghost use Rattle.std.specs.Str.{IsUtf8};
ghost use Rattle.std.specs.String.{string_bytes};
ghost use Rattle.gs1.specs.Checked.{AreAllowedElements};
ghost use Rattle.gs1.specs.Elements.{Element as SpecElement, bracketed};
ghost use Rattle.gs1.specs.Reader.{FindsOnly};
ghost use Rattle.gs1.specs.Strings.{AreFaultless};
ghost use Rattle.label_words.specs.Choices.{has_elements};
ghost use Rattle.single_label.specs.Captions.{AreBracketed, IsCaption, IsSoundText, is_written};
ghost use Rattle.single_label.specs.Captions.{after_newline, at_elements, element_lines};
ghost use Rattle.single_label.specs.Details.{IsDetailsStopOf};

use crate::apart::has_bracket;
use crate::content::{is_bracketed, utf8_of};
use crate::stop::Stop;
use gs1::string_brackets;
use label_words::{Content, Label};
use std::alloc::{AllocError, Global};

/// Whether a content is of GS1 elements: them, or the link of them.
fn has_elements(content: Content) -> bool
    ensures { result ≡ has_elements content }
{
    match content {
        Content::Gs1 | Content::UncheckedGs1 | Content::Link => true,
        Content::Auto | Content::Text => false,
        Content::Bytes | Content::BytesWithoutKanji => false,
        Content::Micro | Content::MicroBytes => false,
    }
}

/// Whether the text of a content is written in brackets, as that of a link always is.
fn is_written(content: Content, text: &[u8]) -> bool
    ensures { result ≡ is_written content text.now }
{
    content == Content::Link || is_bracketed(text)
}

/// Returns bytes in UTF-8 as a text. It fails only for lack of memory.
fn utf8_text(alloc: Global, bytes: &[u8]) -> Result<String, AllocError>
    requires { IsUtf8 bytes.now }
    ensures { IfOk result (λ text. string_bytes text ≡ bytes.now) }
{
    match str::from_utf8(bytes) {
        Ok(text) => String::from_str(alloc, text),
        Err(_) => unreachable!(),
    }
}

/// Returns the elements of an element string, each identifier in brackets. It fails only for lack
/// of memory.
fn read_text(alloc: Global, bytes: &[u8]) -> Result<String, AllocError>
    requires { AreAllowedElements bytes.now ⊎ AreFaultless bytes.now }
    ensures { IfOk result (λ text. (elements : List SpecElement)
        × FindsOnly bytes.now elements × (string_bytes text ≡ bracketed elements)) }
{
    let text = string_brackets(alloc, bytes)?;
    utf8_text(alloc, &text)
}

/// Returns the elements of a text of which there is a symbol, each identifier in brackets. It fails
/// as `utf8_of` does, and for lack of memory.
fn bracketed_text(alloc: Global, content: Content, text: &[u8]) -> Result<String, Stop>
    requires elements { has_elements content ≡ true }
    requires sound { IsSoundText content text.now }
    ensures bracketed { IfOk result (λ written.
        AreBracketed content text.now (string_bytes written)) }
    ensures refusal { IfErr result (IsDetailsStopOf content text.now) }
{
    if is_written(content, text) {
        let text = utf8_of(text)?;
        return Ok(String::from_str(alloc, text)?);
    }
    Ok(read_text(alloc, text)?)
}

/// Returns a text with a newline before each opening bracket, which begins an element. It fails only
/// for lack of memory.
#[tactic(auto, unfolding(crate::specs::Captions::element_lines))]
fn element_lines(alloc: Global, text: &str) -> Result<String, AllocError>
    ensures { IfOk result (λ lines. string_bytes lines ≡ element_lines text.now) }
{
    let mut lines = String::new(alloc);
    for c in text.chars() {
        push_character(&mut lines, c)?;
    }
    Ok(lines)
}

/// Appends a character, an opening bracket after a newline.
fn push_character(lines: &mut String, c: char) -> Result<(), AllocError>
    ensures { OnOk result
        (string_bytes lines.new ≡ string_bytes lines.old ++ after_newline c) }
{
    if c == '(' {
        lines.push('\n')?;
    }
    lines.push(c)
}

/// Returns the elements of a text with a newline before each, unless a value of an element string
/// has an opening bracket. It fails only for lack of memory.
fn broken_at_elements(
    alloc: Global,
    content: Content,
    text: &[u8],
    elements: String,
) -> Result<String, AllocError>
    ensures { IfOk result (λ lines.
        string_bytes lines ≡ at_elements content text.now (string_bytes elements)) }
{
    if is_written(content, text) || !has_bracket(text) {
        return element_lines(alloc, &elements);
    }
    Ok(elements)
}

/// Returns the text below the symbol of a text: its elements, if they are asked for and the content
/// is of elements, each on a line of its own. An element string with an opening bracket in a value
/// is one line. It fails as `bracketed_text` does.
pub fn caption_of(alloc: Global, label: &Label, text: &[u8]) -> Result<Option<String>, Stop>
    requires { IsSoundText label.now.content text.now }
    ensures caption { IfOk result (λ caption.
        IsCaption label.now text.now (option_map string_bytes caption)) }
    ensures refusal { IfErr result (IsDetailsStopOf label.now.content text.now) }
{
    if !(label.hri && has_elements(label.content)) {
        return Ok(None);
    }
    let elements = bracketed_text(alloc, label.content, text)?;
    Ok(Some(broken_at_elements(alloc, label.content, text, elements)?))
}

/// Returns the text, if there is one.
pub fn text_in(text: &Option<String>) -> Option<&str>
    ensures { option_copied result ≡ option_map string_bytes text.now }
{
    match text {
        Some(text) => Some(text.as_str()),
        None => None,
    }
}
