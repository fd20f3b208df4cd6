//! The symbol of GS1 elements the other way: of elements as a link, and of a link as elements.
ghost use Rattle.std.specs.Prelude.{◌≡◌, ℕ, ◌++◌, ◌∷◌, [], List, map, IfOk, OnOk};
ghost use Rattle.std.specs.Option.{option_copied};
ghost use Rattle.std.specs.String.{string_bytes};
ghost use Rattle.gs1.specs.Elements.{bracketed};
ghost use Rattle.single_label.specs.Contents.{is_memory};
ghost use Rattle.single_label.specs.OtherWays.{IsOtherOutcome, IsLinkOutcome};
ghost use Rattle.single_label.specs.OtherWays.{IsElementsOutcome};
ghost use Rattle.single_label.specs.Details.{IsAsElementsText, IsAsLinkText, IsOtherText};
ghost use Rattle.single_label.specs.Details.{IsOtherWayText, outcome_text};

use crate::apart::elements_text;
use crate::content::content_symbol;
use crate::details::push_version;
use crate::label::is_too_long;
use crate::stop::Stop;
use gs1_links::{LinkElement, LinkError, LinkReadError, digital_link, elements_of_link};
use label_words::{Content, Label};
use programs::Fault;
use qrcode_core::options::SymbolOptions;
use qrcode_core::traits::QrSymbol;
use qrcode_core::types::{QrError, Version};
use std::alloc::{AllocError, Global};

/// How the symbol of data comes out.
#[derive(Clone, Copy, Debug, PartialEq, Eq)]
pub enum Outcome {
    /// It has this version.
    Drawn(Version),
    /// The data are too long.
    TooLong,
    /// There is none for another reason.
    Nothing,
}

/// Whether memory ran out.
fn is_memory(stop: Stop) -> bool
    ensures { result ≡ is_memory stop }
{
    match stop {
        Stop::Fault(fault) => fault == Fault::Symbol(QrError::OutOfMemory),
        Stop::Elements(_) | Stop::NotAllowed(_) | Stop::NoLink(_) => false,
        Stop::Empty | Stop::NoMicroText | Stop::TooLong(_) => false,
        Stop::TooManyParts | Stop::TooManyPages => false,
    }
}

/// Returns how the symbol of the bytes of a content comes out. It fails only for lack of memory.
fn outcome_of(
    alloc: Global,
    content: Content,
    options: &SymbolOptions,
    bytes: &[u8],
) -> Result<Outcome, AllocError>
    ensures { IfOk result (IsOtherOutcome content options.now bytes.now) }
{
    match content_symbol(alloc, content, options, bytes) {
        Ok(symbol) => Ok(Outcome::Drawn(symbol.version())),
        Err(stop) if is_too_long(stop) => Ok(Outcome::TooLong),
        Err(stop) if is_memory(stop) => Err(AllocError),
        Err(_) => Ok(Outcome::Nothing),
    }
}

/// Returns how the symbol of the link of elements comes out, at the domain of the label. It fails
/// only for lack of memory.
fn as_link(alloc: Global, label: &Label, bytes: &[u8]) -> Result<Outcome, AllocError>
    ensures { IfOk result (IsLinkOutcome label.now bytes.now) }
{
    let text = elements_text(alloc, bytes)?;
    let Ok(text) = str::from_utf8(&text) else {
        return Ok(Outcome::Nothing);
    };
    match digital_link(alloc, text, label.domain) {
        Ok(link) => outcome_of(alloc, Content::Link, &label.symbol, &link),
        Err(LinkError::OutOfMemory) => Err(AllocError),
        Err(_) => Ok(Outcome::Nothing),
    }
}

/// Appends an element in brackets.
fn push_element(text: &mut Vec<u8>, element: &LinkElement<'_>) -> Result<(), AllocError>
    ensures { OnOk result (text.new.items ≡ text.old.items
        ++ bracketed (record {
          identifier = element.now.identifier.now;
          value = element.now.value.items;
        } ∷ [])) }
{
    text.push(b'(')?;
    text.extend_from_slice(element.identifier)?;
    text.push(b')')?;
    text.extend_from_slice(&element.value)
}

/// Returns the text of the elements of a link. It fails only for lack of memory.
fn link_text(alloc: Global, elements: &[LinkElement<'_>]) -> Result<Vec<u8>, AllocError>
    ensures { IfOk result (λ text. text.items ≡ bracketed
        (map (λ e. record { identifier = e.identifier.now; value = e.value.items }) elements.now)) }
{
    let mut text = Vec::new(alloc);
    for element in elements {
        push_element(&mut text, element)?;
    }
    Ok(text)
}

/// Returns how the symbol of the elements of a link comes out. It fails only for lack of memory.
fn as_elements(alloc: Global, label: &Label, link: &[u8]) -> Result<Outcome, AllocError>
    ensures { IfOk result (IsElementsOutcome label.now link.now) }
{
    match elements_of_link(alloc, link) {
        Ok(elements) => {
            let text = link_text(alloc, &elements)?;
            outcome_of(alloc, Content::Gs1, &label.symbol, &text)
        }
        Err(LinkReadError::OutOfMemory) => Err(AllocError),
        Err(_) => Ok(Outcome::Nothing),
    }
}

/// Appends how the symbol of a content comes out the other way, if the content is given and of
/// elements: as a link, or as elements where it is one.
pub fn push_other_way(
    alloc: Global,
    text: &mut String,
    label: &Label,
    content: Option<&[u8]>,
) -> Result<(), AllocError>
    ensures { OnOk result ((other : List ℕ)
        × IsOtherWayText label.now (option_copied content.entry) other
        × (string_bytes text.new ≡ string_bytes text.old ++ other)) }
{
    match content {
        Some(bytes) => push_other(alloc, text, label, bytes),
        None => Ok(()),
    }
}

/// Appends the same of a content.
fn push_other(
    alloc: Global,
    text: &mut String,
    label: &Label,
    bytes: &[u8],
) -> Result<(), AllocError>
    ensures { OnOk result ((other : List ℕ)
        × IsOtherText label.now label.now.content bytes.now other
        × (string_bytes text.new ≡ string_bytes text.old ++ other)) }
{
    match label.content {
        Content::Gs1 | Content::UncheckedGs1 => push_as_link(alloc, text, label, bytes),
        Content::Link => push_as_elements(alloc, text, label, bytes),
        Content::Auto | Content::Text | Content::Bytes => Ok(()),
        Content::BytesWithoutKanji => Ok(()),
        Content::Micro | Content::MicroBytes => Ok(()),
    }
}

/// Appends how the symbol of the link of elements comes out.
fn push_as_link(
    alloc: Global,
    text: &mut String,
    label: &Label,
    bytes: &[u8],
) -> Result<(), AllocError>
    ensures { OnOk result ((other : List ℕ) × IsAsLinkText label.now bytes.now other
        × (string_bytes text.new ≡ string_bytes text.old ++ other)) }
{
    let outcome = as_link(alloc, label, bytes)?;
    text.push_str("as a link: ")?;
    push_outcome(text, outcome)
}

/// Appends how the symbol of the elements of a link comes out.
fn push_as_elements(
    alloc: Global,
    text: &mut String,
    label: &Label,
    link: &[u8],
) -> Result<(), AllocError>
    ensures { OnOk result ((other : List ℕ) × IsAsElementsText label.now link.now other
        × (string_bytes text.new ≡ string_bytes text.old ++ other)) }
{
    let outcome = as_elements(alloc, label, link)?;
    text.push_str("as elements: ")?;
    push_outcome(text, outcome)
}

/// Appends how a symbol comes out.
fn push_outcome(text: &mut String, outcome: Outcome) -> Result<(), AllocError>
    ensures { OnOk result
        (string_bytes text.new ≡ string_bytes text.old ++ outcome_text outcome) }
{
    match outcome {
        Outcome::Drawn(version) => {
            push_version(text, version)?;
            text.push_str("\n")
        }
        Outcome::TooLong => text.push_str("too long\n"),
        Outcome::Nothing => text.push_str("none\n"),
    }
}
