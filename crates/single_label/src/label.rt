//! From bytes to the label of their symbol.
ghost use Rattle.std.specs.Prelude.{◌≡◌, ◌≢◌, ◌≤◌, ◌⊎◌, ℕ, List, [], length, true};
ghost use Rattle.std.specs.Prelude.{IfOk, IfErr, IfSome, OnOk};
ghost use Rattle.std.specs.Option.{option_copied};
ghost use Rattle.single_label.specs.Labels.{ShowsLabel, ShowsSymbol, IsSymbolPicture, IsLabelStop};
ghost use Rattle.single_label.specs.Labels.{AreBeside, AreContentDetails, AreDetailsBeside};
ghost use Rattle.single_label.specs.Labels.{details_label};
ghost use Rattle.single_label.specs.Contents.{is_too_long, most_bytes};
ghost use Rattle.single_label.specs.Labels.{ShowsContent, IsLabelData, IsContentStop, IsCaptioned};
ghost use Rattle.single_label.specs.Captions.{IsContentOf};
ghost use Rattle.label_words.specs.Choices.{is_link};
ghost use Rattle.single_label.specs.Contents.{IsLink, IsLinkStop};
ghost use Rattle.single_label.specs.Details.{IsDetailsStop};

use crate::apart::shown_of;
use crate::caption::{caption_of, text_in};
use crate::colors::in_colors;
use crate::content::{content_symbol, link_of, most_bytes};
use crate::details::symbol_text;
use crate::room::{too_long_at_level, too_long_for_any};
use crate::shown::{Said, Shown};
use crate::stop::Stop;
use crate::turned::draw_turned;
use label_words::{Content, Details, Label};
use programs::Fault;
use qrcode_core::symbol::Symbol;
use qrcode_core::types::QrError;
use qrcode_render::DrawOptions;
use std::alloc::{AllocError, Global};

/// Returns the label of the bytes: what it shows of the symbol of their content, or of the link of
/// the elements that this writes. It fails with `TooLong` where there are more bytes than
/// `most_bytes`, with `Empty` where there is no content and the label is not to be drawn then, and
/// else as `link_label` or `content_label` does.
pub fn label_bytes<S: Shown>(
    alloc: Global,
    label: &Label,
    options: &DrawOptions,
    bytes: &[u8],
) -> Result<S, Stop>
    requires { S.allowed label.now options.now }
    ensures drawn { IfOk result (λ shown. ShowsLabel label.now options.now bytes.now
        (S.drawing label.now options.now shown)) }
    ensures beside { IfOk result (λ shown. IfSome (S.beside shown)
        (AreDetailsBeside label.now (λ other. ShowsLabel other options.now) bytes.now)) }
    ensures limit { OnOk result (length bytes.now ≤ most_bytes label.now.content) }
    ensures refusal { IfErr result (IsLabelStop label.now bytes.now) }
{
    if bytes.len() > most_bytes(label.content) {
        return Err(Stop::TooLong(too_long_for_any(label, bytes)));
    }
    let content = shown_of(label.trims, label.content, bytes);
    if content.is_empty() && !label.allow_empty {
        return Err(Stop::Empty);
    }
    if label.content == Content::Link {
        return link_label(alloc, label, options, content);
    }
    content_label(alloc, label, options, content, content)
}

/// Returns the label of the link of bracketed elements. It fails as `link_of` does, and then as
/// `content_label`.
fn link_label<S: Shown>(
    alloc: Global,
    label: &Label,
    options: &DrawOptions,
    elements: &[u8],
) -> Result<S, Stop>
    requires allowed { S.allowed label.now options.now }
    requires link { is_link label.now.content ≡ true }
    ensures shown { IfOk result (λ shown. (link : List ℕ)
        × IsLink label.now.upper label.now.domain.now elements.now link × (link ≢ [])
        × ShowsContent label.now options.now elements.now link
        (S.drawing label.now options.now shown)) }
    ensures beside { IfOk result (λ shown. IfSome (S.beside shown) (λ details. (link : List ℕ)
        × IsLink label.now.upper label.now.domain.now elements.now link × (link ≢ [])
        × AreContentDetails label.now options.now elements.now link details)) }
    ensures refusal { IfErr result (λ stop. IsLinkStop label.now.domain.now elements.now stop
        ⊎ ((link : List ℕ)
        × IsLink label.now.upper label.now.domain.now elements.now link × (link ≢ [])
        × IsContentStop label.now link stop)) }
{
    let link = link_of(alloc, label.upper, label.domain, elements)?;
    content_label(alloc, label, options, elements, &link)
}

/// Returns the label of a content, which is the text or the link of its elements: what it shows of
/// its symbol. It fails as `content_symbol`, but with `TooLong` in place of `DataTooLong`, then as
/// `caption_of`, and then as `symbol_text`.
fn content_label<S: Shown>(
    alloc: Global,
    label: &Label,
    options: &DrawOptions,
    text: &[u8],
    content: &[u8],
) -> Result<S, Stop>
    requires data { IsLabelData label.now content.now }
    requires allowed { S.allowed label.now options.now }
    requires said { IsContentOf label.now.content text.now content.now }
    ensures shown { IfOk result (λ shown. ShowsContent label.now options.now text.now content.now
        (S.drawing label.now options.now shown)) }
    ensures beside { IfOk result (λ shown. IfSome (S.beside shown)
        (AreContentDetails label.now options.now text.now content.now)) }
    ensures refusal { IfErr result (IsContentStop label.now content.now) }
{
    let symbol = match content_symbol(alloc, label.content, &label.symbol, content) {
        Ok(symbol) => symbol,
        Err(stop) if is_too_long(stop) => {
            return Err(Stop::TooLong(too_long_at_level(alloc, label, content)));
        }
        Err(stop) => return Err(stop),
    };
    let caption = caption_of(alloc, label, text)?;
    let said = Said {
        content: Some(content),
        caption: text_in(&caption),
    };
    S::of_symbol(alloc, label, options, said, symbol)
}

/// Returns what the label shows of a symbol: its details, or its picture. It fails as
/// `symbol_text` does.
pub fn symbol_label(
    alloc: Global,
    label: &Label,
    options: &DrawOptions,
    said: Said<'_>,
    symbol: &Symbol,
) -> Result<Vec<u8>, Stop>
    ensures shown { IfOk result (λ drawing. ShowsSymbol label.now options.now
        (option_copied said.entry.content) (option_copied said.entry.caption) symbol.now
        drawing.items) }
    ensures refusal { IfErr result (IsDetailsStop label.now (option_copied said.entry.content)) }
{
    if label.details == Details::Alone {
        return symbol_text(alloc, label, options, said.content, symbol);
    }
    Ok(symbol_picture(alloc, label, options, said.caption, symbol)?)
}

/// Returns the options of a picture with a text below it, if it is given.
pub(crate) fn captioned<'a>(options: &DrawOptions<'a>, caption: Option<&'a str>) -> DrawOptions<'a>
    ensures { IsCaptioned options.now (option_copied caption.entry) result }
{
    let Some(text) = caption else {
        return *options;
    };
    let mut captioned = *options;
    captioned.caption = Some(text);
    captioned
}

/// Returns the picture of a symbol, turned and colored as the label says, with a text below it, if
/// it is given. It fails only for lack of memory.
fn symbol_picture(
    alloc: Global,
    label: &Label,
    options: &DrawOptions,
    caption: Option<&str>,
    symbol: &Symbol,
) -> Result<Vec<u8>, AllocError>
    ensures { IfOk result (λ drawing. IsSymbolPicture label.now options.now
        (option_copied caption.entry) symbol.now drawing.items) }
{
    let options = captioned(options, caption);
    let picture = draw_turned(alloc, symbol, label.turn, &options)?;
    if label.colored {
        return in_colors(alloc, &picture);
    }
    Ok(picture)
}

/// Returns the same label, which shows the details of its symbol alone.
pub fn details_label<'a>(label: &Label<'a>) -> Label<'a>
    ensures { result ≡ details_label label.now }
{
    let mut alone = *label;
    alone.details = Details::Alone;
    alone
}

/// Returns the details beside the label of a symbol: none, unless they are asked for. It fails as
/// `symbol_text` does.
pub(crate) fn details_beside(
    alloc: Global,
    label: &Label,
    options: &DrawOptions,
    content: Option<&[u8]>,
    symbol: &Symbol,
) -> Result<Vec<u8>, Stop>
    ensures details { IfOk result (λ details. AreBeside label.now options.now
        (option_copied content.entry) symbol.now details.items) }
    ensures refusal { IfErr result (IsDetailsStop label.now (option_copied content.entry)) }
{
    if label.details == Details::Beside {
        return symbol_text(alloc, &details_label(label), options, content, symbol);
    }
    Ok(Vec::new(alloc))
}

/// Whether the data are too long for a symbol.
pub fn is_too_long(stop: Stop) -> bool
    ensures { result ≡ is_too_long stop }
{
    match stop {
        Stop::Fault(fault) => fault == Fault::Symbol(QrError::DataTooLong),
        Stop::Elements(_) | Stop::NotAllowed(_) | Stop::NoLink(_) => false,
        Stop::Empty | Stop::NoMicroText | Stop::TooLong(_) => false,
        Stop::TooManyParts | Stop::TooManyPages => false,
    }
}
