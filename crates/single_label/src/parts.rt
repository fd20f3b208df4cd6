//! From a message to the labels of the symbols that carry it together (ISO/IEC 18004:2006,
//! "Structured Append").
ghost use Rattle.std.specs.Prelude.{◌≡◌, ◌⊎◌, ◌≤◌, ◌*◌, ℕ, List, [], ◌∷◌, length, map, vec_items};
ghost use Rattle.std.specs.Prelude.{Some, IfOk, IfErr, OnOk};
ghost use Rattle.qrcode_bits.specs.declared.bits.front.Content.TheVariants.{Bytes};
ghost use Rattle.qrcode_core.specs.Symbol.{modules_of};
ghost use Rattle.single_label.specs.Parts.{IsSequenceOf, IsSequenceFault, IsTextSequence};
ghost use Rattle.single_label.specs.Parts.{IsSmallestSequence, IsSmallestSequenceFault};
ghost use Rattle.single_label.specs.Parts.{IsTextFault, IsSequenceAs, IsSequenceFaultAs, ShowEach};
ghost use Rattle.single_label.specs.Parts.{ShowMessage, AreLabelsTogether, ShowsMessage};
ghost use Rattle.single_label.specs.Parts.{AreEachBeside, AreTogetherBeside};
ghost use Rattle.single_label.specs.Labels.{ShowsSymbol, AreBeside, AreDetailsBeside};
ghost use Rattle.single_label.specs.Details.{IsDetailsStop};
ghost use Rattle.programs.specs.declared.Fault.TheVariants.{Symbol as SymbolFault};
ghost use Rattle.qrcode_core.specs.declared.types.errors.QrError.TheVariants.{OutOfMemory};
ghost use Rattle.single_label.specs.declared.stop.Stop.TheVariants.{Fault as FaultStop};
ghost use Rattle.single_label.specs.Parts.{AreNotDrawn, IsPartsStop, IsMessageStop, all_drawings};
ghost use Rattle.single_label.specs.Parts.{most_together};
ghost use Rattle.single_label.specs.declared.content.TheConstants.{LONGEST_TEXT};

use crate::content::{LONGEST_TEXT, content_of, content_symbol, is_ascii, most_bytes, utf8_of};
use crate::label::{details_beside, details_label, is_too_long, symbol_label};
use crate::shown::{Said, WithDetails};
use crate::stop::Stop;
use label_words::{Content, Details, Label};
use qrcode_core::options::SymbolOptions;
use qrcode_core::symbol::{Symbol, best_cuts, best_text_cuts};
use qrcode_core::types::{QrError, QrResult};
use qrcode_render::DrawOptions;
use smallest_symbols::{smallest_text_cuts, smallest_text_sequence};
use std::alloc::{AllocError, Global};

/// The labels of a message, each of one symbol, and the details of the symbols beside them: none,
/// unless they are asked for.
#[derive(Drop)]
pub struct Message {
    pub drawings: Vec<Vec<u8>>,
    pub details: Vec<u8>,
}

/// Returns how many bytes the content of a sequence of symbols has at most: it has 16 of them.
pub fn most_together(content: Content) -> usize
    ensures is { result ≡ most_together content }
    ensures bounded { result ≤ 16 * LONGEST_TEXT }
{
    16 * most_bytes(content)
}

/// Returns the symbols of the fewest parts of a message of bytes, as the options ask for them. It
/// fails with `DataTooLong` if 16 symbols do not hold it, and with `OutOfMemory`.
fn bytes_sequence(alloc: Global, options: &SymbolOptions, bytes: &[u8]) -> QrResult<Vec<Symbol>>
    ensures symbols { IfOk result (λ symbols.
        IsSequenceOf Bytes options.now bytes.now (map modules_of symbols.items)) }
    ensures refusal { IfErr result (IsSequenceFault Bytes options.now bytes.now) }
{
    let cuts = best_cuts(alloc, bytes, options.level, options.max_version)?;
    Symbol::sequence(alloc, bytes, &cuts, options.level, options.max_version)
}

/// Returns the symbols of the fewest parts of a text, as `bytes_sequence` does of bytes. It fails
/// as `utf8_of` does, and then as `bytes_sequence`.
fn text_sequence(alloc: Global, options: &SymbolOptions, bytes: &[u8]) -> QrResult<Vec<Symbol>>
    ensures symbols { IfOk result (λ symbols.
        IsTextSequence options.now bytes.now (map modules_of symbols.items)) }
    ensures refusal { IfErr result (IsTextFault options.now bytes.now) }
{
    let text = utf8_of(bytes)?;
    let cuts = best_text_cuts(alloc, text, options.level, options.max_version)?;
    Symbol::text_sequence(alloc, text, &cuts, options.level, options.max_version)
}

/// Returns the symbols of the fewest parts of a text that are read as it, each the smallest of its
/// part. It fails as `bytes_sequence` does.
fn smallest_parts(alloc: Global, options: &SymbolOptions, text: &str) -> QrResult<Vec<Symbol>>
    ensures symbols { IfOk result (λ symbols.
        IsSmallestSequence options.now text.now (map modules_of symbols.items)) }
    ensures refusal { IfErr result (IsSmallestSequenceFault options.now text.now) }
{
    let cuts = smallest_text_cuts(alloc, text, options.level, options.max_version)?;
    smallest_text_sequence(alloc, text, &cuts, options.level, options.max_version)
}

/// Returns the symbols of the fewest parts of a message: the smallest of a text, if the bytes are
/// UTF-8 and not ASCII, else those of bytes.
fn auto_sequence(alloc: Global, options: &SymbolOptions, bytes: &[u8]) -> QrResult<Vec<Symbol>>
    ensures symbols { IfOk result (λ symbols.
        IsSequenceAs Content.Auto options.now bytes.now (map modules_of symbols.items)) }
    ensures refusal { IfErr result (IsSequenceFaultAs Content.Auto options.now bytes.now) }
{
    if is_ascii(bytes) {
        return bytes_sequence(alloc, options, bytes);
    }
    match utf8_of(bytes) {
        Ok(text) => smallest_parts(alloc, options, text),
        Err(_) => bytes_sequence(alloc, options, bytes),
    }
}

/// Returns the symbols of the fewest parts of a message, by what it is. There are none of elements,
/// and no Micro symbols.
fn sequence_symbols(
    alloc: Global,
    content: Content,
    options: &SymbolOptions,
    bytes: &[u8],
) -> QrResult<Vec<Symbol>>
    ensures symbols { IfOk result (λ symbols.
        IsSequenceAs content options.now bytes.now (map modules_of symbols.items)) }
    ensures refusal { IfErr result (IsSequenceFaultAs content options.now bytes.now) }
{
    match content {
        Content::Auto => auto_sequence(alloc, options, bytes),
        Content::Text => text_sequence(alloc, options, bytes),
        Content::Bytes => bytes_sequence(alloc, options, bytes),
        Content::Gs1 | Content::UncheckedGs1 | Content::Link => Err(QrError::DataTooLong),
        Content::BytesWithoutKanji => Err(QrError::DataTooLong),
        Content::Micro | Content::MicroBytes => Err(QrError::DataTooLong),
    }
}

/// Returns the label of each symbol, in their order. It fails only for lack of memory.
fn labels_of(
    alloc: Global,
    label: &Label,
    options: &DrawOptions,
    symbols: &[Symbol],
) -> Result<Vec<Vec<u8>>, Stop>
    ensures shown { IfOk result (λ drawings.
        ShowEach label.now options.now symbols.now (map vec_items drawings.items)) }
    ensures memory { IfErr result (λ stop. stop ≡ FaultStop (SymbolFault OutOfMemory)) }
{
    let said = Said {
        content: None,
        caption: None,
    };
    let mut drawings = Vec::new(alloc);
    for symbol in symbols {
        let drawing = symbol_label(alloc, label, options, said, symbol)?;
        drawings.push(drawing).map_err(AllocError::from)?;
    }
    Ok(drawings)
}

/// Returns the details beside the labels of symbols, one after the other: none, unless they are
/// asked for. It fails only for lack of memory.
fn details_of(
    alloc: Global,
    label: &Label,
    options: &DrawOptions,
    symbols: &[Symbol],
) -> Result<Vec<u8>, Stop>
    ensures details { IfOk result (λ details.
        AreEachBeside label.now options.now symbols.now details.items) }
    ensures memory { IfErr result (λ stop. stop ≡ FaultStop (SymbolFault OutOfMemory)) }
{
    if label.details == Details::Beside {
        let all = labels_of(alloc, &details_label(label), options, symbols)?;
        return Ok(all_drawings(alloc, &all)?);
    }
    Ok(Vec::new(alloc))
}

/// Returns the labels of the symbols of the fewest parts of a content.
fn sequence_labels(
    alloc: Global,
    label: &Label,
    options: &DrawOptions,
    content: &[u8],
) -> Result<Message, Stop>
    ensures shown { IfOk result (λ message. AreLabelsTogether label.now options.now content.now
        (map vec_items message.drawings.items)) }
    ensures beside { IfOk result (λ message.
        AreTogetherBeside label.now options.now content.now message.details.items) }
    ensures refusal { IfErr result (λ stop. AreNotDrawn label.now content.now stop
        ⊎ IsPartsStop label.now content.now stop) }
{
    let symbols = match sequence_symbols(alloc, label.content, &label.symbol, content) {
        Ok(symbols) => symbols,
        Err(QrError::DataTooLong) => return Err(Stop::TooManyParts),
        Err(error) => return Err(Stop::from(error)),
    };
    let drawings = labels_of(alloc, label, options, &symbols)?;
    let details = details_of(alloc, label, options, &symbols)?;
    Ok(Message { drawings, details })
}

/// Returns the labels of a message: one, if a symbol holds its content, or those of the fewest
/// symbols that carry it together. It fails with `TooManyParts` where 16 symbols do not hold it, as
/// they do not hold more bytes than `most_together`, with `Empty` where there is no content and the
/// label is not to be drawn then, and else as `content_symbol` does.
pub fn message_labels(
    alloc: Global,
    label: &Label,
    options: &DrawOptions,
    bytes: &[u8],
) -> Result<Message, Stop>
    ensures shown { IfOk result (λ message. ShowMessage label.now options.now bytes.now
        (map vec_items message.drawings.items)) }
    ensures beside { IfOk result (λ message. AreDetailsBeside label.now
        (λ other. ShowsMessage other options.now) bytes.now message.details.items) }
    ensures limit { OnOk result (length bytes.now ≤ most_together label.now.content) }
    ensures refusal { IfErr result (IsMessageStop label.now bytes.now) }
{
    if bytes.len() > most_together(label.content) {
        return Err(Stop::TooManyParts);
    }
    let content = content_of(label.trims, bytes);
    if content.is_empty() && !label.allow_empty {
        return Err(Stop::Empty);
    }
    match content_symbol(alloc, label.content, &label.symbol, content) {
        Ok(symbol) => one_label(alloc, label, options, content, &symbol),
        Err(stop) if is_too_long(stop) => sequence_labels(alloc, label, options, content),
        Err(stop) => Err(stop),
    }
}

/// Returns the label of one symbol, which holds all of a content.
fn one_label(
    alloc: Global,
    label: &Label,
    options: &DrawOptions,
    content: &[u8],
    symbol: &Symbol,
) -> Result<Message, Stop>
    ensures shown { IfOk result (λ message. (drawing : List ℕ)
        × (map vec_items message.drawings.items ≡ drawing ∷ [])
        × ShowsSymbol label.now options.now (Some content.now) None symbol.now drawing) }
    ensures beside { IfOk result (λ message. AreBeside label.now options.now (Some content.now)
        symbol.now message.details.items) }
    ensures refusal { IfErr result (IsDetailsStop label.now (Some content.now)) }
{
    let said = Said {
        content: Some(content),
        caption: None,
    };
    let drawing = symbol_label(alloc, label, options, said, symbol)?;
    let details = details_beside(alloc, label, options, said.content, symbol)?;
    let mut drawings = Vec::new(alloc);
    drawings.push(drawing).map_err(AllocError::from)?;
    Ok(Message { drawings, details })
}

/// Returns the labels of a message, one after the other, and the details beside them. It fails as
/// `message_labels` does, and with `OutOfMemory`.
pub fn message_text(
    alloc: Global,
    label: &Label,
    options: &DrawOptions,
    bytes: &[u8],
) -> Result<WithDetails, Stop>
    ensures shown { IfOk result (λ both.
        ShowsMessage label.now options.now bytes.now both.drawing.items) }
    ensures beside { IfOk result (λ both. AreDetailsBeside label.now
        (λ other. ShowsMessage other options.now) bytes.now both.details.items) }
    ensures limit { OnOk result (length bytes.now ≤ most_together label.now.content) }
    ensures refusal { IfErr result (λ stop. (stop ≡ FaultStop (SymbolFault OutOfMemory))
        ⊎ IsMessageStop label.now bytes.now stop) }
{
    let message = match message_labels(alloc, label, options, bytes) {
        Ok(message) => message,
        Err(stop) => return Err(stop),
    };
    let drawing = all_drawings(alloc, &message.drawings)?;
    let details = message.details;
    Ok(WithDetails { drawing, details })
}

/// Returns the drawings one after the other. It fails only for lack of memory.
fn all_drawings(alloc: Global, drawings: &[Vec<u8>]) -> Result<Vec<u8>, AllocError>
    ensures { IfOk result (λ all. all.items ≡ all_drawings (map vec_items drawings.now)) }
{
    let mut all = Vec::new(alloc);
    for drawing in drawings {
        all.extend_from_slice(drawing)?;
    }
    Ok(all)
}
