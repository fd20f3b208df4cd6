//! The details of a symbol: its version, level and mask, the modes of its segments, and its size.
ghost use Rattle.std.specs.Prelude.{◌≡◌, ◌↔◌, true, false, IsTrue, ℕ, ◌++◌, ◌<◌};
ghost use Rattle.std.specs.Prelude.{List, decimal, OnOk, IfOk, IfErr, Some};
ghost use Rattle.std.specs.Option.{option_copied};
ghost use Rattle.std.specs.String.{string_bytes};
ghost use Rattle.qrcode_base.specs.Symbols.{HasMicroNumber};
ghost use Rattle.qrcode_bits.specs.Contents.{parsed_byte};
ghost use Rattle.qrcode_bits.specs.Parsing.{parsed};
ghost use Rattle.qrcode_bits.specs.Plans.{IsChosenPlan};
ghost use Rattle.qrcode_bits.specs.declared.optimize.Segment.{Segment};
ghost use Rattle.single_label.specs.Details.{IsPlanIn, AreDataAs, mode_piece, count_of};
ghost use Rattle.single_label.specs.Details.{segment_text, version_piece, mask_number, head_text};
ghost use Rattle.single_label.specs.Details.{segments_text, AreDetails, IsDetailsStop};
ghost use Rattle.single_label.specs.Details.{IsDetailsStopOf};
ghost use Rattle.single_label.specs.Details.{IsKnownPlanText, IsSegmentsPlan};
ghost use Rattle.single_label.specs.Details.{IsSegmentsText};
ghost use Rattle.label_words.specs.Choices.{gs1_content};
ghost use Rattle.single_label.specs.Contents.{is_bracketed};
ghost use Rattle.qrcode_base.specs.Names.{level_text};

use crate::content::{is_bracketed, text_of, written_string};
use crate::other_way::push_other_way;
use crate::stop::Stop;
use crate::text_details::push_text;
use crate::widths::push_size;
use itoa::Buffer;
use label_words::{Content, Label};
use qrcode_bits::bits::Content as Front;
use qrcode_bits::optimize::{Parser, Segment};
use qrcode_core::symbol::Symbol;
use qrcode_core::traits::QrSymbol;
use qrcode_core::types::{EcLevel, Mode, QrError, QrResult, Version};
use qrcode_grid::canvas::MaskPattern;
use qrcode_render::DrawOptions;
use std::alloc::{AllocError, Global};

/// Returns the details of a symbol. Its segments are those of the content, if it is given: the
/// symbol has all of it. It fails with the stop of elements, and for lack of memory.
pub fn symbol_text(
    alloc: Global,
    label: &Label,
    options: &DrawOptions,
    content: Option<&[u8]>,
    symbol: &Symbol,
) -> Result<Vec<u8>, Stop>
    ensures details { IfOk result (λ text. AreDetails label.now options.now
        (option_copied content.entry) symbol.now text.items) }
    ensures refusal { IfErr result (IsDetailsStop label.now (option_copied content.entry)) }
{
    let mut text = String::new(alloc);
    push_head(&mut text, symbol)?;
    push_known_segments(alloc, &mut text, label, content, symbol)?;
    push_size(&mut text, label, options, symbol)?;
    push_other_way(alloc, &mut text, label, content)?;
    Ok(text.into_bytes())
}

/// Appends the segments of a content, if it is given.
fn push_known_segments(
    alloc: Global,
    text: &mut String,
    label: &Label,
    content: Option<&[u8]>,
    symbol: &Symbol,
) -> Result<(), Stop>
    ensures details { OnOk result ((segments : List ℕ)
        × IsSegmentsText label.now (option_copied content.entry) symbol.now segments
        × (string_bytes text.new ≡ string_bytes text.old ++ segments)) }
    ensures refusal { IfErr result (IsDetailsStop label.now (option_copied content.entry)) }
{
    match content {
        Some(bytes) => push_segments(alloc, text, label.content, bytes, symbol.version()),
        None => Ok(()),
    }
}

/// Appends a number in decimal.
pub(crate) fn push_number(text: &mut String, n: usize) -> Result<(), AllocError>
    ensures { OnOk result (string_bytes text.new ≡ string_bytes text.old ++ decimal n) }
{
    let mut buffer = Buffer::new();
    text.push_str(buffer.format(n))
}

/// Appends a version.
pub(crate) fn push_version(text: &mut String, version: Version) -> Result<(), AllocError>
    ensures { OnOk result
        (string_bytes text.new ≡ string_bytes text.old ++ version_piece version) }
{
    match version {
        Version::Normal(n) => {
            text.push_str("version ")?;
            push_number(text, usize::from(n.unsigned_abs()))
        }
        Version::Micro(n) => {
            text.push_str("version M")?;
            push_number(text, usize::from(n.unsigned_abs()))
        }
    }
}

/// Returns the letter of a level.
fn level_text(level: EcLevel) -> &'static str
    ensures { result.now ≡ level_text level }
{
    match level {
        EcLevel::L => "L",
        EcLevel::M => "M",
        EcLevel::Q => "Q",
        EcLevel::H => "H",
    }
}

/// Returns the reference of a data mask pattern (ISO/IEC 18004:2006, table 10).
fn mask_number(version: Version, mask: MaskPattern) -> usize
    ensures { result ≡ mask_number version mask }
{
    match version {
        Version::Normal(_) => mask as usize,
        Version::Micro(_) => match mask {
            MaskPattern::LargeCheckerboard => 1,
            MaskPattern::Diamonds => 2,
            MaskPattern::Meadow => 3,
            _ => 0,
        },
    }
}

/// Appends version, level and mask.
fn push_head(text: &mut String, symbol: &Symbol) -> Result<(), AllocError>
    ensures { OnOk result (string_bytes text.new ≡ string_bytes text.old ++ head_text symbol.now) }
{
    let version = symbol.version();
    push_version(text, version)?;
    text.push_str(", level ")?;
    text.push_str(level_text(symbol.error_correction_level()))?;
    text.push_str(", mask ")?;
    push_number(text, mask_number(version, symbol.mask()))
}

/// Returns the word of a mode.
pub(crate) fn mode_piece(mode: Mode) -> &'static str
    ensures { result.now ≡ mode_piece mode }
{
    match mode {
        Mode::Numeric => " numeric ",
        Mode::Alphanumeric => " alphanumeric ",
        Mode::Byte => " byte ",
        Mode::Kanji => " kanji ",
    }
}

/// Returns the number of characters that `n` bytes of a mode are.
pub(crate) fn count_of(mode: Mode, n: usize) -> usize
    ensures { result ≡ count_of mode n }
{
    match mode {
        Mode::Kanji => n / 2,
        Mode::Numeric | Mode::Alphanumeric | Mode::Byte => n,
    }
}

/// Appends a segment: its mode, and its number of characters.
fn push_segment(text: &mut String, segment: Segment) -> Result<(), AllocError>
    ensures { OnOk result
        (string_bytes text.new ≡ string_bytes text.old ++ segment_text segment) }
{
    text.push_str(mode_piece(segment.mode))?;
    let bytes = segment.end.saturating_sub(segment.begin);
    push_number(text, count_of(segment.mode, bytes))
}

/// Appends the segments of the chosen plan of parsed bytes.
fn push_plan(alloc: Global, text: &mut String, bytes: &[u8], version: Version) -> QrResult<()>
    requires { HasMicroNumber version }
    ensures plan { OnOk result ((plan : List Segment)
        × IsChosenPlan (parsed bytes.now) version plan
        × (string_bytes text.new ≡ string_bytes text.old ++ segments_text plan)) }
    ensures memory { IfErr result (λ e. e ≡ QrError.OutOfMemory) }
{
    let mut plan = Parser::new(bytes).optimize(alloc, version)?;
    text.push_str(", segments")?;
    'parts: while plan.len() > 0 {
        if let Some(part) = plan.next() {
            push_segment(text, part)?;
        }
    }
    Ok(())
}

/// Returns the byte as which a byte of data of a kind is parsed.
fn parsed_byte(front: Front, byte: u8) -> u8
    ensures { result ≡ parsed_byte front byte }
{
    match front {
        Front::Bytes => byte,
        Front::Text => { if byte < 0x80 { byte } else { 0 } }
        Front::Elements => {
            if byte == 0x1d {
                b'%'
            } else if byte == b'%' || byte >= 0x80 {
                0
            } else {
                byte
            }
        }
    }
}

/// Appends the segments of data of a kind.
fn push_data(
    alloc: Global,
    text: &mut String,
    front: Front,
    encoded: &[u8],
    version: Version,
) -> QrResult<()>
    requires { HasMicroNumber version }
    ensures plan { OnOk result ((plan : List Segment) × IsPlanIn front encoded.now version plan
        × (string_bytes text.new ≡ string_bytes text.old ++ segments_text plan)) }
    ensures memory { IfErr result (λ e. e ≡ QrError.OutOfMemory) }
{
    if front == Front::Bytes {
        return push_plan(alloc, text, encoded, version);
    }
    let mut parsed = Vec::with_capacity(alloc, encoded.len())?;
    for byte in encoded {
        parsed.push(parsed_byte(front, *byte))?;
    }
    push_plan(alloc, text, &parsed, version)
}

/// Whether there is such a version, as that of every symbol is.
fn exists(version: Version) -> bool
    ensures { IsTrue result ↔ HasMicroNumber version }
{
    match version {
        Version::Normal(_) => true,
        Version::Micro(n) => 1 <= n && n <= 4,
    }
}

/// Appends the segments of a content in a version, if there is such a version.
fn push_segments(
    alloc: Global,
    text: &mut String,
    content: Content,
    bytes: &[u8],
    version: Version,
) -> Result<(), Stop>
    ensures details { OnOk result ((piece : List ℕ)
        × IsKnownPlanText content bytes.now version piece
        × (string_bytes text.new ≡ string_bytes text.old ++ piece)) }
    ensures refusal { IfErr result (IsDetailsStopOf content bytes.now) }
{
    if !exists(version) {
        return Ok(());
    }
    match text_of(content, bytes) {
        Some(said) => Ok(push_text(alloc, text, said, version)?),
        None => push_plain(alloc, text, content, bytes, version),
    }
}

/// Appends the segments of a content whose symbol is not the smallest of its text.
fn push_plain(
    alloc: Global,
    text: &mut String,
    content: Content,
    bytes: &[u8],
    version: Version,
) -> Result<(), Stop>
    requires { HasMicroNumber version }
    ensures details { OnOk result ((piece : List ℕ)
        × IsSegmentsPlan content bytes.now version piece
        × (string_bytes text.new ≡ string_bytes text.old ++ piece)) }
    ensures refusal { IfErr result (IsDetailsStopOf content bytes.now) }
{
    if content == Content::Gs1 && is_bracketed(bytes) {
        return push_written(alloc, text, true, bytes, version);
    }
    if content == Content::UncheckedGs1 && is_bracketed(bytes) {
        return push_written(alloc, text, false, bytes, version);
    }
    let front = front_of(content, bytes);
    Ok(push_data(alloc, text, front, bytes, version)?)
}

/// Returns the kind of data that the bytes of a content are, if they are no bracketed elements.
/// Bytes without the Kanji mode are cut as those of a text.
fn front_of(content: Content, bytes: &[u8]) -> Front
    requires checked { content ≡ Content.Gs1 → is_bracketed bytes.now ≡ false }
    requires unchecked { content ≡ Content.UncheckedGs1 → is_bracketed bytes.now ≡ false }
    ensures { AreDataAs content bytes.now result bytes.now }
{
    match content {
        Content::Text | Content::BytesWithoutKanji => Front::Text,
        Content::Gs1 | Content::UncheckedGs1 => Front::Elements,
        Content::Auto | Content::Bytes | Content::Link => Front::Bytes,
        Content::Micro | Content::MicroBytes => Front::Bytes,
    }
}

/// Appends the segments of bracketed elements, which are checked by the table or not.
fn push_written(
    alloc: Global,
    text: &mut String,
    checks: bool,
    bytes: &[u8],
    version: Version,
) -> Result<(), Stop>
    requires micro { HasMicroNumber version }
    requires bracketed { is_bracketed bytes.now ≡ true }
    ensures details { OnOk result ((piece : List ℕ)
        × IsSegmentsPlan (gs1_content checks) bytes.now version piece
        × (string_bytes text.new ≡ string_bytes text.old ++ piece)) }
    ensures refusal { IfErr result (IsDetailsStopOf (gs1_content checks) bytes.now) }
{
    let elements = written_string(alloc, checks, bytes)?;
    Ok(push_data(alloc, text, Front::Elements, &elements, version)?)
}
