//! How much there is room for, where a content is too long.
ghost use Rattle.std.specs.Prelude.{◌≡◌, ◌<◌, ◌≤◌, IsTrue, IsFalse, length};
ghost use Rattle.qrcode_base.specs.declared.symbols.TheConstants.{LONGEST_DATA};
ghost use Rattle.single_label.specs.Rooms.{bits_room, characters_room, bytes_room, digits_in};
ghost use Rattle.single_label.specs.Rooms.{digits_room, IsLengthReported};
ghost use Rattle.single_label.specs.Rooms.{IsFrontWidth, greatest_version, lower_levels};
ghost use Rattle.single_label.specs.Rooms.{proposes_split, FitsAt, StopsAtLevel, IsFirstFitting};
ghost use Rattle.single_label.specs.Rooms.{IsTooLongAs, IsTooLongForAny};
ghost use Rattle.qrcode_base.specs.Symbols.{HasMicroNumber};
ghost use Rattle.qrcode_core.specs.declared.types.EcLevel.TheVariants.{M, Q, H};

use crate::content::{content_symbol, is_ascii, text_of, utf8_of};
use crate::stop::{TextLength, TooLong};
use label_words::{Content, Label, Portion, can_be_split, is_micro};
use qrcode_bits::bits::data_capacity_bits;
use qrcode_core::types::{EcLevel, Mode, Version};
use std::alloc::Global;
use text_plans::least_plan;

/// Returns how many bits stand before the segments: of a text the ECI designator of UTF-8, of GS1
/// elements the indicator FNC1.
fn front_width(content: Content, bytes: &[u8]) -> usize
    ensures width { IsFrontWidth content bytes.now result }
    ensures narrow { result ≤ 12 }
{
    match content {
        Content::Auto => {
            if !is_ascii(bytes) && utf8_of(bytes).is_ok() {
                12
            } else {
                0
            }
        }
        Content::Text => 12,
        Content::Gs1 | Content::UncheckedGs1 => 4,
        Content::Bytes | Content::BytesWithoutKanji | Content::Link => 0,
        Content::Micro | Content::MicroBytes => 0,
    }
}

/// Returns how many bits a version has room for at a level.
fn bits_room(version: Version, level: EcLevel) -> usize
    ensures { result ≡ bits_room version level }
{
    match data_capacity_bits(version, level) {
        Ok(capacity) => capacity,
        Err(_) => 0,
    }
}

/// Returns how many bits the characters of one segment of a mode have in a version at a level,
/// after a front of this width.
fn characters_room(version: Version, level: EcLevel, mode: Mode, front: usize) -> usize
    requires version { HasMicroNumber version }
    requires narrow { front ≤ 12 }
    ensures { result ≡ characters_room version level mode front }
{
    bits_room(version, level).saturating_sub(
        front + (version.mode_bits_count() + mode.length_bits_count(version)),
    )
}

/// Returns how many digits a number of bits holds: three in ten, two in seven, one in four.
fn digits_in(bits: usize) -> usize
    ensures { result ≡ digits_in bits }
{
    let more = match bits % 10 {
        0..=3 => 0,
        4..=6 => 1,
        _ => 2,
    };
    3 * (bits / 10) + more
}

/// Returns the greatest version that a label can have.
fn greatest_version(label: &Label) -> Version
    ensures is { result ≡ greatest_version label.now }
    ensures number { HasMicroNumber result }
{
    if is_micro(label.content) {
        Version::Micro(4)
    } else {
        Version::Normal(label.symbol.max_version)
    }
}

/// Whether the labels of several symbols may stand for the label: it is one of the whole input, and
/// of a content that they can carry together.
fn proposes_split(label: &Label) -> bool
    ensures { result ≡ proposes_split label.now }
{
    match label.portion {
        Portion::Whole => can_be_split(label.content),
        _ => false,
    }
}

/// Returns the length of a text beyond ASCII of which the label would have the smallest symbol, if
/// it is found: it takes less than 32768 bits.
fn text_length(alloc: Global, label: &Label, content: &[u8]) -> Option<TextLength>
    ensures { IsLengthReported label.now content.now result }
{
    if is_ascii(content) {
        return None;
    }
    let (version, level) = (greatest_version(label), label.symbol.level);
    let text = text_of(label.content, content)?;
    match least_plan(alloc, text, version) {
        Ok(Some((_, bits))) => {
            let room = bits_room(version, level);
            Some(TextLength { bits, room })
        }
        _ => None,
    }
}

/// Returns that a content of this length is too long, and how much there is room for after a front
/// of this width.
fn too_long(
    label: &Label,
    length: usize,
    front: usize,
    fits: Option<EcLevel>,
    text: Option<TextLength>,
) -> TooLong
    requires narrow { front ≤ 12 }
    ensures length_is { result.length ≡ length }
    ensures version_is { result.version ≡ greatest_version label.now }
    ensures level_is { result.level ≡ label.now.symbol.level }
    ensures bytes_are { result.bytes ≡ bytes_room result.version result.level front }
    ensures digits_are { result.digits ≡ digits_room result.version result.level front }
    ensures fits { result.fits ≡ fits }
    ensures splits { result.can_be_split ≡ proposes_split label.now }
    ensures text { result.text ≡ text }
{
    let (version, level) = (greatest_version(label), label.symbol.level);
    TooLong {
        length,
        version,
        level,
        bytes: characters_room(version, level, Mode::Byte, front) / 8,
        digits: digits_in(characters_room(version, level, Mode::Numeric, front)),
        fits,
        can_be_split: proposes_split(label),
        text,
    }
}

/// Returns why there is no label of more bytes than a content of a symbol has.
pub fn too_long_for_any(label: &Label, bytes: &[u8]) -> TooLong
    requires { LONGEST_DATA < length bytes.now }
    ensures { IsTooLongForAny label.now result }
{
    too_long(label, bytes.len(), 0, None, None)
}

/// Returns why there is no symbol of a content that is too long, and at which lower level there
/// is one.
pub fn too_long_at_level(alloc: Global, label: &Label, content: &[u8]) -> TooLong
    ensures { IsTooLongAs label.now content.now result }
{
    let front = front_width(label.content, content);
    let fits = fitting_level(alloc, label, content);
    let text = text_length(alloc, label, content);
    too_long(label, content.len(), front, fits, text)
}

/// Whether there is a symbol of a content at a level.
fn fits_at(alloc: Global, label: &Label, content: &[u8], level: EcLevel) -> bool
    ensures fits { IsTrue result → FitsAt label.now content.now level }
    ensures stops { IsFalse result → StopsAtLevel label.now content.now level }
{
    let mut options = label.symbol;
    options.level = level;
    match content_symbol(alloc, label.content, &options, content) {
        Ok(_) => true,
        Err(_) => false,
    }
}

/// Returns the greatest level below another at which there is a symbol of a content, if any.
fn fitting_level(alloc: Global, label: &Label, content: &[u8]) -> Option<EcLevel>
    ensures { IsFirstFitting label.now content.now (lower_levels label.now.symbol.level) result }
{
    match label.symbol.level {
        EcLevel::L => None,
        EcLevel::M => below_m(alloc, label, content),
        EcLevel::Q => below_q(alloc, label, content),
        EcLevel::H => below_h(alloc, label, content),
    }
}

/// Returns the greatest level below H at which there is a symbol of a content, if any.
fn below_h(alloc: Global, label: &Label, content: &[u8]) -> Option<EcLevel>
    ensures { IsFirstFitting label.now content.now (lower_levels H) result }
{
    if fits_at(alloc, label, content, EcLevel::Q) {
        Some(EcLevel::Q)
    } else {
        below_q(alloc, label, content)
    }
}

/// Returns the greatest level below Q at which there is a symbol of a content, if any.
fn below_q(alloc: Global, label: &Label, content: &[u8]) -> Option<EcLevel>
    ensures { IsFirstFitting label.now content.now (lower_levels Q) result }
{
    if fits_at(alloc, label, content, EcLevel::M) {
        Some(EcLevel::M)
    } else {
        below_m(alloc, label, content)
    }
}

/// Returns L if there is a symbol of a content at this level.
fn below_m(alloc: Global, label: &Label, content: &[u8]) -> Option<EcLevel>
    ensures { IsFirstFitting label.now content.now (lower_levels M) result }
{
    if fits_at(alloc, label, content, EcLevel::L) {
        Some(EcLevel::L)
    } else {
        None
    }
}
