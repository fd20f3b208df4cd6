//! The choice of the version: the smallest in which some plan of the data fits (ISO/IEC 18004:2006,
//! "Data analysis"), after the bits of the front.
//!
//! Normal versions fall into three classes: 1 to 9, 10 to 26 and 27 to 40. A plan takes the same
//! number of bits in each version of a class, so the plan for the last version of a class decides
//! for the class: these last versions are the `candidates`. `encode_up_to` parses the data and
//! tries them, `chosen_plan` decides whether the plan fits, and `encode_plan` pushes the front, the
//! plan and the terminator.

ghost use Rattle.std.specs.Prelude.{◌≡◌, ℕ, ◌+◌, ◌-◌, ◌^◌, ◌<◌, ◌≤◌, length, Some, None};
ghost use Rattle.std.specs.Prelude.{IfOk, IfErr, IfSome, IfNone};
ghost use Rattle.std.specs.Bool.{OnTrue};
ghost use Rattle.qrcode_base.specs.declared.types.Mode.{Mode};
ghost use Rattle.qrcode_base.specs.declared.types.Mode.TheVariants.{Numeric, Alphanumeric, Byte, Kanji};
ghost use Rattle.qrcode_base.specs.Modes.{indicator_width, count_width};
ghost use Rattle.qrcode_base.specs.Symbols.{HasMicroNumber, capacity};
ghost use Rattle.qrcode_bits.specs.Parsing.{parsed};
ghost use Rattle.qrcode_bits.specs.Plans.{IsChosenPlan, Fits, FitsNot, normal, normal_from};
ghost use Rattle.qrcode_bits.specs.Plans.{IsMinVersion, IsMinVersionFrom};
ghost use Rattle.qrcode_bits.specs.Plans.{total_bits, AreCandidates};
ghost use Rattle.qrcode_bits.specs.Push.{IsPlanStream, IsEncoding, IsUnencodable};
ghost use Rattle.qrcode_bits.specs.Frame.{HasFront, front_bits};
ghost use Rattle.qrcode_bits.specs.Contents.{AreDataOf, parsed_bytes, piece_text};
ghost use Rattle.qrcode_bits.specs.declared.bits.front.Content.TheVariants.{Bytes};
ghost use Rattle.qrcode_base.specs.declared.symbols.TheConstants.{LONGEST_DATA};

use super::front::{Content, Front, parsed_bytes};
use super::headers::indicator_number;
use super::{Bits, data_capacity_bits};
use crate::optimize::{Segment, optimize_uncounted, segments_from};
use arrayvec::ArrayVec;
use qrcode_base::symbols::LONGEST_DATA;
use qrcode_base::types::{EcLevel, Mode, QrError, QrResult, Version};
use std::alloc::Global;
use std::marker::Brand;
use std::sync::ledger::Blank;

/// Returns the smallest Normal version that holds at least `length` bits at the level, or version
/// 40 if none does.
pub fn find_min_version(length: usize, level: EcLevel) -> Version
    ensures { IsMinVersion length level result }
{
    for number in 1..41_usize {
        let version = Version::Normal(number as i16);
        if let Ok(limit) = data_capacity_bits(version, level) {
            if length <= limit {
                return version;
            }
        }
    }
    Version::Normal(40)
}

/// Returns the version that `find_min_version` returns, or the least one if that is less.
fn find_version_from(least: usize, length: usize, level: EcLevel) -> Version
    requires { least ≤ 40 }
    ensures { IsMinVersionFrom least length level result }
{
    match find_min_version(length, level) {
        Version::Normal(number) if number < least as i16 => Version::Normal(least as i16),
        version => version,
    }
}

/// Returns the numbers of the candidate versions from a least one up to a limit: the last version
/// of each class.
pub(super) fn candidates(least: usize, limit: usize) -> ArrayVec<usize, 3>
    requires first { 1 ≤ least }
    requires last { least ≤ limit }
    ensures { AreCandidates (least - 1) result.items limit }
{
    let mut candidates = ArrayVec::new();
    if least <= 9 && limit > 9 {
        candidates.push(9);
    }
    if least <= 26 && limit > 26 {
        candidates.push(26);
    }
    candidates.push(limit);
    candidates
}

/// Returns the bits of the front and the data in the smallest Normal version whose number is at
/// most `limit`.
pub(super) fn encode_message(
    alloc: Global,
    front: &Front,
    bytes: &[u8],
    level: EcLevel,
    limit: usize,
) -> QrResult<Bits>
    requires front { HasFront (normal limit) front.now }
    requires suited { AreDataOf front.now.content bytes.now }
    requires from_one { 1 ≤ limit }
    requires to_forty { limit ≤ 40 }
    ensures ok { IfOk result (λ bits. IsEncoding normal front.now bytes.now level limit bits) }
    ensures err { IfErr result (λ e. IsUnencodable normal (length (front_bits front.now))
        (parsed_bytes front.now.content bytes.now) level limit e) }
{
    encode_from(alloc, front, bytes, level, 1, limit)
}

/// Returns the bits of the front and the data in the smallest Normal version whose number is at
/// least `least` and at most `limit`.
pub(super) fn encode_from(
    alloc: Global,
    front: &Front,
    bytes: &[u8],
    level: EcLevel,
    least: usize,
    limit: usize,
) -> QrResult<Bits>
    requires front { HasFront (normal limit) front.now }
    requires suited { AreDataOf front.now.content bytes.now }
    requires from_one { 1 ≤ least }
    requires in_order { least ≤ limit }
    requires to_forty { limit ≤ 40 }
    ensures ok { IfOk result (λ bits.
        IsEncoding (normal_from least) front.now bytes.now level (limit - least) bits) }
    ensures err { IfErr result (λ e. IsUnencodable (normal_from least)
        (length (front_bits front.now)) (parsed_bytes front.now.content bytes.now) level
        (limit - least) e) }
{
    if bytes.len() > LONGEST_DATA {
        return Err(QrError::DataTooLong);
    }
    if front.content() == Content::Bytes {
        return encode_up_to(alloc, front, bytes, bytes, level, least, limit);
    }
    let parsed = parsed_bytes(alloc, front.content(), bytes)?;
    encode_up_to(alloc, front, bytes, parsed.as_slice(), level, least, limit)
}

/// Returns what `encode_from` does, for data that are parsed as `parsed`.
fn encode_up_to(
    alloc: Global,
    front: &Front,
    bytes: &[u8],
    parsed: &[u8],
    level: EcLevel,
    least: usize,
    limit: usize,
) -> QrResult<Bits>
    requires front { HasFront (normal limit) front.now }
    requires suited { AreDataOf front.now.content bytes.now }
    requires parsed { parsed.now ≡ parsed_bytes front.now.content bytes.now }
    requires short { length parsed.now ≤ LONGEST_DATA }
    requires from_one { 1 ≤ least }
    requires in_order { least ≤ limit }
    requires to_forty { limit ≤ 40 }
    ensures ok { IfOk result (λ bits.
        IsEncoding (normal_from least) front.now bytes.now level (limit - least) bits) }
    ensures err { IfErr result (λ e. IsUnencodable (normal_from least)
        (length (front_bits front.now)) parsed.now level (limit - least) e) }
{
    let segments = segments_from(alloc, parsed, 0)?;
    let ahead = front.size();
    let candidates = candidates(least, limit);
    for last in candidates.as_slice() {
        let version = Version::Normal(*last as i16);
        if let Some((plan, size)) = chosen_plan(alloc, ahead, parsed, &segments, version, level)? {
            let smallest = find_version_from(least, size, level);
            return encode_plan(alloc, front, bytes, parsed, smallest, level, &plan);
        }
    }
    Err(QrError::DataTooLong)
}

/// Returns six times the bits of a byte in a mode, rounded down; pairs do not count.
fn sixths(mode: Mode) -> usize
    ensures { result ≡ elim mode [ Numeric ↦ 20 | Alphanumeric ↦ 33 | Byte ↦ 48 | Kanji ↦ 0 ] }
{
    match mode {
        Mode::Numeric => 20,
        Mode::Alphanumeric => 33,
        Mode::Byte => 48,
        Mode::Kanji => 0,
    }
}

/// A quick test: returns `true` only if no plan of the bytes fits the version. No mode takes fewer
/// than ten bits for three bytes, and no plan takes fewer bits for a byte than the mode of its
/// segment does.
fn is_too_heavy(
    bytes: &[u8],
    segments: &[Segment],
    version: Version,
    level: EcLevel,
    limit: usize,
) -> bool
    requires segments { segments.now ≡ parsed bytes.now }
    requires short { length bytes.now ≤ LONGEST_DATA }
    requires limit { capacity version level ≡ Some limit }
    requires small { limit < 2 ^ 32 }
    ensures { OnTrue result ((front : ℕ) → FitsNot front bytes.now version level) }
{
    if bytes.len() / 3 * 10 > limit {
        return true;
    }
    let mut sum = 0;
    for s in segments {
        sum += sixths(s.mode) * (s.end - s.begin);
    }
    sum > 6 * limit
}

/// Returns the chosen plan of some bytes in a version, with its number of bits including the
/// `front` bits before it, or `None` if no plan fits the version at the level.
#[tactic(auto, using(crate::proofs::Classes::small_plans))]
pub(super) fn chosen_plan(
    alloc: Global,
    front: usize,
    bytes: &[u8],
    segments: &[Segment],
    version: Version,
    level: EcLevel,
) -> QrResult<Option<(Vec<Segment>, usize)>>
    requires front { front ≤ 32 }
    requires number { HasMicroNumber version }
    requires small { (mode : Mode) → indicator_width version + count_width version mode ≤ 20 }
    requires segments { segments.now ≡ parsed bytes.now }
    requires short { length bytes.now ≤ LONGEST_DATA }
    ensures chosen { IfOk result (λ found.
        IfSome found (λ plan. IsChosenPlan (parsed bytes.now) version plan.0.items)) }
    ensures fits { IfOk result (λ found.
        IfSome found (λ plan. Fits front bytes.now version level plan.0.items)) }
    ensures bits { IfOk result (λ found.
        IfSome found (λ plan. plan.1 ≡ front + total_bits version plan.0.items)) }
    ensures none { IfOk result (λ found. IfNone found (FitsNot front bytes.now version level)) }
    ensures memory { IfErr result (λ e. e ≡ QrError.OutOfMemory) }
{
    let Ok(limit) = data_capacity_bits(version, level) else {
        return Ok(None);
    };
    if is_too_heavy(bytes, segments, version, level, limit) {
        return Ok(None);
    }
    let plan = if segments.len() < 2 {
        Vec::from_slice(alloc, segments)?
    } else {
        optimize_uncounted::<Brand>(alloc, segments, version, Blank::new(1))?
    };
    let mut size = front;
    for part in &plan {
        if indicator_number(version, part.mode) >= 1 << version.mode_bits_count() {
            return Ok(None);
        }
        size += part.wide_len(version) as usize;
    }
    if size > limit {
        return Ok(None);
    }
    Ok(Some((plan, size)))
}

/// Returns what the pieces of a mode are cut from: in elements an Alphanumeric piece has the parsed
/// bytes, in which a separator is `%`.
fn piece_text<'a>(content: Content, mode: Mode, bytes: &'a [u8], parsed: &'a [u8]) -> &'a [u8]
    requires { parsed.now ≡ parsed_bytes content bytes.now }
    ensures { result.now ≡ piece_text content mode bytes.now }
{
    match (content, mode) {
        (Content::Elements, Mode::Alphanumeric) => parsed,
        _ => bytes,
    }
}

/// Returns the bits of a plan that fits a version: the front, the segments of the plan, terminator
/// and padding.
pub(super) fn encode_plan(
    alloc: Global,
    front: &Front,
    bytes: &[u8],
    parsed: &[u8],
    version: Version,
    level: EcLevel,
    plan: &[Segment],
) -> QrResult<Bits>
    requires number { HasMicroNumber version }
    requires front { HasFront version front.now }
    requires suited { AreDataOf front.now.content bytes.now }
    requires parsed { parsed.now ≡ parsed_bytes front.now.content bytes.now }
    requires fits { Fits (length (front_bits front.now)) parsed.now version level plan.now }
    ensures ok { IfOk result (λ bits.
        IsPlanStream front.now bytes.now version level plan.now bits) }
    ensures memory { IfErr result (λ e. e ≡ QrError.OutOfMemory) }
{
    let mut bits = Bits::new(alloc, version);
    bits.push_front(front)?;
    for part in plan {
        let text = piece_text(front.content(), part.mode, bytes, parsed);
        bits.push_text(part.mode, &text[part.begin..part.end])?;
    }
    bits.push_terminator(level)?;
    Ok(bits)
}
