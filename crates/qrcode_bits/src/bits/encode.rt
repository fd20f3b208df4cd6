//! Data in the smallest version in which some plan of them fits (ISO/IEC 18004:2006, "Data
//! analysis"), each call for one kind of symbol.
//!
//! ```text
//! let bits = encode_auto(alloc, data, EcLevel::M)?;
//! let small = encode_auto_micro(alloc, data, EcLevel::L)?;
//! let second = encode_part(alloc, share, 2, 3, parity, EcLevel::M, 40)?; // symbol 2 of 3
//! ```
//!
//! `choice` finds the version and pushes the plan.

ghost use Rattle.std.specs.Prelude.{◌-◌, nat_abs, Some, OnOk, IfOk, IfErr};
ghost use Rattle.qrcode_bits.specs.Plans.{normal, normal_from, micro};
ghost use Rattle.qrcode_bits.specs.Push.{IsEncoding, IsUnencodable, IsEncodingRefused};
ghost use Rattle.qrcode_base.specs.Symbols.{IsNormalNumber};
ghost use Rattle.qrcode_bits.specs.Push.{IsMicroRefused, IsPartRefused, IsFrontRefused};
ghost use Rattle.qrcode_bits.specs.Push.{IsRangeRefused, IsVersionRange};
ghost use Rattle.qrcode_bits.specs.Frame.{HasFront, front_of, no_front, header_of};
ghost use Rattle.qrcode_bits.specs.Contents.{AreDataOf};
ghost use Rattle.qrcode_bits.specs.declared.bits.front.Content.TheVariants.{Bytes};

use super::Bits;
use super::choice::{chosen_plan, encode_from, encode_message, encode_plan};
use super::front::{Content, Front, SequenceHeader};
use super::headers::check_place;
use crate::optimize::segments_from;
use qrcode_base::symbols::{LONGEST_DATA, is_normal_number};
use qrcode_base::types::{EcLevel, QrError, QrResult, Version};
use std::alloc::Global;

/// Returns the bits of some data in the smallest Normal version in which some plan fits, by the
/// plan that takes the fewest bits there, with terminator and padding. If no two neighbouring bytes
/// are a pair of the Kanji mode, no other way to cut the bytes into segments fits a smaller version
/// or takes fewer bits (`laws::no_segmentation_is_shorter`, `laws::frames_have_plans`).
///
/// Fails with `DataTooLong` if no plan fits version 40 at this level, which includes all data of
/// more than 7089 bytes, before any allocation; and with `OutOfMemory` if an allocation fails.
pub fn encode_auto(alloc: Global, bytes: &[u8], level: EcLevel) -> QrResult<Bits>
    ensures ok { IfOk result (λ bits. IsEncoding normal no_front bytes.now level 40 bits) }
    ensures err { IfErr result (λ e. IsUnencodable normal 0 bytes.now level 40 e) }
{
    encode_message(alloc, &Front::new(Content::Bytes), bytes, level, 40)
}

/// Returns the bits of some data as `encode_auto` does, but in a version of at most `max_version`.
///
/// Fails with `InvalidResourceLimits` if `max_version` is outside 1 to 40, which is checked first;
/// then with `DataTooLong` if no plan fits any of the versions, and with `OutOfMemory` if an
/// allocation fails.
pub fn encode_auto_with_max_version(
    alloc: Global,
    bytes: &[u8],
    level: EcLevel,
    max_version: i16,
) -> QrResult<Bits>
    ensures ok { IfOk result (λ bits.
        IsEncoding normal no_front bytes.now level (nat_abs max_version) bits) }
    ensures limit { OnOk result (IsNormalNumber max_version) }
    ensures err { IfErr result (λ e. IsEncodingRefused bytes.now level max_version e) }
{
    if !is_normal_number(max_version) {
        return Err(QrError::InvalidResourceLimits);
    }
    encode_message(
        alloc,
        &Front::new(Content::Bytes),
        bytes,
        level,
        max_version as usize,
    )
}

/// Returns the bits of one symbol of a sequence (ISO/IEC 18004:2006, "Structured Append"): the
/// header of 20 bits with the symbol's position (from 1 on), the number of symbols, and the
/// exclusive or of all bytes of the message; after it the symbol's share of the data, terminator
/// and padding.
///
/// The version is the smallest up to `max_version` in which the header and some plan fit, and the
/// plan takes the fewest bits there. The payload includes the header. Fails with
/// `InvalidResourceLimits` if `max_version` is outside 1 to 40, then with `InvalidStructuredAppend`
/// that names the total if it is not 2 to 16, or else the position if it is not 1 to the total,
/// then with `DataTooLong` if no plan fits, which includes all data of more than 7089 bytes, before
/// any allocation; and with `OutOfMemory` if an allocation fails.
pub fn encode_part(
    alloc: Global,
    bytes: &[u8],
    position: u8,
    total: u8,
    parity: u8,
    level: EcLevel,
    max_version: i16,
) -> QrResult<Bits>
    ensures ok { IfOk result (λ bits.
        IsEncoding normal (front_of (Some (header_of position total parity)) Bytes) bytes.now level
        (nat_abs max_version) bits) }
    ensures limit { OnOk result (IsNormalNumber max_version) }
    ensures err { IfErr result (λ e. IsPartRefused (header_of position total parity) bytes.now level
        max_version e) }
{
    if !is_normal_number(max_version) {
        return Err(QrError::InvalidResourceLimits);
    }
    check_place(position, total)?;
    let header = SequenceHeader::new(position, total, parity);
    let front = Front::with_header(header, Content::Bytes);
    encode_message(alloc, &front, bytes, level, max_version as usize)
}

/// Returns the bits of some data in the smallest of M1 to M4 that has the level and the modes and
/// in which some plan fits, by the plan that takes the fewest bits there, as `encode_auto` does.
///
/// Fails with `InvalidVersion` that names M4 if the level is H, which no Micro version has;
/// then with `DataTooLong` if no plan fits any of the four, and with `OutOfMemory` if an
/// allocation fails.
pub fn encode_auto_micro(alloc: Global, bytes: &[u8], level: EcLevel) -> QrResult<Bits>
    ensures ok { IfOk result (λ bits. IsEncoding micro no_front bytes.now level 4 bits) }
    ensures err { IfErr result (λ e. IsMicroRefused bytes.now level e) }
{
    if level == EcLevel::H {
        return Err(QrError::InvalidVersion {
            version: Version::Micro(4),
            ec_level: level,
        });
    }
    if bytes.len() > LONGEST_DATA {
        return Err(QrError::DataTooLong);
    }
    let front = Front::new(Content::Bytes);
    let segments = segments_from(alloc, bytes, 0)?;
    for smaller in 0..4_usize {
        let version = Version::Micro((smaller + 1) as i16);
        if let Some((plan, _size)) = chosen_plan(alloc, 0, bytes, &segments, version, level)? {
            let bits = encode_plan(alloc, &front, bytes, bytes, version, level, &plan)?;
            return Ok(bits);
        }
    }
    Err(QrError::DataTooLong)
}

/// Returns the bits of data of any content in a version of at most `max_version`, as `encode_auto`
/// does of bytes: first those of the front, then those of the plan that takes the fewest bits.
///
/// Fails with `InvalidResourceLimits` if `max_version` is outside 1 to 40, which is checked first;
/// then with `DataTooLong` if no plan fits any of the versions, and with `OutOfMemory` if an
/// allocation fails.
pub fn encode_front(
    alloc: Global,
    front: &Front,
    bytes: &[u8],
    level: EcLevel,
    max_version: i16,
) -> QrResult<Bits>
    requires front { HasFront (normal 1) front.now }
    requires suited { AreDataOf front.now.content bytes.now }
    ensures ok { IfOk result (λ bits.
        IsEncoding normal front.now bytes.now level (nat_abs max_version) bits) }
    ensures limit { OnOk result (IsNormalNumber max_version) }
    ensures err { IfErr result (λ e. IsFrontRefused front.now bytes.now level max_version e) }
{
    if !is_normal_number(max_version) {
        return Err(QrError::InvalidResourceLimits);
    }
    encode_message(alloc, front, bytes, level, max_version as usize)
}

/// Returns the bits of data of any content, as `encode_front` does, in the smallest version from
/// `min_version` to `max_version` in which some plan fits.
///
/// Fails with `InvalidResourceLimits` if one of them is outside 1 to 40 or the least is greater
/// than the greatest, which is checked first; then with `DataTooLong` if no plan fits any of the
/// versions, and with `OutOfMemory` if an allocation fails.
pub fn encode_within(
    alloc: Global,
    front: &Front,
    bytes: &[u8],
    level: EcLevel,
    min_version: i16,
    max_version: i16,
) -> QrResult<Bits>
    requires front { HasFront (normal 1) front.now }
    requires suited { AreDataOf front.now.content bytes.now }
    ensures ok { IfOk result (λ bits. IsEncoding (normal_from (nat_abs min_version)) front.now
        bytes.now level (nat_abs max_version - nat_abs min_version) bits) }
    ensures limit { OnOk result (IsVersionRange min_version max_version) }
    ensures err { IfErr result
        (IsRangeRefused front.now bytes.now level min_version max_version) }
{
    if !is_normal_number(min_version)
        || !is_normal_number(max_version)
        || min_version > max_version
    {
        return Err(QrError::InvalidResourceLimits);
    }
    encode_from(
        alloc,
        front,
        bytes,
        level,
        min_version as usize,
        max_version as usize,
    )
}
