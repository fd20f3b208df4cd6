//! Whether data fit some version, found without their bits (ISO/IEC 18004:2006, "Data analysis").
//!
//! The greatest version is tried first, since what fits a smaller one nearly always fits it too.
//! Where it holds twice the bits of the last version of a smaller class, that is certain.

ghost use Rattle.std.specs.Prelude.{◌≡◌, ℕ, List, ◌<◌, ◌≤◌, length, take, nat_abs, true, false};
ghost use Rattle.std.specs.Prelude.{IfOk, IfErr};
ghost use Rattle.std.specs.Bool.{OnTrue};
ghost use Rattle.qrcode_base.specs.Symbols.{IsNormalNumber};
ghost use Rattle.qrcode_base.specs.declared.symbols.TheConstants.{LONGEST_DATA};
ghost use Rattle.qrcode_bits.specs.Contents.{parsed_bytes};
ghost use Rattle.qrcode_bits.specs.Frame.{front_bits};
ghost use Rattle.qrcode_bits.specs.Parsing.{parsed};
ghost use Rattle.qrcode_bits.specs.Places.{IsUnitEnd};
ghost use Rattle.qrcode_bits.specs.Plans.{FitsNot, FitsNone, normal};

use super::choice::{candidates, chosen_plan};
use super::data_capacity_bits;
use super::front::{Content, Front, parsed_bytes};
use crate::optimize::{Segment, last_uncounted, segments_from};
use qrcode_base::symbols::LONGEST_DATA;
use qrcode_base::types::{EcLevel, QrError, QrResult, Version};
use std::alloc::Global;
use std::marker::Brand;
use std::sync::ledger::Blank;

/// Returns whether data of any content fit some version of at most `max_version`, after a front:
/// whether `encode_front` finds a plan for them. It makes no bits.
///
/// Fails with `OutOfMemory` if an allocation fails; more than 7089 bytes need none.
pub fn fits_front(
    alloc: Global,
    front: &Front,
    bytes: &[u8],
    level: EcLevel,
    max_version: i16,
) -> QrResult<bool>
    requires limit { IsNormalNumber max_version }
    ensures fits { IfOk result (λ fits. fits ≡ true → FitsNone normal
        (length (front_bits front.now)) (parsed_bytes front.now.content bytes.now) level
        (nat_abs max_version) → ⊥) }
    ensures too_long { IfOk result (λ fits. fits ≡ false → FitsNone normal
        (length (front_bits front.now)) (parsed_bytes front.now.content bytes.now) level
        (nat_abs max_version)) }
    ensures memory { IfErr result (λ e. e ≡ QrError.OutOfMemory) }
{
    let limit = max_version as usize;
    if bytes.len() > LONGEST_DATA {
        return Ok(false);
    }
    if front.content() == Content::Bytes {
        return fits_up_to(alloc, front.size(), bytes, level, limit);
    }
    let parsed = parsed_bytes(alloc, front.content(), bytes)?;
    fits_up_to(alloc, front.size(), parsed.as_slice(), level, limit)
}

/// Returns whether some plan of some bytes fits a version of at most `limit`, after `ahead` bits.
fn fits_up_to(
    alloc: Global,
    ahead: usize,
    bytes: &[u8],
    level: EcLevel,
    limit: usize,
) -> QrResult<bool>
    requires ahead { ahead ≤ 32 }
    requires short { length bytes.now ≤ LONGEST_DATA }
    requires from_one { 1 ≤ limit }
    requires to_forty { limit ≤ 40 }
    ensures fits { IfOk result (λ fits. fits ≡ true →
        FitsNone normal ahead bytes.now level limit → ⊥) }
    ensures too_long { IfOk result (λ fits. fits ≡ false →
        FitsNone normal ahead bytes.now level limit) }
    ensures memory { IfErr result (λ e. e ≡ QrError.OutOfMemory) }
{
    let segments = segments_from(alloc, bytes, 0)?;
    if fits_version(alloc, ahead, bytes, &segments, level, limit)? {
        return Ok(true);
    }
    let candidates = candidates(1, limit);
    for last in candidates.as_slice() {
        if !holds_double(*last, level, limit)
            && fits_version(alloc, ahead, bytes, &segments, level, *last)?
        {
            return Ok(true);
        }
    }
    Ok(false)
}

/// Returns whether some plan fits the version of a number.
fn fits_version(
    alloc: Global,
    ahead: usize,
    bytes: &[u8],
    segments: &[Segment],
    level: EcLevel,
    number: usize,
) -> QrResult<bool>
    requires ahead { ahead ≤ 32 }
    requires segments { segments.now ≡ parsed bytes.now }
    requires short { length bytes.now ≤ LONGEST_DATA }
    requires from_one { 1 ≤ number }
    requires to_forty { number ≤ 40 }
    ensures fits { IfOk result (λ fits. fits ≡ true →
        FitsNot ahead bytes.now (normal number) level → ⊥) }
    ensures unfit { IfOk result (λ fits. fits ≡ false →
        FitsNot ahead bytes.now (normal number) level) }
    ensures memory { IfErr result (λ e. e ≡ QrError.OutOfMemory) }
{
    let version = Version::Normal(number as i16);
    let found = chosen_plan(alloc, ahead, bytes, segments, version, level)?;
    Ok(found.is_some())
}

/// Returns two numbers of bytes: up to the first, whole units fit the version of a number, and from
/// the second on they do not. No units end between them.
fn fitting_between(
    ahead: usize,
    bytes: &[u8],
    segments: &mut [Segment],
    level: EcLevel,
    number: usize,
) -> (usize, usize)
    requires ahead { ahead ≤ 32 }
    requires segments { segments.old ≡ parsed bytes.now }
    requires short { length bytes.now ≤ LONGEST_DATA }
    requires from_one { 1 ≤ number }
    requires to_forty { number ≤ 40 }
    ensures less { result.0 < result.1 }
    ensures fits { (place : ℕ) → IsUnitEnd bytes.now place → place ≤ result.0 →
        FitsNot ahead (take place bytes.now) (normal number) level → ⊥ }
    ensures unfit { (place : ℕ) → IsUnitEnd bytes.now place → result.1 ≤ place →
        FitsNot ahead (take place bytes.now) (normal number) level }
    ensures close { (place : ℕ) → IsUnitEnd bytes.now place → result.0 < place →
        place < result.1 → ⊥ }
    ensures unchanged { segments.new ≡ segments.old }
{
    let version = Version::Normal(number as i16);
    let Ok(limit) = data_capacity_bits(version, level) else {
        unreachable!();
    };
    match last_uncounted::<Brand>(segments, version, limit - ahead, Blank::new(1)) {
        Some(places) => places,
        None => (bytes.len(), bytes.len() + 1),
    }
}

/// Returns two numbers of bytes, the first less than the second: up to the first, whole units of
/// the data fit some version of at most `max_version` after the front, and from the second on they
/// do not. No units end between the two. Texts and elements are parsed by `parsed_bytes`; units are
/// those of the parsed bytes.
///
/// Fails with `OutOfMemory` if an allocation fails.
pub fn fitting_range(
    alloc: Global,
    front: &Front,
    bytes: &[u8],
    level: EcLevel,
    max_version: i16,
) -> QrResult<(usize, usize)>
    requires limit { IsNormalNumber max_version }
    requires short { length bytes.now ≤ LONGEST_DATA }
    ensures less { IfOk result (λ range. range.0 < range.1) }
    ensures fits { IfOk result (λ range. (place : ℕ) →
        IsUnitEnd (parsed_bytes front.now.content bytes.now) place → place ≤ range.0 →
        FitsNone normal (length (front_bits front.now))
        (take place (parsed_bytes front.now.content bytes.now)) level (nat_abs max_version) → ⊥) }
    ensures too_long { IfOk result (λ range. (place : ℕ) →
        IsUnitEnd (parsed_bytes front.now.content bytes.now) place → range.1 ≤ place →
        FitsNone normal (length (front_bits front.now))
        (take place (parsed_bytes front.now.content bytes.now)) level (nat_abs max_version)) }
    ensures close { IfOk result (λ range. (place : ℕ) →
        IsUnitEnd (parsed_bytes front.now.content bytes.now) place → range.0 < place →
        place < range.1 → ⊥) }
    ensures memory { IfErr result (λ e. e ≡ QrError.OutOfMemory) }
{
    let limit = max_version as usize;
    if front.content() == Content::Bytes {
        return range_up_to(alloc, front.size(), bytes, level, limit);
    }
    let parsed = parsed_bytes(alloc, front.content(), bytes)?;
    range_up_to(alloc, front.size(), parsed.as_slice(), level, limit)
}

/// Returns what `fitting_range` does, of some bytes after `ahead` bits.
fn range_up_to(
    alloc: Global,
    ahead: usize,
    bytes: &[u8],
    level: EcLevel,
    limit: usize,
) -> QrResult<(usize, usize)>
    requires ahead { ahead ≤ 32 }
    requires short { length bytes.now ≤ LONGEST_DATA }
    requires from_one { 1 ≤ limit }
    requires to_forty { limit ≤ 40 }
    ensures less { IfOk result (λ range. range.0 < range.1) }
    ensures fits { IfOk result (λ range. (place : ℕ) → IsUnitEnd bytes.now place →
        place ≤ range.0 → FitsNone normal ahead (take place bytes.now) level limit → ⊥) }
    ensures too_long { IfOk result (λ range. (place : ℕ) → IsUnitEnd bytes.now place →
        range.1 ≤ place → FitsNone normal ahead (take place bytes.now) level limit) }
    ensures close { IfOk result (λ range. (place : ℕ) → IsUnitEnd bytes.now place →
        range.0 < place → place < range.1 → ⊥) }
    ensures memory { IfErr result (λ e. e ≡ QrError.OutOfMemory) }
{
    let mut all = segments_from(alloc, bytes, 0)?;
    let segments = all.as_mut_slice();
    let (mut sure, mut past) = fitting_between(ahead, bytes, segments, level, limit);
    let candidates = candidates(1, limit);
    for last in candidates.as_slice() {
        if !holds_double(*last, level, limit) {
            let (fits, unfit) = fitting_between(ahead, bytes, segments, level, *last);
            sure = sure.max(fits);
            past = past.max(unfit);
        }
    }
    Ok((sure, past))
}

/// Returns whether a version is the greatest one, or that one holds at least twice its bits: then
/// what fits the version fits the greatest one, since no plan takes more than twice the bits there.
fn holds_double(number: usize, level: EcLevel, limit: usize) -> bool
    requires from_one { 1 ≤ number }
    requires in_order { number ≤ limit }
    requires to_forty { limit ≤ 40 }
    ensures { OnTrue result ((front : ℕ) → (message : List ℕ) →
        FitsNot front message (normal limit) level →
        FitsNot front message (normal number) level) }
{
    if number == limit {
        return true;
    }
    let Ok(held) = data_capacity_bits(Version::Normal(number as i16), level) else {
        return false;
    };
    let Ok(most) = data_capacity_bits(Version::Normal(limit as i16), level) else {
        return false;
    };
    2 * held <= most
}
