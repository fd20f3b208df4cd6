//! The choice of the version of one part of a text that is spread over several symbols: the
//! smallest in which it fits after the header of the sequence, in the manner in which all symbols of
//! the sequence are written.
//!
//! ```text
//! let choice = chosen_part(alloc, "市北前倉東", Manner::Paired, EcLevel::M, 40)?;
//! ```
ghost use Rattle.std.specs.Prelude.{◌≡◌, ◌+◌, ◌≤◌, IfErr, IfNone, IfOk, IfSome, chars};
ghost use Rattle.qrcode_bits.specs.Plans.{normal};
ghost use Rattle.text_plans.specs.Costs.{bits_of_parts};
ghost use Rattle.text_plans.specs.Plan.{plan_parts};
ghost use Rattle.smallest_symbols.specs.Holding.{IsFirstHolding, NoneHoldsBefore};
ghost use Rattle.smallest_symbols.specs.TextParts.{HasNoPartChoice, HaveNoRoomBefore, IsPartChoice};

use crate::normal_texts::char_count;
use crate::text_choice::Choice;
use crate::versions::{first_holding, last_of_class};
use qrcode_base::symbols::LONGEST_DATA;
use qrcode_base::types::{EcLevel, QrError, QrResult, Version};
use std::alloc::Global;
use text_plans::{Manner, least_plan_in};

/// The bits of the header of a symbol of a sequence.
pub(crate) const HEADER_BITS: usize = 20;

/// Returns the first version of a class such that no version before it has room for a header and so
/// many characters.
fn first_with_room(count: usize) -> usize
    ensures some { 1 ≤ result }
    ensures none { HaveNoRoomBefore result count }
{
    // Version 9 holds 1856 bits, version 26 holds 10960.
    if count > 3282 {
        27
    } else if count > 550 {
        10
    } else {
        1
    }
}

/// Returns the first version from one number on, and before another, that holds a header and a
/// number of bits after it at a level, if there is one.
fn first_holding_part(bits: usize, level: EcLevel, first: usize, end: usize) -> Option<usize>
    requires { end ≤ 41 }
    ensures found { IfSome result (IsFirstHolding (20 + bits) level first end) }
    ensures none { IfNone result (NoneHoldsBefore (20 + bits) level first end) }
{
    first_holding(bits.saturating_add(HEADER_BITS), level, first, end)
}

/// Returns the least plan of a text in a manner in the smallest Normal version, up to a greatest
/// one, in which it fits after the header of a symbol of a sequence (ISO/IEC 18004:2006, "Structured
/// Append"). The bits of the choice are those of the plan, without the header.
///
/// # Errors
///
/// It fails with `DataTooLong` only where nothing that is read as the text in the manner fits any
/// of the versions after a header; more than 7089 characters fail without an allocation. It fails
/// with `OutOfMemory` where an allocation failed.
pub fn chosen_part(
    alloc: Global,
    text: &str,
    manner: Manner,
    level: EcLevel,
    limit: usize,
) -> QrResult<Choice>
    requires some { 1 ≤ limit }
    requires last { limit ≤ 40 }
    ensures chosen { IfOk result (λ choice. IsPartChoice manner (chars text.now) level limit
        choice.number (plan_parts choice.plan)) }
    ensures bits { IfOk result (λ choice.
        choice.bits ≡ bits_of_parts (normal choice.number) (plan_parts choice.plan)) }
    ensures refusal { IfErr result (HasNoPartChoice manner (chars text.now) level limit) }
{
    let count = char_count(text);
    if count > LONGEST_DATA {
        return Err(QrError::DataTooLong);
    }
    let mut first = first_with_room(count);
    while first <= limit {
        let last = last_of_class(first, limit);
        let version = Version::Normal(last as i16);
        if let Some((plan, bits)) = least_plan_in(alloc, text, version, manner)? {
            if let Some(number) = first_holding_part(bits, level, first, last + 1) {
                return Ok(Choice { plan, bits, number });
            }
        }
        first = last + 1;
    }
    Err(QrError::DataTooLong)
}
