//! The choice of the version: the smallest in which some parts of the text fit.
//!
//! Parts take the same number of bits in each version of a class, so the least parts for the last
//! version of a class are those of the class.
ghost use Rattle.std.specs.Prelude.{◌≡◌, ◌-◌, ◌≤◌, IfErr, IfNone, IfOk, IfSome, chars, pos};
ghost use Rattle.qrcode_base.specs.Symbols.{IsMicroNumber};
ghost use Rattle.qrcode_bits.specs.Plans.{micro, normal, normal_from};
ghost use Rattle.text_plans.specs.Costs.{bits_of_parts};
ghost use Rattle.text_plans.specs.Plan.{plan_parts};
ghost use Rattle.smallest_symbols.specs.TextChoices.{HasNoChoice, IsFittingChoice, IsMicroChoice};
ghost use Rattle.smallest_symbols.specs.TextChoices.{IsTextChoice};
ghost use Rattle.smallest_symbols.specs.TextFrames.{NoPartsFit};

use crate::versions::{first_holding, last_of_class};
use qrcode_base::types::{EcLevel, QrError, QrResult, Version};
use qrcode_bits::bits::data_capacity_bits;
use std::alloc::Global;
use text_plans::{TextPlan, least_plan};

/// The plan of a text, how many bits it takes, and the number of its version.
#[derive(Drop)]
pub struct Choice {
    pub plan: TextPlan,
    pub bits: usize,
    pub number: usize,
}

/// Returns the least plan of a text in the smallest Normal version from a least one up to a
/// greatest one in which it fits.
///
/// It fails with `DataTooLong` only where nothing fits any of them, and with `OutOfMemory`.
pub fn chosen_plan(
    alloc: Global,
    text: &str,
    level: EcLevel,
    least: usize,
    limit: usize,
) -> QrResult<Choice>
    requires some { 1 ≤ least }
    requires order { least ≤ limit }
    requires last { limit ≤ 40 }
    ensures chosen { IfOk result (λ choice. IsTextChoice least (chars text.now) level limit
        choice.number (plan_parts choice.plan)) }
    ensures bits { IfOk result (λ choice.
        choice.bits ≡ bits_of_parts (normal choice.number) (plan_parts choice.plan)) }
    ensures refusal { IfErr result (HasNoChoice (normal_from least) level (chars text.now)
        (limit - least)) }
{
    let mut first = least;
    while first <= limit {
        let last = last_of_class(first, limit);
        let version = Version::Normal(last as i16);
        if let Some((plan, bits)) = least_plan(alloc, text, version)? {
            if let Some(number) = first_holding(bits, level, first, last + 1) {
                return Ok(Choice { plan, bits, number });
            }
        }
        first = last + 1;
    }
    Err(QrError::DataTooLong)
}

/// Returns the least plan of a text in a Micro version, if the version has the level and the text
/// fits it. It fails with `OutOfMemory`.
fn fitting_micro(
    alloc: Global,
    text: &str,
    level: EcLevel,
    number: usize,
) -> QrResult<Option<Choice>>
    requires { IsMicroNumber (pos number) }
    ensures number { IfOk result (λ found. IfSome found (λ choice. choice.number ≡ number)) }
    ensures fits { IfOk result (λ found. IfSome found (λ choice.
        IsFittingChoice (micro number) (chars text.now) level (plan_parts choice.plan))) }
    ensures none { IfOk result (λ found. IfNone found
        (NoPartsFit (micro number) level (chars text.now))) }
    ensures memory { IfErr result (λ e. e ≡ QrError.OutOfMemory) }
{
    let version = Version::Micro(number as i16);
    let Ok(limit) = data_capacity_bits(version, level) else {
        return Ok(None);
    };
    let Some((plan, bits)) = least_plan(alloc, text, version)? else {
        return Ok(None);
    };
    if limit < bits {
        return Ok(None);
    }
    Ok(Some(Choice { plan, bits, number }))
}

/// Returns the least plan of a text in the smallest of M1 to M4 that has the level and in which
/// it fits.
///
/// It fails with `DataTooLong` only where nothing fits any of them, and with `OutOfMemory`.
pub fn chosen_micro(alloc: Global, text: &str, level: EcLevel) -> QrResult<Choice>
    ensures chosen { IfOk result (λ choice.
        IsMicroChoice (chars text.now) level choice.number (plan_parts choice.plan)) }
    ensures refusal { IfErr result (HasNoChoice micro level (chars text.now) 4) }
{
    for smaller in 0..4_usize {
        if let Some(choice) = fitting_micro(alloc, text, level, smaller + 1)? {
            return Ok(choice);
        }
    }
    Err(QrError::DataTooLong)
}
