//! The symbol of a plan, after the header of a sequence or with none.
ghost use Rattle.std.specs.Prelude.{◌≡◌, ◌≤◌, ℕ, List, Some, length, IfErr, IfOk};
ghost use Rattle.qrcode_base.specs.Symbols.{HasMicroNumber, capacity};
ghost use Rattle.qrcode_bits.specs.Frame.{HasHeader};
ghost use Rattle.text_plans.specs.Costs.{AreTextParts};
ghost use Rattle.text_plans.specs.Plan.{plan_parts};
ghost use Rattle.smallest_symbols.specs.TextFrames.{headed_bits};
ghost use Rattle.smallest_symbols.specs.TextHeadline.{HoldsParts};

use crate::pushing::{PieceHeader, plan_bits};
use qrcode_base::types::{EcLevel, QrError, QrResult, Version};
use qrcode_core::symbol::Symbol;
use std::alloc::Global;
use text_plans::TextPlan;

/// Returns the symbol of a plan that fits a version at a level, after a header if there is one. It
/// fails with `OutOfMemory`.
pub(crate) fn drawn_plan(
    alloc: Global,
    header: Option<PieceHeader>,
    plan: &TextPlan,
    version: Version,
    level: EcLevel,
) -> QrResult<Symbol>
    requires number { HasMicroNumber version }
    requires header { HasHeader version header }
    requires written { (text : List ℕ) × AreTextParts version text (plan_parts plan.now) }
    requires fits { (limit : ℕ) × (capacity version level ≡ Some limit)
        × (length (headed_bits version header (plan_parts plan.now)) ≤ limit) }
    ensures holds { IfOk result (HoldsParts header (plan_parts plan.now) version level) }
    ensures memory { IfErr result (λ e. e ≡ QrError.OutOfMemory) }
{
    let bits = plan_bits(alloc, header, plan, version)?;
    Symbol::with_bits(alloc, bits, level)
}
