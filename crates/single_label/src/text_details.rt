//! The parts of a text, as the details of its symbol have them.
ghost use Rattle.std.specs.Prelude.{◌≡◌, ◌++◌, ℕ, List, chars, length, OnOk};
ghost use Rattle.std.specs.String.{string_bytes};
ghost use Rattle.qrcode_base.specs.Symbols.{HasMicroNumber};
ghost use Rattle.single_label.specs.Details.{part_piece, parts_piece, IsTextPlanText};
ghost use Rattle.text_plans.specs.Plan.{LiesWithin, part_of, plan_parts};

use crate::details::{count_of, mode_piece, push_number};
use qrcode_core::types::Version;
use std::alloc::{AllocError, Global};
use text_plans::{PlanPart, TextPlan, least_plan};

/// Appends a part, whose segment is one of some bytes: a designator and its number, or the mode of
/// the segment and its number of characters.
fn push_part(text: &mut String, bytes: &[u8], part: PlanPart) -> Result<(), AllocError>
    requires { LiesWithin (length bytes.now) part }
    ensures { OnOk result (string_bytes text.new
        ≡ string_bytes text.old ++ part_piece (part_of bytes.now part)) }
{
    match part {
        PlanPart::Designator(number) => {
            text.push_str(" eci ")?;
            push_number(text, number as usize)
        }
        PlanPart::Segment { mode, begin, end } => {
            let piece = &bytes[begin..end];
            text.push_str(mode_piece(mode))?;
            push_number(text, count_of(mode, piece.len()))
        }
    }
}

/// Appends the parts of a plan.
fn push_parts(text: &mut String, plan: &TextPlan) -> Result<(), AllocError>
    ensures { OnOk result (string_bytes text.new
        ≡ string_bytes text.old ++ parts_piece (plan_parts plan.now)) }
{
    let bytes = plan.bytes();
    let parts = plan.parts();
    text.push_str(", segments")?;
    for part in parts {
        push_part(text, bytes, *part)?;
    }
    Ok(())
}

/// Appends the parts of a text that take the fewest bits in a version.
pub fn push_text(
    alloc: Global,
    text: &mut String,
    said: &str,
    version: Version,
) -> Result<(), AllocError>
    requires { HasMicroNumber version }
    ensures { OnOk result ((piece : List ℕ) × IsTextPlanText version (chars said.now) piece
        × (string_bytes text.new ≡ string_bytes text.old ++ piece)) }
{
    match least_plan(alloc, said, version)? {
        Some((plan, _)) => push_parts(text, &plan),
        None => Ok(()),
    }
}
