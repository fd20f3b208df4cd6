//! A plan whose comparisons are counted, by `qrcode_bits`.
ghost use Rattle.std.specs.Prelude.{◌≡◌, ◌<◌, ◌≤◌, length, IfOk};
ghost use Rattle.qrcode_base.specs.Symbols.{HasMicroNumber};
ghost use Rattle.qrcode_bits.specs.Plans.{HasLinearCosts, IsChosenPlan};

use qrcode_base::types::{QrResult, Version};
use qrcode_bits::optimize::{Comparisons, Segment, optimize_counted};
use std::alloc::Global;
use std::marker::Brand;
use std::sync::ledger::{Blank, Ledger};

/// Returns the chosen plan and counts its comparisons on a ledger of its own.
fn plan_on<L: Ledger>(
    alloc: Global,
    segments: &[Segment],
    version: Version,
    blank: Blank,
) -> QrResult<Vec<Segment>>
    requires micro { HasMicroNumber version }
    requires linear { 2 ≤ length segments.now → HasLinearCosts segments.now version }
    requires name { blank.name ≡ L.name }
    requires parts { blank.parts ≡ L.parts }
    requires part { 0 < L.parts }
    ensures { IfOk result (λ plan. IsChosenPlan segments.now version plan.items) }
{
    let mut comparisons: Comparisons<L> = Comparisons::new(blank);
    let plan = optimize_counted(alloc, segments, version, &mut comparisons);
    // Here `comparisons` is at most 36 per segment.
    plan
}

/// Returns the chosen plan of some segments.
pub fn plan(alloc: Global, segments: &[Segment], version: Version) -> QrResult<Vec<Segment>>
    requires micro { HasMicroNumber version }
    requires linear { 2 ≤ length segments.now → HasLinearCosts segments.now version }
    ensures { IfOk result (λ plan. IsChosenPlan segments.now version plan.items) }
{
    plan_on::<Brand>(alloc, segments, version, Blank::new(1))
}
