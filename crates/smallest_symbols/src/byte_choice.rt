//! The choice of the version: the smallest in which some pieces of the bytes fit.
//!
//! A plan takes the same number of bits in each version of a class, so the chosen plan for the last
//! version of a class is that of the class. Classes whose last version cannot hold the bytes are
//! left out.
ghost use Rattle.std.specs.Prelude.{◌≡◌, ◌+◌, ◌-◌, ◌≤◌, All, length, IfErr, IfOk};
ghost use Rattle.qrcode_base.specs.declared.symbols.TheConstants.{LONGEST_DATA};
ghost use Rattle.qrcode_base.specs.Modes.{count_width, indicator_width};
ghost use Rattle.qrcode_base.specs.Symbols.{HasMicroNumber};
ghost use Rattle.qrcode_base.specs.declared.types.Mode.{Mode};
ghost use Rattle.qrcode_bits.specs.Plans.{IsChosenPlan, normal, normal_from, total_bits};
ghost use Rattle.qrcode_bits.specs.Spelling.{LiesIn, segment_pieces};
ghost use Rattle.smallest_symbols.specs.ByteChoices.{AreParsed, HasNoByteChoice, IsByteChoice};
ghost use Rattle.smallest_symbols.specs.BytePieces.{bits_of_pieces};

use crate::byte_needed::needed_bits;
use crate::byte_parsing::parsed_segments;
use crate::versions::{first_holding, holds, last_of_class};
use qrcode_base::types::{EcLevel, QrError, QrResult, Version};
use qrcode_bits::optimize::{Segment, optimize_segments, total_encoded_len};
use std::alloc::Global;

/// The segments as which bytes are written, how many bits they take, and the number of the version.
#[derive(Drop)]
pub struct Choice {
    pub plan: Vec<Segment>,
    pub bits: usize,
    pub number: usize,
}

/// Returns the chosen plan of parsed segments in a version, and its number of bits. It fails with
/// `OutOfMemory`.
fn least_plan(
    alloc: Global,
    segments: &[Segment],
    version: Version,
) -> QrResult<(Vec<Segment>, usize)>
    requires number { HasMicroNumber version }
    requires small { (mode : Mode) → indicator_width version + count_width version mode ≤ 20 }
    requires parsed { AreParsed segments.now }
    ensures chosen { IfOk result (λ plan. IsChosenPlan segments.now version plan.0.items) }
    ensures bits { IfOk result (λ plan. plan.1 ≡ total_bits version plan.0.items) }
    ensures memory { IfErr result (λ e. e ≡ QrError.OutOfMemory) }
{
    let plan = optimize_segments(alloc, segments, version)?;
    let bits = total_encoded_len(&plan, version);
    Ok((plan, bits))
}

/// Returns the segments with the fewest bits in the smallest Normal version, from a least one up to
/// a greatest one, in which some pieces of the bytes fit without the Kanji mode.
///
/// It fails with `DataTooLong` only where none fit any of them, and with `OutOfMemory`.
pub fn chosen_plan(
    alloc: Global,
    bytes: &[u8],
    level: EcLevel,
    least: usize,
    limit: usize,
) -> QrResult<Choice>
    requires short { length bytes.now ≤ LONGEST_DATA }
    requires some { 1 ≤ least }
    requires order { least ≤ limit }
    requires last { limit ≤ 40 }
    ensures within { IfOk result (λ choice. All (LiesIn (length bytes.now)) choice.plan.items) }
    ensures chosen { IfOk result (λ choice. IsByteChoice least bytes.now level limit
        choice.number (segment_pieces bytes.now choice.plan.items)) }
    ensures bits { IfOk result (λ choice. choice.bits
        ≡ bits_of_pieces (normal choice.number) (segment_pieces bytes.now choice.plan.items)) }
    ensures refusal { IfErr result (HasNoByteChoice (normal_from least) level bytes.now
        (limit - least)) }
{
    let segments = parsed_segments(alloc, bytes)?;
    let needed = needed_bits(&segments);
    let mut first = least;
    while first <= limit {
        let last = last_of_class(first, limit);
        if holds(needed, last, level) {
            let version = Version::Normal(last as i16);
            let (plan, bits) = least_plan(alloc, &segments, version)?;
            if let Some(number) = first_holding(bits, level, first, last + 1) {
                return Ok(Choice { plan, bits, number });
            }
        }
        first = last + 1;
    }
    Err(QrError::DataTooLong)
}
