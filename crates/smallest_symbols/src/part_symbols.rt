//! The smallest symbol of one part of a text, after its header, in the manner of the sequence.
ghost use Rattle.std.specs.Prelude.{◌≤◌, Some, chars, IfErr, IfOk};
ghost use Rattle.qrcode_bits.specs.Frame.{HasHeader};
ghost use Rattle.qrcode_bits.specs.Plans.{normal};
ghost use Rattle.smallest_symbols.specs.TextHeadline.{TellsTextReading};
ghost use Rattle.smallest_symbols.specs.TextParts.{HasNoPartChoice};
ghost use Rattle.smallest_symbols.specs.TextPieces.{IsSmallestPartUpTo};

use crate::part_choice::chosen_part;
use crate::pushing::PieceHeader;
use crate::text_drawing::drawn_plan;
use qrcode_base::types::{EcLevel, QrResult, Version};
use qrcode_core::symbol::Symbol;
use std::alloc::Global;
use text_plans::Manner;

/// Returns the smallest symbol of a part of a text after its header in a manner, in the versions up
/// to a greatest one. It fails with `DataTooLong` only where nothing that is read as the part in the
/// manner fits any of them after a header, and with `OutOfMemory`.
pub(crate) fn part_symbol(
    alloc: Global,
    header: PieceHeader,
    part: &str,
    manner: Manner,
    level: EcLevel,
    limit: usize,
) -> QrResult<Symbol>
    requires header { HasHeader (normal 1) (Some header) }
    requires some { 1 ≤ limit }
    requires last { limit ≤ 40 }
    ensures smallest { IfOk result (λ symbol.
        IsSmallestPartUpTo manner header (chars part.now) level limit symbol.modules) }
    ensures reading { IfOk result TellsTextReading }
    ensures refusal { IfErr result (HasNoPartChoice manner (chars part.now) level limit) }
{
    let choice = chosen_part(alloc, part, manner, level, limit)?;
    let version = Version::Normal(choice.number as i16);
    drawn_plan(alloc, Some(header), &choice.plan, version, level)
}
