//! The symbol of segments.
ghost use Rattle.std.specs.Prelude.{◌≡◌, All, length, IfErr, IfOk, OnOk};
ghost use Rattle.qrcode_base.specs.Symbols.{HasMicroNumber};
ghost use Rattle.qrcode_bits.specs.Frame.{spellings};
ghost use Rattle.qrcode_bits.specs.Push.{Spells};
ghost use Rattle.qrcode_bits.specs.Spelling.{IsSpellable, LiesIn, segment_piece, segment_pieces};
ghost use Rattle.qrcode_core.specs.Symbol.{TellsReading};
ghost use Rattle.smallest_symbols.specs.BytePieces.{PiecesFit};
ghost use Rattle.smallest_symbols.specs.ByteHeadline.{HoldsPieces};

use qrcode_base::types::{EcLevel, Mode, QrError, QrResult, Version};
use qrcode_bits::bits::Bits;
use qrcode_bits::optimize::Segment;
use qrcode_core::symbol::Symbol;
use std::alloc::Global;

/// Pushes a segment of some bytes, which the version can spell. It fails with `OutOfMemory`.
#[tactic(auto, using(qrcode_bits::proofs::Pushes::spellable_refused))]
fn push_segment(bits: &mut Bits, bytes: &[u8], segment: Segment) -> QrResult<()>
    requires lies { LiesIn (length bytes.now) segment }
    requires spellable { IsSpellable bits.old.version (segment_piece bytes.now segment) }
    ensures ok { OnOk result (Spells bits.old bits.new (segment_piece bytes.now segment)) }
    ensures memory { IfErr result (λ e. e ≡ QrError.OutOfMemory) }
{
    let text = &bytes[segment.begin..segment.end];
    match segment.mode {
        Mode::Numeric => bits.push_numeric_data(text),
        Mode::Alphanumeric => bits.push_alphanumeric_data(text),
        Mode::Byte => bits.push_byte_data(text),
        Mode::Kanji => bits.push_kanji_data(text),
    }
}

/// Returns the bits of segments of some bytes, which the version can spell. It fails with
/// `OutOfMemory`.
fn plan_bits(alloc: Global, bytes: &[u8], plan: &[Segment], version: Version) -> QrResult<Bits>
    requires number { HasMicroNumber version }
    requires within { All (LiesIn (length bytes.now)) plan.now }
    requires spellable { All (IsSpellable version) (segment_pieces bytes.now plan.now) }
    ensures bits { IfOk result (λ bits.
        bits.bits ≡ spellings version (segment_pieces bytes.now plan.now)) }
    ensures version { IfOk result (λ bits. bits.version ≡ version) }
    ensures memory { IfErr result (λ e. e ≡ QrError.OutOfMemory) }
{
    let mut bits = Bits::new(alloc, version);
    for segment in plan {
        push_segment(&mut bits, bytes, *segment)?;
    }
    Ok(bits)
}

/// Returns the symbol of segments of some bytes that fit a version at a level. It fails with
/// `OutOfMemory`.
pub fn drawn_plan(
    alloc: Global,
    bytes: &[u8],
    plan: &[Segment],
    version: Version,
    level: EcLevel,
) -> QrResult<Symbol>
    requires number { HasMicroNumber version }
    requires within { All (LiesIn (length bytes.now)) plan.now }
    requires fits { PiecesFit version level bytes.now (segment_pieces bytes.now plan.now) }
    ensures holds { IfOk result
        (HoldsPieces (segment_pieces bytes.now plan.now) version level) }
    ensures reading { IfOk result TellsReading }
    ensures memory { IfErr result (λ e. e ≡ QrError.OutOfMemory) }
{
    let bits = plan_bits(alloc, bytes, plan, version)?;
    Symbol::with_bits(alloc, bits, level)
}
