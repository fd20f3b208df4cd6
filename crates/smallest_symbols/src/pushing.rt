//! The bits of a plan, after the header of a sequence or with none.
ghost use Rattle.std.specs.Prelude.{◌≡◌, [], ◌∷◌, length, IfErr, IfOk, OnOk, All};
ghost use Rattle.qrcode_base.specs.Symbols.{HasMicroNumber};
ghost use Rattle.qrcode_bits.specs.Frame.{HasHeader, header_bits, header_of};
ghost use Rattle.qrcode_bits.specs.Stream.{Appends};
ghost use Rattle.text_plans.specs.Plan.{LiesWithin, part_of, plan_parts};
ghost use Rattle.smallest_symbols.specs.TextFrames.{IsPartSpelled, SpellsParts, headed_bits};

use qrcode_base::types::{Mode, QrError, QrResult, Version};
use qrcode_bits::bits::Bits;
use std::alloc::Global;
use std::marker::Model;
use text_plans::{PlanPart, TextPlan};

/// The header of a symbol of a sequence: its position, counted from 1, the number of symbols, and
/// the exclusive or of all bytes of the text.
#[derive(Drop)]
pub(crate) struct PieceHeader {
    position: u8,
    total: u8,
    parity: u8,
}

// Clauses see the header.
impl Model for PieceHeader {
    ghost use Rattle.qrcode_bits.specs.Frame.{Header};

    ghost Value = { Header };

    ghost view = { λ h. record { place = h.position; total = h.total; parity = h.parity } };
}

impl PieceHeader {
    /// Returns the header with these fields.
    pub(crate) fn new(position: u8, total: u8, parity: u8) -> Self
        ensures { result ≡ header_of position total parity }
    {
        PieceHeader {
            position,
            total,
            parity,
        }
    }
}

/// Pushes a header, if there is one. It fails with `OutOfMemory`.
fn push_header(bits: &mut Bits, header: Option<PieceHeader>) -> QrResult<()>
    requires { HasHeader bits.old.version header }
    ensures ok { OnOk result (Appends bits.old bits.new (header_bits header)) }
    ensures memory { IfErr result (λ e. e ≡ QrError.OutOfMemory) }
{
    match header {
        Some(it) => bits.push_structured_append_header(it.position, it.total, it.parity),
        None => Ok(()),
    }
}

/// Pushes a part, whose segment is one of some bytes. It fails with `OutOfMemory`.
#[tactic(auto, using(qrcode_bits::proofs::Pushes::spellable_refused))]
fn push_part(bits: &mut Bits, bytes: &[u8], part: PlanPart) -> QrResult<()>
    requires lies { LiesWithin (length bytes.now) part }
    requires spelled { IsPartSpelled (part_of bytes.now part) bits.old.version }
    ensures ok { OnOk result (SpellsParts bits.old bits.new (part_of bytes.now part ∷ [])) }
    ensures memory { IfErr result (λ e. e ≡ QrError.OutOfMemory) }
{
    match part {
        PlanPart::Designator(number) => bits.push_eci_designator(number),
        PlanPart::Segment { mode, begin, end } => {
            let text = &bytes[begin..end];
            match mode {
                Mode::Numeric => bits.push_numeric_data(text),
                Mode::Alphanumeric => bits.push_alphanumeric_data(text),
                Mode::Byte => bits.push_byte_data(text),
                Mode::Kanji => bits.push_kanji_data(text),
            }
        }
    }
}

/// Returns the bits of a header, if there is one, and after them those of the parts of a plan, which
/// a version can spell. It fails with `OutOfMemory`.
pub(crate) fn plan_bits(
    alloc: Global,
    header: Option<PieceHeader>,
    plan: &TextPlan,
    version: Version,
) -> QrResult<Bits>
    requires number { HasMicroNumber version }
    requires header { HasHeader version header }
    requires spelled { All (λ part. IsPartSpelled part version) (plan_parts plan.now) }
    ensures bits { IfOk result (λ bits.
        bits.bits ≡ headed_bits version header (plan_parts plan.now)) }
    ensures version { IfOk result (λ bits. bits.version ≡ version) }
    ensures memory { IfErr result (λ e. e ≡ QrError.OutOfMemory) }
{
    let bytes = plan.bytes();
    let parts = plan.parts();
    let mut bits = Bits::new(alloc, version);
    push_header(&mut bits, header)?;
    for part in parts {
        push_part(&mut bits, bytes, *part)?;
    }
    Ok(bits)
}
