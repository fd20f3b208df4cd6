//! The best symbol of bytes without the Kanji mode.
ghost use Rattle.std.specs.Prelude.{◌≤◌, length, IfErr, IfOk, OnOk};
ghost use Rattle.qrcode_base.specs.declared.symbols.TheConstants.{LONGEST_DATA};
ghost use Rattle.qrcode_core.specs.Options.{HasVersions};
ghost use Rattle.qrcode_core.specs.Symbol.{TellsReading};
ghost use Rattle.smallest_symbols.specs.ByteHeadline.{IsAsAskedWithoutKanji, IsRefusedWithoutKanji};

use crate::byte_choice::chosen_plan;
use crate::byte_drawing::drawn_plan;
use crate::versions::{level_of, versions_of};
use qrcode_base::symbols::LONGEST_DATA;
use qrcode_base::types::{QrError, QrResult, Version};
use qrcode_core::SymbolOptions;
use qrcode_core::symbol::Symbol;
use std::alloc::Global;

/// Returns the symbol of the bytes that the options ask for, without the Kanji mode: the best one
/// at their level in their versions, or with `strongest` at the greatest level at which it is no
/// larger (ISO/IEC 18004:2006, encode procedure).
///
/// The bytes are written in the Numeric, the Alphanumeric and the Byte mode, and no other way to
/// cut them into segments of these modes takes fewer bits. No symbol of these versions that is read
/// as the bytes at the level, without the Kanji mode, is smaller, nor has fewer payload bits in the
/// same version. Where no two neighbouring bytes are a pair of the Kanji mode, as in ASCII, that of
/// `Symbol::bytes_with` is as large (`laws::nothing_is_lost_without_pairs`).
///
/// # Errors
///
/// It fails with `InvalidResourceLimits` for versions that `SymbolOptions::validate` rejects, then
/// with `DataTooLong` only where the bytes do not fit the greatest version without the Kanji
/// mode; more than 7089 bytes fail without an allocation. It fails with `OutOfMemory` where an
/// allocation failed.
pub fn bytes_without_kanji(alloc: Global, bytes: &[u8], options: &SymbolOptions) -> QrResult<Symbol>
    ensures asked { IfOk result (λ symbol.
        IsAsAskedWithoutKanji options.now bytes.now symbol.modules) }
    ensures reading { IfOk result TellsReading }
    ensures range { OnOk result (HasVersions options.now) }
    ensures limit { OnOk result (length bytes.now ≤ LONGEST_DATA) }
    ensures refusal { IfErr result (IsRefusedWithoutKanji options.now bytes.now) }
{
    let (least, limit) = versions_of(options)?;
    if bytes.len() > LONGEST_DATA {
        return Err(QrError::DataTooLong);
    }
    let choice = chosen_plan(alloc, bytes, options.level, least, limit)?;
    let level = level_of(options, choice.bits, choice.number);
    let version = Version::Normal(choice.number as i16);
    drawn_plan(alloc, bytes, &choice.plan, version, level)
}
