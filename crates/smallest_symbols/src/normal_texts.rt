//! The smallest Normal symbol of a text.
ghost use Rattle.std.specs.Prelude.{◌≡◌, ◌≤◌, length, chars, IfErr, IfOk, OnOk};
ghost use Rattle.qrcode_base.specs.declared.symbols.TheConstants.{LONGEST_DATA};
ghost use Rattle.qrcode_core.specs.Options.{HasVersions};
ghost use Rattle.smallest_symbols.specs.TextHeadline.{IsTextAsAsked, IsTextRefused};
ghost use Rattle.smallest_symbols.specs.TextHeadline.{TellsTextReading};

use crate::text_choice::chosen_plan;
use crate::text_drawing::drawn_plan;
use crate::versions::{level_of, versions_of};
use qrcode_base::symbols::LONGEST_DATA;
use qrcode_base::types::{QrError, QrResult, Version};
use qrcode_core::SymbolOptions;
use qrcode_core::symbol::Symbol;
use std::alloc::Global;

/// Returns the number of characters of a text.
pub fn char_count(text: &str) -> usize
    ensures { result ≡ length (chars text.now) }
{
    text.chars().count()
}

/// Returns the symbol of a text that the options ask for: the smallest one at their level in their
/// versions, or with `strongest` at the greatest level at which it is no larger (ISO/IEC
/// 18004:2006, encode procedure).
///
/// The text is written in the modes, and after the ECI designators, that take the fewest bits. A
/// reader that follows the standard finds the text in it, and the version, the level and the mask
/// that the symbol returns; no symbol of these versions that is read as the text at the level is
/// smaller, nor has fewer payload bits in the same version. (`IsReadAs` of `character_sets` says
/// which data are read as a text.)
///
/// # Errors
///
/// It fails with `InvalidResourceLimits` for versions that `SymbolOptions::validate` rejects, then
/// with `DataTooLong` only where nothing that is read as the text fits the greatest version;
/// more than 7089 characters fail without an allocation. It fails with `OutOfMemory` where an
/// allocation failed.
pub fn smallest_text(alloc: Global, text: &str, options: &SymbolOptions) -> QrResult<Symbol>
    ensures asked { IfOk result (λ symbol.
        IsTextAsAsked options.now (chars text.now) symbol.modules) }
    ensures reading { IfOk result TellsTextReading }
    ensures range { OnOk result (HasVersions options.now) }
    ensures limit { OnOk result (length (chars text.now) ≤ LONGEST_DATA) }
    ensures refusal { IfErr result (IsTextRefused options.now (chars text.now)) }
{
    let (least, limit) = versions_of(options)?;
    if char_count(text) > LONGEST_DATA {
        return Err(QrError::DataTooLong);
    }
    let choice = chosen_plan(alloc, text, options.level, least, limit)?;
    let level = level_of(options, choice.bits, choice.number);
    let version = Version::Normal(choice.number as i16);
    drawn_plan(alloc, None, &choice.plan, version, level)
}
