//! The smallest Micro symbol of a text.
ghost use Rattle.std.specs.Prelude.{IfErr, IfOk, chars};
ghost use Rattle.qrcode_bits.specs.Plans.{micro};
ghost use Rattle.smallest_symbols.specs.TextHeadline.{IsMicroTextRefused, IsSmallestText};
ghost use Rattle.smallest_symbols.specs.TextHeadline.{TellsTextReading};

use crate::normal_texts::char_count;
use crate::text_choice::chosen_micro;
use crate::text_drawing::drawn_plan;
use crate::writable::is_micro_text;
use qrcode_base::types::{EcLevel, QrError, Version};
use qrcode_core::symbol::Symbol;
use std::alloc::Global;
use thiserror::Error;

/// Why a text has no Micro symbol.
#[derive(Clone, Copy, Debug, PartialEq, Eq, Error)]
pub enum MicroTextError {
    /// No Micro symbol is read as the text: it has no ECI designators, so that its characters are
    /// those of ASCII alone, or those of the Kanji mode and of ASCII but `\` and `~`.
    #[error("no Micro symbol is read as the text")]
    Unwritable,
    /// The error of the symbol.
    #[error("{0}")]
    Symbol(QrError),
}

/// No Micro symbol has more characters: M4 has at most 128 bits, and no mode takes fewer than ten
/// bits for three characters.
const MOST_CHARACTERS: usize = 38;

/// Returns the smallest Micro symbol that is read as a text at a level (ISO/IEC 18004:2006, "Micro
/// QR Code"), as `smallest_text` does. Its version is the first of M1 to M4 that has the level and
/// in which the text fits, written in the modes that take the fewest bits there.
///
/// # Errors
///
/// It fails with `Symbol(InvalidVersion)` and `Micro(4)` for level H, which no Micro version has;
/// then with `Unwritable` only where no Micro symbol is read as the text; then with
/// `Symbol(DataTooLong)` only where nothing fits any of the versions; more than 38 characters
/// fail without an allocation. It fails with `Symbol(OutOfMemory)` where an allocation failed.
pub fn micro_text(alloc: Global, text: &str, level: EcLevel) -> Result<Symbol, MicroTextError>
    ensures smallest { IfOk result (λ symbol.
        IsSmallestText micro (chars text.now) level symbol.modules) }
    ensures reading { IfOk result TellsTextReading }
    ensures refusal { IfErr result (IsMicroTextRefused level (chars text.now)) }
{
    if level == EcLevel::H {
        return Err(MicroTextError::Symbol(QrError::InvalidVersion {
            version: Version::Micro(4),
            ec_level: level,
        }));
    }
    if !is_micro_text(text) {
        return Err(MicroTextError::Unwritable);
    }
    if char_count(text) > MOST_CHARACTERS {
        return Err(MicroTextError::Symbol(QrError::DataTooLong));
    }
    let choice = match chosen_micro(alloc, text, level) {
        Ok(choice) => choice,
        Err(error) => return Err(MicroTextError::Symbol(error)),
    };
    let version = Version::Micro(choice.number as i16);
    match drawn_plan(alloc, None, &choice.plan, version, level) {
        Ok(symbol) => Ok(symbol),
        Err(error) => Err(MicroTextError::Symbol(error)),
    }
}
