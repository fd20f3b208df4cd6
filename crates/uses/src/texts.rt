//! The smallest symbols of a text, by `smallest_symbols`.
ghost use Rattle.std.specs.Prelude.{◌⊎◌, ℕ, List, map, All, chars, IfOk};
ghost use Rattle.qrcode_bits.specs.Plans.{micro};
ghost use Rattle.qrcode_core.specs.Symbol.{modules_of};
ghost use Rattle.smallest_symbols.specs.TextCuts.{AreBestTextCuts};
ghost use Rattle.smallest_symbols.specs.TextMessages.{AreSmallestTextSymbols};
ghost use Rattle.smallest_symbols.specs.TextHeadline.{IsSmallestInRange, IsSmallestText};
ghost use Rattle.smallest_symbols.specs.TextHeadline.{TellsTextReading};

use qrcode_core::SymbolOptions;
use qrcode_core::symbol::Symbol;
use qrcode_core::types::{EcLevel, QrError, QrResult};
use smallest_symbols::{
    MicroTextError, micro_text, smallest_text, smallest_text_cuts, smallest_text_sequence,
};
use std::alloc::Global;

/// Returns the symbol of a text at level M: the smallest Micro symbol, or the smallest Normal one
/// where no Micro symbol is read as the text or has room for it.
pub fn name_tag(alloc: Global, text: &str) -> QrResult<Symbol>
    ensures smallest { IfOk result (λ symbol.
        IsSmallestText micro (chars text.now) EcLevel.M symbol.modules
        ⊎ IsSmallestInRange (chars text.now) EcLevel.M 1 40 symbol.modules) }
    ensures reading { IfOk result TellsTextReading }
{
    match micro_text(alloc, text, EcLevel::M) {
        Ok(symbol) => Ok(symbol),
        Err(MicroTextError::Symbol(QrError::OutOfMemory)) => Err(QrError::OutOfMemory),
        Err(_) => smallest_text(alloc, text, &SymbolOptions::new(EcLevel::M)),
    }
}

/// Returns the symbols of a text that is too long for one, at level M, as few as can be, each the
/// smallest of its part in the manner in which all are written.
pub fn leaflet(alloc: Global, text: &str) -> QrResult<Vec<Symbol>>
    ensures fewest { IfOk result (λ symbols. (cuts : List ℕ)
        × AreBestTextCuts text.now EcLevel.M 40 cuts
        × AreSmallestTextSymbols text.now cuts EcLevel.M 40 (map modules_of symbols.items)) }
    ensures reading { IfOk result (λ symbols. All TellsTextReading symbols.items) }
{
    let cuts = smallest_text_cuts(alloc, text, EcLevel::M, 40)?;
    smallest_text_sequence(alloc, text, &cuts, EcLevel::M, 40)
}
