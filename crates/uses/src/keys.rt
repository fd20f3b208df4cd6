//! Bytes that are no text, by `smallest_symbols`.
ghost use Rattle.std.specs.Prelude.{IfOk};
ghost use Rattle.smallest_symbols.specs.ByteHeadline.{IsStrongestWithoutKanji};
ghost use Rattle.qrcode_core.specs.Symbol.{TellsReading};

use qrcode_core::SymbolOptions;
use qrcode_core::symbol::Symbol;
use qrcode_core::types::{EcLevel, QrResult};
use smallest_symbols::bytes_without_kanji;
use std::alloc::Global;

/// Returns the symbol of a key at level Q, or at H where it is no larger, for readers that show
/// pairs of bytes in the Kanji mode as characters.
pub fn key_label(alloc: Global, key: &[u8]) -> QrResult<Symbol>
    ensures strongest { IfOk result (λ symbol.
        IsStrongestWithoutKanji key.now EcLevel.Q 1 40 symbol.modules) }
    ensures reading { IfOk result TellsReading }
{
    bytes_without_kanji(alloc, key, &SymbolOptions::new(EcLevel::Q).with_strongest())
}
