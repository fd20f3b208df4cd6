//! Symbols and sequences, by `qrcode_core`.
ghost use Rattle.std.specs.Prelude.{IfOk, IfErr};
ghost use Rattle.qrcode_core.specs.Headline.{IsBestSymbol, IsRefusal};

use qrcode_core::symbol::symbol;
use qrcode_core::types::{Color, EcLevel, QrResult};
use std::alloc::Global;

/// Returns the modules of a label at level M.
pub fn label(alloc: Global, bytes: &[u8]) -> QrResult<Vec<Color>>
    ensures best { IfOk result (λ grid. IsBestSymbol bytes.now EcLevel.M grid.items) }
    ensures refusal { IfErr result (IsRefusal bytes.now EcLevel.M) }
{
    symbol(alloc, bytes, EcLevel::M)
}
