//! Labels with their version and mask, by `qrcode_core`.
ghost use Rattle.std.specs.Prelude.{◌≡◌, ◌+◌, ◌*◌, ◌≤◌, IfOk, IfErr};
ghost use Rattle.qrcode_core.specs.Symbol.{TellsReading, drawn_grid};
ghost use Rattle.qrcode_core.specs.Headline.{IsBestSymbol};
ghost use Rattle.qrcode_core.specs.Limits.{IsBestWithin, IsLimitedRefusal};

use qrcode_core::limits::ResourceLimits;
use qrcode_core::symbol::Symbol;
use qrcode_core::traits::ModuleSource;
use qrcode_core::types::{EcLevel, QrResult};
use std::alloc::Global;

/// Returns the symbol of a label at level M, with its version and its mask.
pub fn label(alloc: Global, bytes: &[u8]) -> QrResult<Symbol>
    ensures best { IfOk result (λ symbol. IsBestSymbol bytes.now EcLevel.M symbol.modules) }
    ensures reading { IfOk result TellsReading }
{
    Symbol::new(alloc, bytes, EcLevel::M)
}

/// Returns the width in pixels of a picture with `scale` pixels per module and a quiet zone of four
/// modules on each side.
pub fn picture_width(symbol: &Symbol, scale: usize) -> usize
    requires { scale ≤ 64 }
    ensures { result ≡ ((drawn_grid symbol.now).columns + 8) * scale }
{
    (symbol.width() + 8) * scale
}

/// Returns the symbol as `label` does, within limits.
pub fn small_label(alloc: Global, bytes: &[u8], limits: &ResourceLimits) -> QrResult<Symbol>
    ensures best { IfOk result (λ symbol.
        IsBestWithin limits.now bytes.now EcLevel.M symbol.modules) }
    ensures refusal { IfErr result (IsLimitedRefusal limits.now bytes.now EcLevel.M) }
{
    Symbol::with_limits(alloc, bytes, EcLevel::M, limits)
}
