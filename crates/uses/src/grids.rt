//! A grid of some data, by `qrcode_grid`.
ghost use Rattle.std.specs.Prelude.{IfOk};
ghost use Rattle.qrcode_base.specs.Symbols.{IsSymbol};
ghost use Rattle.qrcode_grid.specs.Penalty.{IsFirstLeastMask};

use qrcode_base::types::{Color, EcLevel, QrResult, Version};
use qrcode_grid::canvas::{MaskPattern, draw_symbol};
use qrcode_grid::ec::construct_codewords;
use std::alloc::Global;

/// Returns the modules of some data in a version, row by row, with their mask.
pub fn grid(
    alloc: Global,
    bytes: &[u8],
    version: Version,
    level: EcLevel,
) -> QrResult<(Vec<Color>, MaskPattern)>
    requires { IsSymbol version level }
    ensures mask { IfOk result (λ r. IsFirstLeastMask version level r.1 r.0.items) }
{
    let (interleaved, correction) = construct_codewords(alloc, bytes, version, level)?;
    let symbol = draw_symbol(alloc, version, level, &interleaved, &correction)?;
    Ok(symbol)
}
