//! A label for each of many lines, by `qrcode_core`.
ghost use Rattle.std.specs.Prelude.{◌≡◌, length, IfOk};

use crate::labels::label;
use qrcode_core::traits::ModuleSource;
use qrcode_core::types::QrResult;
use std::alloc::Global;

/// Draws a label for each line and returns the widths of all in modules. Each symbol is freed
/// before the next one is drawn.
pub fn label_widths(alloc: Global, lines: &[&[u8]]) -> QrResult<Vec<usize>>
    ensures each { IfOk result (λ widths. length widths.items ≡ length lines.now) }
{
    let mut widths = Vec::with_capacity(alloc, lines.len())?;
    for line in lines {
        let symbol = label(alloc, line)?;
        widths.push(symbol.width())?;
    }
    Ok(widths)
}
