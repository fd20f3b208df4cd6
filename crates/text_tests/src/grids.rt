//! What the plain reader reads from a symbol.
use plain_reader::Seen;
use qrcode_core::symbol::Symbol;
use qrcode_core::types::Color;
use std::alloc::Global;

/// Returns the modules of a grid: `true` for a dark one.
fn modules_of(alloc: Global, grid: &[Color]) -> Option<Vec<bool>> {
    let mut modules = Vec::with_capacity(alloc, grid.len()).ok()?;
    for color in grid {
        modules.push(matches!(color, Color::Dark)).ok()?;
    }
    Some(modules)
}

/// Returns what the plain reader reads from a symbol.
pub(crate) fn read(alloc: Global, symbol: Symbol) -> Option<Seen> {
    plain_reader::read(alloc, &modules_of(alloc, &symbol.into_colors())?)
}
