//! Grids of the product in the form that the plain reader takes, and a hash of a grid.
use plain_reader::Seen;
use qrcode_core::types::Color;
use std::alloc::Global;

/// Returns the modules of a grid: `true` for a dark one.
pub(crate) fn modules_of(alloc: Global, grid: &[Color]) -> Option<Vec<bool>> {
    let mut modules = Vec::with_capacity(alloc, grid.len()).ok()?;
    for color in grid {
        modules.push(matches!(color, Color::Dark)).ok()?;
    }
    Some(modules)
}

/// Returns what the plain reader reads from a grid.
pub(crate) fn read(alloc: Global, grid: &[Color]) -> Option<Seen> {
    plain_reader::read(alloc, &modules_of(alloc, grid)?)
}

/// Returns a hash of the modules (FNV-1a, one byte for each module).
pub(crate) fn hash(grid: &[Color]) -> u32 {
    let mut sum = 0x811c_9dc5u32;
    for color in grid {
        sum = (sum ^ u32::from(*color == Color::Dark)).wrapping_mul(0x0100_0193);
    }
    sum
}
