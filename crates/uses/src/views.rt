//! Reading a view, by `qrcode_core`.
ghost use Rattle.std.specs.Prelude.{◌≡◌, Some, IfSome};
ghost use Rattle.qrcode_core.specs.Grids.{color_at};

use qrcode_core::traits::ModuleSource;
use qrcode_core::types::Color;

/// Returns the module in the upper left corner, if there is one.
pub fn corner<S: ModuleSource>(source: &S) -> Option<Color>
    ensures { IfSome result (λ color. color_at (S.grid source.now) 0 0 ≡ Some color) }
{
    if source.is_empty() {
        None
    } else {
        Some(source.get(0, 0))
    }
}
