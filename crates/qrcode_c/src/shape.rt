//! The properties of a symbol besides its modules.
ghost use Rattle.std.specs.Prelude.{◌≡◌};
ghost use Rattle.qrcode_c.specs.Levels.{level_argument};
ghost use Rattle.qrcode_c.specs.Shapes.{shape_of, mask_reference};

use qrcode_core::canvas::MaskPattern;
use qrcode_core::symbol::Symbol;
use qrcode_core::traits::{ModuleSource, QrSymbol};
use qrcode_core::types::{EcLevel, Version};

/// The properties of a symbol that a call returns besides the modules.
#[repr(C)]
#[derive(Clone, Copy, Debug, PartialEq, Eq)]
pub struct Shape {
    /// The number of modules on a side: 21 to 177, or 11 to 17 for a Micro symbol.
    pub width: i32,
    /// The number of the version: 1 to 40, or 1 to 4 for a Micro symbol.
    pub version: i32,
    /// The number of the mask pattern in the format information: 0 to 7, or 0 to 3 for a
    /// Micro symbol.
    pub mask: i32,
    /// Whether the symbol is a Micro symbol.
    pub micro: bool,
    /// The number of the level: 0 to 3.
    pub level: i8,
}

/// Returns the shape of a symbol.
pub fn shape_of(symbol: &Symbol) -> Shape
    ensures { result ≡ shape_of symbol.now }
{
    let version = symbol.version();
    let number = match version {
        Version::Normal(number) | Version::Micro(number) => number,
    };
    Shape {
        width: symbol.width() as i32,
        version: i32::from(number),
        mask: mask_reference(version, symbol.mask()),
        micro: version.is_micro(),
        level: level_number(symbol.error_correction_level()),
    }
}

/// Returns the number of a level.
fn level_number(level: EcLevel) -> i8
    ensures { result ≡ level_argument level }
{
    match level {
        EcLevel::L => 0,
        EcLevel::M => 1,
        EcLevel::Q => 2,
        EcLevel::H => 3,
    }
}

/// Returns the number of a mask pattern in the format information of a version.
fn mask_reference(version: Version, mask: MaskPattern) -> i32
    ensures { result ≡ mask_reference version mask }
{
    match (version, mask) {
        (Version::Normal(_), _) => mask as i32,
        (Version::Micro(_), MaskPattern::LargeCheckerboard) => 1,
        (Version::Micro(_), MaskPattern::Diamonds) => 2,
        (Version::Micro(_), MaskPattern::Meadow) => 3,
        (Version::Micro(_), _) => 0,
    }
}
