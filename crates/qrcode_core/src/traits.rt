//! Traits of grids, symbols, encoders, builders and renderers, and views that lend a grid without
//! copying it.
//!
//! A renderer reads a grid through `ModuleSource`, whatever type the grid has:
//!
//! ```text
//! let view = ModuleView::new(&colors, 21)?;
//! for y in 0..view.height() {
//!     for x in 0..view.width() {
//!         let color = view.get(x, y);
//!     }
//! }
//! ```
ghost use Rattle.std.specs.Prelude.{◌≡◌, ℕ, ◌*◌, ◌<◌, ◌≤◌, ◌↔◌, ◌⊎◌, IsTrue, Some, length, List};
ghost use Rattle.std.specs.Prelude.{Result};
ghost use Rattle.std.specs.Prelude.{IfSome, IsSome};
ghost use Rattle.qrcode_base.specs.declared.types.EcLevel.{EcLevel};
ghost use Rattle.qrcode_base.specs.declared.types.Version.{Version};
ghost use Rattle.qrcode_core.specs.Grids.{Grid, IsFull, HasAllRows, color_at, row_of, with_color};
ghost use Rattle.qrcode_core.specs.Grids.{grid_of};
ghost use Rattle.qrcode_core.specs.Grids.{quiet_zone_of, rows_between};

use qrcode_base::types::{Color, EcLevel, Version};
use std::alloc::Global;

/// A borrowed list of modules, row after row, seen as a grid. Nothing is copied.
#[derive(Clone, Copy, Debug, PartialEq, Eq)]
pub struct ModuleView<'a> {
    modules: &'a [Color],
    width: usize,
    height: usize,
    ghost full: { IsFull (grid_of modules.now width height) },
    ghost wide: { 0 < width },
    ghost high: { 0 < height },
}

impl<'a> ModuleView<'a> {
    ghost use Rattle.qrcode_core.specs.Views.{view_grid};

    /// Returns the square view of this width, or `None` if the width is 0 or its square is not the
    /// length of the list.
    pub fn new(modules: &'a [Color], width: usize) -> Option<Self>
        ensures exact { IsSome result ↔ (0 < width × length modules.now ≡ width * width) }
        ensures made { IfSome result (λ v. view_grid v ≡ grid_of modules.now width width) }
    {
        Self::new_rect(modules, width, width)
    }

    /// Returns the view with these sides, or `None` if one is 0 or their product is not the length
    /// of the list.
    pub fn new_rect(modules: &'a [Color], width: usize, height: usize) -> Option<Self>
        ensures exact { IsSome result ↔
            (0 < width × 0 < height × length modules.now ≡ height * width) }
        ensures made { IfSome result (λ v. view_grid v ≡ grid_of modules.now width height) }
    {
        if width == 0 || height == 0 {
            return None;
        }
        if modules.len() != width.checked_mul(height)? {
            return None;
        }
        Some(ModuleView {
            modules,
            width,
            height,
        })
    }

    /// Returns the rows `start..end` as a view of the same list, or `None` unless `start` is less
    /// than `end` and `end` is at most the height.
    #[tactic(auto, using(crate::proofs::RowCounts::rows_length))]
    pub fn row_range(&self, start: usize, end: usize) -> Option<Self>
        ensures exact { IsSome result ↔ (start < end × end ≤ (view_grid self.now).rows) }
        ensures made { IfSome result (λ v.
            view_grid v ≡ rows_between (view_grid self.now) start end) }
    {
        if start >= end || end > self.height {
            return None;
        }
        let modules = &self.modules[start * self.width..end * self.width];
        Some(ModuleView {
            modules,
            width: self.width,
            height: end - start,
        })
    }
}

impl ModuleSource for ModuleView<'_> {
    ghost use Rattle.qrcode_core.specs.Views.{view_grid};

    ghost grid = { view_grid };

    fn get(&self, x: usize, y: usize) -> Color {
        self.modules[y * self.width + x]
    }

    fn width(&self) -> usize {
        self.width
    }

    fn height(&self) -> usize {
        self.height
    }

    fn modules(&self) -> &[Color]
        ensures list { result.now ≡ (view_grid self.now).cells }
        ensures rows { HasAllRows (view_grid self.now) }
        ensures full { IsFull (view_grid self.now) }
    {
        self.modules
    }
}

/// The borrowed modules of a symbol, with its version and level. Nothing is copied.
#[derive(Clone, Copy, Debug, PartialEq, Eq)]
pub struct QrCodeRef<'a> {
    modules: &'a [Color],
    version: Version,
    ec_level: EcLevel,
    width: usize,
    ghost full: { IsFull (grid_of modules.now width width) },
    ghost wide: { 0 < width },
}

impl<'a> QrCodeRef<'a> {
    ghost use Rattle.qrcode_core.specs.Views.{view_grid, symbol_grid, symbol_version, symbol_level};

    /// Returns the symbol of this width, or `None` if the width is 0 or its square is not the
    /// length of the list. The version and the level are not checked against the width.
    pub fn new(
        modules: &'a [Color],
        width: usize,
        version: Version,
        ec_level: EcLevel,
    ) -> Option<Self>
        ensures exact { IsSome result ↔ (0 < width × length modules.now ≡ width * width) }
        ensures made { IfSome result (λ s. symbol_grid s ≡ grid_of modules.now width width) }
        ensures version { IfSome result (λ s. symbol_version s ≡ version) }
        ensures level { IfSome result (λ s. symbol_level s ≡ ec_level) }
    {
        if width == 0 || modules.len() != width.checked_mul(width)? {
            return None;
        }
        Some(QrCodeRef {
            modules,
            version,
            ec_level,
            width,
        })
    }

    /// Returns the modules as a view of the same list.
    pub fn module_view(self) -> ModuleView<'a>
        ensures { view_grid result ≡ symbol_grid self.entry }
    {
        ModuleView {
            modules: self.modules,
            width: self.width,
            height: self.width,
        }
    }
}

impl ModuleSource for QrCodeRef<'_> {
    ghost use Rattle.qrcode_core.specs.Views.{symbol_grid};

    ghost grid = { symbol_grid };

    fn get(&self, x: usize, y: usize) -> Color {
        self.modules[y * self.width + x]
    }

    fn width(&self) -> usize {
        self.width
    }

    fn height(&self) -> usize {
        self.width
    }

    fn modules(&self) -> &[Color]
        ensures list { result.now ≡ (symbol_grid self.now).cells }
        ensures rows { HasAllRows (symbol_grid self.now) }
        ensures full { IsFull (symbol_grid self.now) }
    {
        self.modules
    }
}

impl QrSymbol for QrCodeRef<'_> {
    ghost use Rattle.qrcode_core.specs.Views.{symbol_version, symbol_level};

    ghost version_of = { symbol_version };

    ghost level_of = { symbol_level };

    fn version(&self) -> Version {
        self.version
    }

    fn error_correction_level(&self) -> EcLevel {
        self.ec_level
    }
}

/// An encoder, which turns bytes into an output of its own type.
pub trait Encoder {
    type Output;

    type Error;

    ghost encodes: { Self → List ℕ → Result Self.Output Self.Error → Type 0 };

    /// Encodes the bytes.
    fn encode(&self, alloc: Global, input: &[u8]) -> Result<Self::Output, Self::Error>
        ensures { encodes self.now input.now result };
}

/// A builder, which is turned into an output.
pub trait Builder {
    type Output;

    type Error;

    ghost builds: { Self → Result Self.Output Self.Error → Type 0 };

    /// Builds the output, and consumes the builder.
    fn build(self, alloc: Global) -> Result<Self::Output, Self::Error>
        ensures { builds self result };
}

/// A renderer, which turns a grid of modules into an output of its own type.
pub trait Renderer<Code: ModuleSource> {
    type Output;

    type Error;

    ghost renders: { Self → Grid → Result Self.Output Self.Error → Type 0 };

    /// Renders the grid of `code`.
    fn render(&self, alloc: Global, code: &Code) -> Result<Self::Output, Self::Error>
        ensures { renders self.now (Code.grid code.now) result };
}

/// A grid of modules that can be read. Columns are counted from the left and rows from the top,
/// both from 0. The quiet zone is not part of the grid.
///
/// An implementation defines by `grid` which list, width and height it has. It then proves that
/// `get` and `row` read from the list that `modules` returns: `get(x, y)` is its element
/// `y * width + x`, and `row(y)` is its elements from `y * width` on.
pub trait ModuleSource {
    ghost grid: { Self → Grid };

    /// Returns the colour in column `x` of row `y`.
    fn get(&self, x: usize, y: usize) -> Color
        requires column { x < (grid self.now).columns }
        requires row { y < (grid self.now).rows }
        ensures { color_at (grid self.now) x y ≡ Some result };

    /// Returns the number of modules in a row.
    fn width(&self) -> usize
        ensures { result ≡ (grid self.now).columns };

    /// Returns the number of rows.
    fn height(&self) -> usize
        ensures { result ≡ (grid self.now).rows };

    /// Returns all modules, row after row. Elements after the last row are not part of the grid.
    fn modules(&self) -> &[Color]
        ensures list { result.now ≡ (grid self.now).cells }
        ensures rows { HasAllRows (grid self.now) };

    /// Returns the modules of row `y`.
    fn row(&self, y: usize) -> &[Color]
        requires exists { y < (grid self.now).rows }
        ensures { result.now ≡ row_of (grid self.now) y }
    {
        let width = self.width();
        let modules = self.modules();
        let start = y * width;
        &modules[start..start + width]
    }

    /// Whether the grid has no modules: its width or its height is 0.
    fn is_empty(&self) -> bool
        ensures { IsTrue result ↔ (((grid self.now).columns ≡ 0) ⊎ ((grid self.now).rows ≡ 0)) }
    {
        self.width() == 0 || self.height() == 0
    }
}

/// The modules of a symbol, with its version and level.
pub trait QrSymbol: ModuleSource {
    ghost version_of: { Self → Version };

    ghost level_of: { Self → EcLevel };

    /// Returns the version.
    fn version(&self) -> Version
        ensures { result ≡ version_of self.now };

    /// Returns the error correction level.
    fn error_correction_level(&self) -> EcLevel
        ensures { result ≡ level_of self.now };

    /// Returns the width of the quiet zone in modules: 4 on each side, or 2 for a Micro symbol
    /// (ISO/IEC 18004:2006, "Quiet zone").
    fn quiet_zone(&self) -> u32
        ensures { result ≡ quiet_zone_of (version_of self.now) }
    {
        if self.version().is_micro() { 2 } else { 4 }
    }
}

/// A grid of modules that can be read and changed. Each type that implements this is a
/// `ModuleSource` too.
pub trait ModuleStorage {
    ghost grid: { Self → Grid };

    /// Returns the colour in column `x` of row `y`.
    fn get(&self, x: usize, y: usize) -> Color
        requires column { x < (grid self.now).columns }
        requires row { y < (grid self.now).rows }
        ensures { color_at (grid self.now) x y ≡ Some result };

    /// Sets the colour in column `x` of row `y`, and nothing else.
    fn set(&mut self, x: usize, y: usize, color: Color)
        requires column { x < (grid self.old).columns }
        requires row { y < (grid self.old).rows }
        ensures { grid self.new ≡ with_color (grid self.old) x y color };

    /// Returns the number of modules in a row.
    fn width(&self) -> usize
        ensures { result ≡ (grid self.now).columns };

    /// Returns the number of rows.
    fn height(&self) -> usize
        ensures { result ≡ (grid self.now).rows };

    /// Returns all modules, row after row.
    fn modules(&self) -> &[Color]
        ensures list { result.now ≡ (grid self.now).cells }
        ensures full { IsFull (grid self.now) };

    /// Whether the grid has no modules: its width or its height is 0.
    fn is_empty(&self) -> bool
        ensures { IsTrue result ↔ (((grid self.now).columns ≡ 0) ⊎ ((grid self.now).rows ≡ 0)) }
    {
        self.width() == 0 || self.height() == 0
    }
}

impl<T: ModuleStorage> ModuleSource for T {
    ghost grid = { T.ModuleStorage.grid };

    fn get(&self, x: usize, y: usize) -> Color {
        ModuleStorage::get(self, x, y)
    }

    fn width(&self) -> usize {
        ModuleStorage::width(self)
    }

    fn height(&self) -> usize {
        ModuleStorage::height(self)
    }

    fn modules(&self) -> &[Color]
        ensures list { result.now ≡ (T.ModuleStorage.grid self.now).cells }
        ensures rows { HasAllRows (T.ModuleStorage.grid self.now) }
        ensures full { IsFull (T.ModuleStorage.grid self.now) }
    {
        ModuleStorage::modules(self)
    }

    fn is_empty(&self) -> bool {
        ModuleStorage::is_empty(self)
    }
}
