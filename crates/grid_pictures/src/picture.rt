//! A picture: a grid with its scale and its quiet zone.
ghost use Rattle.std.specs.Prelude.{ℕ, ◌≡◌, ◌+◌, ◌*◌, ◌<◌, ◌≤◌, ◌↔◌, length, IfSome, IsSome};
ghost use Rattle.picture_settings.specs.declared.bounds.TheConstants.{MIN_SCALE, MAX_SCALE};
ghost use Rattle.picture_settings.specs.declared.bounds.TheConstants.{MAX_QUIET, MAX_MODULES};
ghost use Rattle.picture_settings.specs.declared.bounds.TheConstants.{MAX_COLUMNS, MAX_PIXELS};
ghost use Rattle.picture_settings.specs.declared.bounds.TheConstants.{MAX_ROW};
ghost use Rattle.grid_pictures.specs.Pictures.{columns_of, rows_of, pixel_width, pixel_height};
ghost use Rattle.grid_pictures.specs.Pictures.{is_dark_module, is_dark_pixel};

use picture_settings::bounds::{MAX_COLUMNS, MAX_MODULES};
use picture_settings::options::RenderOptions;
use qrcode_core::symbol::Symbol;
use qrcode_core::traits::ModuleSource;
use qrcode_core::types::Color;

/// Room for a byte of each column, and for those up to a multiple of eight.
pub(crate) const ROOM: usize = MAX_COLUMNS + 7;

/// A borrowed grid, with the width of a module in pixels and the width of the light quiet zone
/// around the grid in modules. Nothing is copied.
#[derive(Clone, Copy, Debug, PartialEq, Eq)]
pub struct Picture<'a> {
    modules: &'a [Color],
    columns: usize,
    rows: usize,
    scale: usize,
    quiet: usize,
    ghost all_rows: { rows * columns ≤ length modules.now },
    ghost some_columns: { 0 < columns },
    ghost few_columns: { columns ≤ MAX_MODULES },
    ghost some_rows: { 0 < rows },
    ghost few_rows: { rows ≤ MAX_MODULES },
    ghost scaled: { MIN_SCALE ≤ scale },
    ghost small_scale: { scale ≤ MAX_SCALE },
    ghost small_zone: { quiet ≤ MAX_QUIET },
}

/// The modules of one row of a picture, without the quiet zone; none in a row of the zone.
#[derive(Clone, Copy)]
pub(crate) struct Row<'a> {
    modules: &'a [Color],
    quiet: usize,
}

impl<'a> Row<'a> {
    ghost use Rattle.std.specs.Prelude.{map, false, true};
    ghost use Rattle.std.specs.List.{range_with_len};
    ghost use Rattle.grid_pictures.specs.Rows.{IsFirstDark, dark_byte, is_dark_at};

    /// Whether there are no modules: the row is in the quiet zone, and is light.
    #[tactic(auto, using(crate::proofs::RowLemmas::light_row))]
    pub(crate) fn is_light(&self) -> bool
        ensures exact { result ≡ true ↔ length self.now.modules.now ≡ 0 }
        ensures light { result ≡ true → (column : ℕ) → is_dark_at self.now column ≡ false }
    {
        self.modules.is_empty()
    }

    /// Returns the first dark column, counted from the edge of the quiet zone.
    pub(crate) fn first_dark(&self) -> Option<usize>
        requires { self.now.quiet + length self.now.modules.now ≤ MAX_COLUMNS }
        ensures { IsFirstDark self.now result }
    {
        let modules = self.modules;
        let quiet = self.quiet;
        for i in 0..modules.len() {
            if matches!(modules[i], Color::Dark) {
                return Some(quiet + i);
            }
        }
        None
    }

    /// Writes a byte for each column, counted from the edge of the quiet zone: 255 where the
    /// module is dark, else 0.
    pub(crate) fn write_bytes(&self, line: &mut [u8])
        requires { self.now.quiet + length self.now.modules.now ≤ length line.old }
        ensures { line.new ≡ map (dark_byte self.now) (range_with_len 0 (length line.old)) }
    {
        line.fill(0);
        let modules = self.modules;
        let quiet = self.quiet;
        for i in 0..modules.len() {
            line[quiet + i] = modules[i].select(255, 0);
        }
    }
}

impl<'a> Picture<'a> {
    ghost use Rattle.qrcode_core.specs.Symbol.{drawn_grid};
    ghost use Rattle.qrcode_core.specs.Grids.{grid_of, HasAllRows};
    ghost use Rattle.grid_pictures.specs.Pictures.{picture, IsDrawable};
    ghost use Rattle.grid_pictures.specs.Bitmaps.{row_length};
    ghost use Rattle.grid_pictures.specs.Rows.{is_dark_at};
    ghost use Rattle.grid_pictures.specs.Picture.{shown};

    /// Returns the picture of a symbol.
    pub fn of_symbol(symbol: &'a Symbol, options: RenderOptions) -> Picture<'a>
        ensures { shown result ≡ picture (drawn_grid symbol.now) options.scale options.quiet }
    {
        Picture {
            columns: symbol.width(),
            rows: symbol.height(),
            modules: symbol.modules(),
            scale: options.scale,
            quiet: options.quiet,
        }
    }

    /// Returns the picture of a grid, or `None` if it has no modules, or more than `MAX_MODULES`
    /// columns or rows.
    pub fn of_grid(code: &'a dyn ModuleSource, options: RenderOptions) -> Option<Picture<'a>>
        ensures shown { IfSome result (λ drawn.
            shown drawn ≡ picture (grid code.now) options.scale options.quiet) }
        ensures small { IsSome result ↔ IsDrawable (grid code.now) }
    {
        Picture::of_modules(code.modules(), code.width(), code.height(), options)
    }

    /// Returns the picture of a grid of a type that the caller knows, as `of_grid` does.
    pub fn of_source<S: ModuleSource>(code: &'a S, options: RenderOptions) -> Option<Picture<'a>>
        ensures shown { IfSome result (λ drawn.
            shown drawn ≡ picture (S.grid code.now) options.scale options.quiet) }
        ensures small { IsSome result ↔ IsDrawable (S.grid code.now) }
    {
        Picture::of_modules(code.modules(), code.width(), code.height(), options)
    }

    /// Returns the picture of modules, row after row, or `None` if there are no columns or rows, or
    /// more than `MAX_MODULES`.
    fn of_modules(
        modules: &'a [Color],
        columns: usize,
        rows: usize,
        options: RenderOptions,
    ) -> Option<Picture<'a>>
        requires { HasAllRows (grid_of modules.now columns rows) }
        ensures shown { IfSome result (λ drawn. shown drawn
            ≡ picture (grid_of modules.now columns rows) options.scale options.quiet) }
        ensures small { IsSome result ↔ IsDrawable (grid_of modules.now columns rows) }
    {
        if columns == 0 || rows == 0 || columns > MAX_MODULES || rows > MAX_MODULES {
            return None;
        }
        Some(Picture {
            modules,
            columns,
            rows,
            scale: options.scale,
            quiet: options.quiet,
        })
    }

    /// Returns the width of a module in pixels.
    pub fn scale(&self) -> usize
        ensures exact { result ≡ (shown self.now).scale }
        ensures at_least_one { MIN_SCALE ≤ result }
        ensures bound { result ≤ MAX_SCALE }
    {
        self.scale
    }

    /// Returns the number of columns of modules, with the quiet zone.
    pub fn columns(&self) -> usize
        ensures exact { result ≡ columns_of (shown self.now) }
        ensures some { 0 < result }
        ensures bound { result ≤ MAX_COLUMNS }
    {
        self.columns + 2 * self.quiet
    }

    /// Returns the number of rows of modules, with the quiet zone.
    pub fn rows(&self) -> usize
        ensures exact { result ≡ rows_of (shown self.now) }
        ensures some { 0 < result }
        ensures bound { result ≤ MAX_COLUMNS }
    {
        self.rows + 2 * self.quiet
    }

    /// Returns the width of the picture in pixels.
    pub fn width(&self) -> usize
        ensures exact { result ≡ pixel_width (shown self.now) }
        ensures some { 0 < result }
        ensures bound { result ≤ MAX_PIXELS }
    {
        self.columns() * self.scale
    }

    /// Returns the height of the picture in pixels.
    pub fn height(&self) -> usize
        ensures exact { result ≡ pixel_height (shown self.now) }
        ensures some { 0 < result }
        ensures bound { result ≤ MAX_PIXELS }
    {
        self.rows() * self.scale
    }

    /// Returns the number of bytes of a row of pixels, eight of them in a byte.
    pub fn row_length(&self) -> usize
        ensures exact { result ≡ row_length (shown self.now) }
        ensures some { 0 < result }
        ensures bound { result ≤ MAX_ROW }
    {
        self.width().div_ceil(8)
    }

    /// Returns the modules of a row, counted from the edge of the quiet zone.
    pub(crate) fn row(&self, row: usize) -> Row<'a>
        ensures dark { (column : ℕ)
            → is_dark_at result column ≡ is_dark_module (shown self.now) column row }
        ensures inside { result.quiet + length result.modules.now ≤ columns_of (shown self.now) }
    {
        let quiet = self.quiet;
        if row < quiet || row - quiet >= self.rows {
            return Row {
                modules: &self.modules[..0],
                quiet,
            };
        }
        let start = (row - quiet) * self.columns;
        Row {
            modules: &self.modules[start..start + self.columns],
            quiet,
        }
    }

    /// Whether the module in this column and row, counted from the corner of the quiet zone,
    /// is dark.
    #[tactic(auto, unfolding(crate::specs::Pictures::is_dark_module))]
    pub fn is_dark(&self, column: usize, row: usize) -> bool
        ensures { result ≡ is_dark_module (shown self.now) column row }
    {
        if column < self.quiet || row < self.quiet {
            return false;
        }
        let (x, y) = (column - self.quiet, row - self.quiet);
        if x >= self.columns || y >= self.rows {
            return false;
        }
        matches!(self.modules[y * self.columns + x], Color::Dark)
    }

    /// Whether the pixel in this column and row is dark.
    pub fn is_dark_pixel(&self, column: usize, row: usize) -> bool
        ensures { result ≡ is_dark_pixel (shown self.now) column row }
    {
        self.is_dark(column / self.scale, row / self.scale)
    }
}
