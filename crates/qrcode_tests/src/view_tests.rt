//! Tests of views and limits, with types that implement the traits.
ghost use Rattle.std.specs.Prelude.{◌≡◌, if◌then◌else◌, length, Ok, [], ◌∷◌};
ghost use Rattle.qrcode_core.specs.declared.types.Color.TheVariants.{Dark, Light};
ghost use Rattle.qrcode_core.specs.declared.types.EcLevel.TheVariants.{Q};
ghost use Rattle.qrcode_core.specs.Grids.{grid_of};

use qrcode_core::limits::ResourceLimits;
use qrcode_core::plugin::{ModuleGrid, PluginError};
use qrcode_core::traits::{
    Builder, Encoder, ModuleSource, ModuleStorage, ModuleView, QrCodeRef, QrSymbol, Renderer,
};
use qrcode_core::types::{Color, EcLevel, QrError, Version};
use std::alloc::{AllocError, Global};
use std::process::Abort;

/// The symbol of `12345` in M1, one number per row, dark as one.
static SYMBOL: [u16; 11] = [
    0b11111110101,
    0b10000010110,
    0b10111010100,
    0b10111010000,
    0b10111010111,
    0b10000010011,
    0b11111110100,
    0b00000000011,
    0b11001110011,
    0b01010001100,
    0b11110000011,
];

/// The text that is printed of it.
static PRINTED: [&str; 11] = [
    "#######.#.#",
    "#.....#.##.",
    "#.###.#.#..",
    "#.###.#....",
    "#.###.#.###",
    "#.....#..##",
    "#######.#..",
    ".........##",
    "##..###..##",
    ".#.#...##..",
    "####.....##",
];

/// Returns a list of colours, dark where the text has `#`.
fn colors(alloc: Global, text: &str) -> Result<Vec<Color>, AllocError> {
    let mut list = Vec::new(alloc);
    for byte in text.as_bytes() {
        list.push(if *byte == b'#' {
            Color::Dark
        } else {
            Color::Light
        })?;
    }
    Ok(list)
}

/// Returns the colours of the symbol.
fn symbol_colors(alloc: Global) -> Result<Vec<Color>, AllocError> {
    let mut list = Vec::new(alloc);
    for row in &SYMBOL {
        for column in 0..11u32 {
            let is_dark = (row >> (10 - column)) & 1 == 1;
            list.push(if is_dark { Color::Dark } else { Color::Light })?;
        }
    }
    Ok(list)
}

/// Returns a text with a mark for each module: `dark` for a dark one, and a point for a light one.
pub(crate) fn text_of_marks(
    alloc: Global,
    modules: &[Color],
    dark: &str,
) -> Result<String, AllocError> {
    let mut text = String::new(alloc);
    for color in modules {
        text.push_str(color.select(dark, "."))?;
    }
    Ok(text)
}

/// A grid of two by two modules.
#[derive(Drop)]
struct Square {
    modules: [Color; 4],
}

impl ModuleStorage for Square {
    ghost grid = { λ s. grid_of s.modules 2 2 };

    fn get(&self, x: usize, y: usize) -> Color {
        self.modules[y * 2 + x]
    }

    fn set(&mut self, x: usize, y: usize, color: Color) {
        self.modules[y * 2 + x] = color;
    }

    fn width(&self) -> usize {
        2
    }

    fn height(&self) -> usize {
        2
    }

    fn modules(&self) -> &[Color] {
        &self.modules
    }
}

/// A grid of two rows of three modules, with one more in the list that is not part of the grid.
#[derive(Drop)]
struct Longer {
    modules: [Color; 7],
}

impl ModuleSource for Longer {
    ghost grid = { λ s. grid_of s.modules 3 2 };

    fn get(&self, x: usize, y: usize) -> Color {
        self.modules[y * 3 + x]
    }

    fn width(&self) -> usize {
        3
    }

    fn height(&self) -> usize {
        2
    }

    fn modules(&self) -> &[Color] {
        &self.modules
    }
}

/// A row of one light module, or of none.
#[derive(Clone, Copy)]
struct Column {
    is_there: bool,
}

impl ModuleSource for Column {
    ghost grid = { λ s. if s.is_there then grid_of (Light ∷ []) 1 1 else grid_of [] 0 1 };

    fn get(&self, _x: usize, _y: usize) -> Color {
        if self.is_there {
            Color::Light
        } else {
            Color::Dark
        }
    }

    fn width(&self) -> usize {
        if self.is_there { 1 } else { 0 }
    }

    fn height(&self) -> usize {
        1
    }

    fn modules(&self) -> &[Color] {
        if self.is_there { &[Color::Light] } else { &[] }
    }
}

/// A grid of one module that claims to be a symbol.
struct Spot(Version);

impl ModuleSource for Spot {
    ghost grid = { λ _. grid_of (Dark ∷ []) 1 1 };

    fn get(&self, _x: usize, _y: usize) -> Color {
        Color::Dark
    }

    fn width(&self) -> usize {
        1
    }

    fn height(&self) -> usize {
        1
    }

    fn modules(&self) -> &[Color] {
        &[Color::Dark]
    }
}

impl QrSymbol for Spot {
    ghost version_of = { λ s. s.0 };

    ghost level_of = { λ _. Q };

    fn version(&self) -> Version {
        self.0
    }

    fn error_correction_level(&self) -> EcLevel {
        EcLevel::Q
    }
}

/// A renderer that writes a mark for each module.
struct Marks;

impl<Code: ModuleSource> Renderer<Code> for Marks {
    type Output = String;

    type Error = AllocError;

    ghost renders = { λ _ _ _. Unit {0} };

    fn render(&self, alloc: Global, code: &Code) -> Result<String, AllocError> {
        text_of_marks(alloc, code.modules(), "#")
    }
}

/// An encoder that returns the number of bytes.
struct Count;

impl Encoder for Count {
    type Output = usize;

    type Error = QrError;

    ghost encodes = { λ _ input r. r ≡ Ok (length input) };

    fn encode(&self, _alloc: Global, input: &[u8]) -> Result<usize, QrError> {
        Ok(input.len())
    }
}

/// A builder of a grid of one module.
#[derive(Drop)]
struct Lone(Color);

impl Builder for Lone {
    type Output = ModuleGrid;

    type Error = PluginError;

    ghost builds = { λ _ _. Unit {0} };

    fn build(self, alloc: Global) -> Result<ModuleGrid, PluginError> {
        let mut modules = Vec::new(alloc);
        modules.push(self.0)?;
        ModuleGrid::new(modules, 1, 1)
    }
}

/// Returns a grid of the modules in the text.
pub(crate) fn grid_of_text(
    alloc: Global,
    text: &str,
    width: usize,
    height: usize,
) -> Result<ModuleGrid, PluginError> {
    ModuleGrid::new(colors(alloc, text)?, width, height)
}

/// The greatest version, the greatest size and the milliseconds of limits, and whether they
/// are valid.
static LIMITS: [(Version, (u32, u32), Option<u64>, bool); 8] = [
    (Version::Normal(40), (4096, 4096), None, true),
    (Version::Normal(1), (1, 1), Some(1), true),
    (Version::Normal(0), (1, 1), None, false),
    (Version::Normal(41), (1, 1), None, false),
    (Version::Micro(4), (1, 1), None, false),
    (Version::Normal(40), (0, 1), None, false),
    (Version::Normal(40), (1, 0), None, false),
    (Version::Normal(40), (1, 1), Some(0), false),
];

#[test]
fn limits_are_validated(rt: HostRuntime) {
    for (version, size, time, want) in &LIMITS {
        let mut limits = ResourceLimits::new(7089, *version, *size);
        if let Some(millis) = *time {
            limits = limits.with_encoding_timeout_millis(millis);
        }
        assert_eq!(rt; limits.validate().is_ok(), *want);
    }
    let default = ResourceLimits::new(7089, Version::Normal(40), (4096, 4096));
    assert!(rt; ResourceLimits::default() == default);
}

/// Three by three modules.
static NINE: [Color; 9] = [
    Color::Dark,
    Color::Dark,
    Color::Light,
    Color::Light,
    Color::Dark,
    Color::Light,
    Color::Dark,
    Color::Light,
    Color::Dark,
];

#[test]
fn views_lend_rows(rt: HostRuntime) {
    let view = ModuleView::new(&NINE, 3).expect(&rt, "no view");
    let lower = view.row_range(1, 3).expect(&rt, "no rows");
    assert!(rt; lower.modules() == &NINE[3..] && lower.height() == 2 && lower.width() == 3);
    assert!(rt; view.row_range(2, 2).is_none() && view.row_range(2, 4).is_none());
    assert!(rt; view.row(1) == &NINE[3..6] && view.get(1, 1) == Color::Dark && !view.is_empty());
}

#[test]
fn views_fit_their_modules(rt: HostRuntime) {
    assert!(rt; ModuleView::new(&NINE, 4).is_none() && ModuleView::new(&[], 0).is_none());
    assert!(rt; ModuleView::new_rect(&NINE, usize::MAX, 2).is_none());
}

#[test]
fn flat_view_lends_rows(rt: HostRuntime) {
    let flat = ModuleView::new_rect(&NINE[..6], 3, 2).expect(&rt, "no view");
    assert!(rt; flat.width() == 3 && flat.height() == 2 && flat.modules() == &NINE[..6]);
    assert!(rt; flat.get(2, 1) == Color::Light && flat.get(1, 1) == Color::Dark);
}

#[test]
fn lent_symbols_keep_version_and_level(rt: HostRuntime) {
    let list = symbol_colors(rt.alloc()).expect(&rt, "memory");
    micro_symbol_is_lent(&rt, &list);
    let normal = QrCodeRef::new(&list, 11, Version::Normal(1), EcLevel::H);
    assert_eq!(rt; normal.expect(&rt, "no symbol").quiet_zone(), 4);
    assert!(rt; QrCodeRef::new(&list, 12, Version::Micro(1), EcLevel::L).is_none());
    assert!(rt; QrCodeRef::new(&[], usize::MAX, Version::Normal(1), EcLevel::L).is_none());
}

/// A borrowed Micro symbol has its version, level, quiet zone and modules.
fn micro_symbol_is_lent(rt: &impl Abort, list: &[Color]) {
    let micro = QrCodeRef::new(list, 11, Version::Micro(1), EcLevel::L).expect(rt, "no symbol");
    assert!(rt; micro.version() == Version::Micro(1) && micro.quiet_zone() == 2);
    assert!(rt; micro.error_correction_level() == EcLevel::L);
    assert!(rt; ModuleView::new(list, 11) == Some(micro.module_view()));
}

#[test]
fn a_renderer_prints_modules(rt: HostRuntime) {
    let four = [Color::Dark, Color::Light, Color::Light, Color::Dark];
    let view = ModuleView::new(&four, 2).expect(&rt, "no view");
    marks_are(&rt, rt.alloc(), &view, "#..#");
    let list = symbol_colors(rt.alloc()).expect(&rt, "memory");
    let symbol = ModuleView::new(&list, 11).expect(&rt, "no view");
    for (y, line) in PRINTED.iter().enumerate() {
        let row = symbol.row_range(y, y + 1).expect(&rt, "no row");
        marks_are(&rt, rt.alloc(), &row, line);
    }
}

/// Checks the marks of a view.
fn marks_are(rt: &impl Abort, alloc: Global, view: &ModuleView, text: &str) {
    let marks = Marks.render(alloc, view).expect(rt, "memory");
    assert_eq!(rt; marks.as_str(), text);
}

#[test]
fn own_objects_serve(rt: HostRuntime) {
    let mut square = Square {
        modules: [Color::Light; 4],
    };
    square.set(1, 0, Color::Dark);
    assert!(rt; square.row(0) == [Color::Light, Color::Dark].as_slice());
    let marks = Marks.render(rt.alloc(), &square).expect(&rt, "memory");
    assert_eq!(rt; marks.as_str(), ".#..");
}

#[test]
fn own_rows_serve(rt: HostRuntime) {
    let longer = Longer {
        modules: [Color::Dark; 7],
    };
    assert!(rt; longer.row(1) == [Color::Dark; 3].as_slice());
    assert!(rt; longer.modules().len() == 7 && !longer.is_empty());
}

#[test]
fn own_symbols_serve(rt: HostRuntime) {
    is_spot(&rt, &Spot(Version::Normal(3)), 4);
    is_spot(&rt, &Spot(Version::Micro(3)), 2);
}

/// Checks a symbol of one dark module at level Q with this quiet zone.
fn is_spot<S: QrSymbol>(rt: &impl Abort, symbol: &S, zone: u32) {
    assert_eq!(rt; symbol.quiet_zone(), zone);
    assert!(rt; symbol.error_correction_level() == EcLevel::Q);
    assert!(rt; symbol.modules() == [Color::Dark].as_slice() && !symbol.is_empty());
}

#[test]
fn own_sources_without_columns_serve(rt: HostRuntime) {
    let none = Column { is_there: false };
    assert!(rt; none.is_empty() && none.modules().len() == 0);
    assert!(rt; none.height() == 1 && none.row(0).len() == 0);
    let one = Column { is_there: true };
    assert!(rt; !one.is_empty() && one.get(0, 0) == Color::Light);
}

#[test]
fn own_encoders_and_builders_serve(rt: HostRuntime) {
    assert!(rt; Count.encode(rt.alloc(), b"abc") == Ok(3));
    let lone = Lone(Color::Dark).build(rt.alloc()).expect(&rt, "a grid");
    assert!(rt; ModuleStorage::modules(&lone) == [Color::Dark].as_slice());
}

/// Texts, with a width and a height that they do not fill.
static MISFITS: [(&str, usize, usize); 4] = [
    ("", usize::MAX, 2),
    ("", 0, 2),
    ("##", 2, 0),
    ("##.", 2, 2),
];

#[test]
fn grids_fit_their_sides(rt: HostRuntime) {
    for (text, width, height) in &MISFITS {
        let refused = grid_of_text(rt.alloc(), text, *width, *height).err();
        assert_eq!(rt; refused, Some(PluginError::InvalidModuleGrid));
    }
}

#[test]
fn copies_of_grids_are_their_own(rt: HostRuntime) {
    let mut grid = grid_of_text(rt.alloc(), "#..#.#", 3, 2).expect(&rt, "a grid");
    let same = grid.clone(rt.alloc()).expect(&rt, "memory");
    grid.modules_mut().reverse();
    grid_shows(&rt, rt.alloc(), &grid, "#.#..#");
    grid_shows(&rt, rt.alloc(), &same, "#..#.#");
}

/// Checks the modules of a grid.
pub(crate) fn grid_shows(rt: &impl Abort, alloc: Global, grid: &ModuleGrid, text: &str) {
    let marks = text_of_marks(alloc, ModuleStorage::modules(grid), "#").expect(rt, "memory");
    assert_eq!(rt; marks.as_str(), text);
}
