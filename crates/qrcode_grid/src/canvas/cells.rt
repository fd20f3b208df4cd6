//! A module of a canvas in one byte. `Module` takes two bytes, and lanes cannot read every second
//! byte of a list at once. Contracts see a cell as its module.
ghost use Rattle.std.specs.Prelude.{◌≡◌, ◌<◌, length, map, slice_set};
ghost use Rattle.qrcode_grid.specs.Canvas.{color_of_module};

use crate::canvas::Module;
use qrcode_base::types::Color;
use std::marker::Model;

/// The kinds of modules.
#[derive(Clone, Copy, PartialEq, Eq)]
pub enum Kind {
    /// An empty module.
    Blank,

    /// A light module that no mask changes.
    White,

    /// A dark module that no mask changes.
    Black,

    /// A light data module before masking.
    Zero,

    /// A dark data module before masking.
    One,
}

/// A module in one byte.
#[derive(Clone, Copy)]
pub struct Cell {
    kind: Kind,
}

impl Model for Cell {
    ghost use Rattle.qrcode_grid.specs.declared.canvas.Module.{Module};

    ghost Value = { Module };

    ghost use Rattle.std.proofs.Common.{ap};
    ghost use Rattle.qrcode_grid.specs.Cells.{module_of, kind_of, kind_again};

    ghost view = { λ c. module_of c.kind };

    ghost inverse = { λ m. record { kind = kind_of m } };

    ghost inverse_ok = { λ c _. ap (λ k. record { kind = k }) (kind_again c.kind) };
}

/// The two cells of a row for each value of two bits; the right cell has the high bit.
static ROWS: [[Kind; 2]; 4] = [
    [Kind::Zero, Kind::Zero],
    [Kind::One, Kind::Zero],
    [Kind::Zero, Kind::One],
    [Kind::One, Kind::One],
];

impl Cell {
    ghost use Rattle.std.specs.Prelude.{◌≡◌, ◌==◌, ◌%◌, ◌/◌, ◌<◌, ◌↔◌, if◌then◌else◌, IsTrue};
    ghost use Rattle.qrcode_grid.specs.Canvas.{color_of_module};
    ghost use Rattle.qrcode_grid.specs.Masks.{masked};
    ghost use Rattle.qrcode_grid.specs.Scoring.{code_of};
    ghost use Rattle.qrcode_grid.specs.Walk.{bit_color};

    /// Returns the cell of a module.
    #[inline(always)]
    pub fn of(shown: Module) -> Cell
        ensures { result ≡ shown }
    {
        let kind = match shown {
            Module::Empty => Kind::Blank,
            Module::Masked(Color::Light) => Kind::White,
            Module::Masked(Color::Dark) => Kind::Black,
            Module::Unmasked(Color::Light) => Kind::Zero,
            Module::Unmasked(Color::Dark) => Kind::One,
        };
        Cell { kind }
    }

    /// Returns the cell of a functional module.
    #[inline(always)]
    pub fn masked(color: Color) -> Cell
        ensures { result ≡ Module.Masked color }
    {
        let kind = match color {
            Color::Light => Kind::White,
            Color::Dark => Kind::Black,
        };
        Cell { kind }
    }

    /// Returns the cell of a data module before masking.
    #[inline(always)]
    pub fn data(bit: bool) -> Cell
        ensures { result ≡ Module.Unmasked (bit_color bit) }
    {
        let kind = if bit { Kind::One } else { Kind::Zero };
        Cell { kind }
    }

    /// Returns the module.
    #[inline(always)]
    pub fn shown(self) -> Module
        ensures { result ≡ self }
    {
        match self.kind {
            Kind::Blank => Module::Empty,
            Kind::White => Module::Masked(Color::Light),
            Kind::Black => Module::Masked(Color::Dark),
            Kind::Zero => Module::Unmasked(Color::Light),
            Kind::One => Module::Unmasked(Color::Dark),
        }
    }

    /// Whether the module is empty.
    #[inline(always)]
    pub fn is_empty(self) -> bool
        ensures { IsTrue result ↔ (self ≡ Module.Empty) }
    {
        matches!(self.kind, Kind::Blank)
    }

    /// Returns the colour of the module, as `Color::from`: a comparison in place of a choice for
    /// each kind, so that lists are read in lanes.
    #[inline(always)]
    pub fn color(self) -> Color
        ensures { result ≡ color_of_module self }
    {
        if self.kind == Kind::Black || self.kind == Kind::One {
            Color::Dark
        } else {
            Color::Light
        }
    }

    /// Returns the cell after masking, as `Module::mask`, by comparisons too.
    #[inline(always)]
    pub fn mask(self, inverted: bool) -> Cell
        ensures { result ≡ masked inverted self }
    {
        let data = self.kind != Kind::White && self.kind != Kind::Black;
        let dark = self.color() == Color::Dark;
        let kind = if dark != (data & inverted) {
            Kind::Black
        } else {
            Kind::White
        };
        Cell { kind }
    }

    /// Returns 255 if the module is dark, and else 0.
    #[inline(always)]
    pub fn dark(self) -> u8
        ensures { result ≡ (if code_of self % 2 == 1 then 255 else 0) }
    {
        if self.color() == Color::Dark { 255 } else { 0 }
    }

    /// Returns 255 if a mask may invert the module, and else 0.
    #[inline(always)]
    pub fn free(self) -> u8
        ensures { result ≡ (if code_of self / 2 == 1 then 255 else 0) }
    {
        if self.kind == Kind::White || self.kind == Kind::Black {
            0
        } else {
            255
        }
    }

    /// Returns the left and the right cell of a row for two bits.
    #[inline(always)]
    pub fn row(two: usize) -> (Cell, Cell)
        requires { two < 4 }
        ensures left { result.0 ≡ Module.Unmasked (bit_color (two % 2 == 1)) }
        ensures right { result.1 ≡ Module.Unmasked (bit_color (two / 2 == 1)) }
    {
        let row = &ROWS[two];
        (Cell { kind: row[0] }, Cell { kind: row[1] })
    }
}

/// Writes the lent module back. Whoever then draws over the cells reads it again.
#[inline(always)]
pub fn settle(cells: &mut [Cell], lent: usize, slot: Module)
    requires within { lent < length cells.old }
    ensures written { cells.new ≡ slice_set cells.old lent slot }
{
    cells[lent] = Cell::of(slot);
}

/// Writes the colours of all modules.
pub fn write_shown(cells: &[Cell], colors: &mut [Color])
    requires long { length colors.old ≡ length cells.now }
    ensures { colors.new ≡ map color_of_module cells.now }
{
    for k in 0..cells.len() {
        colors[k] = cells[k].color();
    }
}
