//! The picture of a symbol that is turned.
ghost use Rattle.std.specs.Prelude.{◌≡◌, ◌++◌, ◌*◌, ◌<◌, ◌↔◌, Err, IfOk, IfSome, IsSome, OnOk};
ghost use Rattle.std.specs.Prelude.{flat_map, length};
ghost use Rattle.std.specs.List.{range_with_len};
ghost use Rattle.qrcode_core.specs.Symbol.{drawn_grid};
ghost use Rattle.qrcode_core.specs.Views.{view_grid};
ghost use Rattle.qrcode_render.specs.Drawings.{IsPictureOf, page_as};
ghost use Rattle.qrcode_render.specs.PdfPagesWritten.{after_page, next_page};
ghost use Rattle.grid_pictures.specs.Pictures.{IsDrawable, picture};
ghost use Rattle.grid_pictures.specs.Picture.{shown};
ghost use Rattle.picture_settings.specs.declared.bounds.TheConstants.{MAX_PDF};
ghost use Rattle.single_label.specs.Turns.{source_of, seen_row, turned};

use label_words::Turn;
use qrcode_core::symbol::Symbol;
use qrcode_core::traits::{ModuleSource, ModuleView};
use qrcode_core::types::Color;
use qrcode_render::{DrawOptions, PdfError, PdfPages, Picture, RenderOptions, draw, draw_grid};
use std::alloc::{AllocError, Global};

/// Returns the column and the row of the module that is seen in column `x` of row `y`.
fn source_of(turn: Turn, width: usize, x: usize, y: usize) -> (usize, usize)
    requires column { x < width }
    requires row { y < width }
    ensures is { result ≡ source_of turn width x y }
    ensures inside { result.0 < width }
    ensures within { result.1 < width }
{
    match turn {
        Turn::Upright => (x, y),
        Turn::Right => (y, width - 1 - x),
        Turn::Over => (width - 1 - x, width - 1 - y),
        Turn::Left => (width - 1 - y, x),
    }
}

/// Appends the colors that are seen in a row.
fn push_row(
    colors: &mut Vec<Color>,
    symbol: &Symbol,
    turn: Turn,
    y: usize,
) -> Result<(), AllocError>
    requires { y < (drawn_grid symbol.now).columns }
    ensures row { OnOk result
        (colors.new.items ≡ colors.old.items ++ seen_row turn (drawn_grid symbol.now) y) }
{
    let width = symbol.width();
    for x in 0..width {
        let (column, row) = source_of(turn, width, x, y);
        colors.push(symbol.get(column, row))?;
    }
    Ok(())
}

/// Returns the colors that are seen of a symbol, row by row.
fn turned_colors(alloc: Global, symbol: &Symbol, turn: Turn) -> Result<Vec<Color>, AllocError>
    ensures rows { IfOk result (λ colors. colors.items ≡ flat_map (seen_row turn
        (drawn_grid symbol.now)) (range_with_len 0 (drawn_grid symbol.now).columns)) }
    ensures full { IfOk result (λ colors. length colors.items
        ≡ (drawn_grid symbol.now).columns * (drawn_grid symbol.now).columns) }
{
    let width = symbol.width();
    let mut colors = Vec::new(alloc);
    for y in 0..width {
        push_row(&mut colors, symbol, turn, y)?;
    }
    Ok(colors)
}

/// Returns the picture of a symbol, which is turned. It fails only for lack of memory.
pub fn draw_turned(
    alloc: Global,
    symbol: &Symbol,
    turn: Turn,
    options: &DrawOptions,
) -> Result<Vec<u8>, AllocError>
    ensures { IfOk result (λ picture.
        IsPictureOf options.now (turned turn (drawn_grid symbol.now)) picture.items) }
{
    if turn == Turn::Upright {
        return draw(alloc, symbol, options);
    }
    let colors = turned_colors(alloc, symbol, turn)?;
    let Some(view) = ModuleView::new(&colors, symbol.width()) else {
        unreachable!();
    };
    match draw_grid(alloc, &view, options)? {
        Some(picture) => Ok(picture),
        None => unreachable!(),
    }
}

/// Returns the picture of a view, or `None` if it is larger than a symbol.
fn view_picture<'a>(view: &'a ModuleView<'a>, options: &DrawOptions) -> Option<Picture<'a>>
    ensures shown { IfSome result (λ drawn. shown drawn
        ≡ picture (view_grid view.now) options.now.scale options.now.quiet) }
    ensures small { IsSome result ↔ IsDrawable (view_grid view.now) }
{
    let (scale, quiet) = (options.scale, options.quiet);
    Picture::of_source(view, RenderOptions { scale, quiet })
}

/// Returns the next page of a document, which shows a symbol that is turned. It fails as
/// `PdfPages::page` does.
pub fn page_turned(
    alloc: Global,
    symbol: &Symbol,
    turn: Turn,
    options: &DrawOptions,
    pages: &mut PdfPages,
) -> Result<Vec<u8>, PdfError>
    ensures page { IfOk result (λ bytes. bytes.items
        ≡ next_page pages.old (page_as options.now (turned turn (drawn_grid symbol.now)))) }
    ensures after { OnOk result (pages.new
        ≡ after_page pages.old (page_as options.now (turned turn (drawn_grid symbol.now)))) }
    ensures no_room { result ≡ Err PdfError.TooLong → MAX_PDF < (after_page pages.old
        (page_as options.now (turned turn (drawn_grid symbol.now)))).size }
{
    if turn == Turn::Upright {
        return pages.page(alloc, symbol, options);
    }
    let colors = turned_colors(alloc, symbol, turn)?;
    let Some(view) = ModuleView::new(&colors, symbol.width()) else {
        unreachable!();
    };
    let Some(picture) = view_picture(&view, options) else {
        unreachable!();
    };
    pages.drawn(alloc, &picture, options)
}
