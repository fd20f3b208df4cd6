//! Symbols and grids in the format of their options, in one call.
ghost use Rattle.std.specs.Prelude.{◌≡◌, ◌≤◌, ◌<◌, ◌^◌, ◌↔◌, [], ◌∷◌, IfOk, IfSome, IsSome};
ghost use Rattle.std.specs.Option.{option_copied};
ghost use Rattle.qrcode_core.specs.Symbol.{drawn_grid};
ghost use Rattle.picture_settings.specs.Formats.{is_text_format};
ghost use Rattle.picture_settings.specs.Resolutions.{nearest, per_metre};
ghost use Rattle.grid_pictures.specs.Pictures.{IsDrawable};
ghost use Rattle.grid_pictures.specs.Picture.{shown};
ghost use Rattle.qrcode_render.specs.Drawings.{IsPictureOf, IsPictureAs};
ghost use Rattle.qrcode_render.specs.Drawings.{drawn_bytes, is_drawn_text, options_page};
ghost use Rattle.qrcode_render.specs.Labels.{IsLabel};
ghost use Rattle.qrcode_render.specs.Pdf.{pdf_document};
ghost use Rattle.qrcode_render.specs.Zpl.{least_letters};
ghost use Rattle.picture_settings.specs.declared.bounds.TheConstants.{MAX_LETTERS};

use crate::caption::{Texts, terminal_captioned};
use crate::eps::eps_captioned;
use crate::escpos::ticket;
use crate::pbm::pbm;
use crate::pdf::pdf_captioned;
use crate::png_text::png_captioned;
use crate::svg::svg_captioned;
use crate::zpl::{compressed_captioned, label_captioned};
use grid_pictures::picture::Picture;
use picture_settings::draw_options::DrawOptions;
use picture_settings::format::Format;
use picture_settings::options::RenderOptions;
use qrcode_core::symbol::Symbol;
use qrcode_core::traits::ModuleSource;
use std::alloc::{AllocError, Global};

/// Returns the picture of a symbol, in the format of the options. It fails only for lack of memory.
pub fn draw(alloc: Global, symbol: &Symbol, options: &DrawOptions) -> Result<Vec<u8>, AllocError>
    ensures { IfOk result (λ bytes. IsPictureOf options.now (drawn_grid symbol.now) bytes.items) }
{
    let picture = Picture::of_symbol(symbol, shape(options));
    draw_picture(alloc, &picture, options)
}

/// Returns the picture of a grid, in the format of the options, or `None` unless the grid has 1 to
/// `MAX_MODULES` columns and rows. It fails only for lack of memory.
pub fn draw_grid<S: ModuleSource>(
    alloc: Global,
    source: &S,
    options: &DrawOptions,
) -> Result<Option<Vec<u8>>, AllocError>
    ensures shown { IfOk result (λ drawn. IfSome drawn (λ bytes.
        IsPictureOf options.now (S.grid source.now) bytes.items)) }
    ensures small { IfOk result (λ drawn. IsSome drawn ↔ IsDrawable (S.grid source.now)) }
{
    let Some(picture) = Picture::of_source(source, shape(options)) else {
        return Ok(None);
    };
    Ok(Some(draw_picture(alloc, &picture, options)?))
}

/// A picture in a format.
#[derive(Debug, Drop)]
pub(crate) enum Drawn {
    /// A picture in a format that is text.
    Text(String),
    /// A picture in a format that is bytes.
    Bytes(Vec<u8>),
}

/// Returns the bytes of the picture in the format of the options.
fn draw_picture(
    alloc: Global,
    picture: &Picture,
    options: &DrawOptions,
) -> Result<Vec<u8>, AllocError>
    ensures { IfOk result (λ bytes.
        IsPictureAs options.now.format options.now (shown picture.now) bytes.items) }
{
    match draw_as(alloc, picture, options)? {
        Drawn::Text(text) => Ok(text.into_bytes()),
        Drawn::Bytes(bytes) => Ok(bytes),
    }
}

/// Returns the picture in the format of the options.
pub(crate) fn draw_as(
    alloc: Global,
    picture: &Picture,
    options: &DrawOptions,
) -> Result<Drawn, AllocError>
    ensures shown { IfOk result (λ drawn.
        IsPictureAs options.now.format options.now (shown picture.now) (drawn_bytes drawn)) }
    ensures text { IfOk result (λ drawn. is_drawn_text drawn ≡ is_text_format options.now.format) }
{
    match options.format {
        Format::Terminal => {
            let (inverted, caption) = (options.inverted, options.caption);
            let text = terminal_captioned(alloc, picture, inverted, caption)?;
            Ok(Drawn::Text(text))
        }
        Format::Svg => {
            let (module_um, texts) = (options.module_um, texts(options));
            let text = svg_captioned(alloc, picture, module_um, texts, options.colors)?;
            Ok(Drawn::Text(text))
        }
        Format::Png => {
            let (per_metre, texts) = (pixels_per_metre(options), texts(options));
            let bytes = png_captioned(alloc, picture, per_metre, texts, options.colors)?;
            Ok(Drawn::Bytes(bytes))
        }
        Format::Pbm => Ok(Drawn::Bytes(pbm(alloc, picture)?)),
        Format::Eps => {
            let (module_um, texts) = (options.module_um, texts(options));
            let text = eps_captioned(alloc, picture, module_um, texts, options.colors)?;
            Ok(Drawn::Text(text))
        }
        Format::EscPos => {
            let bytes = ticket(alloc, picture, options.feed, options.cut)?;
            Ok(Drawn::Bytes(bytes))
        }
        Format::Zpl => Ok(Drawn::Bytes(zpl(alloc, picture, options)?)),
        Format::Pdf => Ok(Drawn::Bytes(pdf(alloc, picture, options)?)),
    }
}

/// Returns the texts of the options.
fn texts<'a>(options: &DrawOptions<'a>) -> Texts<'a>
    ensures title { option_copied result.title ≡ option_copied options.now.title }
    ensures caption { option_copied result.caption ≡ option_copied options.now.caption }
{
    Texts {
        title: options.title,
        caption: options.caption,
    }
}

/// Returns the label of the options.
fn zpl(alloc: Global, picture: &Picture, options: &DrawOptions) -> Result<Vec<u8>, AllocError>
    ensures { IfOk result (λ bytes. IsLabel options.now.compressed options.now.at
        (option_copied options.now.caption) (least_letters options.now.dpi_tenths)
        options.now.copies (shown picture.now) bytes.items) }
{
    let (at, caption, letters) = (options.at, options.caption, least_letters(options));
    if options.compressed {
        compressed_captioned(alloc, picture, at, caption, letters, options.copies)
    } else {
        label_captioned(alloc, picture, at, caption, letters, options.copies)
    }
}

/// Returns the number of dots that is 2 mm or the next more, or 0 if the options do not say how many
/// dots ten inches have.
fn least_letters(options: &DrawOptions) -> usize
    ensures exact { result ≡ least_letters options.now.dpi_tenths }
    ensures bound { result ≤ MAX_LETTERS }
{
    match options.dpi_tenths {
        Some(dpi_tenths) => (2 * dpi_tenths + 253) / 254,
        None => 0,
    }
}

/// Returns the document of the options.
fn pdf(alloc: Global, picture: &Picture, options: &DrawOptions) -> Result<Vec<u8>, AllocError>
    ensures { IfOk result (λ bytes. bytes.items ≡ pdf_document (option_copied options.now.title)
        (options_page options.now (shown picture.now) ∷ [])) }
{
    pdf_captioned(
        alloc,
        picture,
        options.module_um,
        texts(options),
        options.colors,
    )
}

/// Returns the scale and the quiet zone of the options.
pub(crate) fn shape(options: &DrawOptions) -> RenderOptions
    ensures scale { result.scale ≡ options.now.scale }
    ensures quiet { result.quiet ≡ options.now.quiet }
{
    RenderOptions {
        scale: options.scale,
        quiet: options.quiet,
    }
}

/// Returns the number of pixels in a metre, if the options say it.
fn pixels_per_metre(options: &DrawOptions) -> Option<u32>
    ensures exact { result
        ≡ per_metre options.now.scale options.now.module_um options.now.dpi_tenths }
    ensures small { IfSome result (λ n. n < 2 ^ 31) }
{
    match (options.module_um, options.dpi_tenths) {
        (Some(module_um), _) => Some(nearest(options.scale * 1_000_000, module_um)),
        (None, Some(dpi_tenths)) => Some(nearest(dpi_tenths * 1000, 254)),
        (None, None) => None,
    }
}

/// Returns the whole number that is nearest to a quotient; the greater one, if two are.
fn nearest(dividend: usize, divisor: usize) -> u32
    requires some { 0 < divisor }
    requires small { divisor < 2 ^ 20 }
    requires few { dividend < 2 ^ 26 }
    ensures exact { result ≡ nearest dividend divisor }
    ensures small { result < 2 ^ 31 }
{
    ((2 * dividend + divisor) / (2 * divisor)) as u32
}
