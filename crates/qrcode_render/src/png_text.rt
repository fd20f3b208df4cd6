//! Pictures as PNG files with a text below them, in letters of a font of pixels.
ghost use Rattle.std.specs.Prelude.{◌≡◌, ◌≤◌, ◌<◌, ◌^◌, IfOk, IfSome, Some};
ghost use Rattle.std.specs.Option.{option_copied};
ghost use Rattle.picture_settings.specs.declared.bounds.TheConstants.{MAX_PIXELS};
ghost use Rattle.png.specs.Png.{read_png};
ghost use Rattle.grid_pictures.specs.Picture.{shown};
ghost use Rattle.grid_pictures.specs.Texts.{text_of};
ghost use Rattle.qrcode_render.specs.PngPixels.{captioned_bytes, letter_size, png_captioned};

use crate::caption::Texts;
use crate::lines::caption_lines;
use crate::png_file::{invert, palette, png_file};
use grid_pictures::bitmap::push_rows;
use grid_pictures::lettering::Lettering;
use grid_pictures::picture::Picture;
use grid_pictures::text::push_text;
use picture_settings::bounds::MAX_IMAGE_ROWS;
use picture_settings::colors::Colors;
use png::Image;
use std::alloc::{AllocError, Global};

/// Returns the picture as `png_file` does, with a text below it, if it is given, in letters of 5 by
/// 8 pixels. These are enlarged by the least whole number at which letters are 2 mm high, or 2
/// modules where the number of pixels in a metre is not given; by less where one has no room. It
/// fails for lack of memory, and where the file would have more than `MAX_IMAGE_ROWS` rows.
pub fn png_captioned(
    alloc: Global,
    picture: &Picture,
    per_metre: Option<u32>,
    texts: Texts,
    colors: Colors,
) -> Result<Vec<u8>, AllocError>
    requires { IfSome per_metre (λ n. n < 2 ^ 31) }
    ensures { IfOk result (λ file. read_png file.items ≡ Some
        (png_captioned per_metre (option_copied texts.entry.title)
        (option_copied texts.entry.caption) colors (shown picture.now))) }
{
    let Some(caption) = texts.caption else {
        return png_file(alloc, picture, per_metre, texts.title, colors);
    };
    let (width, size) = (picture.width(), letter_size(per_metre, picture));
    let lines = caption_lines(alloc, caption, (width / (5 * size)).max(1))?;
    if lines.len() > (MAX_IMAGE_ROWS - picture.height()) / (10 * size) {
        return Err(AllocError);
    }
    let text = Lettering {
        lines: &lines,
        width,
        size,
    };
    let rows = captioned_rows(alloc, picture, &text)?;
    let image = Image {
        width: width as u32,
        rows: &rows,
        count: (picture.height() + lines.len() * (10 * size)) as u32,
        repeat: 1,
        per_metre,
        palette: palette(colors),
        title: texts.title,
    };
    png::png(alloc, &image)
}

/// Returns how many pixels wide and high a pixel of the font is.
fn letter_size(per_metre: Option<u32>, picture: &Picture) -> usize
    ensures exact { result ≡ letter_size per_metre (shown picture.now) }
    ensures some { 1 ≤ result }
    ensures small { result ≤ MAX_PIXELS }
{
    let least = match per_metre {
        Some(n) => (n as usize).div_ceil(4000),
        None => picture.scale().div_ceil(4),
    };
    least.min(picture.width() / 5).max(1)
}

/// Returns the rows of pixels of a picture and of the text below it, in which 1 is white.
fn captioned_rows(alloc: Global, picture: &Picture, text: &Lettering) -> Result<Vec<u8>, AllocError>
    ensures { IfOk result (λ rows.
        rows.items ≡ captioned_bytes (shown picture.now) (text_of text.now)) }
{
    let mut rows = Vec::new(alloc);
    push_rows(alloc, &mut rows, picture)?;
    push_text(alloc, &mut rows, text)?;
    invert(rows.as_mut_slice());
    Ok(rows)
}
