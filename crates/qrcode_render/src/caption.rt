//! The text below a picture: its lines, their room, and the size of its characters.
ghost use Rattle.std.specs.Prelude.{◌≡◌, ◌≤◌, ◌<◌, ◌^◌, map, length, IfOk, OnOk};
ghost use Rattle.std.specs.Prelude.{◌++◌};
ghost use Rattle.std.specs.Option.{option_copied};
ghost use Rattle.std.specs.String.{string_bytes};
ghost use Rattle.picture_settings.specs.declared.bounds.TheConstants.{MAX_COLUMNS, MAX_HIGH};
ghost use Rattle.picture_settings.specs.declared.bounds.TheConstants.{MAX_LETTERS};
ghost use Rattle.grid_pictures.specs.Picture.{shown};
ghost use Rattle.qrcode_render.specs.Captions.{block_below, caption_lines, each_line, fitting};
ghost use Rattle.qrcode_render.specs.Captions.{high, high_pixels, hundredths, laid_out};
ghost use Rattle.qrcode_render.specs.Captions.{least_size, line_width, longest};
ghost use Rattle.qrcode_render.specs.Captions.{terminal_caption_line, terminal_captioned};
ghost use Rattle.qrcode_render.specs.CaptionTypes.{block_of, option_block};

use crate::block::Caption;
use crate::lines::{caption_lines, longest};
use grid_pictures::picture::Picture;
use grid_pictures::terminal::terminal;
use picture_settings::bounds::{MAX_LINES, MIN_MODULE_UM};
use std::alloc::{AllocError, Global};

/// The title of a picture and the text below it, if they are given. Newlines end lines of the text,
/// which are written one after the other on one line if they fit.
#[derive(Clone, Copy, Debug, PartialEq, Eq)]
pub struct Texts<'a> {
    pub title: Option<&'a str>,
    pub caption: Option<&'a str>,
}

/// Returns the rows of modules of a picture with the text below it.
pub(crate) fn high(caption: &Option<Caption>, rows: usize) -> usize
    requires { rows ≤ MAX_COLUMNS }
    ensures exact { result ≡ high (option_block caption.now) rows }
    ensures bound { result ≤ MAX_HIGH }
{
    match caption {
        Some(caption) => rows + caption.depth(),
        None => rows,
    }
}

/// Returns the rows of pixels of a picture with the text below it.
pub(crate) fn high_pixels(caption: &Option<Caption>, picture: &Picture) -> usize
    ensures { result ≡ high_pixels (option_block caption.now) (shown picture.now) }
{
    match caption {
        Some(caption) => picture.height() + caption.depth() * picture.scale(),
        None => picture.height(),
    }
}

/// Returns the width that a picture has for a line, counted in characters of size 1 of a font of
/// one width.
pub(crate) fn line_width(width: usize) -> usize
    requires { width < 2 ^ 32 }
    ensures { result ≡ line_width width }
{
    width * 5 / 3
}

/// Returns the greatest size of characters, at most `most`, at which this many have room.
fn fitting(most: usize, room: usize, length: usize) -> usize
    ensures exact { result ≡ fitting most room length }
    ensures bound { result ≤ most }
{
    (room / length.max(1)).min(most)
}

/// Returns a text in lines, in characters of at least and at most these sizes, where a line has
/// this room for characters of size 1.
#[tactic(auto, unfolding(crate::specs::Captions::laid_out))]
pub(crate) fn laid_out(
    alloc: Global,
    text: &str,
    least: usize,
    most: usize,
    room: usize,
) -> Result<Caption, AllocError>
    requires some { 0 < least }
    requires small { most ≤ MAX_LETTERS }
    ensures { IfOk result (λ caption. block_of caption ≡ laid_out least most room text.now) }
{
    let lines = caption_lines(alloc, text, (room / least).max(1))?;
    if lines.len() > MAX_LINES {
        return Err(AllocError);
    }
    let size = fitting(most, room, longest(&lines));
    Ok(Caption { lines, size })
}

/// Returns the least size of characters in hundredths of a module.
#[tactic(auto, using(crate::proofs::LineLemmas::least_sizes))]
fn least_size(module_um: Option<usize>) -> usize
    ensures exact { result ≡ least_size module_um }
    ensures some { 0 < result }
    ensures bound { result ≤ MAX_LETTERS }
{
    match module_um {
        Some(module_um) => 200_000usize.div_ceil(module_um.max(MIN_MODULE_UM)),
        None => 200,
    }
}

/// Returns the text below a picture, if it is given, with sizes in hundredths of a module.
pub(crate) fn block_below(
    alloc: Global,
    caption: Option<&str>,
    picture: &Picture,
    module_um: Option<usize>,
) -> Result<Option<Caption>, AllocError>
    ensures { IfOk result (λ block. option_block block
        ≡ block_below module_um (option_copied caption.entry) (shown picture.now)) }
{
    let Some(text) = caption else {
        return Ok(None);
    };
    let least = least_size(module_um);
    let room = line_width(picture.columns() * 100);
    let caption = laid_out(alloc, text, least, least.max(300), room)?;
    Ok(Some(caption))
}

/// Returns hundredths as a decimal number.
#[tactic(auto, unfolding(crate::specs::Captions::hundredths))]
pub(crate) fn hundredths(alloc: Global, n: usize) -> Result<String, AllocError>
    ensures { IfOk result (λ text. string_bytes text ≡ hundredths n) }
{
    let (whole, tenths, rest) = (n / 100, n / 10 % 10, n % 10);
    format!(in alloc; "{whole}.{tenths}{rest}")
}

/// Returns the picture as text for a terminal, with a text below it, if it is given. It fails only
/// for lack of memory.
pub(crate) fn terminal_captioned(
    alloc: Global,
    picture: &Picture,
    inverted: bool,
    caption: Option<&str>,
) -> Result<String, AllocError>
    ensures { IfOk result (λ text. string_bytes text
        ≡ terminal_captioned inverted (option_copied caption.entry) (shown picture.now)) }
{
    let mut text = terminal(alloc, picture, inverted)?;
    if let Some(caption) = caption {
        let lines = caption_lines(alloc, caption, picture.width())?;
        push_lines(&mut text, &lines)?;
    }
    Ok(text)
}

/// Appends lines, with a newline after each.
fn push_lines(text: &mut String, lines: &[String]) -> Result<(), AllocError>
    ensures { OnOk result (string_bytes text.new ≡ string_bytes text.old
        ++ each_line terminal_caption_line (map string_bytes lines.now)) }
{
    for n in 0..lines.len() {
        text.push_str(lines[n].as_str())?;
        text.push('\n')?;
    }
    Ok(())
}
