//! The text below a picture in a content stream of PDF.
ghost use Rattle.std.specs.Prelude.{◌≡◌, ◌≤◌, ◌++◌, IfOk, OnOk};
ghost use Rattle.std.specs.String.{string_bytes};
ghost use Rattle.picture_settings.specs.declared.bounds.TheConstants.{MAX_COLUMNS, MAX_LETTERS};
ghost use Rattle.qrcode_render.specs.Captions.{each_line};
ghost use Rattle.qrcode_render.specs.CaptionTypes.{block_of, option_block};
ghost use Rattle.qrcode_render.specs.Pdf.{line_start, path_end, pdf_line, placed, text_place};
ghost use Rattle.qrcode_render.specs.Pdf.{text_start};

use crate::block::Caption;
use crate::caption::hundredths;
use picture_settings::postscript::push_string;
use std::alloc::{AllocError, Global};

/// Appends the end of the path, and the text below the picture, if there is one.
pub(crate) fn push_end(
    alloc: Global,
    content: &mut String,
    caption: &Option<Caption>,
    columns: usize,
    rows: usize,
) -> Result<(), AllocError>
    requires few_columns { columns ≤ MAX_COLUMNS }
    requires few_rows { rows ≤ MAX_COLUMNS }
    ensures { OnOk result (string_bytes content.new ≡ string_bytes content.old
        ++ path_end (option_block caption.now) columns rows) }
{
    let Some(caption) = caption else {
        return content.push_str("f");
    };
    let size = hundredths(alloc, caption.size())?;
    let start = text_start(alloc, &size)?;
    content.push_str(start.as_str())?;
    push_lines(alloc, content, caption, columns, rows)?;
    content.push_str("ET")
}

/// Appends the lines of the text below the picture.
fn push_lines(
    alloc: Global,
    content: &mut String,
    caption: &Caption,
    columns: usize,
    rows: usize,
) -> Result<(), AllocError>
    requires few_columns { columns ≤ MAX_COLUMNS }
    requires few_rows { rows ≤ MAX_COLUMNS }
    ensures { OnOk result (string_bytes content.new ≡ string_bytes content.old
        ++ each_line (pdf_line (block_of caption.now) columns rows)
        (block_of caption.now).lines) }
{
    let (lines, size) = (caption.lines(), caption.size());
    for n in 0..lines.len() {
        let line = lines[n].as_str();
        let start = hundredths(alloc, line_start(size, columns, line.len()))?;
        let place = text_place(alloc, &start, caption.line_row(rows, n))?;
        push_line(content, &place, line)?;
    }
    Ok(())
}

/// Appends a line of the text below the picture, after its place.
fn push_line(content: &mut String, place: &str, line: &str) -> Result<(), AllocError>
    ensures { OnOk result (string_bytes content.new
        ≡ string_bytes content.old ++ placed place.now line.now) }
{
    content.push_str(place)?;
    push_string(content, line)?;
    content.push_str(")Tj\n")
}

/// Returns where a line begins, in hundredths of a module.
fn line_start(size: usize, columns: usize, length: usize) -> usize
    requires small { size ≤ MAX_LETTERS }
    requires few { columns ≤ MAX_COLUMNS }
    ensures { result ≡ line_start size columns length }
{
    let width = size as u128 * length as u128 * 3 / 5;
    (((columns * 100) as u128).saturating_sub(width) / 2) as usize
}

/// Returns the place of a line.
#[tactic(auto, unfolding(crate::specs::Pdf::text_place))]
fn text_place(alloc: Global, start: &str, row: usize) -> Result<String, AllocError>
    ensures { IfOk result (λ text. string_bytes text ≡ text_place start.now row) }
{
    format!(in alloc; "1 0 0 -1 {start} {row} Tm(")
}

/// Returns the end of the path, and the command for the font, up to the lines.
#[tactic(auto, unfolding(crate::specs::Pdf::text_start))]
fn text_start(alloc: Global, size: &str) -> Result<String, AllocError>
    ensures { IfOk result (λ text. string_bytes text ≡ text_start size.now) }
{
    format!(in alloc; "f\nBT\n/F {size} Tf\n")
}
