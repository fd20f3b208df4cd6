//! The rows of pixels of lines of text, as bits: dark is 1.
ghost use Rattle.std.specs.Prelude.{◌≡◌, ◌+◌, ◌*◌, ◌/◌, ◌<◌, ◌++◌, length, OnOk};
ghost use Rattle.grid_pictures.specs.Texts.{font_rows, is_dark_in_line, is_dark_letter};
ghost use Rattle.grid_pictures.specs.Texts.{is_dark_text, letter_rows, line_start};
ghost use Rattle.grid_pictures.specs.Texts.{repeated, text_byte, text_bytes, text_of, text_row};

use crate::bitmap::zeros;
use crate::lettering::Lettering;
use crate::letters::LETTERS;
use std::alloc::{AllocError, Global};

/// Appends all rows of pixels of lines of text. It fails only for lack of memory.
pub fn push_text(alloc: Global, bytes: &mut Vec<u8>, text: &Lettering) -> Result<(), AllocError>
    ensures { OnOk result (bytes.new.items ≡ bytes.old.items ++ text_bytes (text_of text.now)
        (font_rows (text_of text.now))) }
{
    let mut line = zeros(alloc, text.width.div_ceil(8))?;
    for row in 0..10 * text.lines.len() {
        write_text_row(text, row, line.as_mut_slice());
        push_times(bytes, &line, text.size)?;
    }
    Ok(())
}

/// Appends bytes several times.
fn push_times(bytes: &mut Vec<u8>, line: &[u8], count: usize) -> Result<(), AllocError>
    ensures { OnOk result (bytes.new.items ≡ bytes.old.items ++ repeated count line.now) }
{
    for copy in 0..count {
        bytes.extend_from_slice(line)?;
    }
    Ok(())
}

/// Writes the bytes of a row of the font's pixels.
fn write_text_row(text: &Lettering, row: usize, line: &mut [u8])
    requires inside { row < font_rows (text_of text.now) }
    requires long { length line.old ≡ (text.now.width + 7) / 8 }
    ensures { line.new ≡ text_row (text_of text.now) row }
{
    for place in 0..line.len() {
        line[place] = text_byte(text, row, place);
    }
}

/// Returns eight pixels of a row of the font's pixels.
fn text_byte(text: &Lettering, row: usize, place: usize) -> u8
    requires inside { row < font_rows (text_of text.now) }
    requires within { place < (text.now.width + 7) / 8 }
    ensures { result ≡ text_byte (text_of text.now) row place }
{
    let mut byte = 0;
    for i in 0..8 {
        byte = 2 * byte + u8::from(is_dark_text(text, 8 * place + i, row));
    }
    byte
}

/// Whether the pixel in this column is dark, in a row of the font's pixels.
#[tactic(auto, unfolding(crate::specs::Texts::is_dark_text))]
fn is_dark_text(text: &Lettering, x: usize, row: usize) -> bool
    requires { row < font_rows (text_of text.now) }
    ensures { result ≡ is_dark_text (text_of text.now) x row }
{
    let line = text.lines[row / 10].as_bytes();
    let start = line_start(text, line);
    if x < start {
        return false;
    }
    is_dark_in_line(line, (x - start) / text.size, row % 10)
}

/// Returns the column of pixels in which a line begins.
fn line_start(text: &Lettering, line: &[u8]) -> usize
    ensures { result ≡ line_start (text_of text.now) line.now }
{
    let width = line.len() as u128 * (5 * text.size) as u128;
    ((text.width as u128).saturating_sub(width) / 2) as usize
}

/// Whether a pixel of a line is dark, by its column in the pixels of the font, and its row.
fn is_dark_in_line(line: &[u8], column: usize, row: usize) -> bool
    ensures { result ≡ is_dark_in_line line.now column row }
{
    match line.get(column / 5) {
        Some(letter) => is_dark_letter(*letter, column % 5, row),
        None => false,
    }
}

/// Whether a pixel of a letter is dark, by its column and its row in a line, which has a row more
/// above and below the letters.
#[tactic(auto, unfolding(crate::specs::Texts::is_dark_letter))]
fn is_dark_letter(letter: u8, column: usize, row: usize) -> bool
    requires { column < 5 }
    ensures { result ≡ is_dark_letter letter column row }
{
    let rows = letter_rows(letter);
    if row < 1 || row > 8 {
        return false;
    }
    (rows[row - 1] >> (4 - column)) % 2 == 1
}

/// Returns the rows of a letter, from the top.
fn letter_rows(letter: u8) -> &'static [u8; 8]
    ensures { result.now ≡ letter_rows letter }
{
    if letter < b' ' || letter > b'~' {
        return &LETTERS[31];
    }
    &LETTERS[usize::from(letter - b' ')]
}
