//! A picture as one path: a rectangle for each run of dark modules in a row.
ghost use Rattle.std.specs.Prelude.{◌≡◌, ◌+◌, ◌*◌, ◌/◌, ◌≤◌, ◌<◌, ◌++◌, [], ◌∷◌, OnOk};
ghost use Rattle.std.specs.Prelude.{ℕ, codes, decimal, length, slice_index, take};
ghost use Rattle.std.specs.Str.{IsUtf8};
ghost use Rattle.std.specs.String.{string_bytes};
ghost use Rattle.picture_settings.specs.declared.bounds.TheConstants.{MAX_COLUMNS};
ghost use Rattle.grid_pictures.specs.Numbers.{word_text};
ghost use Rattle.grid_pictures.specs.Paths.{path, row_path};
ghost use Rattle.grid_pictures.specs.Runs.{EndsRun};
ghost use Rattle.grid_pictures.specs.Pens.{pdf_rectangle, rectangle_by};
ghost use Rattle.grid_pictures.specs.Pictures.{columns_of, rows_of};
ghost use Rattle.grid_pictures.specs.Picture.{shown};

use crate::numbers::NUMBERS;
use crate::pen::Pen;
use crate::picture::{Picture, ROOM};
use std::alloc::AllocError;

/// Room for the rectangles of a row: none has more than 17 bytes.
const LINE: usize = 17 * ROOM;

/// Appends the rectangles of all rows, as the format of the pen has them. It fails only for lack
/// of memory.
#[tactic(auto, using(crate::proofs::PathLemmas::paths))]
pub fn push_path(text: &mut String, picture: &Picture, pen: Pen) -> Result<(), AllocError>
    ensures { OnOk result (string_bytes text.new ≡ string_bytes text.old
        ++ path (rectangle_by pen) (shown picture.now) (rows_of (shown picture.now))) }
{
    let mut line = [0u8; LINE];
    for y in 0..picture.rows() {
        push_row(text, picture, pen, y, &mut line)?;
    }
    Ok(())
}

/// Appends the rectangles of a row. The line is written over.
fn push_row(
    text: &mut String,
    picture: &Picture,
    pen: Pen,
    y: usize,
    line: &mut [u8],
) -> Result<(), AllocError>
    requires low { y ≤ MAX_COLUMNS }
    requires room { 17 * columns_of (shown picture.now) ≤ length line.old }
    ensures { OnOk result (string_bytes text.new ≡ string_bytes text.old
        ++ row_path (rectangle_by pen) (shown picture.now) y (columns_of (shown picture.now))) }
{
    let end = write_row(line, picture, pen, y);
    if end == 0 {
        return Ok(());
    }
    match str::from_utf8(&line[..end]) {
        Ok(rectangles) => text.push_str(rectangles),
        Err(_) => unreachable!(),
    }
}

/// Writes the rectangles of a row, and returns where they end.
fn write_row(line: &mut [u8], picture: &Picture, pen: Pen, y: usize) -> usize
    requires low { y ≤ MAX_COLUMNS }
    requires room { 17 * columns_of (shown picture.now) ≤ length line.old }
    ensures text { take result line.new
        ≡ row_path (rectangle_by pen) (shown picture.now) y (columns_of (shown picture.now)) }
    ensures utf8 { IsUtf8 (take result line.new) }
    ensures within { result ≤ length line.old }
{
    let row = picture.row(y);
    if row.first_dark().is_none() {
        return 0;
    }
    let mut modules = [0u8; ROOM];
    row.write_bytes(&mut modules);
    let columns = picture.columns();
    let mut ends = [0u8; ROOM];
    write_ends(&modules, columns, &mut ends);
    let mut x = if modules[0] > 0 {
        0
    } else {
        usize::from(ends[0])
    };
    let mut end = 0;
    'runs: while x < columns {
        let stop = usize::from(ends[x]);
        end = write_rectangle(line, end, pen, (x, y), stop - x);
        x = usize::from(ends[stop]);
    }
    end
}

/// Writes for each module of a row where its run ends, of modules of its colour, and for the end of
/// the row itself. It goes from the last module to the first, so that nothing branches at the ends
/// of runs, which cannot be foreseen.
fn write_ends(modules: &[u8], columns: usize, ends: &mut [u8])
    requires few { columns ≤ MAX_COLUMNS }
    requires modules { columns < length modules.now }
    requires room { columns < length ends.old }
    ensures runs { (k : ℕ) → k < columns →
        EndsRun modules.now columns k (slice_index ends.new k) }
    ensures last { slice_index ends.new columns ≡ columns }
{
    let mut end = columns as u8;
    ends[columns] = end;
    for i in 0..columns {
        let x = columns - 1 - i;
        if (modules[x] > 0) != (modules[x + 1] > 0) {
            end = (x + 1) as u8;
        }
        ends[x] = end;
    }
}

/// Writes the rectangle of some modules of a row, and returns where it ends.
#[tactic(auto, unfolding(crate::specs::Pens::rectangle, crate::specs::Pens::eps_rectangle))]
fn write_rectangle(
    line: &mut [u8],
    start: usize,
    pen: Pen,
    at: (usize, usize),
    count: usize,
) -> usize
    requires room { start + 17 ≤ length line.old }
    requires column { at.0 ≤ MAX_COLUMNS }
    requires row { at.1 ≤ MAX_COLUMNS }
    requires few { count ≤ MAX_COLUMNS }
    ensures text { take result line.new
        ≡ take start line.old ++ rectangle_by pen at.0 at.1 count }
    ensures within { result ≤ start + 17 }
{
    match pen {
        Pen::Svg => {
            let end = write_byte(line, start, b'M');
            let end = write_number(line, end, at.0);
            let end = write_byte(line, end, b' ');
            let end = write_number(line, end, at.1);
            let end = write_byte(line, end, b'h');
            write_number(line, end, count)
        }
        Pen::Eps => {
            let end = write_number(line, start, count);
            let end = write_byte(line, end, b' ');
            let end = write_number(line, end, at.0);
            let end = write_byte(line, end, b' ');
            let end = write_number(line, end, at.1);
            let end = write_byte(line, end, b' ');
            let end = write_byte(line, end, b'r');
            write_byte(line, end, b'\n')
        }
        Pen::Pdf => write_pdf_rectangle(line, start, at, count),
    }
}

/// Writes the rectangle of PDF of some modules of a row, and returns where it ends.
#[tactic(auto, unfolding(crate::specs::Pens::pdf_rectangle))]
fn write_pdf_rectangle(line: &mut [u8], start: usize, at: (usize, usize), count: usize) -> usize
    requires room { start + 17 ≤ length line.old }
    requires column { at.0 ≤ MAX_COLUMNS }
    requires row { at.1 ≤ MAX_COLUMNS }
    requires few { count ≤ MAX_COLUMNS }
    ensures text { take result line.new ≡ take start line.old ++ pdf_rectangle at.0 at.1 count }
    ensures within { result ≤ start + 17 }
{
    let end = write_number(line, start, at.0);
    let end = write_byte(line, end, b' ');
    let end = write_number(line, end, at.1);
    let end = write_byte(line, end, b' ');
    let end = write_number(line, end, count);
    write_height(line, end)
}

/// Writes the height of a rectangle of PDF and its operator, and returns where they end.
fn write_height(line: &mut [u8], start: usize) -> usize
    requires { start + 6 ≤ length line.old }
    ensures text { take result line.new ≡ take start line.old ++ codes " 1 re\n" }
    ensures next { result ≡ start + 6 }
{
    let end = write_byte(line, start, b' ');
    let end = write_byte(line, end, b'1');
    let end = write_byte(line, end, b' ');
    let end = write_byte(line, end, b'r');
    let end = write_byte(line, end, b'e');
    write_byte(line, end, b'\n')
}

/// Writes a byte, and returns where it ends.
fn write_byte(line: &mut [u8], start: usize, byte: u8) -> usize
    requires { start < length line.old }
    ensures text { take result line.new ≡ take start line.old ++ byte ∷ [] }
    ensures next { result ≡ start + 1 }
{
    line[start] = byte;
    start + 1
}

/// Writes a number, and returns where it ends. Four bytes are written, which are one store.
fn write_number(line: &mut [u8], start: usize, n: usize) -> usize
    requires few { n ≤ MAX_COLUMNS }
    requires room { start + 4 ≤ length line.old }
    ensures text { take result line.new ≡ take start line.old ++ decimal n }
    ensures within { result ≤ start + 3 }
{
    let word = number_word(n);
    line[start] = (word % 256) as u8;
    line[start + 1] = (word / 256 % 256) as u8;
    line[start + 2] = (word / 65_536 % 256) as u8;
    line[start + 3] = (word / 16_777_216) as u8;
    start + (word / 16_777_216) as usize
}

/// Returns the word that holds the digits of a number.
#[tactic(auto, using(crate::proofs::TextLemmas::numbers))]
fn number_word(n: usize) -> u32
    requires { n ≤ MAX_COLUMNS }
    ensures text { word_text result ≡ decimal n }
    ensures few { result / 16_777_216 ≤ 3 }
{
    NUMBERS[n]
}
