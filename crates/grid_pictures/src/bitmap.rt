//! The rows of pixels of a picture, as bits: dark is 1.
ghost use Rattle.std.specs.Prelude.{◌≡◌, ◌+◌, ◌*◌, ◌/◌, ◌<◌, ◌≤◌, ◌++◌, IfOk, OnOk};
ghost use Rattle.std.specs.Prelude.{map, replicate, length};
ghost use Rattle.std.specs.List.{range_with_len};
ghost use Rattle.picture_settings.specs.declared.bounds.TheConstants.{MAX_PIXELS};
ghost use Rattle.grid_pictures.specs.Bitmaps.{bitmap_row, bits_number, first_rows, row_length};
ghost use Rattle.grid_pictures.specs.Bitmaps.{rows_from};
ghost use Rattle.grid_pictures.specs.Pictures.{pixel_height};
ghost use Rattle.grid_pictures.specs.Rows.{dark_byte, is_dark_at};
ghost use Rattle.grid_pictures.specs.Picture.{shown};

use crate::picture::{Picture, ROOM, Row};
use std::alloc::{AllocError, Global};

/// Appends all rows of pixels. Those of one row of modules are equal. It fails only for lack
/// of memory.
#[tactic(auto, using(crate::proofs::BitmapLemmas::rows))]
pub fn push_rows(alloc: Global, bytes: &mut Vec<u8>, picture: &Picture) -> Result<(), AllocError>
    ensures { OnOk result
        (bytes.new.items ≡ bytes.old.items
        ++ first_rows (shown picture.now) (pixel_height (shown picture.now))) }
{
    let scale = picture.scale();
    let mut line = zeros(alloc, picture.row_length())?;
    for row in 0..picture.rows() {
        write_row(picture, row * scale, line.as_mut_slice());
        for copy in 0..scale {
            bytes.extend_from_slice(&line)?;
        }
    }
    Ok(())
}

/// Appends some rows of pixels, from one on. It fails only for lack of memory.
#[tactic(auto, using(crate::proofs::BitmapLemmas::rows_after))]
pub fn push_rows_from(
    alloc: Global,
    bytes: &mut Vec<u8>,
    picture: &Picture,
    first: usize,
    count: usize,
) -> Result<(), AllocError>
    requires { first + count ≤ MAX_PIXELS }
    ensures { OnOk result
        (bytes.new.items ≡ bytes.old.items ++ rows_from (shown picture.now) first count) }
{
    let scale = picture.scale();
    let mut line = zeros(alloc, picture.row_length())?;
    for y in first..first + count {
        if y == first || y % scale == 0 {
            write_row(picture, y, line.as_mut_slice());
        }
        bytes.extend_from_slice(&line)?;
    }
    Ok(())
}

/// Returns this many zeros, which are light pixels. It fails only for lack of memory.
pub fn zeros(alloc: Global, count: usize) -> Result<Vec<u8>, AllocError>
    ensures light { IfOk result (λ bytes. bytes.items ≡ replicate count 0) }
    ensures long { IfOk result (λ bytes. length bytes.items ≡ count) }
{
    let mut bytes = Vec::new(alloc);
    bytes.resize(count, 0)?;
    Ok(bytes)
}

/// Writes the bytes of a row of pixels.
pub fn write_row(picture: &Picture, y: usize, line: &mut [u8])
    requires { length line.old ≡ row_length (shown picture.now) }
    ensures { line.new ≡ bitmap_row (shown picture.now) y }
{
    let scale = picture.scale();
    let row = picture.row(y / scale);
    if row.is_light() {
        line.fill(0);
    } else if scale < 8 {
        write_narrow(picture, y, line);
    } else if scale == 8 {
        row.write_bytes(line);
    } else {
        write_wide(picture, y, line);
    }
}

/// Writes the bytes of a row of pixels, if a module is less than a byte wide. Eight modules are as
/// many whole bytes as a module has pixels. A word is written for them, and those after them are
/// written over its other bytes.
fn write_narrow(picture: &Picture, y: usize, line: &mut [u8])
    requires narrow { (shown picture.now).scale < 8 }
    requires long { length line.old ≡ row_length (shown picture.now) }
    ensures { line.new ≡ bitmap_row (shown picture.now) y }
{
    let scale = picture.scale();
    let row = picture.row(y / scale);
    let mut modules = [0u8; ROOM];
    row.write_bytes(&mut modules);
    let mut bytes = [0u8; ROOM];
    for group in 0..picture.columns().div_ceil(8) {
        let word = eight_modules(row, &modules, 8 * group, scale) << (64 - 8 * scale);
        let first = group * scale;
        for i in 0..8 {
            bytes[first + i] = ((word >> (56 - 8 * i)) % 256) as u8;
        }
    }
    line.copy_from_slice(&bytes[..line.len()]);
}

/// Returns the bits of eight modules, from their bytes, which are moved together: those of two
/// modules, of four, and of all.
fn eight_modules(row: Row, modules: &[u8], column: usize, scale: usize) -> u64
    requires some { 0 < scale }
    requires narrow { scale < 8 }
    requires inside { column + 8 ≤ length modules.now }
    requires bytes { modules.now ≡ map (dark_byte row) (range_with_len 0 (length modules.now)) }
    ensures { let pixels = range_with_len (column * scale) (8 * scale) in
        result ≡ bits_number (map (λ x. is_dark_at row.entry (x / scale)) pixels) }
{
    let bytes = &modules[column..column + 8];
    let word = u64::from_be_bytes([
        bytes[0], bytes[1], bytes[2], bytes[3], bytes[4], bytes[5], bytes[6], bytes[7],
    ]);
    let ones = word & (0x0101_0101_0101_0101 * (255 >> (8 - scale)));
    let two = (ones & 0x00FF_00FF_00FF_00FF) | ((ones & 0xFF00_FF00_FF00_FF00) >> (8 - scale));
    let four = (two & 0x0000_FFFF_0000_FFFF) | ((two & 0xFFFF_0000_FFFF_0000) >> (16 - 2 * scale));
    (four & 0x0000_0000_FFFF_FFFF) | ((four & 0xFFFF_FFFF_0000_0000) >> (32 - 4 * scale))
}

/// Writes the bytes of a row of pixels, if a module is more than a byte wide, so that a byte has
/// pixels of one module or of two.
fn write_wide(picture: &Picture, y: usize, line: &mut [u8])
    requires wide { 8 ≤ (shown picture.now).scale }
    requires long { length line.old ≡ row_length (shown picture.now) }
    ensures { line.new ≡ bitmap_row (shown picture.now) y }
{
    let scale = picture.scale();
    let row = picture.row(y / scale);
    let columns = picture.columns();
    prove!(columns < ROOM);
    let mut modules = [0u8; ROOM];
    row.write_bytes(&mut modules);
    let mut column = 0;
    let mut left = scale;
    for place in 0..line.len() {
        let byte = modules[column];
        if left >= 8 {
            line[place] = byte;
            left -= 8;
        } else {
            line[place] = byte - (byte >> left) + (modules[column + 1] >> left);
            column += 1;
            left += scale - 8;
        }
    }
}
