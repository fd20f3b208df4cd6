//! The compressed data of a graphic field of ZPL II.
//!
//! Each row of digits is written as its runs of equal digits, with letters for the length of each.
//! Zeros and ones at the end of a row are one character, and so is a row of pixels that is in the
//! same row of modules as the one above.
ghost use Rattle.std.specs.Prelude.{◌≡◌, ◌≢◌, ◌↔◌, ℕ, ◌+◌, ◌*◌, ◌%◌, ◌<◌, ◌≤◌, List, true};
ghost use Rattle.std.specs.Prelude.{All, IsTrue, OnOk, flat_map, length, replicate, slice_index};
ghost use Rattle.picture_settings.specs.declared.bounds.TheConstants.{MAX_PIXELS};
ghost use Rattle.grid_pictures.specs.Bitmaps.{bitmap_row, row_length};
ghost use Rattle.grid_pictures.specs.Picture.{shown};
ghost use Rattle.qrcode_render.specs.Compressed.{Compresses, is_hex_digit, repeat_count};
ghost use Rattle.qrcode_render.specs.CompressedData.{AddsPiece, EndsRow, SaysCount, SaysDigits, SaysRow};
ghost use Rattle.qrcode_render.specs.Zpl.{hex_pair, row_digits};

use crate::zpl::write_hex;
use grid_pictures::bitmap::{write_row, zeros};
use grid_pictures::picture::Picture;
use std::alloc::{AllocError, Global};

/// Appends the compressed digits of some rows of pixels, from one on. Those of one row of modules
/// are equal.
pub(crate) fn push_data(
    alloc: Global,
    bytes: &mut Vec<u8>,
    picture: &Picture,
    first: usize,
    count: usize,
) -> Result<(), AllocError>
    requires { first + count ≤ MAX_PIXELS }
    ensures { let p = shown picture.now in OnOk result
        (AddsPiece (Compresses (2 * row_length p) (row_digits p first count))
        bytes.old.items bytes.new.items) }
{
    let scale = picture.scale();
    let mut line = zeros(alloc, picture.row_length())?;
    let mut digits = zeros(alloc, 2 * picture.row_length())?;
    for y in first..first + count {
        if is_repeated(first, y, scale) {
            bytes.push(b':')?;
        } else {
            push_new_row(
                bytes,
                picture,
                y,
                line.as_mut_slice(),
                digits.as_mut_slice(),
            )?;
        }
    }
    Ok(())
}

/// Whether a row of pixels is in the same row of modules as the one above, in a field from some
/// row on.
fn is_repeated(first: usize, y: usize, scale: usize) -> bool
    requires { 0 < scale }
    ensures { IsTrue result ↔ ((y ≢ first) × (y % scale ≢ 0)) }
{
    y != first && y % scale != 0
}

/// Appends the compressed digits of a row of pixels, and leaves its bytes and its digits in
/// the slices.
fn push_new_row(
    bytes: &mut Vec<u8>,
    picture: &Picture,
    y: usize,
    line: &mut [u8],
    digits: &mut [u8],
) -> Result<(), AllocError>
    requires long { length line.old ≡ row_length (shown picture.now) }
    requires twice { length digits.old ≡ 2 * row_length (shown picture.now) }
    ensures { let row = flat_map hex_pair (bitmap_row (shown picture.now) y) in OnOk result
        (AddsPiece (λ characters. (above : List ℕ) → SaysRow above row characters)
        bytes.old.items bytes.new.items) }
{
    write_row(picture, y, line);
    write_hex(line, digits);
    push_row(bytes, digits)
}

/// Appends the letters of a repeat count.
fn push_count(bytes: &mut Vec<u8>, count: usize) -> Result<(), AllocError>
    requires { 2 ≤ count }
    ensures { OnOk result (AddsPiece (SaysCount count) bytes.old.items bytes.new.items) }
{
    let mut left = count;
    while left > 0 {
        let (letter, n) = count_letter(left);
        bytes.push(letter)?;
        left -= n;
    }
    Ok(())
}

/// Returns the letter of the greatest count that is at most this one, and its count.
fn count_letter(count: usize) -> (u8, usize)
    requires { 0 < count }
    ensures counts { repeat_count result.0 ≡ result.1 }
    ensures some { 0 < result.1 }
    ensures most { result.1 ≤ count }
    ensures two { 2 ≤ count → 2 ≤ result.1 }
{
    if count < 20 {
        (b'F' + count as u8, count)
    } else {
        let twenties = (count / 20).min(20);
        (b'f' + twenties as u8, 20 * twenties)
    }
}

/// Appends some equal digits: their number, and the digit.
fn push_run(bytes: &mut Vec<u8>, digit: u8, run: usize) -> Result<(), AllocError>
    requires some { 0 < run }
    requires hex { is_hex_digit digit ≡ true }
    ensures { OnOk result
        (AddsPiece (SaysDigits (replicate run digit)) bytes.old.items bytes.new.items) }
{
    if run > 1 {
        push_count(bytes, run)?;
        bytes.push(digit)?;
        Ok(())
    } else {
        bytes.push(digit)?;
        Ok(())
    }
}

/// Appends the equal digits at the end of a row: zeros as a comma, and ones as an exclamation mark.
fn push_rest(bytes: &mut Vec<u8>, digit: u8, run: usize) -> Result<(), AllocError>
    requires some { 0 < run }
    requires hex { is_hex_digit digit ≡ true }
    ensures { OnOk result
        (AddsPiece (EndsRow (replicate run digit)) bytes.old.items bytes.new.items) }
{
    if digit == b'0' {
        bytes.push(b',')?;
        Ok(())
    } else if digit == b'F' {
        bytes.push(b'!')?;
        Ok(())
    } else {
        push_run(bytes, digit, run)
    }
}

/// Returns the number of equal digits from a place on.
fn run_length(digits: &[u8], start: usize) -> usize
    requires { start < length digits.now }
    ensures some { 0 < result }
    ensures inside { start + result ≤ length digits.now }
    ensures equal { (k : ℕ) → k < result →
        slice_index digits.now (start + k) ≡ slice_index digits.now start }
{
    for i in start + 1..digits.len() {
        if digits[i] != digits[start] {
            return i - start;
        }
    }
    digits.len() - start
}

/// Appends a row of digits: each run of equal ones, and then those at its end.
fn push_row(bytes: &mut Vec<u8>, digits: &[u8]) -> Result<(), AllocError>
    requires some { 0 < length digits.now }
    requires hex { All (λ digit. is_hex_digit digit ≡ true) digits.now }
    ensures { OnOk result (AddsPiece (λ characters. (above : List ℕ) →
        SaysRow above digits.now characters) bytes.old.items bytes.new.items) }
{
    let mut start = 0;
    let mut run = run_length(digits, start);
    while start + run < digits.len() {
        push_run(bytes, digits[start], run)?;
        start += run;
        run = run_length(digits, start);
    }
    push_rest(bytes, digits[start], run)
}
