//! Pictures as labels of ZPL II, for label printers.
ghost use Rattle.std.specs.Prelude.{◌≡◌, ◌+◌, ◌*◌, ◌<◌, ◌≤◌, ◌++◌, IfOk, OnOk, Some, None};
ghost use Rattle.std.specs.Prelude.{flat_map, length};
ghost use Rattle.std.specs.Option.{option_copied};
ghost use Rattle.grid_pictures.specs.Bitmaps.{rows_from};
ghost use Rattle.std.specs.String.{string_bytes};
ghost use Rattle.picture_settings.specs.declared.bounds.TheConstants.{FIELD_BYTES, MAX_AT};
ghost use Rattle.picture_settings.specs.declared.bounds.TheConstants.{MAX_LETTERS, MAX_PIXELS};
ghost use Rattle.grid_pictures.specs.Pictures.{pixel_height};
ghost use Rattle.grid_pictures.specs.Picture.{shown};
ghost use Rattle.qrcode_render.specs.CompressedData.{AddsPiece};
ghost use Rattle.qrcode_render.specs.Labels.{IsCompressedField, IsCompressedLabel};
ghost use Rattle.qrcode_render.specs.Zpl.{field, field_head, hex_pair, hex_digit, zpl_text};
ghost use Rattle.qrcode_render.specs.Zpl.{copies_command, field_count, field_rows, label_end};
ghost use Rattle.qrcode_render.specs.Zpl.{label_captioned, label_text, nth_first};

use crate::compressed::push_data;
use crate::zpl_text::push_caption;
use grid_pictures::bitmap::{write_row, zeros};
use grid_pictures::picture::Picture;
use picture_settings::bounds::FIELD_BYTES;
use std::alloc::{AllocError, Global};

/// The most bytes around the data of a field.
const MOST_AROUND: usize = 64;

/// The most bytes before and after the fields.
const MOST_END: usize = 32;

/// Returns the picture as a label of ZPL II (`^GF`), for a label printer, with its upper left
/// corner at this position in dots. Its rows are in fields of at most `FIELD_BYTES` bytes, one
/// below the other. It fails only for lack of memory.
pub fn zpl(alloc: Global, picture: &Picture, at: (usize, usize)) -> Result<Vec<u8>, AllocError>
    requires { at.1 ≤ MAX_AT }
    ensures { IfOk result (λ bytes. bytes.items ≡ zpl_text at (shown picture.now)) }
{
    label(alloc, picture, at, None)
}

/// Returns the picture as `zpl` does, with the number of labels that the printer prints (`^PQ`), if
/// it is given. It fails only for lack of memory.
pub fn label(
    alloc: Global,
    picture: &Picture,
    at: (usize, usize),
    copies: Option<usize>,
) -> Result<Vec<u8>, AllocError>
    requires { at.1 ≤ MAX_AT }
    ensures { IfOk result (λ bytes. bytes.items ≡ label_text at copies (shown picture.now)) }
{
    label_captioned(alloc, picture, at, None, 0, copies)
}

/// Returns the picture as `label` does, with a text below it in the scalable font of the printer
/// (`^A0`), if it is given, in characters of at least this height in dots. It fails only for lack
/// of memory.
#[tactic(auto, using(crate::proofs::BandLemmas::fields))]
pub fn label_captioned(
    alloc: Global,
    picture: &Picture,
    at: (usize, usize),
    caption: Option<&str>,
    letters: usize,
    copies: Option<usize>,
) -> Result<Vec<u8>, AllocError>
    requires place { at.1 ≤ MAX_AT }
    requires small { letters ≤ MAX_LETTERS }
    ensures { IfOk result (λ bytes. bytes.items
        ≡ label_captioned at (option_copied caption.entry) letters copies (shown picture.now)) }
{
    let height = picture.height();
    let rows = field_rows(picture);
    let fields = field_count(picture);
    let room = 2 * picture.row_length() * height + MOST_AROUND * fields + MOST_END;
    let mut bytes = Vec::with_capacity(alloc, room)?;
    bytes.extend_from_slice(b"^XA\n")?;
    for n in 0..fields {
        let first = n * rows;
        push_field(
            alloc,
            &mut bytes,
            picture,
            at,
            first,
            (height - first).min(rows),
        )?;
    }
    push_caption(alloc, &mut bytes, picture, at, caption, letters)?;
    push_end(alloc, &mut bytes, copies)?;
    Ok(bytes)
}

/// Returns the picture as `label` does, with compressed data (the "Alternative Data Compression
/// Scheme" of the ZPL II guide). It fails only for lack of memory.
pub fn compressed_label(
    alloc: Global,
    picture: &Picture,
    at: (usize, usize),
    copies: Option<usize>,
) -> Result<Vec<u8>, AllocError>
    requires { at.1 ≤ MAX_AT }
    ensures { IfOk result (λ bytes.
        IsCompressedLabel at None 0 copies (shown picture.now) bytes.items) }
{
    compressed_captioned(alloc, picture, at, None, 0, copies)
}

/// Returns the picture as `label_captioned` does, with compressed data. It fails only for lack
/// of memory.
#[tactic(auto, using(crate::proofs::BandLemmas::fields))]
pub fn compressed_captioned(
    alloc: Global,
    picture: &Picture,
    at: (usize, usize),
    caption: Option<&str>,
    letters: usize,
    copies: Option<usize>,
) -> Result<Vec<u8>, AllocError>
    requires place { at.1 ≤ MAX_AT }
    requires small { letters ≤ MAX_LETTERS }
    ensures { IfOk result (λ bytes. IsCompressedLabel at (option_copied caption.entry) letters copies
        (shown picture.now) bytes.items) }
{
    let fields = field_count(picture);
    let mut bytes = Vec::new(alloc);
    bytes.extend_from_slice(b"^XA\n")?;
    for n in 0..fields {
        push_compressed_field(alloc, &mut bytes, picture, at, n)?;
    }
    push_caption(alloc, &mut bytes, picture, at, caption, letters)?;
    push_end(alloc, &mut bytes, copies)?;
    Ok(bytes)
}

/// Appends field n with compressed data.
fn push_compressed_field(
    alloc: Global,
    bytes: &mut Vec<u8>,
    picture: &Picture,
    at: (usize, usize),
    n: usize,
) -> Result<(), AllocError>
    requires place { at.1 ≤ MAX_AT }
    requires inside { nth_first (shown picture.now) n < pixel_height (shown picture.now) }
    ensures { OnOk result (AddsPiece (IsCompressedField (shown picture.now) at n)
        bytes.old.items bytes.new.items) }
{
    let length = picture.row_length();
    let rows = field_rows(picture);
    let first = n * rows;
    let count = (picture.height() - first).min(rows);
    let top = first + at.1;
    let head = field_head(alloc, at.0, top, length * count, length)?;
    bytes.extend_from_slice(head.as_bytes())?;
    push_data(alloc, bytes, picture, first, count)?;
    bytes.extend_from_slice(b"^FS\n")
}

/// Returns the number of rows of pixels in a field: as many as the printer takes in one.
fn field_rows(picture: &Picture) -> usize
    ensures exact { result ≡ field_rows (shown picture.now) }
    ensures some { 0 < result }
{
    FIELD_BYTES / picture.row_length()
}

/// Returns the number of fields.
fn field_count(picture: &Picture) -> usize
    ensures { result ≡ field_count (shown picture.now) }
{
    picture.height().div_ceil(field_rows(picture))
}

/// Appends the end of a label, after its number of copies.
fn push_end(alloc: Global, bytes: &mut Vec<u8>, copies: Option<usize>) -> Result<(), AllocError>
    ensures { OnOk result (bytes.new.items ≡ bytes.old.items ++ label_end copies) }
{
    push_copies(alloc, bytes, copies)?;
    bytes.extend_from_slice(b"^XZ\n")
}

/// Appends the command that says how many labels are printed, if that is given.
fn push_copies(alloc: Global, bytes: &mut Vec<u8>, copies: Option<usize>) -> Result<(), AllocError>
    ensures { OnOk result (bytes.new.items ≡ bytes.old.items ++ copies_command copies) }
{
    match copies {
        Some(copies) => {
            let command = copies_command(alloc, copies)?;
            bytes.extend_from_slice(command.as_bytes())
        }
        None => Ok(()),
    }
}

/// Returns the command that says how many labels are printed.
fn copies_command(alloc: Global, copies: usize) -> Result<String, AllocError>
    ensures { IfOk result (λ text. string_bytes text ≡ copies_command (Some copies)) }
{
    format!(in alloc; "^PQ{copies}\n")
}

/// Appends the field of some rows of pixels, from one on.
#[tactic(auto, unfolding(crate::specs::Zpl::field))]
fn push_field(
    alloc: Global,
    bytes: &mut Vec<u8>,
    picture: &Picture,
    at: (usize, usize),
    first: usize,
    count: usize,
) -> Result<(), AllocError>
    requires place { at.1 ≤ MAX_AT }
    requires rows { first + count ≤ MAX_PIXELS }
    ensures { OnOk result
        (bytes.new.items ≡ bytes.old.items ++ field (shown picture.now) at first count) }
{
    let length = picture.row_length();
    let head = field_head(alloc, at.0, at.1 + first, length * count, length)?;
    bytes.extend_from_slice(head.as_bytes())?;
    push_digits(alloc, bytes, picture, first, count)?;
    bytes.extend_from_slice(b"^FS\n")
}

/// Returns the head of a field, up to its data.
#[tactic(auto, unfolding(crate::specs::Zpl::field_head))]
fn field_head(
    alloc: Global,
    x: usize,
    y: usize,
    bytes: usize,
    row: usize,
) -> Result<String, AllocError>
    ensures { IfOk result (λ text. string_bytes text ≡ field_head x y bytes row) }
{
    format!(in alloc; "^FO{x},{y}^GFA,{bytes},{bytes},{row},")
}

/// Appends the hexadecimal digits of some rows of pixels, from one on. Those of one row of modules
/// are equal.
#[tactic(auto, using(crate::proofs::BandLemmas::digits_after))]
fn push_digits(
    alloc: Global,
    bytes: &mut Vec<u8>,
    picture: &Picture,
    first: usize,
    count: usize,
) -> Result<(), AllocError>
    requires { first + count ≤ MAX_PIXELS }
    ensures { OnOk result (bytes.new.items ≡ bytes.old.items
        ++ flat_map hex_pair (rows_from (shown picture.now) first count)) }
{
    let scale = picture.scale();
    let mut line = zeros(alloc, picture.row_length())?;
    let mut digits = zeros(alloc, 2 * picture.row_length())?;
    for y in first..first + count {
        if y == first || y % scale == 0 {
            write_row(picture, y, line.as_mut_slice());
            write_hex(&line, digits.as_mut_slice());
        }
        bytes.extend_from_slice(&digits)?;
    }
    Ok(())
}

/// Writes the hexadecimal digits of some bytes.
#[tactic(auto, using(crate::proofs::BandLemmas::digits))]
pub(crate) fn write_hex(content: &[u8], digits: &mut [u8])
    requires { length digits.old ≡ 2 * length content.now }
    ensures { digits.new ≡ flat_map hex_pair content.now }
{
    for i in 0..content.len() {
        let byte = content[i];
        digits[2 * i] = hex_digit(byte / 16);
        digits[2 * i + 1] = hex_digit(byte % 16);
    }
}

/// Returns a hexadecimal digit.
pub(crate) fn hex_digit(digit: u8) -> u8
    requires { digit < 16 }
    ensures { result ≡ hex_digit digit }
{
    if digit < 10 {
        b'0' + digit
    } else {
        b'A' + (digit - 10)
    }
}
