//! The text below a picture in a label of ZPL II.
ghost use Rattle.std.specs.Prelude.{◌≡◌, ◌*◌, ◌≤◌, ◌++◌, map, IfOk, OnOk};
ghost use Rattle.std.specs.Option.{option_copied};
ghost use Rattle.std.specs.String.{string_bytes};
ghost use Rattle.picture_settings.specs.declared.bounds.TheConstants.{MAX_AT, MAX_LETTERS};
ghost use Rattle.grid_pictures.specs.Picture.{shown};
ghost use Rattle.qrcode_render.specs.CaptionTypes.{block_of};
ghost use Rattle.qrcode_render.specs.Captions.{each_line};
ghost use Rattle.qrcode_render.specs.Zpl.{block_byte, block_data, block_line, caption_field};
ghost use Rattle.qrcode_render.specs.Zpl.{field_block, field_byte, field_data, field_place};
ghost use Rattle.qrcode_render.specs.Zpl.{lines_field, text_font, text_height};

use crate::block::Caption;
use crate::caption::{laid_out, line_width};
use crate::zpl::hex_digit;
use grid_pictures::picture::Picture;
use std::alloc::{AllocError, Global};

/// Appends the field of the text below the picture, if there is one, in characters of at least this
/// height in dots.
pub(crate) fn push_caption(
    alloc: Global,
    bytes: &mut Vec<u8>,
    picture: &Picture,
    at: (usize, usize),
    caption: Option<&str>,
    letters: usize,
) -> Result<(), AllocError>
    requires place { at.1 ≤ MAX_AT }
    requires small { letters ≤ MAX_LETTERS }
    ensures { OnOk result (bytes.new.items ≡ bytes.old.items
        ++ caption_field at (option_copied caption.entry) letters (shown picture.now)) }
{
    let Some(text) = caption else {
        return Ok(());
    };
    let least = (2 * picture.scale()).max(10);
    let height = text_height(picture, letters);
    let room = line_width(picture.width());
    let block = laid_out(alloc, text, least, height, room)?;
    let place = field_place(alloc, at.0, at.1 + picture.height())?;
    bytes.extend_from_slice(place.as_bytes())?;
    let font = text_font(alloc, height, block.size().max(10))?;
    push_lines(alloc, bytes, picture, font.as_bytes(), &block)?;
    bytes.extend_from_slice(b"^FS\n")
}

/// Returns the height of the characters of the text below the picture, which is at least this.
fn text_height(picture: &Picture, letters: usize) -> usize
    requires { letters ≤ MAX_LETTERS }
    ensures exact { result ≡ text_height letters (shown picture.now) }
    ensures bound { result ≤ MAX_LETTERS }
{
    (3 * picture.scale()).max(10).max(letters)
}

/// Appends the lines of the text below the picture in a font: one as a field, and several as a field
/// block.
fn push_lines(
    alloc: Global,
    bytes: &mut Vec<u8>,
    picture: &Picture,
    font: &[u8],
    block: &Caption,
) -> Result<(), AllocError>
    ensures { OnOk result (bytes.new.items ≡ bytes.old.items
        ++ lines_field font.now (shown picture.now) (block_of block.now)) }
{
    let lines = block.lines();
    if lines.len() == 1 {
        bytes.extend_from_slice(font)?;
        return push_text(bytes, lines[0].as_bytes());
    }
    let command = field_block(alloc, picture.width())?;
    bytes.extend_from_slice(command.as_bytes())?;
    bytes.extend_from_slice(font)?;
    push_block_lines(bytes, lines)
}

/// Appends the lines of a field block.
fn push_block_lines(bytes: &mut Vec<u8>, lines: &[String]) -> Result<(), AllocError>
    ensures { OnOk result (bytes.new.items ≡ bytes.old.items
        ++ each_line block_line (map string_bytes lines.now)) }
{
    for n in 0..lines.len() {
        if n > 0 {
            bytes.extend_from_slice(b"\\&")?;
        }
        push_block_text(bytes, lines[n].as_bytes())?;
    }
    Ok(())
}

/// Returns the position of a field.
#[tactic(auto, unfolding(crate::specs::Zpl::field_place))]
fn field_place(alloc: Global, x: usize, y: usize) -> Result<String, AllocError>
    ensures { IfOk result (λ text. string_bytes text ≡ field_place x y) }
{
    format!(in alloc; "^FO{x},{y}")
}

/// Returns the command for a field block of this width.
#[tactic(auto, unfolding(crate::specs::Zpl::field_block))]
fn field_block(alloc: Global, width: usize) -> Result<String, AllocError>
    ensures { IfOk result (λ text. string_bytes text ≡ field_block width) }
{
    format!(in alloc; "^FB{width},9999,0,L")
}

/// Returns the command for the font of a text, and what follows up to the text.
#[tactic(auto, unfolding(crate::specs::Zpl::text_font))]
fn text_font(alloc: Global, height: usize, width: usize) -> Result<String, AllocError>
    ensures { IfOk result (λ text. string_bytes text ≡ text_font height width) }
{
    format!(in alloc; "^A0N,{height},{width}^FH^FD")
}

/// Appends the bytes of a text as a field block has them.
#[tactic(auto, using(crate::proofs::CaptionLemmas::block_texts))]
fn push_block_text(bytes: &mut Vec<u8>, text: &[u8]) -> Result<(), AllocError>
    ensures { OnOk result (bytes.new.items ≡ bytes.old.items ++ block_data text.now) }
{
    for i in 0..text.len() {
        push_block_byte(bytes, text[i])?;
    }
    Ok(())
}

/// Appends a byte of a text in a field block, and a backslash twice.
fn push_block_byte(bytes: &mut Vec<u8>, byte: u8) -> Result<(), AllocError>
    ensures { OnOk result (bytes.new.items ≡ bytes.old.items ++ block_byte byte) }
{
    if byte == b'\\' {
        return bytes.extend_from_slice(b"\\\\");
    }
    push_byte(bytes, byte)
}

/// Appends the bytes of a text as a field has them.
#[tactic(auto, using(crate::proofs::CaptionLemmas::field_texts))]
fn push_text(bytes: &mut Vec<u8>, text: &[u8]) -> Result<(), AllocError>
    ensures { OnOk result (bytes.new.items ≡ bytes.old.items ++ field_data text.now) }
{
    for i in 0..text.len() {
        push_byte(bytes, text[i])?;
    }
    Ok(())
}

/// Appends a byte of a text, by its hexadecimal digits if it is a mark of a command.
fn push_byte(bytes: &mut Vec<u8>, byte: u8) -> Result<(), AllocError>
    ensures { OnOk result (bytes.new.items ≡ bytes.old.items ++ field_byte byte) }
{
    if byte == b'^' || byte == b'~' || byte == b'_' {
        bytes.push(b'_')?;
        bytes.push(hex_digit(byte / 16))?;
        bytes.push(hex_digit(byte % 16))?;
        return Ok(());
    }
    Ok(bytes.push(byte)?)
}
