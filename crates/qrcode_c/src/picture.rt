//! The picture of a symbol in a caller's buffer.
//!
//! 1. Check the modules, the format and the settings.
//! 2. Draw the picture, and write it to the buffer if there is room.
ghost use Rattle.std.specs.Prelude.{◌≡◌, ◌≢◌, ◌<◌, ◌*◌, ◌++◌, true, false, length, map, drop};
ghost use Rattle.std.specs.Prelude.{OnErr, OnOk, IfOk, IfErr};
ghost use Rattle.qrcode_c.specs.Pictures.{color_of, grid_of_bytes, IsSymbolSquare};
ghost use Rattle.qrcode_c.specs.Pictures.{HoldsPicture, IsAskedPicture};
ghost use Rattle.qrcode_c.specs.Pictures.{IsDrawRefusal, IsPictureRefusal};
ghost use Rattle.qrcode_render.specs.Drawings.{IsPictureOf};

use crate::refusal::Refusal;
use crate::settings::{PictureSettings, format_of, settings_of};
use qrcode_core::traits::ModuleView;
use qrcode_core::types::{Color, Version};
use qrcode_render::{DrawOptions, Setting, draw_grid};
use std::alloc::{AllocError, Global};

/// Writes the picture of some modules to the start of a buffer, and its length to `size`. If the
/// buffer is too short for it, the length is all that is written.
pub fn write_picture(
    alloc: Global,
    modules: &[u8],
    width: usize,
    format: i32,
    settings: &PictureSettings,
    buffer: &mut [u8],
    size: &mut usize,
) -> Result<(), Refusal>
    ensures held { OnOk result (HoldsPicture modules.now width format settings.now
        buffer.old buffer.new size.new) }
    ensures refusal { IfErr result (IsPictureRefusal modules.now width format settings.now
        (length buffer.old) size.new) }
    ensures unchanged { OnErr result (buffer.new ≡ buffer.old) }
    ensures sized { IfErr result (λ refusal.
        refusal ≢ Refusal.ShortBuffer → size.new ≡ size.old) }
{
    let bytes = drawn(alloc, modules, width, format, settings)?;
    *size = bytes.len();
    write_bytes(&bytes, buffer)
}

/// Returns the picture of some modules, as it is asked for.
fn drawn(
    alloc: Global,
    modules: &[u8],
    width: usize,
    format: i32,
    asked: &PictureSettings,
) -> Result<Vec<u8>, Refusal>
    ensures shown { IfOk result (λ bytes.
        IsAskedPicture modules.now width format asked.now bytes.items) }
    ensures refusal { IfErr result (IsDrawRefusal modules.now width format asked.now) }
{
    if !is_square(modules.len(), width) {
        return Err(Refusal::InvalidWidth);
    }
    let Some(format) = format_of(format) else {
        return Err(Refusal::InvalidFormat);
    };
    let settings = settings_of(asked);
    let options = match DrawOptions::new(alloc, format, &settings) {
        Ok(options) => options,
        Err(setting) => return Err(setting_refusal(setting)),
    };
    match draw_square(alloc, modules, width, &options) {
        Ok(bytes) => Ok(bytes),
        Err(AllocError) => Err(Refusal::OutOfMemory),
    }
}

/// Returns the error that stands for every wrong setting.
fn setting_refusal(setting: Setting) -> Refusal
    ensures { result ≡ Refusal.InvalidSetting }
{
    match setting {
        Setting::Scale
        | Setting::Quiet
        | Setting::ModuleMm
        | Setting::Dpi
        | Setting::Inverted
        | Setting::Title
        | Setting::Caption
        | Setting::At
        | Setting::Copies
        | Setting::Compressed
        | Setting::Feed
        | Setting::Cut
        | Setting::Dark
        | Setting::Light
        | Setting::AnyColors => Refusal::InvalidSetting,
    }
}

/// Whether symbols have this width, and this is the number of their modules.
fn is_square(size: usize, width: usize) -> bool
    ensures yes { result ≡ true → IsSymbolSquare size width }
    ensures no { result ≡ false → IsSymbolSquare size width → ⊥ }
{
    match Version::of_width(width) {
        Some(_) => size == width * width,
        None => false,
    }
}

/// Returns the picture of the modules of a symbol.
fn draw_square(
    alloc: Global,
    modules: &[u8],
    width: usize,
    options: &DrawOptions,
) -> Result<Vec<u8>, AllocError>
    requires { IsSymbolSquare (length modules.now) width }
    ensures { IfOk result (λ bytes.
        IsPictureOf options.now (grid_of_bytes modules.now width) bytes.items) }
{
    let colors = colors_of(alloc, modules)?;
    let Some(view) = ModuleView::new(&colors, width) else {
        unreachable!();
    };
    match draw_grid(alloc, &view, options)? {
        Some(bytes) => Ok(bytes),
        None => unreachable!(),
    }
}

/// Returns the colours of the bytes.
fn colors_of(alloc: Global, modules: &[u8]) -> Result<Vec<Color>, AllocError>
    ensures { IfOk result (λ colors. colors.items ≡ map color_of modules.now) }
{
    let mut colors = Vec::with_capacity(alloc, modules.len())?;
    for byte in modules {
        colors.push(color_of(*byte))?;
    }
    Ok(colors)
}

/// Returns the colour of a byte: light if it is 0, else dark.
fn color_of(byte: u8) -> Color
    ensures { result ≡ color_of byte }
{
    match byte {
        0 => Color::Light,
        _ => Color::Dark,
    }
}

/// Writes bytes to the start of a buffer, if there is room for them.
pub fn write_bytes(bytes: &[u8], buffer: &mut [u8]) -> Result<(), Refusal>
    ensures written { OnOk result (buffer.new ≡ bytes.now ++ drop (length bytes.now) buffer.old) }
    ensures short { IfErr result (λ refusal. refusal ≡ Refusal.ShortBuffer) }
    ensures short_buffer { OnErr result (length buffer.old < length bytes.now) }
    ensures unchanged { OnErr result (buffer.new ≡ buffer.old) }
{
    if buffer.len() < bytes.len() {
        return Err(Refusal::ShortBuffer);
    }
    buffer[..bytes.len()].copy_from_slice(bytes);
    Ok(())
}
