//! The picture of a symbol, by `qrcode_render`.
ghost use Rattle.std.specs.Prelude.{◌≡◌, Err, Some, None, IfOk};
ghost use Rattle.std.specs.String.{string_bytes};
ghost use Rattle.qrcode_core.specs.Symbol.{drawn_grid};
ghost use Rattle.qrcode_render.specs.SettingDrawings.{ShowsAsAsked};
ghost use Rattle.qrcode_render.specs.Svg.{svg_text};
ghost use Rattle.qrcode_render.specs.Pictures.{picture};
ghost use Rattle.qrcode_render.specs.Settings.{invalid_setting};
ghost use Rattle.qrcode_render.specs.declared.settings.Setting.{Setting};

use qrcode_core::plugin::PluginError;
use qrcode_core::symbol::Symbol;
use qrcode_render::svg::svg;
use qrcode_render::{DrawOptions, Format, Picture, RenderOptions, Setting, Settings, draw};
use std::alloc::{AllocError, Global};

/// Why there is no picture: a setting is wrong, or an allocation failed.
#[derive(Clone, Copy, Debug, PartialEq, Eq)]
pub enum PictureError {
    Setting(Setting),
    OutOfMemory,
}

/// Returns the SVG of a symbol, with a quiet zone of 4 modules.
pub fn svg_of(alloc: Global, symbol: &Symbol, scale: usize) -> Result<String, PluginError>
    ensures { IfOk result (λ text.
        string_bytes text ≡ svg_text (picture (drawn_grid symbol.now) scale 4)) }
{
    let options = RenderOptions::new(alloc, scale, 4)?;
    let picture = Picture::of_symbol(symbol, options);
    Ok(svg(alloc, &picture)?)
}

/// Returns the picture of a symbol in a format, as the settings ask for it. A setting that is wrong
/// is the error, whatever memory there is.
pub fn picture_of(
    alloc: Global,
    symbol: &Symbol,
    format: Format,
    settings: &Settings,
) -> Result<Vec<u8>, PictureError>
    ensures shown { IfOk result (λ bytes.
        ShowsAsAsked format settings.now (drawn_grid symbol.now) bytes.items) }
    ensures wrong { (setting : Setting) → result ≡ Err (PictureError.Setting setting) →
        invalid_setting format settings.now ≡ Some setting }
    ensures memory { result ≡ Err PictureError.OutOfMemory →
        invalid_setting format settings.now ≡ None }
{
    let options = match DrawOptions::new(alloc, format, settings) {
        Ok(options) => options,
        Err(setting) => return Err(PictureError::Setting(setting)),
    };
    match draw(alloc, symbol, &options) {
        Ok(bytes) => Ok(bytes),
        Err(AllocError) => Err(PictureError::OutOfMemory),
    }
}
