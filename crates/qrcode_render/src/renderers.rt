//! The renderers `Svg`, `Png`, `Pbm`, `Eps`, `EscPos`, `Zpl`, `Pdf` and `Terminal`, for a registry.
//!
//! Each takes the options that its `Format` has (`Format::has`), by the names of the settings, with
//! texts that `config` describes, and returns what `draw` does. It fails with `InvalidConfig` and
//! the name of an option that `DrawOptions::of_config` rejects; else with `RenderFailed` for a grid
//! without modules, or of more than `MAX_MODULES` columns or rows; else for lack of memory only.
//! Options of other names are left alone.
ghost use Rattle.picture_settings.specs.declared.format.Format.{Format};
ghost use Rattle.qrcode_render.specs.Drawings.{drawn_bytes, is_drawn_text};
ghost use Rattle.qrcode_render.specs.Renderers.{IsOutput, IsRendererRefusal, Renders, Validates};

use crate::drawing::{Drawn, draw_as, shape};
use grid_pictures::picture::Picture;
use picture_settings::bounds::MAX_MODULES;
use picture_settings::draw_options::DrawOptions;
use picture_settings::format::Format;
use qrcode_core::plugin::{DynRenderer, PluginError, RenderConfig, RenderOutput};
use qrcode_core::traits::ModuleSource;
use std::alloc::Global;

/// A renderer of SVG, as text. A module is 8 pixels wide, unless the option `scale` is given.
#[derive(Debug, Drop)]
pub struct Svg;

/// A renderer of portable bitmaps, as bytes. A module is 8 pixels wide, unless the option `scale`
/// is given.
#[derive(Debug, Drop)]
pub struct Pbm;

/// A renderer of PNG files, as bytes. A module is 8 pixels wide, unless the option `scale`
/// is given.
#[derive(Debug, Drop)]
pub struct Png;

/// A renderer of Encapsulated PostScript, as text. A module is 8 points wide, unless the option
/// `scale` is given.
#[derive(Debug, Drop)]
pub struct Eps;

/// A renderer of raster images of ESC/POS, as bytes. A module is 8 pixels wide, unless the option
/// `scale` is given.
#[derive(Debug, Drop)]
pub struct EscPos;

/// A renderer of labels of ZPL II, as bytes. A module is 8 pixels wide, unless the option `scale`
/// is given, and the picture is at the upper left corner of the label, unless the option `at` is.
#[derive(Debug, Drop)]
pub struct Zpl;

/// A renderer of PDF documents of one page, as bytes. A module is 8 points wide, unless the option
/// `scale` is given.
#[derive(Debug, Drop)]
pub struct Pdf;

/// A renderer of text for a terminal, with two rows of pixels in a line. A module is one pixel
/// wide, unless the option `scale` is given.
#[derive(Debug, Drop)]
pub struct Terminal;

impl DynRenderer for Svg {
    ghost renders = { λ _. Renders Format.Svg };

    ghost validates = { λ _. Validates Format.Svg };

    fn render(
        &self,
        alloc: Global,
        code: &dyn ModuleSource,
        config: &RenderConfig,
    ) -> Result<RenderOutput, PluginError> {
        render_as(alloc, Format::Svg, code, config)
    }

    fn validate_config(&self, alloc: Global, config: &RenderConfig) -> Result<(), PluginError> {
        validate_as(alloc, Format::Svg, config)
    }
}

impl DynRenderer for Pbm {
    ghost renders = { λ _. Renders Format.Pbm };

    ghost validates = { λ _. Validates Format.Pbm };

    fn render(
        &self,
        alloc: Global,
        code: &dyn ModuleSource,
        config: &RenderConfig,
    ) -> Result<RenderOutput, PluginError> {
        render_as(alloc, Format::Pbm, code, config)
    }

    fn validate_config(&self, alloc: Global, config: &RenderConfig) -> Result<(), PluginError> {
        validate_as(alloc, Format::Pbm, config)
    }
}

impl DynRenderer for Png {
    ghost renders = { λ _. Renders Format.Png };

    ghost validates = { λ _. Validates Format.Png };

    fn render(
        &self,
        alloc: Global,
        code: &dyn ModuleSource,
        config: &RenderConfig,
    ) -> Result<RenderOutput, PluginError> {
        render_as(alloc, Format::Png, code, config)
    }

    fn validate_config(&self, alloc: Global, config: &RenderConfig) -> Result<(), PluginError> {
        validate_as(alloc, Format::Png, config)
    }
}

impl DynRenderer for Eps {
    ghost renders = { λ _. Renders Format.Eps };

    ghost validates = { λ _. Validates Format.Eps };

    fn render(
        &self,
        alloc: Global,
        code: &dyn ModuleSource,
        config: &RenderConfig,
    ) -> Result<RenderOutput, PluginError> {
        render_as(alloc, Format::Eps, code, config)
    }

    fn validate_config(&self, alloc: Global, config: &RenderConfig) -> Result<(), PluginError> {
        validate_as(alloc, Format::Eps, config)
    }
}

impl DynRenderer for EscPos {
    ghost renders = { λ _. Renders Format.EscPos };

    ghost validates = { λ _. Validates Format.EscPos };

    fn render(
        &self,
        alloc: Global,
        code: &dyn ModuleSource,
        config: &RenderConfig,
    ) -> Result<RenderOutput, PluginError> {
        render_as(alloc, Format::EscPos, code, config)
    }

    fn validate_config(&self, alloc: Global, config: &RenderConfig) -> Result<(), PluginError> {
        validate_as(alloc, Format::EscPos, config)
    }
}

impl DynRenderer for Zpl {
    ghost renders = { λ _. Renders Format.Zpl };

    ghost validates = { λ _. Validates Format.Zpl };

    fn render(
        &self,
        alloc: Global,
        code: &dyn ModuleSource,
        config: &RenderConfig,
    ) -> Result<RenderOutput, PluginError> {
        render_as(alloc, Format::Zpl, code, config)
    }

    fn validate_config(&self, alloc: Global, config: &RenderConfig) -> Result<(), PluginError> {
        validate_as(alloc, Format::Zpl, config)
    }
}

impl DynRenderer for Pdf {
    ghost renders = { λ _. Renders Format.Pdf };

    ghost validates = { λ _. Validates Format.Pdf };

    fn render(
        &self,
        alloc: Global,
        code: &dyn ModuleSource,
        config: &RenderConfig,
    ) -> Result<RenderOutput, PluginError> {
        render_as(alloc, Format::Pdf, code, config)
    }

    fn validate_config(&self, alloc: Global, config: &RenderConfig) -> Result<(), PluginError> {
        validate_as(alloc, Format::Pdf, config)
    }
}

impl DynRenderer for Terminal {
    ghost renders = { λ _. Renders Format.Terminal };

    ghost validates = { λ _. Validates Format.Terminal };

    fn render(
        &self,
        alloc: Global,
        code: &dyn ModuleSource,
        config: &RenderConfig,
    ) -> Result<RenderOutput, PluginError> {
        render_as(alloc, Format::Terminal, code, config)
    }

    fn validate_config(&self, alloc: Global, config: &RenderConfig) -> Result<(), PluginError> {
        validate_as(alloc, Format::Terminal, config)
    }
}

/// Returns the picture of a grid in a format, as a configuration asks for it.
fn render_as(
    alloc: Global,
    format: Format,
    code: &dyn ModuleSource,
    config: &RenderConfig,
) -> Result<RenderOutput, PluginError>
    ensures { Renders format (grid code.now) config.now result }
{
    let options = DrawOptions::of_config(alloc, format, config)?;
    match Picture::of_grid(code, shape(&options)) {
        Some(picture) => Ok(output_of(draw_as(alloc, &picture, &options)?)),
        None => Err(too_large(alloc)),
    }
}

/// Returns whether a renderer of a format accepts a configuration.
fn validate_as(alloc: Global, format: Format, config: &RenderConfig) -> Result<(), PluginError>
    ensures { Validates format config.now result }
{
    DrawOptions::of_config(alloc, format, config)?;
    Ok(())
}

/// Returns a picture as the output of a renderer.
fn output_of(drawn: Drawn) -> RenderOutput
    ensures { IsOutput (is_drawn_text drawn) (drawn_bytes drawn) result }
{
    match drawn {
        Drawn::Text(text) => RenderOutput::Text(text),
        Drawn::Bytes(bytes) => RenderOutput::Bytes(bytes),
    }
}

/// Returns the error for a grid that has no modules or is too large, or `OutOfMemory` if there is
/// no memory for its text.
fn too_large(alloc: Global) -> PluginError
    ensures { IsRendererRefusal (λ _. ⊥) (Unit {0}) result }
{
    let most = MAX_MODULES;
    match format!(in alloc; "no modules, or more than {most} columns or rows") {
        Ok(what) => PluginError::RenderFailed(what),
        Err(_) => PluginError::OutOfMemory,
    }
}
