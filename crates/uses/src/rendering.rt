//! A registry of the renderers of `qrcode_render`, and rendering by their names.
ghost use Rattle.uses.specs.Rendering.{RendersByName};

use crate::registries::draw_by_name;
use qrcode_core::plugin::{PluginError, PluginRegistry, RenderConfig, RenderOutput};
use qrcode_core::traits::ModuleSource;
use qrcode_render::{Pbm, Svg, Terminal};
use std::alloc::Global;

/// Renders the grid of `code` with the renderer of this name: `svg`, `pbm` or `terminal`.
///
/// The registry is made, filled and used here, so that no signature has it.
pub fn render_by_name(
    alloc: Global,
    name: &str,
    code: &dyn ModuleSource,
    config: &RenderConfig,
) -> Result<RenderOutput, PluginError>
    ensures { RendersByName name.now (grid code.now) config.now result }
{
    let mut registry = PluginRegistry::new(alloc);
    registry.register_renderer("svg", Box::new(alloc, Svg)?)?;
    registry.register_renderer("pbm", Box::new(alloc, Pbm)?)?;
    registry.register_renderer("terminal", Box::new(alloc, Terminal)?)?;
    draw_by_name(alloc, &registry, name, code, config)
}
