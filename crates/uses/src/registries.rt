//! Rendering by the name of a renderer, by `qrcode_core`.
ghost use Rattle.std.specs.Prelude.{◌≡◌, ◌⊎◌, Err, IfNone, IfSome, IsErrAnd};
ghost use Rattle.qrcode_core.specs.Plugins.{IsRendererMissing};
ghost use Rattle.qrcode_core.specs.Registries.{registered, object_at};
ghost use Rattle.qrcode_core.specs.declared.plugin.error.PluginError.{PluginError};

use qrcode_core::plugin::{PluginError, PluginRegistry, RenderConfig, RenderOutput};
use qrcode_core::traits::ModuleSource;
use std::alloc::Global;

/// Renders with the renderer registered under this name, or returns why there is none or why it
/// rejects the configuration.
pub fn draw_by_name(
    alloc: Global,
    registry: &PluginRegistry,
    name: &str,
    code: &dyn ModuleSource,
    config: &RenderConfig,
) -> Result<RenderOutput, PluginError>
    ensures missing { IfNone (object_at (registered registry.now).renderers name.now)
        (IsErrAnd result (IsRendererMissing name.now)) }
    ensures found { IfSome (object_at (registered registry.now).renderers name.now) (λ object.
        renders object (grid code.now) config.now result
        ⊎ ((e : PluginError) × (result ≡ Err e) × validates object config.now (Err e))) }
{
    if let Some(error) = registry.build_renderer(name, config).err() {
        return Err(error);
    }
    match registry.renderer(name) {
        Some(renderer) => renderer.render(alloc, code, config),
        None => Err(PluginError::OutOfMemory),
    }
}
