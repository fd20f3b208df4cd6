//! Renderers, encoders and postprocessors that a caller implements and registers by name.
//!
//! 1. Implement `DynRenderer`, `DynEncoder` or `PostProcessor`.
//! 2. Register boxes of them in a `PluginRegistry`.
//! 3. Look one up by its name, and call it.
//!
//! ```text
//! let mut registry = PluginRegistry::new(alloc);
//! registry.register_renderer("svg", Box::new(alloc, Svg)?)?;
//! let config = RenderConfig::new(alloc).with_option("scale", "8")?;
//! let output = registry.build_renderer("svg", &config)?.render(alloc, &view, &config)?;
//! ```
ghost use Rattle.std.specs.Prelude.{ℕ, List, Result};
ghost use Rattle.qrcode_core.specs.Grids.{Grid};
ghost use Rattle.qrcode_core.specs.declared.plugin.config.EncodeConfig.{EncodeConfig};
ghost use Rattle.qrcode_core.specs.declared.plugin.config.RenderConfig.{RenderConfig};
ghost use Rattle.qrcode_core.specs.declared.plugin.error.PluginError.{PluginError};
ghost use Rattle.qrcode_core.specs.declared.plugin.output.EncodedOutput.{EncodedOutput};
ghost use Rattle.qrcode_core.specs.declared.plugin.output.RenderOutput.{RenderOutput};

mod config;
mod error;
mod grid;
mod names;
mod output;
mod registering;
mod registry;

use crate::traits::{ModuleSource, ModuleStorage};
pub use config::{EncodeConfig, RenderConfig};
pub use error::PluginError;
pub use grid::ModuleGrid;
pub use names::Names;
pub use output::{EncodedOutput, RenderOutput};
pub use registry::{PluginRegistry, QrPlugin};
use std::alloc::Global;

/// A renderer: it turns a grid of modules into an output.
pub trait DynRenderer: Drop {
    // The results that the renderer may return for a grid and a configuration.
    ghost renders: { Self → Grid → RenderConfig → Result RenderOutput PluginError → Type 0 };

    // The results that `validate_config` may return for a configuration.
    ghost validates: { Self → RenderConfig → Result Unit PluginError → Type 0 };

    /// Renders the grid of `code`.
    fn render(
        &self,
        alloc: Global,
        code: &dyn ModuleSource,
        config: &RenderConfig,
    ) -> Result<RenderOutput, PluginError>
        ensures { renders self.now (grid code.now) config.now result };

    /// Returns `Ok(())` where the renderer accepts the configuration, and otherwise an error
    /// that says what is wrong with it. A renderer that accepts every configuration always
    /// returns `Ok(())`.
    fn validate_config(&self, alloc: Global, config: &RenderConfig) -> Result<(), PluginError>
        ensures { validates self.now config.now result };
}

/// An encoder: it turns bytes into an output.
pub trait DynEncoder: Drop {
    // The results that the encoder may return for the bytes and a configuration.
    ghost encodes: { Self → List ℕ → EncodeConfig → Result EncodedOutput PluginError → Type 0 };

    /// Encodes the bytes.
    fn encode(
        &self,
        alloc: Global,
        input: &[u8],
        config: &EncodeConfig,
    ) -> Result<EncodedOutput, PluginError>
        ensures { encodes self.now input.now config.now result };
}

/// A postprocessor: it changes a grid of modules in place.
pub trait PostProcessor: Drop {
    // The results that the postprocessor may return for a grid, each with the grid that it leaves.
    ghost processes: { Self → Grid → Result Unit PluginError → Grid → Type 0 };

    /// Changes the grid in place. On an error the grid may already have been changed.
    fn process(&self, alloc: Global, modules: &mut dyn ModuleStorage) -> Result<(), PluginError>
        ensures { processes self.now (grid modules.old) result (grid modules.new) };
}
