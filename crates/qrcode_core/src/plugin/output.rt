//! The outputs of renderers and encoders.
ghost use Rattle.std.specs.Prelude.{◌≡◌, IfOk, IfErr};
ghost use Rattle.qrcode_core.specs.declared.plugin.error.PluginError.TheVariants.{OutOfMemory};

use crate::plugin::error::PluginError;
use crate::plugin::grid::ModuleGrid;
use std::alloc::Global;

/// The output of a renderer.
#[derive(Debug, Drop, PartialEq, Eq)]
pub enum RenderOutput {
    /// A text: lines of characters, or a drawing as text.
    Text(String),
    /// Bytes, such as those of an image.
    Bytes(Vec<u8>),
    /// A grid of modules.
    Modules(ModuleGrid),
}

impl RenderOutput {
    ghost use Rattle.qrcode_core.specs.Plugins.{IsSameRender};

    /// Returns a copy of the output. It fails with `OutOfMemory`.
    pub fn clone(&self, alloc: Global) -> Result<RenderOutput, PluginError>
        ensures same { IfOk result (IsSameRender self.now) }
        ensures memory { IfErr result (λ e. e ≡ OutOfMemory) }
    {
        Ok(match self {
            RenderOutput::Text(text) => RenderOutput::Text(String::from_str(alloc, text.as_str())?),
            RenderOutput::Bytes(bytes) => RenderOutput::Bytes(Vec::from_slice(
                alloc,
                bytes.as_slice(),
            )?),
            RenderOutput::Modules(modules) => RenderOutput::Modules(modules.clone(alloc)?),
        })
    }
}

/// The output of an encoder.
#[derive(Debug, Drop, PartialEq, Eq)]
pub enum EncodedOutput {
    /// The modules of a symbol.
    Modules(ModuleGrid),
    /// Encoded bytes.
    Bytes(Vec<u8>),
}

impl EncodedOutput {
    ghost use Rattle.qrcode_core.specs.Plugins.{IsSameEncoded};

    /// Returns a copy of the output. It fails with `OutOfMemory`.
    pub fn clone(&self, alloc: Global) -> Result<EncodedOutput, PluginError>
        ensures same { IfOk result (IsSameEncoded self.now) }
        ensures memory { IfErr result (λ e. e ≡ OutOfMemory) }
    {
        Ok(match self {
            EncodedOutput::Modules(modules) => EncodedOutput::Modules(modules.clone(alloc)?),
            EncodedOutput::Bytes(bytes) => EncodedOutput::Bytes(Vec::from_slice(
                alloc,
                bytes.as_slice(),
            )?),
        })
    }
}
