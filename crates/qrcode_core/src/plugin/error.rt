//! The errors of a registry and of the objects in it.
ghost use Rattle.std.specs.Prelude.{◌≡◌, IfOk, IfErr};
ghost use Rattle.qrcode_core.specs.declared.plugin.error.PluginError.TheVariants.{OutOfMemory};

use std::alloc::{AllocError, AllocFailed, Global};
use thiserror::Error;

/// An error of a registry, or of an object in it. `Display` prints what went wrong, and then the
/// text that the error holds.
#[derive(Debug, Drop, PartialEq, Eq, Error)]
pub enum PluginError {
    /// No renderer has this name.
    #[error("renderer plugin not found: {0}")]
    RendererNotFound(String),
    /// No encoder has this name.
    #[error("encoder plugin not found: {0}")]
    EncoderNotFound(String),
    /// The object does not accept the configuration.
    #[error("invalid plugin config: {0}")]
    InvalidConfig(String),
    /// The number of modules is 0, or not the product of the sides.
    #[error("invalid module grid")]
    InvalidModuleGrid,
    /// A renderer failed.
    #[error("renderer plugin failed: {0}")]
    RenderFailed(String),
    /// An encoder failed.
    #[error("encoder plugin failed: {0}")]
    EncodeFailed(String),
    /// A postprocessor failed.
    #[error("postprocessor plugin failed: {0}")]
    PostProcessFailed(String),
    /// An allocation failed.
    #[error("out of memory")]
    OutOfMemory,
}

impl PluginError {
    ghost use Rattle.qrcode_core.specs.Plugins.{IsSameError};

    /// Returns a copy of the error, with the same text. It fails with `OutOfMemory`.
    pub fn clone(&self, alloc: Global) -> Result<PluginError, PluginError>
        ensures same { IfOk result (IsSameError self.now) }
        ensures memory { IfErr result (λ e. e ≡ OutOfMemory) }
    {
        Ok(match self {
            PluginError::RendererNotFound(name) => {
                PluginError::RendererNotFound(String::from_str(alloc, name)?)
            }
            PluginError::EncoderNotFound(name) => {
                PluginError::EncoderNotFound(String::from_str(alloc, name)?)
            }
            PluginError::InvalidConfig(message) => {
                PluginError::InvalidConfig(String::from_str(alloc, message)?)
            }
            PluginError::InvalidModuleGrid => PluginError::InvalidModuleGrid,
            PluginError::RenderFailed(message) => {
                PluginError::RenderFailed(String::from_str(alloc, message)?)
            }
            PluginError::EncodeFailed(message) => {
                PluginError::EncodeFailed(String::from_str(alloc, message)?)
            }
            PluginError::PostProcessFailed(message) => {
                PluginError::PostProcessFailed(String::from_str(alloc, message)?)
            }
            PluginError::OutOfMemory => PluginError::OutOfMemory,
        })
    }
}

impl From<AllocError> for PluginError {
    ghost from_gives = { λ _ e. e ≡ OutOfMemory };

    fn from(_error: AllocError) -> PluginError {
        PluginError::OutOfMemory
    }
}

impl<T: Drop> From<AllocFailed<T>> for PluginError {
    ghost from_gives = { λ _ e. e ≡ OutOfMemory };

    fn from(_error: AllocFailed<T>) -> PluginError {
        PluginError::OutOfMemory
    }
}
