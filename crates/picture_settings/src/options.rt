//! The scale and the quiet zone of a picture.
ghost use Rattle.std.specs.Prelude.{◌≡◌, ◌≤◌, IfOk, IfErr};
ghost use Rattle.picture_settings.specs.declared.bounds.TheConstants.{MIN_SCALE, MAX_SCALE};
ghost use Rattle.picture_settings.specs.declared.bounds.TheConstants.{MAX_QUIET};
ghost use Rattle.picture_settings.specs.Options.{IsOptionRefusal, IsOutside, NamesOption};
ghost use Rattle.picture_settings.specs.Settings.{setting_word};

use crate::bounds::{MAX_QUIET, MAX_SCALE, MIN_SCALE};
use crate::settings::Setting;
use qrcode_core::plugin::PluginError;
use std::alloc::{AllocError, Global};

/// The way in which a grid is drawn.
#[derive(Clone, Copy, Debug, PartialEq, Eq)]
pub struct RenderOptions {
    /// The width of a module in pixels, from `MIN_SCALE` to `MAX_SCALE`.
    pub scale: usize,
    /// The width of the quiet zone in modules, at most `MAX_QUIET`.
    pub quiet: usize,
    ghost scaled: { MIN_SCALE ≤ scale },
    ghost small_scale: { scale ≤ MAX_SCALE },
    ghost small_zone: { quiet ≤ MAX_QUIET },
}

impl RenderOptions {
    /// Returns the options with this width of a module in pixels, and this width of the quiet
    /// zone in modules.
    ///
    /// # Errors
    ///
    /// It fails with `InvalidConfig` and the name of the option, `scale` or `quiet`, that is out
    /// of bounds; or with `OutOfMemory` if there is no memory for the name.
    pub fn new(alloc: Global, scale: usize, quiet: usize) -> Result<RenderOptions, PluginError>
        ensures scale { IfOk result (λ options. options.scale ≡ scale) }
        ensures quiet { IfOk result (λ options. options.quiet ≡ quiet) }
        ensures refusal { IfErr result (IsOptionRefusal (IsOutside scale quiet)) }
    {
        if scale < MIN_SCALE || scale > MAX_SCALE {
            return Err(invalid_option(alloc, Setting::Scale));
        }
        if quiet > MAX_QUIET {
            return Err(invalid_option(alloc, Setting::Quiet));
        }
        Ok(RenderOptions { scale, quiet })
    }
}

/// Returns `InvalidConfig` with the name of a setting, or `OutOfMemory` if there is no memory for
/// the name.
pub(crate) fn invalid_option(alloc: Global, setting: Setting) -> PluginError
    ensures { NamesOption (setting_word setting) result }
{
    match String::from_str(alloc, setting.name()) {
        Ok(name) => PluginError::InvalidConfig(name),
        Err(AllocError) => PluginError::OutOfMemory,
    }
}
