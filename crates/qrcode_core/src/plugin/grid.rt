//! A grid that owns its modules.
ghost use Rattle.std.specs.Prelude.{◌≡◌, ◌*◌, ◌<◌, ◌↔◌, IfOk, IfErr, IsOk, IsOkUnless, vec_len};
ghost use Rattle.qrcode_core.specs.Grids.{IsFull, grid_of};
ghost use Rattle.qrcode_core.specs.declared.plugin.error.PluginError.TheVariants.{};
ghost use Rattle.qrcode_core.specs.declared.plugin.error.PluginError.TheVariants.{InvalidModuleGrid};
ghost use Rattle.qrcode_core.specs.declared.plugin.error.PluginError.TheVariants.{OutOfMemory};

use crate::plugin::error::PluginError;
use crate::traits::ModuleStorage;
use qrcode_base::types::Color;
use std::alloc::Global;

/// A grid that owns its modules. Postprocessors change it, and renderers and encoders may
/// return it.
#[derive(Debug, Drop, PartialEq, Eq)]
pub struct ModuleGrid {
    modules: Vec<Color>,
    width: usize,
    height: usize,
    ghost full: { IsFull (grid_of modules.items width height) },
}

impl ModuleGrid {
    ghost use Rattle.std.specs.Borrow.{sem};
    ghost use Rattle.qrcode_core.specs.Plugins.{owned_grid};
    ghost use Rattle.qrcode_core.specs.ModuleGrid.{LendsModules};

    /// Returns the grid of these modules, row after row. It fails with `InvalidModuleGrid` if a
    /// side is 0, or if the product of the sides is not the length of the list or does not fit
    /// a `usize`.
    pub fn new(modules: Vec<Color>, width: usize, height: usize) -> Result<ModuleGrid, PluginError>
        ensures exact { IsOk result ↔ (0 < width × 0 < height × vec_len modules ≡ height * width) }
        ensures made { IfOk result (λ g. owned_grid g ≡ grid_of modules.items width height) }
        ensures refusal { IsOkUnless result InvalidModuleGrid }
    {
        if width == 0 || height == 0 {
            return Err(PluginError::InvalidModuleGrid);
        }
        match width.checked_mul(height) {
            Some(count) if count == modules.len() => Ok(ModuleGrid {
                modules,
                width,
                height,
            }),
            _ => Err(PluginError::InvalidModuleGrid),
        }
    }

    /// Returns all modules as a mutable slice, row after row.
    pub fn modules_mut(&mut self) -> &mut [Color]
        ensures* writes_back { sem 𝓛 (LendsModules self.entry result) }
        ensures value { result.now ≡ (owned_grid self.old).cells }
    {
        self.modules.as_mut_slice()
    }

    /// Returns a copy of the grid. It fails with `OutOfMemory`.
    pub fn clone(&self, alloc: Global) -> Result<ModuleGrid, PluginError>
        ensures same { IfOk result (λ g. owned_grid g ≡ owned_grid self.now) }
        ensures memory { IfErr result (λ e. e ≡ OutOfMemory) }
    {
        let modules = Vec::from_slice(alloc, self.modules.as_slice())?;
        Ok(ModuleGrid {
            modules,
            width: self.width,
            height: self.height,
        })
    }
}

impl ModuleStorage for ModuleGrid {
    ghost use Rattle.qrcode_core.specs.Plugins.{owned_grid};

    ghost grid = { owned_grid };

    fn get(&self, x: usize, y: usize) -> Color {
        self.modules[y * self.width + x]
    }

    fn set(&mut self, x: usize, y: usize, color: Color) {
        let at = y * self.width + x;
        self.modules[at] = color;
    }

    fn width(&self) -> usize {
        self.width
    }

    fn height(&self) -> usize {
        self.height
    }

    fn modules(&self) -> &[Color] {
        self.modules.as_slice()
    }
}
