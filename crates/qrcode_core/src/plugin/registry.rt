//! The registry: what a caller registered, how it is looked up, and how postprocessors are run.
ghost use Rattle.std.specs.Prelude.{◌≡◌, Ok, Err, IfSome, IfNone, MatchResult};
ghost use Rattle.std.specs.Prelude.{IsErrAnd, IsOkAnd};
ghost use Rattle.std.specs.List.Sorted.{IsStrictlySortedBy};
ghost use Rattle.std.specs.Option.{option_copied};
ghost use Rattle.qrcode_core.specs.Plugins.{names_left, at_key, key_texts, text_cmp};
ghost use Rattle.qrcode_core.specs.Plugins.{IsRendererMissing};
ghost use Rattle.qrcode_core.specs.Plugins.{IsEncoderMissing};
ghost use Rattle.qrcode_core.specs.Registries.{nothing_registered, StepsInOrder, registered};
ghost use Rattle.qrcode_core.specs.Registries.{object_at};

use crate::plugin::config::{EncodeConfig, RenderConfig};
use crate::plugin::error::PluginError;
use crate::plugin::names::Names;
use crate::plugin::{DynEncoder, DynRenderer, PostProcessor};
use crate::traits::ModuleStorage;
use std::alloc::Global;
use std::collections::BTreeMap;

/// Renderers, encoders and postprocessors that are registered together, under a name and a version.
#[derive(Drop)]
pub struct QrPlugin {
    /// The name of the plugin.
    pub name: String,
    /// The version of the plugin.
    pub version: String,
    /// The renderers, each with its name.
    pub renderers: Vec<(String, Box<dyn DynRenderer>)>,
    /// The encoders, each with its name.
    pub encoders: Vec<(String, Box<dyn DynEncoder>)>,
    /// The postprocessors, in the order in which they run.
    pub postprocessors: Vec<Box<dyn PostProcessor>>,
}

/// The registered objects: versions of plugins, renderers and encoders, each by name, and
/// postprocessors in the order of registration.
#[derive(Drop)]
pub struct PluginRegistry {
    pub(super) plugins: BTreeMap<String, String>,
    pub(super) renderers: BTreeMap<String, Box<dyn DynRenderer>>,
    pub(super) encoders: BTreeMap<String, Box<dyn DynEncoder>>,
    pub(super) postprocessors: Vec<Box<dyn PostProcessor>>,
    pub(super) alloc: Global,
}

impl PluginRegistry {
    /// Returns an empty registry.
    pub fn new(alloc: Global) -> PluginRegistry
        ensures { registered result ≡ nothing_registered }
    {
        PluginRegistry {
            plugins: BTreeMap::new(alloc),
            renderers: BTreeMap::new(alloc),
            encoders: BTreeMap::new(alloc),
            postprocessors: Vec::new(alloc),
            alloc,
        }
    }

    /// Returns the version of the plugin of this name.
    #[tactic(auto, using(crate::proofs::Plugins::text_entries_lookup, crate::proofs::Plugins::text_values_lookup))]
    pub fn plugin_version(&self, name: &str) -> Option<&str>
        ensures { option_copied result ≡ at_key (registered self.now).plugins name.now }
    {
        self.plugins.get(name).map(|version| version.as_str())
    }

    /// Returns the names of the plugins, in the order of their bytes.
    #[tactic(auto, using(crate::proofs::Plugins::names_in_order))]
    pub fn plugin_names(&self) -> Names<'_, String>
        ensures names { names_left result ≡ key_texts (registered self.now).plugins }
        ensures ordered { IsStrictlySortedBy text_cmp (names_left result) }
    {
        Names::new(self.plugins.keys())
    }

    /// Returns the renderer of this name.
    #[tactic(auto, using(crate::proofs::Plugins::text_entries_lookup))]
    pub fn renderer(&self, name: &str) -> Option<&dyn DynRenderer>
        ensures { option_copied result ≡ object_at (registered self.now).renderers name.now }
    {
        Some(lend_renderer(self.renderers.get(name)?))
    }

    /// Returns the renderer of this name, if its `validate_config` accepts the configuration.
    ///
    /// If there is no such renderer, it fails with `RendererNotFound`, or with `OutOfMemory` if the
    /// name cannot be copied. Otherwise it fails with the error of `validate_config`.
    pub fn build_renderer(
        &self,
        name: &str,
        config: &RenderConfig,
    ) -> Result<&dyn DynRenderer, PluginError>
        ensures missing { IfNone (object_at (registered self.now).renderers name.now)
            (IsErrAnd result (IsRendererMissing name.now)) }
        ensures found { IfSome (object_at (registered self.now).renderers name.now) (λ object.
            MatchResult result
            (λ lent. (lent.now ≡ object) × validates object config.now (Ok tt))
            (λ e. validates object config.now (Err e))) }
    {
        match self.renderer(name) {
            Some(renderer) => match renderer.validate_config(self.alloc, config) {
                Ok(()) => Ok(renderer),
                Err(e) => Err(e),
            },
            None => Err(missing_renderer(self.alloc, name)),
        }
    }

    /// Returns the names of the renderers, in the order of their bytes.
    #[tactic(auto, using(crate::proofs::Plugins::text_entries_keys, crate::proofs::Plugins::texts_sorted))]
    pub fn renderer_names(&self) -> Names<'_, Box<dyn DynRenderer>>
        ensures names { names_left result ≡ key_texts (registered self.now).renderers }
        ensures ordered { IsStrictlySortedBy text_cmp (names_left result) }
    {
        Names::new(self.renderers.keys())
    }

    /// Returns the encoder of this name.
    #[tactic(auto, using(crate::proofs::Plugins::text_entries_lookup))]
    pub fn encoder(&self, name: &str) -> Option<&dyn DynEncoder>
        ensures { option_copied result ≡ object_at (registered self.now).encoders name.now }
    {
        Some(lend_encoder(self.encoders.get(name)?))
    }

    /// Returns the encoder of this name, whatever the configuration is. If there is none, it fails
    /// with `EncoderNotFound`, or with `OutOfMemory` if the name cannot be copied.
    pub fn build_encoder(
        &self,
        name: &str,
        _config: &EncodeConfig,
    ) -> Result<&dyn DynEncoder, PluginError>
        ensures missing { IfNone (object_at (registered self.now).encoders name.now)
            (IsErrAnd result (IsEncoderMissing name.now)) }
        ensures found { IfSome (object_at (registered self.now).encoders name.now)
            (λ object. IsOkAnd result (λ lent. lent.now ≡ object)) }
    {
        match self.encoder(name) {
            Some(encoder) => Ok(encoder),
            None => Err(missing_encoder(self.alloc, name)),
        }
    }

    /// Returns the names of the encoders, in the order of their bytes.
    #[tactic(auto, using(crate::proofs::Plugins::text_entries_keys, crate::proofs::Plugins::texts_sorted))]
    pub fn encoder_names(&self) -> Names<'_, Box<dyn DynEncoder>>
        ensures names { names_left result ≡ key_texts (registered self.now).encoders }
        ensures ordered { IsStrictlySortedBy text_cmp (names_left result) }
    {
        Names::new(self.encoders.keys())
    }

    /// Returns the postprocessors, in the order of registration.
    pub fn postprocessors(&self) -> &[Box<dyn PostProcessor>]
        ensures { result.now ≡ (registered self.now).postprocessors }
    {
        self.postprocessors.as_slice()
    }

    /// Runs the postprocessors on the grid, in the order of registration, up to the first error,
    /// which it returns. The grid keeps the changes that were made until then.
    #[tactic(auto, using(crate::proofs::Plugins::steps_refused, crate::proofs::Plugins::steps_further))]
    pub fn process_modules(&self, modules: &mut dyn ModuleStorage) -> Result<(), PluginError>
        ensures { StepsInOrder processes (registered self.now).postprocessors
            (grid modules.old) result (grid modules.new) }
    {
        for postprocessor in self.postprocessors.iter() {
            process_by(postprocessor, self.alloc, modules)?;
        }
        Ok(())
    }
}

/// Runs one postprocessor on the modules.
fn process_by(
    postprocessor: &Box<dyn PostProcessor>,
    alloc: Global,
    modules: &mut dyn ModuleStorage,
) -> Result<(), PluginError>
    ensures { processes postprocessor.now (grid modules.old) result (grid modules.new) }
{
    postprocessor.process(alloc, modules)
}

/// Returns a reference to the renderer in a box.
fn lend_renderer(renderer: &Box<dyn DynRenderer>) -> &dyn DynRenderer
    ensures { result.now ≡ (renderer.now.vtable, renderer.now.value) }
{
    &**renderer
}

/// Returns a reference to the encoder in a box.
fn lend_encoder(encoder: &Box<dyn DynEncoder>) -> &dyn DynEncoder
    ensures { result.now ≡ (encoder.now.vtable, encoder.now.value) }
{
    &**encoder
}

/// Returns `RendererNotFound` with this name, or `OutOfMemory` if the name cannot be copied.
fn missing_renderer(alloc: Global, name: &str) -> PluginError
    ensures { IsRendererMissing name.now result }
{
    match String::from_str(alloc, name) {
        Ok(name) => PluginError::RendererNotFound(name),
        Err(_) => PluginError::OutOfMemory,
    }
}

/// Returns `EncoderNotFound` with this name, or `OutOfMemory` if the name cannot be copied.
fn missing_encoder(alloc: Global, name: &str) -> PluginError
    ensures { IsEncoderMissing name.now result }
{
    match String::from_str(alloc, name) {
        Ok(name) => PluginError::EncoderNotFound(name),
        Err(_) => PluginError::OutOfMemory,
    }
}
