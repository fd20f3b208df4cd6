//! The registration of plugins and of single objects.
ghost use Rattle.std.specs.Prelude.{◌≡◌, [], ◌∷◌, map, IfOk, OnOk, OnErr, IsOkUnless};
ghost use Rattle.std.specs.String.{string_bytes};
ghost use Rattle.qrcode_core.specs.Registries.{Registers, with_registration, version_of};
ghost use Rattle.qrcode_core.specs.Registries.{renderer_of, encoder_of};
ghost use Rattle.qrcode_core.specs.Registries.{postprocessor_of, registered, registrations};
ghost use Rattle.qrcode_core.specs.Registries.{named_renderer};
ghost use Rattle.qrcode_core.specs.Registries.{named_encoder};
ghost use Rattle.qrcode_core.specs.Plugins.{at_key};
ghost use Rattle.qrcode_core.specs.declared.plugin.error.PluginError.TheVariants.{OutOfMemory};

use crate::plugin::error::PluginError;
use crate::plugin::registry::{PluginRegistry, QrPlugin};
use crate::plugin::{DynEncoder, DynRenderer, PostProcessor};

impl PluginRegistry {
    /// Registers everything in a plugin: its name and version, then its renderers, its encoders
    /// and its postprocessors, each list in order. A registered object whose name is taken again
    /// is dropped.
    ///
    /// It fails with `OutOfMemory`. The registrations before the failed one stay then, and the
    /// other objects are dropped.
    pub fn register_plugin(&mut self, plugin: QrPlugin) -> Result<(), PluginError>
        ensures { Registers (registered self.old) (registrations plugin)
            result (registered self.new) }
    {
        let QrPlugin {
            name,
            version,
            renderers,
            encoders,
            postprocessors,
        } = plugin;
        self.put_version(name, version)?;
        self.put_renderers(renderers)?;
        self.put_encoders(encoders)?;
        self.put_postprocessors(postprocessors)
    }

    /// Registers a renderer, and returns the one that had the name before. It fails with
    /// `OutOfMemory`; the registry is unchanged then, and the renderer is dropped.
    pub fn register_renderer(
        &mut self,
        name: &str,
        renderer: Box<dyn DynRenderer>,
    ) -> Result<Option<Box<dyn DynRenderer>>, PluginError>
        ensures ok { OnOk result (registered self.new ≡
            with_registration (registered self.old) (renderer_of name.now renderer)) }
        ensures replaced { IfOk result (λ old.
            old ≡ at_key (registered self.old).renderers name.now) }
        ensures unchanged { OnErr result (registered self.new ≡ registered self.old) }
        ensures memory { IsOkUnless result OutOfMemory }
    {
        let key = String::from_str(self.alloc, name)?;
        let replaced = self.insert_renderer(key, renderer)?;
        Ok(replaced)
    }

    /// Registers an encoder, and returns the one that had the name before. It fails with
    /// `OutOfMemory`; the registry is unchanged then, and the encoder is dropped.
    pub fn register_encoder(
        &mut self,
        name: &str,
        encoder: Box<dyn DynEncoder>,
    ) -> Result<Option<Box<dyn DynEncoder>>, PluginError>
        ensures ok { OnOk result (registered self.new ≡
            with_registration (registered self.old) (encoder_of name.now encoder)) }
        ensures replaced { IfOk result (λ old.
            old ≡ at_key (registered self.old).encoders name.now) }
        ensures unchanged { OnErr result (registered self.new ≡ registered self.old) }
        ensures memory { IsOkUnless result OutOfMemory }
    {
        let key = String::from_str(self.alloc, name)?;
        let replaced = self.insert_encoder(key, encoder)?;
        Ok(replaced)
    }

    /// Registers a postprocessor after all others. It fails with `OutOfMemory`; the registry is
    /// unchanged then, and the postprocessor is dropped.
    pub fn register_postprocessor(
        &mut self,
        postprocessor: Box<dyn PostProcessor>,
    ) -> Result<(), PluginError>
        ensures ok { OnOk result (registered self.new ≡
            with_registration (registered self.old) (postprocessor_of postprocessor)) }
        ensures unchanged { OnErr result (registered self.new ≡ registered self.old) }
        ensures memory { IsOkUnless result OutOfMemory }
    {
        self.postprocessors.push(postprocessor)?;
        Ok(())
    }

    /// Inserts the version of a plugin under its name.
    #[tactic(auto, using(crate::proofs::Plugins::text_entries_insert, crate::proofs::Plugins::text_values_insert))]
    fn put_version(&mut self, name: String, version: String) -> Result<(), PluginError>
        ensures { Registers (registered self.old)
            (version_of (string_bytes name) (string_bytes version) ∷ [])
            result (registered self.new) }
    {
        match self.plugins.insert(name, version) {
            Ok(_) => Ok(()),
            Err(_) => Err(PluginError::OutOfMemory),
        }
    }

    /// Inserts a renderer under a name, and returns the one that it replaces.
    #[tactic(auto, using(crate::proofs::Plugins::text_entries_lookup))]
    fn insert_renderer(
        &mut self,
        name: String,
        renderer: Box<dyn DynRenderer>,
    ) -> Result<Option<Box<dyn DynRenderer>>, PluginError>
        ensures ok { OnOk result (registered self.new ≡
            with_registration (registered self.old) (renderer_of (string_bytes name) renderer)) }
        ensures replaced { IfOk result (λ old.
            old ≡ at_key (registered self.old).renderers (string_bytes name)) }
        ensures unchanged { OnErr result (registered self.new ≡ registered self.old) }
        ensures memory { IsOkUnless result OutOfMemory }
    {
        let replaced = self.renderers.insert(name, renderer)?;
        Ok(replaced)
    }

    /// Inserts renderers under their names, up to the first one whose allocation fails.
    #[tactic(auto, using(crate::proofs::Plugins::one_more_registered))]
    fn put_renderers(&mut self, all: Vec<(String, Box<dyn DynRenderer>)>) -> Result<(), PluginError>
        ensures { Registers (registered self.old) (map named_renderer all.items)
            result (registered self.new) }
    {
        for (name, renderer) in all {
            self.put_renderer(name, renderer)?;
        }
        Ok(())
    }

    /// Inserts a renderer under a name, and drops the one that it replaces.
    fn put_renderer(
        &mut self,
        name: String,
        renderer: Box<dyn DynRenderer>,
    ) -> Result<(), PluginError>
        ensures { Registers (registered self.old) (renderer_of (string_bytes name) renderer ∷ [])
            result (registered self.new) }
    {
        self.insert_renderer(name, renderer)?;
        Ok(())
    }

    /// Inserts an encoder under a name, and returns the one that it replaces.
    #[tactic(auto, using(crate::proofs::Plugins::text_entries_lookup))]
    fn insert_encoder(
        &mut self,
        name: String,
        encoder: Box<dyn DynEncoder>,
    ) -> Result<Option<Box<dyn DynEncoder>>, PluginError>
        ensures ok { OnOk result (registered self.new ≡
            with_registration (registered self.old) (encoder_of (string_bytes name) encoder)) }
        ensures replaced { IfOk result (λ old.
            old ≡ at_key (registered self.old).encoders (string_bytes name)) }
        ensures unchanged { OnErr result (registered self.new ≡ registered self.old) }
        ensures memory { IsOkUnless result OutOfMemory }
    {
        let replaced = self.encoders.insert(name, encoder)?;
        Ok(replaced)
    }

    /// Inserts encoders under their names, up to the first one whose allocation fails.
    #[tactic(auto, using(crate::proofs::Plugins::one_more_registered))]
    fn put_encoders(&mut self, all: Vec<(String, Box<dyn DynEncoder>)>) -> Result<(), PluginError>
        ensures { Registers (registered self.old) (map named_encoder all.items)
            result (registered self.new) }
    {
        for (name, encoder) in all {
            self.put_encoder(name, encoder)?;
        }
        Ok(())
    }

    /// Inserts an encoder under a name, and drops the one that it replaces.
    fn put_encoder(&mut self, name: String, encoder: Box<dyn DynEncoder>) -> Result<(), PluginError>
        ensures { Registers (registered self.old) (encoder_of (string_bytes name) encoder ∷ [])
            result (registered self.new) }
    {
        self.insert_encoder(name, encoder)?;
        Ok(())
    }

    /// Appends postprocessors in order, up to the first one whose allocation fails.
    #[tactic(auto, using(crate::proofs::Plugins::one_more_registered))]
    fn put_postprocessors(&mut self, all: Vec<Box<dyn PostProcessor>>) -> Result<(), PluginError>
        ensures { Registers (registered self.old) (map postprocessor_of all.items)
            result (registered self.new) }
    {
        for postprocessor in all {
            self.put_postprocessor(postprocessor)?;
        }
        Ok(())
    }

    /// Appends a postprocessor to the others.
    fn put_postprocessor(
        &mut self,
        postprocessor: Box<dyn PostProcessor>,
    ) -> Result<(), PluginError>
        ensures { Registers (registered self.old) (postprocessor_of postprocessor ∷ [])
            result (registered self.new) }
    {
        match self.postprocessors.push(postprocessor) {
            Ok(()) => Ok(()),
            Err(_) => Err(PluginError::OutOfMemory),
        }
    }
}
