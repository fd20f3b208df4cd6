//! Configurations of renderers and encoders.
ghost use Rattle.std.specs.Prelude.{◌≡◌, [], Some, None, IfOk, IfErr, IsOkUnless};
ghost use Rattle.std.specs.Option.{option_copied};
ghost use Rattle.qrcode_core.specs.Plugins.{render_format, render_options, encode_options};
ghost use Rattle.qrcode_core.specs.Plugins.{with_entry, at_key};
ghost use Rattle.qrcode_core.specs.declared.plugin.error.PluginError.TheVariants.{OutOfMemory};

use crate::plugin::error::PluginError;
use std::alloc::Global;
use std::collections::BTreeMap;

/// The configuration of a renderer: an optional format, and options by name.
#[derive(Debug, Drop, PartialEq, Eq)]
pub struct RenderConfig {
    format: Option<String>,
    options: BTreeMap<String, String>,
    alloc: Global,
}

impl RenderConfig {
    /// Returns a configuration without a format and without options.
    pub fn new(alloc: Global) -> RenderConfig
        ensures format { render_format result ≡ None }
        ensures options { render_options result ≡ [] }
    {
        RenderConfig {
            format: None,
            options: BTreeMap::new(alloc),
            alloc,
        }
    }

    /// Returns the configuration with this format, which replaces the old one. It fails with
    /// `OutOfMemory`, and the configuration is dropped then.
    pub fn with_format(mut self, format: &str) -> Result<RenderConfig, PluginError>
        ensures format { IfOk result (λ c. render_format c ≡ Some format.now) }
        ensures options { IfOk result (λ c. render_options c ≡ render_options self) }
        ensures memory { IsOkUnless result OutOfMemory }
    {
        self.format = Some(String::from_str(self.alloc, format)?);
        Ok(self)
    }

    /// Returns the configuration with this option, which replaces an option of the same name. It
    /// fails with `OutOfMemory`, and the configuration is dropped then.
    #[tactic(auto, using(crate::proofs::Plugins::text_entries_insert, crate::proofs::Plugins::text_values_insert))]
    pub fn with_option(mut self, key: &str, value: &str) -> Result<RenderConfig, PluginError>
        ensures format { IfOk result (λ c. render_format c ≡ render_format self) }
        ensures options { IfOk result (λ c.
            render_options c ≡ with_entry (render_options self) key.now value.now) }
        ensures memory { IsOkUnless result OutOfMemory }
    {
        let key = String::from_str(self.alloc, key)?;
        let value = String::from_str(self.alloc, value)?;
        self.options.insert(key, value)?;
        Ok(self)
    }

    /// Returns the format, or `None` if there is none.
    pub fn format(&self) -> Option<&str>
        ensures { option_copied result ≡ render_format self.now }
    {
        self.format.as_ref().map(|format| format.as_str())
    }

    /// Returns the value of an option, or `None` if there is no option of this name.
    #[tactic(auto, using(crate::proofs::Plugins::text_entries_lookup, crate::proofs::Plugins::text_values_lookup))]
    pub fn option(&self, key: &str) -> Option<&str>
        ensures { option_copied result ≡ at_key (render_options self.now) key.now }
    {
        self.options.get(key).map(|value| value.as_str())
    }

    /// Returns a copy of the configuration. It fails with `OutOfMemory`.
    #[tactic(auto, using(crate::proofs::Plugins::text_values_clone))]
    pub fn clone(&self, alloc: Global) -> Result<RenderConfig, PluginError>
        ensures format { IfOk result (λ c. render_format c ≡ render_format self.now) }
        ensures options { IfOk result (λ c. render_options c ≡ render_options self.now) }
        ensures memory { IfErr result (λ e. e ≡ OutOfMemory) }
    {
        let format = match &self.format {
            Some(format) => Some(String::from_str(alloc, format.as_str())?),
            None => None,
        };
        let options = self.options.clone()?;
        Ok(RenderConfig {
            format,
            options,
            alloc,
        })
    }
}

/// The configuration of an encoder: options by name.
#[derive(Debug, Drop, PartialEq, Eq)]
pub struct EncodeConfig {
    options: BTreeMap<String, String>,
    alloc: Global,
}

impl EncodeConfig {
    /// Returns a configuration without options.
    pub fn new(alloc: Global) -> EncodeConfig
        ensures { encode_options result ≡ [] }
    {
        EncodeConfig {
            options: BTreeMap::new(alloc),
            alloc,
        }
    }

    /// Returns the configuration with this option, which replaces an option of the same name. It
    /// fails with `OutOfMemory`, and the configuration is dropped then.
    #[tactic(auto, using(crate::proofs::Plugins::text_entries_insert, crate::proofs::Plugins::text_values_insert))]
    pub fn with_option(mut self, key: &str, value: &str) -> Result<EncodeConfig, PluginError>
        ensures options { IfOk result (λ c.
            encode_options c ≡ with_entry (encode_options self) key.now value.now) }
        ensures memory { IsOkUnless result OutOfMemory }
    {
        let key = String::from_str(self.alloc, key)?;
        let value = String::from_str(self.alloc, value)?;
        self.options.insert(key, value)?;
        Ok(self)
    }

    /// Returns the value of an option, or `None` if there is no option of this name.
    #[tactic(auto, using(crate::proofs::Plugins::text_entries_lookup, crate::proofs::Plugins::text_values_lookup))]
    pub fn option(&self, key: &str) -> Option<&str>
        ensures { option_copied result ≡ at_key (encode_options self.now) key.now }
    {
        self.options.get(key).map(|value| value.as_str())
    }

    /// Returns a copy of the configuration. It fails with `OutOfMemory`.
    #[tactic(auto, using(crate::proofs::Plugins::text_values_clone))]
    pub fn clone(&self, alloc: Global) -> Result<EncodeConfig, PluginError>
        ensures options { IfOk result (λ c. encode_options c ≡ encode_options self.now) }
        ensures memory { IfErr result (λ e. e ≡ OutOfMemory) }
    {
        let options = self.options.clone()?;
        Ok(EncodeConfig { options, alloc })
    }
}
