//! Registrations and configurations whose allocations fail.

use crate::registry_tests::{Darken, Plain, Text};
use qrcode_core::plugin::{
    DynEncoder, DynRenderer, EncodeConfig, EncodedOutput, ModuleGrid, PluginError, PluginRegistry,
    PostProcessor, QrPlugin, RenderConfig, RenderOutput,
};
use qrcode_core::types::Color;
use std::alloc::Global;
use std::process::Abort;

/// Returns a renderer with its name.
fn named(alloc: Global, name: &str) -> Result<(String, Box<dyn DynRenderer>), PluginError> {
    let renderer: Box<dyn DynRenderer> = Box::new(alloc, Text)?;
    Ok((String::from_str(alloc, name)?, renderer))
}

/// Returns two renderers with their names.
fn renderers(alloc: Global) -> Result<Vec<(String, Box<dyn DynRenderer>)>, PluginError> {
    let first = named(alloc, "first")?;
    let second = named(alloc, "second")?;
    Ok(Vec::from_array(alloc, [first, second])?)
}

/// Returns an encoder with its name.
fn encoders(alloc: Global) -> Result<Vec<(String, Box<dyn DynEncoder>)>, PluginError> {
    let encoder: Box<dyn DynEncoder> = Box::new(alloc, Plain)?;
    let name = String::from_str(alloc, "third")?;
    Ok(Vec::from_array(alloc, [(name, encoder)])?)
}

/// Returns a postprocessor.
fn postprocessors(alloc: Global) -> Result<Vec<Box<dyn PostProcessor>>, PluginError> {
    let postprocessor: Box<dyn PostProcessor> = Box::new(alloc, Darken { x: 0 })?;
    Ok(Vec::from_array(alloc, [postprocessor])?)
}

/// Returns a plugin of five registrations: its version, two renderers, an encoder and
/// a postprocessor.
fn bundle(alloc: Global) -> Result<QrPlugin, PluginError> {
    Ok(QrPlugin {
        name: String::from_str(alloc, "bundle")?,
        version: String::from_str(alloc, "0.1.0")?,
        renderers: renderers(alloc)?,
        encoders: encoders(alloc)?,
        postprocessors: postprocessors(alloc)?,
    })
}

/// Returns which registrations of the plugin are present, in their order.
fn registrations(registry: &PluginRegistry) -> [bool; 5] {
    [
        registry.plugin_version("bundle") == Some("0.1.0"),
        registry.renderer("first").is_some(),
        registry.renderer("second").is_some(),
        registry.encoder("third").is_some(),
        registry.postprocessors().len() == 1,
    ]
}

/// Names of renderers that are registered before the plugin.
static EARLIER: [&str; 16] = [
    "a", "b", "c", "d", "e", "g", "h", "i", "j", "k", "l", "m", "n", "o", "p", "q",
];

/// Returns a registry with the first `earlier` of these renderers.
fn registry_of(alloc: Global, earlier: usize) -> Result<PluginRegistry, PluginError> {
    let mut registry = PluginRegistry::new(alloc);
    for name in EARLIER.iter().take(earlier) {
        registry.register_renderer(name, Box::new(alloc, Text)?)?;
    }
    Ok(registry)
}

/// Returns how many registrations of the plugin are present: 5 if it succeeded, and otherwise
/// fewer, which must be the first ones.
fn kept_of(there: [bool; 5], succeeded: bool) -> Option<usize> {
    let kept = there.iter().take_while(|is| **is).count();
    if there.iter().skip(kept).any(|is| *is) || succeeded != (kept == 5) {
        return None;
    }
    Some(kept)
}

/// Registers the plugin after some renderers, and returns how many of its registrations are
/// present: 5, or fewer if an allocation failed, which must be the first ones.
fn kept_after(alloc: Global, earlier: usize) -> Result<usize, PluginError> {
    let mut registry = registry_of(alloc, earlier)?;
    let succeeded = registry.register_plugin(bundle(alloc)?).is_ok();
    kept_of(registrations(&registry), succeeded).ok_or(PluginError::InvalidModuleGrid)
}

/// An allocation failed: how many registrations were made before that. `tools/refuse-growth`
/// requires each number from 0 to 4 to occur.
#[derive(Debug, Drop)]
enum Refused {
    OutOfMemory { kept: usize },
    Other(PluginError),
}

/// On an error the first registrations are kept, and no others. (A map allocates once for several
/// names, so that the second renderer makes it allocate only if others were registered before.)
#[test]
fn register_plugin_of_five(rt: HostRuntime) -> Result<(), Refused> {
    for earlier in 0..EARLIER.len() {
        match kept_after(rt.alloc(), earlier) {
            Ok(5) => {}
            Ok(kept) => return Err(Refused::OutOfMemory { kept }),
            Err(error) => return Err(Refused::Other(error)),
        }
    }
    Ok(())
}

/// A registration that fails leaves the registry unchanged.
#[test]
fn single_registrations(rt: HostRuntime) -> Result<(), PluginError> {
    let mut registry = PluginRegistry::new(rt.alloc());
    single_renderer(&rt, rt.alloc(), &mut registry)?;
    single_encoder(&rt, rt.alloc(), &mut registry)?;
    let darken = Box::new(rt.alloc(), Darken { x: 0 })?;
    let answer = registry.register_postprocessor(darken);
    assert!(rt; (registry.postprocessors().len() == 1) == answer.is_ok());
    assert!(rt; registry.renderer("first").is_some() && registry.encoder("third").is_some());
    answer
}

/// Registers a renderer.
fn single_renderer(
    rt: &impl Abort,
    alloc: Global,
    registry: &mut PluginRegistry,
) -> Result<(), PluginError> {
    let answer = registry.register_renderer("first", Box::new(alloc, Text)?);
    assert!(rt; registry.renderer("first").is_some() == answer.is_ok());
    answer?;
    Ok(())
}

/// Registers an encoder.
fn single_encoder(
    rt: &impl Abort,
    alloc: Global,
    registry: &mut PluginRegistry,
) -> Result<(), PluginError> {
    let answer = registry.register_encoder("third", Box::new(alloc, Plain)?);
    assert!(rt; registry.encoder("third").is_some() == answer.is_ok());
    answer?;
    Ok(())
}

/// Returns the name in the error for a missing renderer.
fn missing_renderer(alloc: Global) -> Result<String, PluginError> {
    let registry = PluginRegistry::new(alloc);
    let built = registry.build_renderer("missing", &RenderConfig::new(alloc));
    match built.err() {
        Some(PluginError::RendererNotFound(name)) => Ok(name),
        Some(error) => Err(error),
        None => Err(PluginError::InvalidModuleGrid),
    }
}

/// Returns the name in the error for a missing encoder.
fn missing_encoder(alloc: Global) -> Result<String, PluginError> {
    let registry = PluginRegistry::new(alloc);
    let built = registry.build_encoder("missing", &EncodeConfig::new(alloc));
    match built.err() {
        Some(PluginError::EncoderNotFound(name)) => Ok(name),
        Some(error) => Err(error),
        None => Err(PluginError::InvalidModuleGrid),
    }
}

#[test]
fn missing_objects(rt: HostRuntime) -> Result<(), PluginError> {
    assert_eq!(rt; missing_renderer(rt.alloc())?.as_str(), "missing");
    assert_eq!(rt; missing_encoder(rt.alloc())?.as_str(), "missing");
    Ok(())
}

#[test]
fn configurations(rt: HostRuntime) -> Result<(), PluginError> {
    let render = RenderConfig::new(rt.alloc()).with_format("svg")?;
    let render = render.with_option("dark", "X")?.clone(rt.alloc())?;
    assert!(rt; render.format() == Some("svg"));
    assert!(rt; render.option("dark") == Some("X"));
    Ok(())
}

#[test]
fn configurations_of_encoders(rt: HostRuntime) -> Result<(), PluginError> {
    let encode = EncodeConfig::new(rt.alloc()).with_option("dark", "X")?;
    assert!(rt; encode.clone(rt.alloc())?.option("dark") == Some("X"));
    Ok(())
}

#[test]
fn copies(rt: HostRuntime) -> Result<(), PluginError> {
    let dark = Vec::from_array(rt.alloc(), [Color::Dark])?;
    let grid = ModuleGrid::new(dark, 1, 1)?;
    assert!(rt; grid.clone(rt.alloc())? == grid);
    Ok(())
}

#[test]
fn copies_of_outputs(rt: HostRuntime) -> Result<(), PluginError> {
    let text = RenderOutput::Text(String::from_str(rt.alloc(), "X")?);
    assert!(rt; text.clone(rt.alloc())? == text);
    Ok(())
}

#[test]
fn copies_of_bytes(rt: HostRuntime) -> Result<(), PluginError> {
    let bytes = EncodedOutput::Bytes(Vec::from_slice(rt.alloc(), b"X")?);
    assert!(rt; bytes.clone(rt.alloc())? == bytes);
    Ok(())
}

#[test]
fn copies_of_errors(rt: HostRuntime) -> Result<(), PluginError> {
    let error = PluginError::RenderFailed(String::from_str(rt.alloc(), "X")?);
    assert!(rt; error.clone(rt.alloc())? == error);
    Ok(())
}
