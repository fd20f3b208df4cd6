//! Tests of a registry, with types that implement the traits.
use crate::view_tests::{grid_of_text, grid_shows, text_of_marks};
use qrcode_core::plugin::{
    DynEncoder, DynRenderer, EncodeConfig, EncodedOutput, PluginError, PluginRegistry,
    PostProcessor, QrPlugin, RenderConfig, RenderOutput,
};
use qrcode_core::traits::{ModuleSource, ModuleStorage};
use qrcode_core::types::Color;
use std::alloc::Global;
use std::process::Abort;

/// A renderer that writes a mark for each module, for dark ones that of the option `dark`; it
/// rejects the option `light`.
#[derive(Drop)]
pub(crate) struct Text;

impl DynRenderer for Text {
    ghost renders = { λ _ _ _ _. Unit {0} };

    ghost validates = { λ _ _ _. Unit {0} };

    fn render(
        &self,
        alloc: Global,
        code: &dyn ModuleSource,
        config: &RenderConfig,
    ) -> Result<RenderOutput, PluginError> {
        let dark = config.option("dark").unwrap_or("#");
        Ok(RenderOutput::Text(text_of_marks(alloc, code.modules(), dark)?))
    }

    fn validate_config(&self, alloc: Global, config: &RenderConfig) -> Result<(), PluginError> {
        match config.option("light") {
            Some(_) => Err(PluginError::InvalidConfig(String::from_str(alloc, "light")?)),
            None => Ok(()),
        }
    }
}

/// An encoder that returns the bytes unchanged.
#[derive(Drop)]
pub(crate) struct Plain;

impl DynEncoder for Plain {
    ghost encodes = { λ _ _ _ _. Unit {0} };

    fn encode(
        &self,
        alloc: Global,
        input: &[u8],
        _config: &EncodeConfig,
    ) -> Result<EncodedOutput, PluginError> {
        Ok(EncodedOutput::Bytes(Vec::from_slice(alloc, input)?))
    }
}

/// A postprocessor that sets a module of the top row dark.
#[derive(Drop)]
pub(crate) struct Darken {
    pub(crate) x: usize,
}

impl PostProcessor for Darken {
    ghost processes = { λ _ _ _ _. Unit {0} };

    fn process(&self, _alloc: Global, modules: &mut dyn ModuleStorage) -> Result<(), PluginError> {
        if self.x < modules.width() && 0 < modules.height() {
            modules.set(self.x, 0, Color::Dark);
        }
        Ok(())
    }
}

/// A postprocessor that fails with `boom`.
#[derive(Drop)]
struct Boom;

impl PostProcessor for Boom {
    ghost processes = { λ _ _ _ _. Unit {0} };

    fn process(&self, alloc: Global, _modules: &mut dyn ModuleStorage) -> Result<(), PluginError> {
        Err(PluginError::PostProcessFailed(String::from_str(alloc, "boom")?))
    }
}

/// Returns a text as a `String`.
fn own(rt: &impl Abort, alloc: Global, text: &str) -> String {
    String::from_str(alloc, text).expect(rt, "memory")
}

/// Returns the plugin `demo` with a renderer `text`, an encoder `length` and a postprocessor.
fn demo(rt: &impl Abort, alloc: Global) -> QrPlugin {
    let renderer: Box<dyn DynRenderer> = Box::new(alloc, Text).expect(rt, "memory");
    let encoder: Box<dyn DynEncoder> = Box::new(alloc, Plain).expect(rt, "memory");
    let postprocessor: Box<dyn PostProcessor> = Box::new(alloc, Darken { x: 0 }).expect(
        rt, "memory",
    );
    QrPlugin {
        name: own(rt, alloc, "demo"),
        version: own(rt, alloc, "0.1.0"),
        renderers: Vec::from_array(alloc, [(own(rt, alloc, "text"), renderer)]).expect(
            rt, "memory",
        ),
        encoders: Vec::from_array(alloc, [(own(rt, alloc, "length"), encoder)]).expect(
            rt, "memory",
        ),
        postprocessors: Vec::from_array(alloc, [postprocessor]).expect(rt, "memory"),
    }
}

/// Returns what the renderer `text` writes for two by two modules.
fn printed(
    registry: &PluginRegistry,
    alloc: Global,
    config: &RenderConfig,
) -> Result<RenderOutput, PluginError> {
    let grid = grid_of_text(alloc, "#..#", 2, 2)?;
    match registry.build_renderer("text", config).ok() {
        Some(renderer) => renderer.render(alloc, &grid, config),
        None => Err(PluginError::InvalidModuleGrid),
    }
}

/// The texts of the errors, with `x` as the text that they have.
static ERROR_TEXTS: [&str; 8] = [
    "renderer plugin not found: x",
    "encoder plugin not found: x",
    "invalid plugin config: x",
    "invalid module grid",
    "renderer plugin failed: x",
    "encoder plugin failed: x",
    "postprocessor plugin failed: x",
    "out of memory",
];

/// Returns an error, by the index of its text.
fn error_with(number: usize, text: String) -> PluginError {
    match number {
        0 => PluginError::RendererNotFound(text),
        1 => PluginError::EncoderNotFound(text),
        2 => PluginError::InvalidConfig(text),
        3 => PluginError::InvalidModuleGrid,
        4 => PluginError::RenderFailed(text),
        5 => PluginError::EncodeFailed(text),
        6 => PluginError::PostProcessFailed(text),
        _ => PluginError::OutOfMemory,
    }
}

/// Returns the text that was rendered, or an empty text for other output.
fn text_of(output: &RenderOutput) -> &str {
    match output {
        RenderOutput::Text(text) => text.as_str(),
        _ => "",
    }
}

/// Checks the text that a renderer writes for one dark module.
fn renderer_prints(rt: &impl Abort, alloc: Global, renderer: &dyn DynRenderer, text: &str) {
    let grid = grid_of_text(alloc, "#", 1, 1).expect(rt, "a grid");
    let config = RenderConfig::new(alloc);
    let output = renderer.render(alloc, &grid, &config).expect(rt, "output");
    assert_eq!(rt; text_of(&output), text);
}

/// A renderer that writes its own text for any grid.
#[derive(Drop)]
struct Says(&'static str);

impl DynRenderer for Says {
    ghost renders = { λ _ _ _ _. Unit {0} };

    ghost validates = { λ _ _ _. Unit {0} };

    fn render(
        &self,
        alloc: Global,
        _code: &dyn ModuleSource,
        _config: &RenderConfig,
    ) -> Result<RenderOutput, PluginError> {
        Ok(RenderOutput::Text(String::from_str(alloc, self.0)?))
    }

    fn validate_config(&self, _alloc: Global, _config: &RenderConfig) -> Result<(), PluginError> {
        Ok(())
    }
}

/// Returns a renderer that writes this text.
fn saying(rt: &impl Abort, alloc: Global, text: &'static str) -> Box<dyn DynRenderer> {
    Box::new(alloc, Says(text)).expect(rt, "memory")
}

#[test]
fn a_replaced_box_is_given_back(rt: HostRuntime) {
    let alloc = rt.alloc();
    let mut registry = PluginRegistry::new(alloc);
    let none = registry.register_renderer("alpha", saying(&rt, alloc, "first"));
    assert!(rt; none.expect(&rt, "memory").is_none());
    let replaced = registry.register_renderer("alpha", saying(&rt, alloc, "second"));
    let replaced = replaced
        .expect(&rt, "memory")
        .expect(&rt, "nothing came back");
    renderer_prints(&rt, alloc, &*replaced, "first");
    let renderer = registry.renderer("alpha").expect(&rt, "no renderer");
    renderer_prints(&rt, alloc, renderer, "second");
}

/// Registers the renderer of marks, and returns whether its name was free.
fn is_new_renderer(
    rt: &impl Abort,
    alloc: Global,
    registry: &mut PluginRegistry,
    name: &str,
) -> bool {
    let renderer = Box::new(alloc, Text).expect(rt, "memory");
    let replaced = registry.register_renderer(name, renderer);
    replaced.expect(rt, "memory").is_none()
}

#[test]
fn names_come_in_order(rt: HostRuntime) {
    let mut registry = PluginRegistry::new(rt.alloc());
    assert!(rt; is_new_renderer(&rt, rt.alloc(), &mut registry, "zeta"));
    assert!(rt; is_new_renderer(&rt, rt.alloc(), &mut registry, "alpha"));
    assert!(rt; !is_new_renderer(&rt, rt.alloc(), &mut registry, "alpha"));
    names_alpha_and_zeta(&rt, &registry);
}

/// Checks that the renderers are `alpha` and `zeta`, listed in this order.
fn names_alpha_and_zeta(rt: &impl Abort, registry: &PluginRegistry) {
    let mut names = registry.renderer_names();
    let named = [names.next(), names.next(), names.next()];
    assert_eq!(rt; named, [Some("alpha"), Some("zeta"), None]);
    assert!(rt; registry.renderer("zeta").is_some() && registry.renderer("text").is_none());
}

#[test]
fn encoders_are_lent(rt: HostRuntime) {
    let alloc = rt.alloc();
    let mut registry = PluginRegistry::new(alloc);
    for is_new in [true, false] {
        let encoder = Box::new(alloc, Plain).expect(&rt, "memory");
        let replaced = registry.register_encoder("plain", encoder);
        assert!(rt; replaced.expect(&rt, "memory").is_none() == is_new);
    }
    encoder_is_missing(&rt, alloc, &registry);
    encoder_copies(&rt, alloc, &registry, "plain");
}

/// Checks the text that an error prints.
fn is_told(rt: &impl Abort, alloc: Global, error: &PluginError, text: &str) {
    let printed = format!(in alloc; "{error}").expect(rt, "memory");
    assert_eq!(rt; printed.as_str(), text);
}

/// Checks that the encoder `missing` is reported as missing.
fn encoder_is_missing(rt: &impl Abort, alloc: Global, registry: &PluginRegistry) {
    let built = registry.build_encoder("missing", &EncodeConfig::new(alloc));
    let error = built.err().expect(rt, "found");
    is_told(rt, alloc, &error, "encoder plugin not found: missing");
}

/// Checks that an encoder is built and returns the bytes unchanged.
fn encoder_copies(rt: &impl Abort, alloc: Global, registry: &PluginRegistry, name: &str) {
    let config = EncodeConfig::new(alloc);
    let encoder = registry
        .build_encoder(name, &config)
        .ok()
        .expect(rt, "no encoder");
    let output = encoder.encode(alloc, b"abc", &config).expect(rt, "output");
    assert!(rt;
        matches!(&output, EncodedOutput::Bytes(bytes) if bytes.as_slice() == b"abc".as_slice())
    );
}

#[test]
fn plugins_are_registered_whole(rt: HostRuntime) {
    let alloc = rt.alloc();
    let mut registry = PluginRegistry::new(alloc);
    for times in 1..3usize {
        registry
            .register_plugin(demo(&rt, alloc))
            .expect(&rt, "memory");
        assert!(rt; registry.plugin_version("demo") == Some("0.1.0"));
        assert_eq!(rt; registry.postprocessors().len(), times);
    }
    // The objects of the bundle are listed, built and work.
    names_the_bundle(&rt, &registry);
    bundle_renders(&rt, alloc, &registry);
    encoder_copies(&rt, alloc, &registry, "length");
    bundle_darkens(&rt, alloc, &registry);
}

/// Checks that the plugin, the renderer and the encoder of the bundle are listed, each once, and
/// no others.
fn names_the_bundle(rt: &impl Abort, registry: &PluginRegistry) {
    assert!(rt; registry.plugin_names().eq(["demo"].iter().copied()));
    assert!(rt; registry.renderer_names().eq(["text"].iter().copied()));
    assert!(rt; registry.encoder_names().eq(["length"].iter().copied()));
}

/// Checks that the renderer of the bundle writes marks.
fn bundle_renders(rt: &impl Abort, alloc: Global, registry: &PluginRegistry) {
    let output = printed(registry, alloc, &RenderConfig::new(alloc)).expect(rt, "output");
    assert_eq!(rt; text_of(&output), "#..#");
}

/// Checks that the postprocessors of the bundle set the first module dark.
fn bundle_darkens(rt: &impl Abort, alloc: Global, registry: &PluginRegistry) {
    let mut grid = grid_of_text(alloc, "..", 2, 1).expect(rt, "a grid");
    assert!(rt; registry.process_modules(&mut grid).is_ok());
    assert!(rt; ModuleStorage::modules(&grid) == [Color::Dark, Color::Light].as_slice());
}

#[test]
fn renderers_take_options(rt: HostRuntime) {
    let mut registry = PluginRegistry::new(rt.alloc());
    assert!(rt; is_new_renderer(&rt, rt.alloc(), &mut registry, "text"));
    option_is_taken(&rt, rt.alloc(), &registry);
}

/// Checks that the renderer `text` writes the mark in the option, and that a copy of its output
/// is equal.
fn option_is_taken(rt: &impl Abort, alloc: Global, registry: &PluginRegistry) {
    let config = RenderConfig::new(alloc).with_option("dark", "X");
    let output = printed(registry, alloc, &config.expect(rt, "memory")).expect(rt, "output");
    assert_eq!(rt; text_of(&output), "X..X");
    output_is_copied(rt, alloc, &output);
}

/// Checks that a copy of rendered output is equal to it.
fn output_is_copied(rt: &impl Abort, alloc: Global, output: &RenderOutput) {
    assert!(rt; output.clone(alloc).expect(rt, "memory") == *output);
}

#[test]
fn configurations_are_refused(rt: HostRuntime) {
    let mut registry = PluginRegistry::new(rt.alloc());
    assert!(rt; is_new_renderer(&rt, rt.alloc(), &mut registry, "text"));
    for (name, text) in [
        ("text", "invalid plugin config: light"),
        ("missing", "renderer plugin not found: missing"),
    ] {
        refuses_to_build(&rt, rt.alloc(), &registry, name, text);
    }
}

/// Checks that a renderer is not built with the option `light`, and the text of the error.
fn refuses_to_build(
    rt: &impl Abort,
    alloc: Global,
    registry: &PluginRegistry,
    name: &str,
    text: &str,
) {
    let config = RenderConfig::new(alloc).with_option("light", "X");
    let built = registry
        .build_renderer(name, &config.expect(rt, "memory"))
        .err();
    is_told(rt, alloc, &built.expect(rt, "built"), text);
}

#[test]
fn processing_stops_at_a_refusal(rt: HostRuntime) {
    let alloc = rt.alloc();
    let mut registry = PluginRegistry::new(alloc);
    darkens(&rt, alloc, &mut registry, 0);
    let boom = Box::new(alloc, Boom).expect(&rt, "memory");
    registry.register_postprocessor(boom).expect(&rt, "memory");
    darkens(&rt, alloc, &mut registry, 1);
    stops_at_boom(&rt, alloc, &registry);
}

/// Registers a postprocessor for a module of the top row.
fn darkens(rt: &impl Abort, alloc: Global, registry: &mut PluginRegistry, x: usize) {
    let darken = Box::new(alloc, Darken { x }).expect(rt, "memory");
    registry.register_postprocessor(darken).expect(rt, "memory");
}

/// Returns whether a postprocessor failed with `boom`.
fn is_boom(answer: &Result<(), PluginError>) -> bool {
    matches!(answer, Err(PluginError::PostProcessFailed(text)) if text.as_str() == "boom")
}

/// Checks that the modules are processed up to the error `boom`, and that nothing is done after it.
fn stops_at_boom(rt: &impl Abort, alloc: Global, registry: &PluginRegistry) {
    let mut grid = grid_of_text(alloc, "....", 2, 2).expect(rt, "a grid");
    assert!(rt; is_boom(&registry.process_modules(&mut grid)));
    grid_shows(rt, alloc, &grid, "#...");
}

#[test]
fn errors_print_their_texts(rt: HostRuntime) {
    let alloc = rt.alloc();
    for (number, want) in ERROR_TEXTS.iter().enumerate() {
        let error = error_with(number, own(&rt, alloc, "x"));
        is_told(&rt, alloc, &error, want);
        assert!(rt;
            error.clone(alloc).expect(&rt, "memory") == error,
            "at {want}"
        );
    }
}
