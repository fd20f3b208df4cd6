//! Tests of `uses`, the callers of the calling pages: rendering by name.
use qrcode_core::plugin::{DynRenderer, PluginError, RenderConfig};
use qrcode_core::traits::ModuleView;
use qrcode_core::types::Color;
use qrcode_render::{Pbm, Svg, Terminal};
use uses::rendering::render_by_name;

/// Three columns and two rows: dark, light, dark; dark, dark, light.
const CELLS: [Color; 6] = [
    Color::Dark,
    Color::Light,
    Color::Dark,
    Color::Dark,
    Color::Dark,
    Color::Light,
];

/// Rendering by name gives the same output as the renderer itself.
#[test]
fn draws_by_name(rt: HostRuntime) -> Result<(), PluginError> {
    let alloc = rt.alloc();
    let config = RenderConfig::new(alloc).with_option("quiet", "1")?;
    let Some(view) = ModuleView::new_rect(&CELLS, 3, 2) else {
        return Err(PluginError::InvalidModuleGrid);
    };
    let named = [
        ("svg", Svg.render(alloc, &view, &config)?),
        ("pbm", Pbm.render(alloc, &view, &config)?),
        ("terminal", Terminal.render(alloc, &view, &config)?),
    ];
    for (name, output) in &named {
        let drawn = render_by_name(alloc, name, &view, &config)?;
        assert!(rt; drawn == *output, "{name}");
    }
    let missing = render_by_name(alloc, "png", &view, &config);
    assert!(rt; matches!(missing, Err(PluginError::RendererNotFound(_))));
    Ok(())
}
