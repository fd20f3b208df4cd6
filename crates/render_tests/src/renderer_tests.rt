//! Tests of pictures of small grids, written by hand from the file formats, and of errors.
use qrcode_core::plugin::{DynRenderer, PluginError, RenderConfig, RenderOutput};
use qrcode_core::traits::ModuleView;
use qrcode_core::types::Color;
use qrcode_render::{Eps, EscPos, Pbm, Picture, Png, RenderOptions, Svg, Terminal, Zpl};
use std::alloc::Global;

/// Three columns and two rows: dark, light, dark; dark, dark, light.
pub(crate) const CELLS: [Color; 6] = [
    Color::Dark,
    Color::Light,
    Color::Dark,
    Color::Dark,
    Color::Dark,
    Color::Light,
];

/// Returns the output of a renderer for some columns and rows of modules, with these options.
pub(crate) fn drawn(
    alloc: Global,
    renderer: &dyn DynRenderer,
    cells: &[Color],
    sides: (usize, usize),
    options: &[(&str, &str)],
) -> Result<RenderOutput, PluginError> {
    let mut config = RenderConfig::new(alloc);
    for (key, value) in options {
        config = config.with_option(key, value)?;
    }
    match ModuleView::new_rect(cells, sides.0, sides.1) {
        Some(view) => renderer.render(alloc, &view, &config),
        None => Err(PluginError::InvalidModuleGrid),
    }
}

/// Returns the bytes of an output.
pub(crate) fn bytes_of(output: &RenderOutput) -> &[u8] {
    match output {
        RenderOutput::Text(text) => text.as_bytes(),
        RenderOutput::Bytes(bytes) => bytes,
        RenderOutput::Modules(_) => &[],
    }
}

/// Whether a renderer draws exactly these bytes.
pub(crate) fn draws(
    alloc: Global,
    renderer: &dyn DynRenderer,
    cells: &[Color],
    sides: (usize, usize),
    options: &[(&str, &str)],
    bytes: &[u8],
) -> bool {
    match drawn(alloc, renderer, cells, sides, options) {
        Ok(output) => bytes_of(&output) == bytes,
        Err(_) => false,
    }
}

/// Whether a renderer draws the cells with these bytes from a place on.
pub(crate) fn draws_at(
    alloc: Global,
    renderer: &dyn DynRenderer,
    options: &[(&str, &str)],
    place: usize,
    bytes: &[u8],
) -> bool {
    match drawn(alloc, renderer, &CELLS, (3, 2), options) {
        Ok(output) => match bytes_of(&output).get(place..) {
            Some(rest) => rest.starts_with(bytes),
            None => false,
        },
        Err(_) => false,
    }
}

/// Whether a renderer rejects the options with `InvalidConfig` and this name.
pub(crate) fn rejects_by(
    alloc: Global,
    renderer: &dyn DynRenderer,
    cells: &[Color],
    sides: (usize, usize),
    options: &[(&str, &str)],
    name: &str,
) -> bool {
    names(&drawn(alloc, renderer, cells, sides, options), name)
}

/// Rows of a bitmap have whole bytes, padded with light pixels.
#[test]
fn draws_bitmaps(rt: HostRuntime) {
    let alloc = rt.alloc();
    let small = [("scale", "1"), ("quiet", "1")];
    let bytes = b"P4\n5 4\n\x00\x50\x60\x00";
    assert!(rt; draws(alloc, &Pbm, &CELLS, (3, 2), &small, bytes));
    let large = [("scale", "3"), ("quiet", "0")];
    let bytes = b"P4\n9 6\n\xE3\x80\xE3\x80\xE3\x80\xFC\x00\xFC\x00\xFC\x00";
    assert!(rt; draws(alloc, &Pbm, &CELLS, (3, 2), &large, bytes));
    let output = drawn(alloc, &Pbm, &[Color::Dark], (1, 1), &[]).expect(&rt, "a bitmap");
    assert!(rt; bytes_of(&output).len() == 9 + 72 * 9);
}

/// A line has two rows; the dark pixels are filled, or the light ones for a dark screen.
#[test]
fn draws_text(rt: HostRuntime) {
    let alloc = rt.alloc();
    let plain = [("quiet", "1")];
    assert!(rt;
        draws(
            alloc,
            &Terminal,
            &CELLS,
            (3, 2),
            &plain,
            " ▄ ▄ \n ▀▀  \n".as_bytes()
        )
    );

    let inverted = [("quiet", "1"), ("inverted", "true")];
    assert!(rt;
        draws(
            alloc,
            &Terminal,
            &CELLS,
            (3, 2),
            &inverted,
            "█▀█▀█\n█▄▄██\n".as_bytes()
        )
    );
}

#[test]
fn draws_text_of_odd_rows_and_larger_modules(rt: HostRuntime) {
    let alloc = rt.alloc();
    let inverted = [("quiet", "1"), ("inverted", "true")];
    // Three rows, and a light row below them.
    assert!(rt;
        draws(
            alloc,
            &Terminal,
            &[Color::Dark],
            (1, 1),
            &inverted,
            "█▀█\n███\n".as_bytes()
        )
    );

    let large = [("quiet", "0"), ("scale", "2"), ("inverted", "false")];
    assert!(rt;
        draws(
            alloc,
            &Terminal,
            &CELLS,
            (3, 2),
            &large,
            "██  ██\n████  \n".as_bytes()
        )
    );
}

/// The document of two runs in the first row and one in the second.
const RUNS: &str =
    r##"<svg xmlns="http://www.w3.org/2000/svg" width="10" height="8" viewBox="0 0 5 4">
<rect width="5" height="4" fill="#fff"/>
<path stroke="#000" transform="translate(0,.5)" shape-rendering="crispEdges" d="M1 1h1M3 1h1M1 2h2"/>
</svg>
"##;

/// The document of a run from the left edge to the right one.
const WHOLE_RUN: &str =
    r##"<svg xmlns="http://www.w3.org/2000/svg" width="128" height="64" viewBox="0 0 2 1">
<rect width="2" height="1" fill="#fff"/>
<path stroke="#000" transform="translate(0,.5)" shape-rendering="crispEdges" d="M0 0h2"/>
</svg>
"##;

/// There is one rectangle for each run, in modules.
#[test]
fn draws_svg(rt: HostRuntime) {
    let alloc = rt.alloc();
    let options = [("scale", "2"), ("quiet", "1")];
    assert!(rt; draws(alloc, &Svg, &CELLS, (3, 2), &options, RUNS.as_bytes()));

    let options = [("scale", "64"), ("quiet", "0")];
    assert!(rt;
        draws(
            alloc,
            &Svg,
            &[Color::Dark, Color::Dark],
            (2, 1),
            &options,
            WHOLE_RUN.as_bytes()
        )
    );
}

/// Whether the result is `InvalidConfig` with this name.
pub(crate) fn names<T>(answer: &Result<T, PluginError>, name: &str) -> bool {
    match answer {
        Err(PluginError::InvalidConfig(what)) => what.as_str() == name,
        _ => false,
    }
}

/// Options that are invalid.
static REFUSED: [(&str, &str); 7] = [
    ("scale", "0"),
    ("scale", "65"),
    ("scale", "two"),
    ("scale", ""),
    ("quiet", "17"),
    ("quiet", "-1"),
    ("inverted", "yes"),
];

/// Whether a renderer finds that an option is valid.
fn is_valid(alloc: Global, renderer: &dyn DynRenderer, key: &str, value: &str) -> bool {
    match RenderConfig::new(alloc).with_option(key, value) {
        Ok(config) => renderer.validate_config(alloc, &config).is_ok(),
        Err(_) => false,
    }
}

/// Whether a renderer finds that an option is invalid, and says which.
fn is_invalid(alloc: Global, renderer: &dyn DynRenderer, key: &str, value: &str) -> bool {
    match RenderConfig::new(alloc).with_option(key, value) {
        Ok(config) => names(&renderer.validate_config(alloc, &config), key),
        Err(_) => false,
    }
}

/// Each renderer rejects invalid options by their name, and so does `validate_config`.
#[test]
fn refuses_options(rt: HostRuntime) {
    let alloc = rt.alloc();
    for (key, value) in REFUSED.iter() {
        assert!(rt; is_invalid(alloc, &Svg, key, value));
        assert!(rt; is_invalid(alloc, &Pbm, key, value));
        assert!(rt; is_invalid(alloc, &Terminal, key, value));
        assert!(rt; rejects_by(alloc, &Svg, &CELLS, (3, 2), &[(key, value)], key));
    }
    assert!(rt; is_valid(alloc, &Svg, "quiet", "16"));
}

/// The first bytes of the other renderers: 5 columns and 4 rows, each of 2 pixels.
#[test]
fn draws_for_printers(rt: HostRuntime) {
    let alloc = rt.alloc();
    let options = [("scale", "2"), ("quiet", "1")];
    let head = b"\x89PNG\r\n\x1A\n\x00\x00\x00\x0DIHDR";
    assert!(rt; draws_at(alloc, &Png, &options, 0, head));
    assert!(rt;
        draws_at(
            alloc,
            &Png,
            &options,
            16,
            b"\x00\x00\x00\x0A\x00\x00\x00\x08"
        )
    );
    let head = b"%!PS-Adobe-3.0 EPSF-3.0\n%%BoundingBox: 0 0 10 8\n";
    assert!(rt; draws_at(alloc, &Eps, &options, 0, head));
    let head = b"\x1Dv0\x00\x02\x00\x08\x00\x00\x00\x00\x00\x33\x00";
    assert!(rt; draws_at(alloc, &EscPos, &options, 0, head));
    let head = b"^XA\n^FO0,0^GFA,16,16,2,000000003300";
    assert!(rt; draws_at(alloc, &Zpl, &options, 0, head));
}

/// Text alone can be inverted.
#[test]
fn inverts_text_alone(rt: HostRuntime) {
    let alloc = rt.alloc();
    assert!(rt; is_invalid(alloc, &Svg, "inverted", "false"));
    assert!(rt; is_invalid(alloc, &Pbm, "inverted", "false"));
    assert!(rt; is_valid(alloc, &Terminal, "inverted", "false"));
}

/// Options are made from numbers within their bounds.
#[test]
fn makes_options(rt: HostRuntime) {
    let alloc = rt.alloc();
    let options = RenderOptions::new(alloc, 64, 16).expect(&rt, "a result");
    assert_eq!(rt; (options.scale, options.quiet), (64, 16));
    assert!(rt; names(&RenderOptions::new(alloc, 0, 17), "scale"));
    assert!(rt; names(&RenderOptions::new(alloc, 65, 0), "scale"));
    assert!(rt; names(&RenderOptions::new(alloc, 1, 17), "quiet"));
}

/// A grid that is larger than a symbol is rejected.
#[test]
fn refuses_large_grids(rt: HostRuntime) {
    let alloc = rt.alloc();
    let cells = [Color::Dark; 178];
    for sides in [(178, 1), (1, 178)] {
        let answer = drawn(alloc, &Pbm, &cells, sides, &[]);
        assert!(rt; matches!(answer, Err(PluginError::RenderFailed(_))));
    }
    assert!(rt; drawn(alloc, &Pbm, &cells[1..], (177, 1), &[]).is_ok());
}

/// Modules by column and row, and whether they are dark.
static MODULES: [(usize, usize, bool); 8] = [
    (0, 0, false),
    (1, 1, true),
    (2, 1, false),
    (3, 1, true),
    (4, 1, false),
    (1, 2, true),
    (3, 2, false),
    (1, 3, false),
];

/// The zone around the grid is light, and a pixel has the colour of its module.
#[test]
fn modules_and_pixels_of_a_picture(rt: HostRuntime) {
    let options = RenderOptions::new(rt.alloc(), 2, 1).expect(&rt, "a result");
    let view = ModuleView::new_rect(&CELLS, 3, 2).expect(&rt, "a view");
    let picture = Picture::of_grid(&view, options).expect(&rt, "a picture");
    for (column, row, dark) in MODULES.iter() {
        assert!(rt; picture.is_dark(*column, *row) == *dark);
        assert!(rt; picture.is_dark_pixel(2 * *column, 2 * *row + 1) == *dark);
    }
}
