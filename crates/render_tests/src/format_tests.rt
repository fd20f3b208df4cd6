//! Tests of formats on small grids, written by hand from the documents of the formats.
use qrcode_core::plugin::PluginError;
use qrcode_core::symbol::Symbol;
use qrcode_core::traits::ModuleView;
use qrcode_core::types::{Color, EcLevel};
use qrcode_render::colors::NO_COLORS;
use qrcode_render::eps::eps;
use qrcode_render::escpos::escpos;
use qrcode_render::svg::svg_document;
use qrcode_render::zpl::zpl;
use qrcode_render::{
    DrawOptions, Format, Picture, RenderOptions, Setting, Settings, draw, draw_grid,
};
use std::alloc::Global;

/// Three columns and two rows: dark, light, dark; dark, dark, light.
const CELLS: [Color; 6] = [
    Color::Dark,
    Color::Light,
    Color::Dark,
    Color::Dark,
    Color::Dark,
    Color::Light,
];

/// A row that is one module too long.
static WIDE: [Color; 178] = [Color::Light; 178];

/// Returns the bytes of the small grid in a printer's format, with a scale and a quiet zone.
fn printed(
    alloc: Global,
    is_zpl: bool,
    scale: usize,
    quiet: usize,
) -> Result<Vec<u8>, PluginError> {
    let options = RenderOptions::new(alloc, scale, quiet)?;
    let Some(view) = ModuleView::new_rect(&CELLS, 3, 2) else {
        return Err(PluginError::InvalidModuleGrid);
    };
    let Some(picture) = Picture::of_grid(&view, options) else {
        return Err(PluginError::InvalidModuleGrid);
    };
    if is_zpl {
        Ok(zpl(alloc, &picture, (20, 30))?)
    } else {
        Ok(escpos(alloc, &picture)?)
    }
}

/// By the page of `GS v 0`: 1D 76 30, the mode 0, the bytes of a row and the rows, each as
/// two bytes with the lower first, and the rows. Rows are 00000, 01010, 01100, 00000, then
/// light pixels.
#[test]
fn prints_raster_images(rt: HostRuntime) {
    let alloc = rt.alloc();
    let expected = b"\x1D\x76\x30\x00\x01\x00\x04\x00\x00\x50\x60\x00";
    assert_eq!(rt;
        printed(alloc, false, 1, 1)
            .expect(&rt, "a result")
            .as_slice(),
        expected.as_slice()
    );

    // 64 pixels a module: 24 bytes a row, and 128 rows, the last of which is 128 dark pixels.
    let bytes = printed(alloc, false, 64, 0).expect(&rt, "a result");
    assert_eq!(rt; bytes.len(), 8 + 24 * 128);
    assert!(rt; bytes.starts_with(b"\x1D\x76\x30\x00\x18\x00\x80\x00\xFF"));

    // 6 rows of 64 pixels: a band of 255 rows, and one of 129.
    let bytes = printed(alloc, false, 64, 2).expect(&rt, "a result");
    assert_eq!(rt; bytes.len(), 8 + 56 * 255 + 8 + 56 * 129);
    let second = bytes.as_slice().get(8 + 56 * 255..).unwrap_or(&[]);
    assert!(rt; second.starts_with(b"\x1D\x76\x30\x00\x38\x00\x81\x00\x00"));
}

/// The same rows in hexadecimal, 4 bytes of them, at column 20 and row 30.
#[test]
fn prints_small_labels(rt: HostRuntime) {
    let alloc = rt.alloc();
    let expected = b"^XA\n^FO20,30^GFA,4,4,1,00506000^FS\n^XZ\n";
    assert_eq!(rt;
        printed(alloc, true, 1, 1)
            .expect(&rt, "a result")
            .as_slice(),
        expected.as_slice()
    );

    // 280 bytes a row: 357 rows are 99,960 bytes, and the next field begins at row 30 + 357.
    let label = printed(alloc, true, 64, 16).expect(&rt, "a result");
    let first = b"^XA\n^FO20,30^GFA,99960,99960,280,".as_slice();
    assert!(rt; label.starts_with(first));
    let second = label.get(first.len() + 2 * 99960..).unwrap_or(&[]);
    assert!(rt; second.starts_with(b"^FS\n^FO20,387^GFA,99960,99960,280,"));
}

/// The graphic in the description of `~DG` of the ZPL II guide, whose rows `^GF` has too: 80
/// columns and 8 rows, in 80 bytes, 10 of them in a row.
const SAMPLE: &[u8] = b"^XA
^FO0,0^GFA,80,80,10,FFFFFFFFFFFFFFFFFFFF\
8000FFFF0000FFFF00018000FFFF0000FFFF00018000FFFF0000FFFF0001\
FFFF0000FFFF0000FFFFFFFF0000FFFF0000FFFFFFFF0000FFFF0000FFFF\
FFFFFFFFFFFFFFFFFFFF^FS
^XZ
";

/// Whether the sample has a dark pixel here: a frame, and in it two rows of squares.
fn is_dark_sample(x: usize, y: usize) -> bool {
    let square = (x / 16) % 2;
    match y {
        0 | 7 => true,
        1..=3 => x == 0 || x == 79 || square == 1,
        _ => square == 0,
    }
}

#[test]
fn prints_the_sample_label(rt: HostRuntime) {
    let alloc = rt.alloc();
    let mut cells = Vec::new(alloc);
    for y in 0..8 {
        for x in 0..80 {
            let dark = is_dark_sample(x, y);
            cells
                .push(if dark { Color::Dark } else { Color::Light })
                .expect(&rt, "a result");
        }
    }
    let options = RenderOptions::new(alloc, 1, 0).expect(&rt, "a result");
    let label = match ModuleView::new_rect(&cells, 80, 8) {
        Some(view) => match Picture::of_grid(&view, options) {
            Some(picture) => zpl(alloc, &picture, (0, 0)).expect(&rt, "a result"),
            None => Vec::new(alloc),
        },
        None => Vec::new(alloc),
    };
    assert_eq!(rt; label.as_slice(), SAMPLE);
}

/// The document of 29 columns, which are 9.57 mm wide if a module has 0.33 mm, with a title.
const TITLED: &str =
    r##"<svg xmlns="http://www.w3.org/2000/svg" width="9.57mm" height="9.24mm" viewBox="0 0 29 28">
<title>&lt;5 &amp; &quot;6&quot;&gt; 'é'&#13;</title>
<rect width="29" height="28" fill="#fff"/>
<path stroke="#000" transform="translate(0,.5)" shape-rendering="crispEdges" d="M13 13h1M15 13h1M13 14h2"/>
</svg>
"##;

/// The same in points: a module of 0.33 mm has 330 * 18 / 6350 points, and the sides have 27.2 and
/// 26.2 points: 27.12756 and 26.19213, which are rounded up.
const POSTSCRIPT: &str = "%!PS-Adobe-3.0 EPSF-3.0
%%BoundingBox: 0 0 28 27
%%HiResBoundingBox: 0 0 27.128 26.193
%%LanguageLevel: 2
%%EndComments
/r{moveto dup 0 rlineto 0 1 rlineto neg 0 rlineto closepath}bind def
330 18 mul 6350 div dup scale 0 28 translate 1 -1 scale
1 setgray 0 0 29 28 rectfill 0 setgray
1 13 13 r
1 15 13 r
2 13 14 r
fill
showpage
%%EOF
";

/// Sizes are exact decimals, and a title is escaped.
#[test]
fn draws_sizes(rt: HostRuntime) {
    let alloc = rt.alloc();
    let options = RenderOptions::new(alloc, 8, 13).expect(&rt, "a result");
    let view = ModuleView::new_rect(&CELLS, 3, 2).expect(&rt, "a view");
    let picture = Picture::of_grid(&view, options).expect(&rt, "a picture");
    let title = "<5 & \"6\"> 'é'\r";
    let text = svg_document(alloc, &picture, Some(330), Some(title)).expect(&rt, "a result");
    assert_eq!(rt; text.as_str(), TITLED);
    let text = eps(alloc, &picture, Some(330)).expect(&rt, "a result");
    assert_eq!(rt; text.as_str(), POSTSCRIPT);
}

/// A grid of another size than a symbol's has no picture.
#[test]
fn draws_grids(rt: HostRuntime) {
    let alloc = rt.alloc();
    let settings = Settings {
        scale: Some(1),
        quiet: Some(1),
        ..Settings::default()
    };
    let options = DrawOptions::new(alloc, Format::Pbm, &settings).expect(&rt, "options");
    let view = ModuleView::new_rect(&CELLS, 3, 2).expect(&rt, "a view");
    let bytes = draw_grid(alloc, &view, &options)
        .expect(&rt, "a result")
        .expect(&rt, "a picture");
    assert!(rt; bytes.as_slice() == b"P4\n5 4\n\x00\x50\x60\x00".as_slice());
    let wide = ModuleView::new_rect(&WIDE, 178, 1).expect(&rt, "a wide");
    assert!(rt;
        draw_grid(alloc, &wide, &options)
            .expect(&rt, "a result")
            .is_none()
    );
}

/// Whether the settings are rejected in this format, since one of them is wrong.
pub(crate) fn rejects(alloc: Global, format: Format, settings: &Settings, wrong: Setting) -> bool {
    match DrawOptions::new(alloc, format, settings) {
        Ok(_) => false,
        Err(setting) => setting == wrong,
    }
}

/// The settings of a format are within their bounds, and no other format has them.
#[test]
fn tests_settings(rt: HostRuntime) {
    let alloc = rt.alloc();
    let none = Settings::default();
    let options = DrawOptions::new(alloc, Format::Terminal, &none).expect(&rt, "options");
    assert_eq!(rt; (options.scale, options.quiet), (1, 4));
    let options = DrawOptions::new(alloc, Format::Zpl, &none).expect(&rt, "options");
    assert_eq!(rt; (options.scale, options.quiet, options.at), (8, 4, (0, 0)));

    let dpi = Settings {
        dpi_tenths: Some(24_000),
        ..none
    };
    assert!(rt; DrawOptions::new(alloc, Format::Png, &dpi).is_ok());
    assert!(rt; rejects(alloc, Format::Svg, &dpi, Setting::Dpi));
    let both = Settings {
        module_um: Some(330),
        ..dpi
    };
    assert!(rt; rejects(alloc, Format::Png, &both, Setting::Dpi));
}

#[test]
fn tests_sizes_and_titles(rt: HostRuntime) {
    let alloc = rt.alloc();
    let none = Settings::default();
    let thin = Settings {
        module_um: Some(49),
        ..none
    };
    assert!(rt; rejects(alloc, Format::Eps, &thin, Setting::ModuleMm));
    let title = Settings {
        title: Some("a\u{FFFE}"),
        ..none
    };
    assert!(rt; rejects(alloc, Format::Svg, &title, Setting::Title));
    let far = Settings {
        at: Some((0, 18_001)),
        ..none
    };
    assert!(rt; rejects(alloc, Format::Zpl, &far, Setting::At));
    let inverted = Settings {
        inverted: true,
        ..none
    };
    assert!(rt; rejects(alloc, Format::Pbm, &inverted, Setting::Inverted));
    assert!(rt; DrawOptions::new(alloc, Format::Terminal, &inverted).is_ok());
}

/// Settings of which each is wrong for a portable bitmap.
const WRONG: Settings = Settings {
    scale: Some(0),
    quiet: Some(17),
    module_um: Some(49),
    dpi_tenths: Some(499),
    inverted: true,
    title: Some("a"),
    caption: Some("a"),
    at: Some((0, 0)),
    copies: Some(0),
    compressed: true,
    feed: Some(256),
    cut: true,
    colors: NO_COLORS,
    any_colors: true,
};

/// Of two wrong settings the one that comes first in `Settings` is named.
#[test]
fn names_the_first_setting(rt: HostRuntime) {
    let alloc = rt.alloc();
    assert!(rt; rejects(alloc, Format::Pbm, &WRONG, Setting::Scale));
    let many = Settings {
        scale: None,
        ..WRONG
    };
    assert!(rt; rejects(alloc, Format::Pbm, &many, Setting::Quiet));
    let many = Settings {
        quiet: None,
        module_um: None,
        ..many
    };
    assert!(rt; rejects(alloc, Format::Pbm, &many, Setting::Dpi));
    let many = Settings {
        dpi_tenths: None,
        inverted: false,
        ..many
    };
    assert!(rt; rejects(alloc, Format::Pbm, &many, Setting::Title));
    let many = Settings {
        title: None,
        ..many
    };
    assert!(rt; rejects(alloc, Format::Pbm, &many, Setting::Caption));
}

/// The settings of labels come after those of pictures.
#[test]
fn names_the_first_setting_of_labels(rt: HostRuntime) {
    let alloc = rt.alloc();
    let many = Settings {
        scale: None,
        quiet: None,
        module_um: None,
        dpi_tenths: None,
        inverted: false,
        title: None,
        caption: None,
        ..WRONG
    };
    assert!(rt; rejects(alloc, Format::Pbm, &many, Setting::At));
    let many = Settings { at: None, ..many };
    assert!(rt; rejects(alloc, Format::Pbm, &many, Setting::Copies));
    let many = Settings {
        copies: None,
        ..many
    };
    assert!(rt; rejects(alloc, Format::Pbm, &many, Setting::Compressed));
    let many = Settings {
        compressed: false,
        ..many
    };
    assert!(rt; rejects(alloc, Format::Pbm, &many, Setting::Feed));
    let many = Settings { feed: None, ..many };
    assert!(rt; rejects(alloc, Format::Pbm, &many, Setting::Cut));
    let many = Settings { cut: false, ..many };
    assert!(rt; rejects(alloc, Format::Pbm, &many, Setting::AnyColors));
}

/// Returns the bytes of a symbol in a format.
fn drawn_as(
    alloc: Global,
    symbol: &Symbol,
    format: Format,
    settings: &Settings,
) -> Result<Vec<u8>, PluginError> {
    let Ok(options) = DrawOptions::new(alloc, format, settings) else {
        return Err(PluginError::InvalidModuleGrid);
    };
    Ok(draw(alloc, symbol, &options)?)
}

/// A symbol of 21 modules is drawn in each format, with 8 pixels a module and 4 modules around it.
#[test]
fn draws_symbols(rt: HostRuntime) {
    let alloc = rt.alloc();
    let symbol = Symbol::new(alloc, b"hello", EcLevel::M).expect(&rt, "a symbol");
    let none = Settings::default();
    let bytes = drawn_as(alloc, &symbol, Format::Terminal, &none).expect(&rt, "a result");
    assert!(rt; bytes.starts_with(b"     "));
    let bytes = drawn_as(alloc, &symbol, Format::Svg, &none).expect(&rt, "a result");
    assert!(rt; bytes.starts_with(b"<svg xmlns="));
    let bytes = drawn_as(alloc, &symbol, Format::Pbm, &none).expect(&rt, "a result");
    assert!(rt; bytes.starts_with(b"P4\n232 232\n"));
    let bytes = drawn_as(alloc, &symbol, Format::Eps, &none).expect(&rt, "a result");
    let head = b"%!PS-Adobe-3.0 EPSF-3.0\n%%BoundingBox: 0 0 232 232\n\
        %%LanguageLevel: 2\n%%EndComments\n";
    assert!(rt; bytes.starts_with(head));
    let bytes = drawn_as(alloc, &symbol, Format::EscPos, &none).expect(&rt, "a result");
    assert!(rt; bytes.starts_with(b"\x1D\x76\x30\x00\x1D\x00\xE8\x00"));
    let bytes = drawn_as(alloc, &symbol, Format::Zpl, &none).expect(&rt, "a result");
    assert!(rt; bytes.starts_with(b"^XA\n^FO0,0^GFA,6728,6728,29,"));
}

/// The numbers of pixels in a metre: 300 dots in an inch are 11,811, and 8 pixels in 0.5 mm are
/// 16,000.
#[test]
fn says_resolutions(rt: HostRuntime) {
    let alloc = rt.alloc();
    let symbol = Symbol::new(alloc, b"hello", EcLevel::M).expect(&rt, "a symbol");
    let none = Settings::default();
    let dpi = Settings {
        dpi_tenths: Some(3000),
        ..none
    };
    let bytes = drawn_as(alloc, &symbol, Format::Png, &dpi).expect(&rt, "a result");
    let density = bytes.get(37..).unwrap_or(&[]);
    assert!(rt; density.starts_with(b"pHYs\x00\x00\x2E\x23"));
    let sized = Settings {
        module_um: Some(500),
        ..none
    };
    let bytes = drawn_as(alloc, &symbol, Format::Png, &sized).expect(&rt, "a result");
    let density = bytes.get(37..).unwrap_or(&[]);
    assert!(rt; density.starts_with(b"pHYs\x00\x00\x3E\x80"));
}
