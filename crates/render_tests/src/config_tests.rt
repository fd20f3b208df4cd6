//! Tests of the options of a configuration: each renderer with all that its format has, with texts
//! that are written by hand from the documents of the formats, and options that are rejected.
use crate::renderer_tests::{CELLS, drawn, draws, draws_at, names, rejects_by};
use qrcode_core::plugin::{DynRenderer, PluginError, RenderConfig};
use qrcode_core::types::Color;
use qrcode_render::config::settings_of_config;
use qrcode_render::option_words::{
    flag_of_word, number_of_word, position_of_word, tenths_of_word, thousandths_of_word,
};
use qrcode_render::{DrawOptions, Eps, EscPos, Format, Pbm, Pdf, Png, Setting, Svg, Terminal, Zpl};
use std::alloc::Global;

/// 29 columns, which are 9.57 mm wide if a module has 0.33 mm, with a title and colours.
const SVG: &str =
    r##"<svg xmlns="http://www.w3.org/2000/svg" width="9.57mm" height="9.24mm" viewBox="0 0 29 28">
<title>&lt;5 &amp; &quot;6&quot;&gt; 'é'&#13;</title>
<rect width="29" height="28" fill="#FFF5CC"/>
<path stroke="#1A2B5C" transform="translate(0,.5)" shape-rendering="crispEdges" d="M13 13h1M15 13h1M13 14h2"/>
</svg>
"##;

/// The same in points, with another title.
const EPS: &str = "%!PS-Adobe-3.0 EPSF-3.0
%%BoundingBox: 0 0 28 27
%%HiResBoundingBox: 0 0 27.128 26.193
%%Title: (5 \\(or \\\\ 6\\) \\303\\251~)
%%LanguageLevel: 2
%%EndComments
/r{moveto dup 0 rlineto 0 1 rlineto neg 0 rlineto closepath}bind def
330 18 mul 6350 div dup scale 0 28 translate 1 -1 scale
255 255 div 245 255 div 204 255 div setrgbcolor 0 0 29 28 rectfill \
26 255 div 43 255 div 92 255 div setrgbcolor
1 13 13 r
1 15 13 r
2 13 14 r
fill
showpage
%%EOF
";

/// SVG and EPS take sizes in millimetres, titles and colours.
#[test]
fn draws_all_options_of_svg_and_eps(rt: HostRuntime) {
    let alloc = rt.alloc();
    let options = [
        ("scale", "2"),
        ("quiet", "13"),
        ("module_mm", "0.33"),
        ("title", "<5 & \"6\"> 'é'\r"),
        ("dark", "#1a2b5c"),
        ("light", "#fff5cc"),
        ("any_colors", "false"),
    ];
    assert!(rt; draws(alloc, &Svg, &CELLS, (3, 2), &options, SVG.as_bytes()));
    let options = [
        ("scale", "2"),
        ("quiet", "13"),
        ("module_mm", "0.33"),
        ("title", "5 (or \\ 6) é~"),
        ("dark", "#1a2b5c"),
        ("light", "#fff5cc"),
        ("any_colors", "true"),
    ];
    assert!(rt; draws(alloc, &Eps, &CELLS, (3, 2), &options, EPS.as_bytes()));
}

/// After the header of 33 bytes, PNG has the palette in 18 bytes, the resolution in 21 (300 dots in
/// an inch are 11,811 in a metre) and the title.
#[test]
fn draws_all_options_of_png(rt: HostRuntime) {
    let alloc = rt.alloc();
    let options = [
        ("scale", "2"),
        ("quiet", "1"),
        ("dpi", "300"),
        ("title", "Tür 5"),
        ("dark", "#1a2b5c"),
        ("light", "#fff5cc"),
        ("any_colors", "false"),
    ];
    assert!(rt; draws_at(alloc, &Png, &options, 16, b"\0\0\0\x0A\0\0\0\x08"));
    let palette = b"\0\0\0\x06PLTE\x1A\x2B\x5C\xFF\xF5\xCC";
    assert!(rt; draws_at(alloc, &Png, &options, 33, palette));
    let resolution = b"\0\0\0\x09pHYs\0\0\x2E\x23\0\0\x2E\x23\x01";
    assert!(rt; draws_at(alloc, &Png, &options, 51, resolution));
    let title = b"\0\0\0\x10iTXtTitle\0\0\0\0\0T\xC3\xBCr 5";
    assert!(rt; draws_at(alloc, &Png, &options, 72, title));
    // 8 pixels in 0.5 mm are 16,000 in a metre.
    let options = [("module_mm", "0.5")];
    assert!(rt; draws_at(alloc, &Png, &options, 33, b"\0\0\0\x09pHYs\0\0\x3E\x80"));
}

/// Sizes have up to three digits after the point, and resolutions one: 29 modules of 0.396 mm are
/// 11.484 mm, 8 pixels in 0.125 mm are 64,000 in a metre, and 203.2 in an inch are 8,000.
#[test]
fn takes_decimals(rt: HostRuntime) {
    let alloc = rt.alloc();
    let options = [("quiet", "13"), ("module_mm", "0.396")];
    let side = b" width=\"11.484mm\" height=\"11.088mm\"";
    assert!(rt; draws_at(alloc, &Svg, &options, 39, side));
    let options = [("module_mm", "0.125")];
    assert!(rt; draws_at(alloc, &Png, &options, 33, b"\0\0\0\x09pHYs\0\0\xFA\0"));
    let options = [("dpi", "203.2")];
    assert!(rt; draws_at(alloc, &Png, &options, 33, b"\0\0\0\x09pHYs\0\0\x1F\x40"));
}

/// Labels have a position, copies and compressed data; paper is moved and cut.
#[test]
fn draws_all_options_of_printers(rt: HostRuntime) {
    let alloc = rt.alloc();
    let options = [
        ("scale", "2"),
        ("quiet", "1"),
        ("at", "20,30"),
        ("copies", "50"),
        ("compressed", "true"),
    ];
    let expected = b"^XA\n^FO20,30^GFA,16,16,2,,:H3,:3C,:,:^FS\n^PQ50\n^XZ\n".as_slice();
    assert!(rt; draws(alloc, &Zpl, &CELLS, (3, 2), &options, expected));
    let options = [
        ("scale", "1"),
        ("quiet", "1"),
        ("feed", "3"),
        ("cut", "true"),
    ];
    let expected = b"\x1D\x76\x30\x00\x01\x00\x04\x00\x00\x50\x60\x00\x1B\x64\x03\x1D\x56\x42\x00";
    assert!(rt; draws(alloc, &EscPos, &CELLS, (3, 2), &options, expected));
    let options = [
        ("scale", "1"),
        ("quiet", "1"),
        ("feed", "0"),
        ("cut", "false"),
    ];
    let expected = b"\x1D\x76\x30\x00\x01\x00\x04\x00\x00\x50\x60\x00\x1B\x64\x00";
    assert!(rt; draws(alloc, &EscPos, &CELLS, (3, 2), &options, expected));
}

/// An option for each setting that not all formats have, at the default of a flag.
static OPTIONS: [(&str, &str); 12] = [
    ("module_mm", "0.5"),
    ("dpi", "300"),
    ("inverted", "false"),
    ("title", "a"),
    ("at", "0,0"),
    ("copies", "1"),
    ("compressed", "false"),
    ("feed", "0"),
    ("cut", "false"),
    ("dark", "black"),
    ("light", "white"),
    ("any_colors", "false"),
];

/// Whether a renderer takes just these of the options, and rejects each other one by its name.
fn takes_just(
    alloc: Global,
    renderer: &dyn DynRenderer,
    known: &[&str],
) -> Result<bool, PluginError> {
    for (key, value) in &OPTIONS {
        let mut is_known = false;
        for name in known {
            is_known = is_known || name == key;
        }
        let config = RenderConfig::new(alloc).with_option(key, value)?;
        let result = renderer.validate_config(alloc, &config);
        if is_known != result.is_ok() || is_known == names(&result, key) {
            return Ok(false);
        }
    }
    Ok(true)
}

/// No renderer takes an option of another format, even at its default.
#[test]
fn rejects_options_of_other_formats(rt: HostRuntime) {
    let alloc = rt.alloc();
    let colors = ["module_mm", "title", "dark", "light", "any_colors"];
    assert!(rt; takes_just(alloc, &Svg, &colors).expect(&rt, "a result"));
    assert!(rt; takes_just(alloc, &Eps, &colors).expect(&rt, "a result"));
    assert!(rt; takes_just(alloc, &Pdf, &colors).expect(&rt, "a result"));
    let png = ["module_mm", "dpi", "title", "dark", "light", "any_colors"];
    assert!(rt; takes_just(alloc, &Png, &png).expect(&rt, "a result"));
    assert!(rt; takes_just(alloc, &Pbm, &[]).expect(&rt, "a result"));
    assert!(rt; takes_just(alloc, &EscPos, &["feed", "cut"]).expect(&rt, "a result"));
    let zpl = ["dpi", "at", "copies", "compressed"];
    assert!(rt; takes_just(alloc, &Zpl, &zpl).expect(&rt, "a result"));
    assert!(rt; takes_just(alloc, &Terminal, &["inverted"]).expect(&rt, "a result"));
}

/// Texts that are no values.
static UNREADABLE: [(&str, &str); 24] = [
    ("scale", "two"),
    ("quiet", "-1"),
    ("module_mm", ".5"),
    ("module_mm", "0,5"),
    ("module_mm", "0.3333"),
    ("module_mm", "0."),
    ("module_mm", "1.2e"),
    ("dpi", "300dpi"),
    ("dpi", "203.20"),
    ("dpi", "203."),
    ("inverted", "yes"),
    ("at", "1"),
    ("at", "1, 2"),
    ("at", "1,2,3"),
    ("copies", "1.5"),
    ("compressed", "TRUE"),
    ("feed", ""),
    ("cut", "1"),
    ("dark", "transparent"),
    ("dark", "#12345"),
    ("light", "clear"),
    ("any_colors", ""),
    ("scale", "18446744073709551616"),
    ("at", ",2"),
];

/// Values that are out of bounds.
static OUTSIDE: [(&str, &str); 15] = [
    ("scale", "0"),
    ("scale", "65"),
    ("quiet", "17"),
    ("module_mm", "0.049"),
    ("module_mm", "10.001"),
    ("module_mm", "10001"),
    ("dpi", "49.9"),
    ("dpi", "2400.1"),
    ("title", "a\u{1}"),
    ("at", "18001,0"),
    ("copies", "0"),
    ("copies", "100000000"),
    ("feed", "256"),
    ("dark", "#959595"),
    ("light", "blue"),
];

/// Whether a renderer rejects each of these options by its name.
fn rejects_each(
    alloc: Global,
    renderer: &dyn DynRenderer,
    options: &[(&str, &str)],
) -> Result<bool, PluginError> {
    for (key, value) in options {
        let config = RenderConfig::new(alloc).with_option(key, value)?;
        if !names(&renderer.validate_config(alloc, &config), key) {
            return Ok(false);
        }
        if !rejects_by(alloc, renderer, &CELLS, (3, 2), &[(key, value)], key) {
            return Ok(false);
        }
    }
    Ok(true)
}

/// A text that is no value and a value that is out of bounds are rejected by the option's name, in
/// formats that have the option and in others.
#[test]
fn rejects_invalid_options(rt: HostRuntime) {
    let alloc = rt.alloc();
    let options: [&[(&str, &str)]; 2] = [&UNREADABLE, &OUTSIDE];
    for options in options {
        assert!(rt; rejects_each(alloc, &Svg, options).expect(&rt, "a result"));
        assert!(rt; rejects_each(alloc, &Png, options).expect(&rt, "a result"));
        assert!(rt; rejects_each(alloc, &Pbm, options).expect(&rt, "a result"));
        assert!(rt; rejects_each(alloc, &Eps, options).expect(&rt, "a result"));
        assert!(rt; rejects_each(alloc, &EscPos, options).expect(&rt, "a result"));
        assert!(rt; rejects_each(alloc, &Zpl, options).expect(&rt, "a result"));
        assert!(rt; rejects_each(alloc, &Pdf, options).expect(&rt, "a result"));
        assert!(rt; rejects_each(alloc, &Terminal, options).expect(&rt, "a result"));
    }
}

/// Of several options that are invalid, those come first that are no values or that the format does
/// not have, in the order of `Settings`; and all before the grid.
#[test]
fn names_the_first_option(rt: HostRuntime) {
    let alloc = rt.alloc();
    let cells = [Color::Dark; 178];
    let sides = (178, 1);
    let options = [("cut", "false"), ("quiet", "x"), ("scale", "x")];
    assert!(rt; rejects_by(alloc, &Svg, &cells, sides, &options, "scale"));
    let options = [("cut", "false"), ("quiet", "x"), ("scale", "0")];
    assert!(rt; rejects_by(alloc, &Svg, &cells, sides, &options, "quiet"));
    let options = [("cut", "false"), ("quiet", "17"), ("scale", "0")];
    assert!(rt; rejects_by(alloc, &Svg, &cells, sides, &options, "cut"));
    let options = [("quiet", "17"), ("scale", "0")];
    assert!(rt; rejects_by(alloc, &Svg, &cells, sides, &options, "scale"));
    let options = [("module_mm", "0.5"), ("dpi", "300")];
    assert!(rt; rejects_by(alloc, &Png, &cells, sides, &options, "dpi"));
    let result = drawn(alloc, &Svg, &cells, sides, &[("other", "x")]);
    assert!(rt; matches!(result, Err(PluginError::RenderFailed(_))));
}

/// The settings and the options of a configuration.
#[test]
fn reads_configurations(rt: HostRuntime) {
    let alloc = rt.alloc();
    let config = RenderConfig::new(alloc)
        .with_option("at", "20,30")
        .expect(&rt, "a result");
    let config = config.with_option("copies", "+7").expect(&rt, "a result");
    let settings = settings_of_config(Format::Zpl, &config).expect(&rt, "settings");
    assert!(rt; (settings.at, settings.copies) == (Some((20, 30)), Some(7)));
    let options = DrawOptions::of_config(alloc, Format::Zpl, &config).expect(&rt, "a result");
    assert!(rt; (options.at, options.copies) == ((20, 30), Some(7)));
    assert!(rt; settings_of_config(Format::Svg, &config).err() == Some(Setting::At));
    assert!(rt; Format::Zpl.has(Setting::At) && !Format::Svg.has(Setting::At));
}

/// Words of sizes, and their thousandths.
static SIZES: [(&str, Option<usize>); 11] = [
    ("0.5", Some(500)),
    ("0.05", Some(50)),
    ("0.396", Some(396)),
    ("10", Some(10_000)),
    ("10000.999", Some(10_000_999)),
    ("10001", None),
    ("1.", None),
    ("1.2.3", None),
    ("1.x", None),
    ("1.2345", None),
    ("1.23x", None),
];

/// Words of resolutions, and their tenths.
static RESOLUTIONS: [(&str, Option<usize>); 7] = [
    ("203.2", Some(2032)),
    ("300", Some(3000)),
    ("10000.9", Some(100_009)),
    ("10001", None),
    ("300.", None),
    ("300.x", None),
    ("203.20", None),
];

#[test]
fn reads_option_words(rt: HostRuntime) {
    assert!(rt; number_of_word("0") == Some(0) && number_of_word("+12") == Some(12));
    assert!(rt; number_of_word("").is_none() && number_of_word("1 ").is_none());
    assert!(rt; position_of_word("0,18000") == Some((0, 18_000)));
    assert!(rt; flag_of_word("true") == Some(true) && flag_of_word("false") == Some(false));
    for (word, thousandths) in SIZES.iter() {
        assert!(rt; thousandths_of_word(word) == *thousandths, "{word}");
    }
    for (word, tenths) in RESOLUTIONS.iter() {
        assert!(rt; tenths_of_word(word) == *tenths, "{word}");
    }
}
