//! Tests of colours, by the documents of the formats; contrasts are those that the checker of
//! WebAIM gives.
use crate::format_tests::rejects;
use qrcode_core::symbol::Symbol;
use qrcode_core::traits::ModuleView;
use qrcode_core::types::{Color, EcLevel};
use qrcode_render::colors::{BLACK, NO_COLORS, WHITE};
use qrcode_render::eps::eps_document;
use qrcode_render::png_file::png_file;
use qrcode_render::svg::svg_colored;
use qrcode_render::{
    Colors, DrawOptions, Format, Ground, Picture, RenderOptions, Rgb, Setting, Settings, draw,
};

/// Three columns and two rows: dark, light, dark; dark, dark, light.
static CELLS: [Color; 6] = [
    Color::Dark,
    Color::Light,
    Color::Dark,
    Color::Dark,
    Color::Dark,
    Color::Light,
];

/// A dark blue.
const BLUE: Rgb = Rgb {
    red: 0x1A,
    green: 0x2B,
    blue: 0x5C,
};

/// A light yellow.
const YELLOW: Rgb = Rgb {
    red: 0xFF,
    green: 0xF5,
    blue: 0xCC,
};

/// Dark blue on light yellow.
const PAINTED: Colors = Colors {
    dark: Some(BLUE),
    light: Some(Ground::Color(YELLOW)),
};

/// Black on what the picture lies on.
const CLEAR: Colors = Colors {
    dark: None,
    light: Some(Ground::Transparent),
};

/// SVG, with the colours in hexadecimal digits (CSS Color Module Level 3, 4.2.1).
const SVG: &str =
    r##"<svg xmlns="http://www.w3.org/2000/svg" width="5" height="4" viewBox="0 0 5 4">
<rect width="5" height="4" fill="#FFF5CC"/>
<path stroke="#1A2B5C" transform="translate(0,.5)" shape-rendering="crispEdges" d="M1 1h1M3 1h1M1 2h2"/>
</svg>
"##;

/// SVG with no background.
const CLEAR_SVG: &str =
    r##"<svg xmlns="http://www.w3.org/2000/svg" width="5" height="4" viewBox="0 0 5 4">
<path stroke="#000" transform="translate(0,.5)" shape-rendering="crispEdges" d="M1 1h1M3 1h1M1 2h2"/>
</svg>
"##;

/// The path and the background of EPS, with the parts of the colours as fractions of 1.
const EPS: &str = "1 dup scale 0 4 translate 1 -1 scale
255 255 div 245 255 div 204 255 div setrgbcolor 0 0 5 4 rectfill \
26 255 div 43 255 div 92 255 div setrgbcolor
1 1 1 r
1 3 1 r
2 1 2 r
fill
showpage
%%EOF
";

/// The same with no background.
const CLEAR_EPS: &str = "1 dup scale 0 4 translate 1 -1 scale
0 setgray
1 1 1 r
1 3 1 r
2 1 2 r
fill
showpage
%%EOF
";

/// The path and the background have their colours.
#[test]
fn draws_colors(rt: HostRuntime) {
    let alloc = rt.alloc();
    let options = RenderOptions::new(alloc, 1, 1).expect(&rt, "a result");
    let view = ModuleView::new_rect(&CELLS, 3, 2).expect(&rt, "a view");
    let picture = Picture::of_grid(&view, options).expect(&rt, "a picture");
    let text = svg_colored(alloc, &picture, None, None, PAINTED).expect(&rt, "a result");
    assert_eq!(rt; text.as_str(), SVG);
    let text = svg_colored(alloc, &picture, None, None, CLEAR).expect(&rt, "a result");
    assert_eq!(rt; text.as_str(), CLEAR_SVG);
    let text = eps_document(alloc, &picture, None, None, PAINTED).expect(&rt, "a result");
    assert!(rt; text.as_str().ends_with(EPS));
    let text = eps_document(alloc, &picture, None, None, CLEAR).expect(&rt, "a result");
    assert!(rt; text.as_str().ends_with(CLEAR_EPS));
}

/// The palette has the dark colour first, since a dark pixel is 0, and the alphas follow it
/// (ISO/IEC 15948, 11.2.3 and 11.3.2.1). Without colours the data follow the header of 33 bytes.
#[test]
fn draws_palettes(rt: HostRuntime) {
    let alloc = rt.alloc();
    let symbol = Symbol::new(alloc, b"hello", EcLevel::M).expect(&rt, "a symbol");
    let picture = Picture::of_symbol(
        &symbol,
        RenderOptions::new(alloc, 1, 4).expect(&rt, "a result"),
    );
    let file = png_file(alloc, &picture, None, None, PAINTED).expect(&rt, "a result");
    let chunks = file.get(33..).unwrap_or(&[]);
    assert!(rt; chunks.starts_with(b"\0\0\0\x06PLTE\x1A\x2B\x5C\xFF\xF5\xCC"));
    assert!(rt; chunks.get(22..26) == Some(b"IDAT".as_slice()));
    let settings = Settings {
        colors: CLEAR,
        ..Settings::default()
    };
    let options = DrawOptions::new(alloc, Format::Png, &settings).expect(&rt, "options");
    let file = draw(alloc, &symbol, &options).expect(&rt, "a result");
    let chunks = file.get(33..).unwrap_or(&[]);
    assert!(rt; chunks.starts_with(b"\0\0\0\x06PLTE\0\0\0\xFF\xFF\xFF"));
    assert!(rt; chunks.get(18..28) == Some(b"\0\0\0\x02tRNS\xFF\0".as_slice()));
    let file = png_file(alloc, &picture, None, None, NO_COLORS).expect(&rt, "a result");
    assert!(rt; file.get(37..41) == Some(b"IDAT".as_slice()));
}

/// Returns the settings with these colours.
fn colored(dark: Option<Rgb>, light: Option<Ground>, any_colors: bool) -> Settings<'static> {
    Settings {
        colors: Colors { dark, light },
        any_colors,
        ..Settings::default()
    }
}

/// Returns a grey.
fn grey(value: u8) -> Rgb {
    Rgb {
        red: value,
        green: value,
        blue: value,
    }
}

/// On white, #949494 has a contrast of 3.03, and #959595 one of 2.99; blue has one of 2.44
/// to black.
#[test]
fn tests_contrasts(rt: HostRuntime) {
    let alloc = rt.alloc();
    let near = Some(grey(0x95));
    let far = colored(Some(grey(0x94)), None, false);
    assert!(rt; DrawOptions::new(alloc, Format::Svg, &far).is_ok());
    assert!(rt;
        rejects(
            alloc,
            Format::Svg,
            &colored(near, None, false),
            Setting::Dark
        )
    );
    let any = colored(near, None, true);
    assert!(rt; DrawOptions::new(alloc, Format::Eps, &any).is_ok());
    let blue = Ground::of_word("blue");
    assert!(rt;
        rejects(
            alloc,
            Format::Png,
            &colored(None, blue, false),
            Setting::Light
        )
    );
    let black = Some(Ground::Color(BLACK));
    let exchanged = colored(Some(WHITE), black, false);
    assert!(rt; rejects(alloc, Format::Png, &exchanged, Setting::Light));
}

/// Of the formats, SVG, PNG, EPS and PDF have colours.
#[test]
fn tests_formats_of_colors(rt: HostRuntime) {
    let alloc = rt.alloc();
    let dark = colored(Some(BLUE), None, false);
    let clear = colored(None, Some(Ground::Transparent), false);
    let any = colored(None, None, true);
    for format in [Format::Terminal, Format::Pbm, Format::EscPos, Format::Zpl] {
        assert!(rt; rejects(alloc, format, &dark, Setting::Dark));
        assert!(rt; rejects(alloc, format, &clear, Setting::Light));
        assert!(rt; rejects(alloc, format, &any, Setting::AnyColors));
    }
    for format in [Format::Svg, Format::Png, Format::Eps, Format::Pdf] {
        assert!(rt; DrawOptions::new(alloc, format, &dark).is_ok());
        assert!(rt; DrawOptions::new(alloc, format, &clear).is_ok());
        assert!(rt; DrawOptions::new(alloc, format, &any).is_ok());
    }
}

/// The names and the digits of CSS.
static NO_COLOR_WORDS: [&str; 8] = [
    "",
    "#",
    "#12345",
    "#1234567",
    "#12345g",
    "1234567",
    "Black",
    "transparent",
];

#[test]
fn reads_words(rt: HostRuntime) {
    assert!(rt; Rgb::of_word("#1A2b5c") == Some(BLUE));
    assert!(rt; Rgb::of_word("white") == Some(WHITE));
    assert!(rt; Rgb::of_word("gray") == Some(grey(128)));
    assert!(rt; Rgb::of_word("#808080") == Some(grey(128)));
    for word in NO_COLOR_WORDS.iter() {
        assert!(rt; Rgb::of_word(word).is_none(), "{word}");
    }
    assert!(rt; Ground::of_word("transparent") == Some(Ground::Transparent));
    assert!(rt; Ground::of_word("white") == Some(Ground::Color(WHITE)));
    assert!(rt; Ground::of_word("clear").is_none());
}
