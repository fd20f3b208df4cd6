//! Tests of the titles of PNG and EPS, by the pages of ISO/IEC 15948 and of the "PostScript
//! Language Document Structuring Conventions".
use crate::format_tests::rejects;
use qrcode_core::symbol::Symbol;
use qrcode_core::types::{EcLevel, QrResult};
use qrcode_render::bounds::{MAX_PNG_TITLE, MAX_PS_TITLE};
use qrcode_render::colors::NO_COLORS;
use qrcode_render::eps::eps_document;
use qrcode_render::png_file::png_file;
use qrcode_render::{DrawOptions, Format, Picture, RenderOptions, Setting, Settings, draw};
use std::alloc::{AllocError, Global};

/// Returns the settings with this title.
fn titled(title: &str) -> Settings<'_> {
    Settings {
        title: Some(title),
        ..Settings::default()
    }
}

/// Returns a symbol.
fn symbol(alloc: Global) -> QrResult<Symbol> {
    Symbol::new(alloc, b"hello", EcLevel::M)
}

/// Returns a text of this many letters.
fn letters(alloc: Global, count: usize) -> Result<String, AllocError> {
    let mut text = String::with_capacity(alloc, count)?;
    for _ in 0..count {
        text.push('a')?;
    }
    Ok(text)
}

/// The parentheses and the backslash follow a backslash, and the bytes of an e with an acute accent
/// in UTF-8, C3 A9, are 303 and 251 in octal digits.
#[test]
fn draws_titles_of_eps(rt: HostRuntime) {
    let alloc = rt.alloc();
    let symbol = symbol(alloc).expect(&rt, "a symbol");
    let picture = Picture::of_symbol(
        &symbol,
        RenderOptions::new(alloc, 1, 4).expect(&rt, "a result"),
    );
    let title = Some("5 (or \\ 6) é~");
    let text = eps_document(alloc, &picture, None, title, NO_COLORS).expect(&rt, "a result");
    let head = "%!PS-Adobe-3.0 EPSF-3.0
%%BoundingBox: 0 0 29 29
%%Title: (5 \\(or \\\\ 6\\) \\303\\251~)
%%LanguageLevel: 2
%%EndComments
";
    assert!(rt; text.as_str().starts_with(head));
}

/// A title is in tEXt after the header of the file, which has 33 bytes, and with pHYs after that.
#[test]
fn draws_titles_of_png(rt: HostRuntime) {
    let alloc = rt.alloc();
    let symbol = symbol(alloc).expect(&rt, "a symbol");
    let picture = Picture::of_symbol(
        &symbol,
        RenderOptions::new(alloc, 1, 4).expect(&rt, "a result"),
    );
    let file = png_file(alloc, &picture, None, Some("Gate 5"), NO_COLORS).expect(&rt, "a result");
    let title = file.get(33..).unwrap_or(&[]);
    assert!(rt; title.starts_with(b"\0\0\0\x0CtEXtTitle\0Gate 5"));
    let settings = Settings {
        dpi_tenths: Some(3000),
        ..titled("Tür 5")
    };
    let options = DrawOptions::new(alloc, Format::Png, &settings).expect(&rt, "options");
    let file = draw(alloc, &symbol, &options).expect(&rt, "a result");
    let title = file.get(54..).unwrap_or(&[]);
    assert!(rt; title.starts_with(b"\0\0\0\x10iTXtTitle\0\0\0\0\0T\xC3\xBCr 5"));
}

/// The line of a title of EPS has at most 255 characters, of which `%%Title: (` and `)` are 11.
#[test]
fn tests_titles(rt: HostRuntime) {
    let alloc = rt.alloc();
    let fits = letters(alloc, MAX_PS_TITLE).expect(&rt, "a result");
    assert!(rt; DrawOptions::new(alloc, Format::Eps, &titled(&fits)).is_ok());
    let long = letters(alloc, MAX_PS_TITLE + 1).expect(&rt, "a result");
    assert!(rt; rejects(alloc, Format::Eps, &titled(&long), Setting::Title));
    let accents = "éééééééééé éééééééééé éééééééééé";
    assert!(rt; DrawOptions::new(alloc, Format::Eps, &titled(accents)).is_ok());
    let accents = "éééééééééé éééééééééé éééééééééééé";
    assert!(rt; rejects(alloc, Format::Eps, &titled(accents), Setting::Title));
    assert!(rt; DrawOptions::new(alloc, Format::Png, &titled(&long)).is_ok());
    assert!(rt; rejects(alloc, Format::Png, &titled("a\u{1}"), Setting::Title));
    assert!(rt; rejects(alloc, Format::Pbm, &titled("a"), Setting::Title));
}

/// A title of PNG has at most a million bytes.
#[test]
fn tests_long_titles(rt: HostRuntime) {
    let alloc = rt.alloc();
    let fits = letters(alloc, MAX_PNG_TITLE).expect(&rt, "a result");
    assert!(rt; DrawOptions::new(alloc, Format::Png, &titled(&fits)).is_ok());
    let long = letters(alloc, MAX_PNG_TITLE + 1).expect(&rt, "a result");
    assert!(rt; rejects(alloc, Format::Png, &titled(&long), Setting::Title));
    assert!(rt; DrawOptions::new(alloc, Format::Svg, &titled(&long)).is_ok());
}
