//! Tests of the texts below pictures. Version 1 has 21 modules, and 29 with its quiet zone, to
//! which the text adds 4 rows.
use crate::format_tests::rejects;
use qrcode_core::symbol::Symbol;
use qrcode_core::types::EcLevel;
use qrcode_render::{DrawOptions, Format, Setting, Settings, draw};
use std::alloc::Global;

/// Returns the settings with this text below the picture.
fn below(caption: &str) -> Settings<'_> {
    Settings {
        caption: Some(caption),
        ..Settings::default()
    }
}

/// Returns the picture of a symbol of version 1.
fn drawn(alloc: Global, format: Format, settings: &Settings<'_>) -> Option<Vec<u8>> {
    let symbol = Symbol::new(alloc, b"hello", EcLevel::M).ok()?;
    let options = DrawOptions::new(alloc, format, settings).ok()?;
    draw(alloc, &symbol, &options).ok()
}

/// Whether the picture with this text begins and ends so.
fn is_between(alloc: Global, format: Format, caption: &str, head: &[u8], end: &[u8]) -> bool {
    match drawn(alloc, format, &below(caption)) {
        Some(picture) => picture.starts_with(head) && picture.ends_with(end),
        None => false,
    }
}

/// 3 characters of 3 modules are 5.4 modules wide, and 24 of 2.01 are 28.94.
#[test]
fn writes_below_svg(rt: HostRuntime) {
    let alloc = rt.alloc();
    let head = b"<svg xmlns=\"http://www.w3.org/2000/svg\" width=\"232\" height=\"264\" \
viewBox=\"0 0 29 33\">\n<rect width=\"29\" height=\"33\" fill=\"#fff\"/>\n";
    let end = b"\"/>\n<text x=\"50%\" y=\"32\" text-anchor=\"middle\" font-family=\"monospace\" \
font-size=\"3.00\" fill=\"#000\">A&amp;B</text>\n</svg>\n";
    assert!(rt; is_between(alloc, Format::Svg, "A&B", head, end));
    assert!(rt; is_between(alloc, Format::Svg, "A\n&B\n", head, end));
    let end = b" font-size=\"2.01\" fill=\"#000\">(01)09506000134352(10)AB</text>\n</svg>\n";
    assert!(rt; is_between(alloc, Format::Svg, "(01)09506000134352\n(10)AB", head, end));
}

/// Three elements, which have 35 characters, and 18 in the first.
const ELEMENTS: &str = "(01)09506000134352\n(10)ABC\n(17)261231\n";

/// 24 characters of 2 modules are in a line, and 18 of 2.68 modules are 28.944 wide. Each line has
/// 3 rows, and one is left below the last.
#[test]
fn writes_lines_below_svg(rt: HostRuntime) {
    let alloc = rt.alloc();
    let head = b"<svg xmlns=\"http://www.w3.org/2000/svg\" width=\"232\" height=\"312\" \
viewBox=\"0 0 29 39\">\n<rect width=\"29\" height=\"39\" fill=\"#fff\"/>\n";
    let end = b"\"/>\n\
<text x=\"50%\" y=\"32\" text-anchor=\"middle\" font-family=\"monospace\" font-size=\"2.68\" \
fill=\"#000\">(01)09506000134352</text>\n\
<text x=\"50%\" y=\"35\" text-anchor=\"middle\" font-family=\"monospace\" font-size=\"2.68\" \
fill=\"#000\">(10)ABC</text>\n\
<text x=\"50%\" y=\"38\" text-anchor=\"middle\" font-family=\"monospace\" font-size=\"2.68\" \
fill=\"#000\">(17)261231</text>\n</svg>\n";
    assert!(rt; is_between(alloc, Format::Svg, ELEMENTS, head, end));
}

/// Whether the picture has modules of 0.5 mm, and begins and ends so.
fn is_half_millimetre(
    alloc: Global,
    format: Format,
    caption: &str,
    head: &[u8],
    end: &[u8],
) -> bool {
    let settings = Settings {
        module_um: Some(500),
        ..below(caption)
    };
    match drawn(alloc, format, &settings) {
        Some(picture) => picture.starts_with(head) && picture.ends_with(end),
        None => false,
    }
}

/// 2 mm are 4 modules of 0.5 mm, so that 12 characters are in a line: the first element has two. Each
/// line has 4 rows, and one is left below the last.
#[test]
fn writes_two_millimetres_high(rt: HostRuntime) {
    let alloc = rt.alloc();
    let head = b"<svg xmlns=\"http://www.w3.org/2000/svg\" width=\"14.50mm\" height=\"23.00mm\" \
viewBox=\"0 0 29 46\">\n";
    let end = b"y=\"41\" text-anchor=\"middle\" font-family=\"monospace\" font-size=\"4.00\" \
fill=\"#000\">(10)ABC</text>\n\
<text x=\"50%\" y=\"45\" text-anchor=\"middle\" font-family=\"monospace\" font-size=\"4.00\" \
fill=\"#000\">(17)261231</text>\n</svg>\n";
    assert!(rt; is_half_millimetre(alloc, Format::Svg, ELEMENTS, head, end));
    let head = b"%!PS-Adobe-3.0 EPSF-3.0\n%%BoundingBox: 0 0 42 66\n\
%%HiResBoundingBox: 0 0 41.103 65.197\n%%LanguageLevel: 2\n";
    let end = b"fill\n/Courier findfont[4.00 0 0 -4.00 0 0]makefont setfont\n\
(\\(01\\)09506000)\ndup stringwidth pop 29 exch sub 2 div 33 moveto show\n\
(134352)\ndup stringwidth pop 29 exch sub 2 div 37 moveto show\n\
(\\(10\\)ABC)\ndup stringwidth pop 29 exch sub 2 div 41 moveto show\n\
(\\(17\\)261231)\ndup stringwidth pop 29 exch sub 2 div 45 moveto show\nshowpage\n%%EOF\n";
    assert!(rt; is_half_millimetre(alloc, Format::Eps, ELEMENTS, head, end));
}

#[test]
fn writes_below_eps(rt: HostRuntime) {
    let alloc = rt.alloc();
    let head = b"%!PS-Adobe-3.0 EPSF-3.0\n%%BoundingBox: 0 0 232 264\n%%LanguageLevel: 2\n";
    let end = b"fill\n/Courier findfont[3.00 0 0 -3.00 0 0]makefont setfont\n(\\(10\\)A)\n\
dup stringwidth pop 29 exch sub 2 div 32 moveto show\nshowpage\n%%EOF\n";
    assert!(rt; is_between(alloc, Format::Eps, "(10)A", head, end));
}

/// The mark of commands, that of control commands and that of escapes are escaped. Several lines are
/// a block of the printer, in which a backslash begins an escape: 24 characters of 16 dots are in a
/// line, and 18 of 21 dots are 226.8 wide.
#[test]
fn writes_below_zpl(rt: HostRuntime) {
    let alloc = rt.alloc();
    let end = b"^FS\n^FO0,232^A0N,24,24^FH^FDA_5EB_7E_5F\\^FS\n^XZ\n";
    assert!(rt; is_between(alloc, Format::Zpl, "A^B~_\\", b"^XA\n^FO0,0^GFA,", end));
    let end = b"^FS\n^FO0,232^FB232,9999,0,L^A0N,24,21^FH^FD(01)09506000134352\\&(10)ABC\\&\
(17)261231^FS\n^XZ\n";
    assert!(rt; is_between(alloc, Format::Zpl, ELEMENTS, b"^XA\n^FO0,0^GFA,", end));
    let settings = Settings {
        at: Some((10, 20)),
        scale: Some(1),
        compressed: true,
        copies: Some(2),
        ..below("(1^)\\A")
    };
    let label = drawn(alloc, Format::Zpl, &settings).expect(&rt, "a label");
    let end = b"^FS\n^FO10,49^FB29,9999,0,L^A0N,10,10^FH^FD(1_5E)\\&\\\\A^FS\n^PQ2\n^XZ\n";
    assert!(rt; label.ends_with(end));
}

/// Where the resolution is known, 2 mm are 16 dots of 8 a millimetre, and 24 of 300 an inch.
#[test]
fn writes_two_millimetres_below_zpl(rt: HostRuntime) {
    let alloc = rt.alloc();
    let settings = Settings {
        scale: Some(2),
        dpi_tenths: Some(2032),
        ..below("(10)ABCDE")
    };
    let label = drawn(alloc, Format::Zpl, &settings).expect(&rt, "a label");
    assert!(rt; label.ends_with(b"^FS\n^FO0,58^A0N,16,10^FH^FD(10)ABCDE^FS\n^XZ\n"));
    let settings = Settings {
        dpi_tenths: Some(3000),
        compressed: true,
        ..settings
    };
    let label = drawn(alloc, Format::Zpl, &settings).expect(&rt, "a label");
    assert!(rt; label.ends_with(b"^FS\n^FO0,58^A0N,24,10^FH^FD(10)ABCDE^FS\n^XZ\n"));
}

/// The symbol is as without the text.
#[test]
fn writes_below_text(rt: HostRuntime) {
    let alloc = rt.alloc();
    let plain = drawn(alloc, Format::Terminal, &Settings::default()).expect(&rt, "a picture");
    let more = drawn(alloc, Format::Terminal, &below("(10)A")).expect(&rt, "a picture");
    assert!(rt; more.strip_prefix(plain.as_slice()) == Some(b"(10)A\n".as_slice()));
    let more = drawn(alloc, Format::Terminal, &below(ELEMENTS)).expect(&rt, "a picture");
    assert!(rt; more.strip_prefix(plain.as_slice()) == Some(ELEMENTS.as_bytes()));
    let long = "(10)ABCDEFGHIJKLMNOPQRSTUVWXYZ01\n(21)7\n";
    let more = drawn(alloc, Format::Terminal, &below(long)).expect(&rt, "a picture");
    let lines = b"(10)ABCDEFGHIJKLMNOPQRSTUVWXY\nZ01\n(21)7\n";
    assert!(rt; more.strip_prefix(plain.as_slice()) == Some(lines.as_slice()));
}

#[test]
fn tests_texts_below(rt: HostRuntime) {
    let alloc = rt.alloc();
    for format in [Format::Pbm, Format::EscPos] {
        assert!(rt; rejects(alloc, format, &below("a"), Setting::Caption));
    }
    for text in ["", "\n\n", "a\t", "a\r\n", "\u{E9}", "a\u{7F}"] {
        assert!(rt; rejects(alloc, Format::Svg, &below(text), Setting::Caption));
    }
    for text in [" ~", "a\n", "\n\na"] {
        assert!(rt; DrawOptions::new(alloc, Format::Svg, &below(text)).is_ok());
    }
}
