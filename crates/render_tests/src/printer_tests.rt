//! Tests of what printers alone are asked, with bytes that are written by hand from the documents
//! of the makers.
use crate::format_tests::rejects;
use qrcode_core::symbol::Symbol;
use qrcode_core::traits::ModuleView;
use qrcode_core::types::{Color, EcLevel};
use qrcode_render::escpos::ticket;
use qrcode_render::zpl::label;
use qrcode_render::{DrawOptions, Format, Picture, RenderOptions, Setting, Settings, draw};

/// Three columns and two rows: dark, light, dark; dark, dark, light.
static CELLS: [Color; 6] = [
    Color::Dark,
    Color::Light,
    Color::Dark,
    Color::Dark,
    Color::Dark,
    Color::Light,
];

/// The formats that are no printer's.
const OTHERS: [Format; 6] = [
    Format::Terminal,
    Format::Svg,
    Format::Png,
    Format::Pbm,
    Format::Eps,
    Format::Pdf,
];

/// `^PQ` is of ZPL alone, and takes 1 to 99,999,999.
#[test]
fn tests_copies(rt: HostRuntime) {
    let alloc = rt.alloc();
    let copies = |n: usize| Settings {
        copies: Some(n),
        ..Settings::default()
    };
    for format in OTHERS {
        assert!(rt; rejects(alloc, format, &copies(1), Setting::Copies));
    }
    assert!(rt; rejects(alloc, Format::EscPos, &copies(1), Setting::Copies));
    assert!(rt; rejects(alloc, Format::Zpl, &copies(0), Setting::Copies));
    assert!(rt; rejects(alloc, Format::Zpl, &copies(100_000_000), Setting::Copies));
    for n in [1, 99_999_999] {
        let options = DrawOptions::new(alloc, Format::Zpl, &copies(n)).expect(&rt, "options");
        assert_eq!(rt; options.copies, Some(n));
    }
}

/// `ESC d` is of ESC/POS alone, and takes 0 to 255.
#[test]
fn tests_feeds(rt: HostRuntime) {
    let alloc = rt.alloc();
    let feed = |n: usize| Settings {
        feed: Some(n),
        ..Settings::default()
    };
    for format in OTHERS {
        assert!(rt; rejects(alloc, format, &feed(1), Setting::Feed));
    }
    assert!(rt; rejects(alloc, Format::Zpl, &feed(1), Setting::Feed));
    assert!(rt; rejects(alloc, Format::EscPos, &feed(256), Setting::Feed));
    for n in [0, 255] {
        let options = DrawOptions::new(alloc, Format::EscPos, &feed(n)).expect(&rt, "options");
        assert_eq!(rt; options.feed, Some(n));
    }
}

/// Data are compressed in ZPL alone, and paper is cut by ESC/POS alone.
#[test]
fn tests_flags(rt: HostRuntime) {
    let alloc = rt.alloc();
    let compressed = Settings {
        compressed: true,
        ..Settings::default()
    };
    let cut = Settings {
        cut: true,
        ..Settings::default()
    };
    for format in OTHERS {
        assert!(rt; rejects(alloc, format, &compressed, Setting::Compressed));
        assert!(rt; rejects(alloc, format, &cut, Setting::Cut));
    }
    assert!(rt; rejects(alloc, Format::EscPos, &compressed, Setting::Compressed));
    assert!(rt; rejects(alloc, Format::Zpl, &cut, Setting::Cut));
    let options = DrawOptions::new(alloc, Format::Zpl, &compressed).expect(&rt, "options");
    assert_eq!(rt; (options.compressed, options.copies), (true, None));
    let options = DrawOptions::new(alloc, Format::EscPos, &cut).expect(&rt, "options");
    assert_eq!(rt; (options.cut, options.feed), (true, None));
}

/// By the pages of `ESC d` (1B 64, the lines) and `GS V` (1D 56, 66, 0): the image of 4 rows, then
/// the feed, then the cut.
#[test]
fn moves_and_cuts_paper(rt: HostRuntime) {
    let alloc = rt.alloc();
    let options = RenderOptions::new(alloc, 1, 1).expect(&rt, "a result");
    let view = ModuleView::new_rect(&CELLS, 3, 2).expect(&rt, "a view");
    let picture = Picture::of_grid(&view, options).expect(&rt, "a picture");
    let image = b"\x1D\x76\x30\x00\x01\x00\x04\x00\x00\x50\x60\x00".as_slice();
    let cases = [
        (None, false, b"".as_slice()),
        (Some(0), false, b"\x1B\x64\x00".as_slice()),
        (Some(255), false, b"\x1B\x64\xFF".as_slice()),
        (None, true, b"\x1D\x56\x42\x00".as_slice()),
        (Some(3), true, b"\x1B\x64\x03\x1D\x56\x42\x00".as_slice()),
    ];
    for (feed, cut, commands) in cases {
        let bytes = ticket(alloc, &picture, feed, cut).expect(&rt, "a result");
        assert!(rt; bytes.starts_with(image));
        assert_eq!(rt; bytes.as_slice().get(12..).unwrap_or(&[]), commands);
    }
}

/// By the page of `^PQ`: the number of labels, directly before `^XZ`.
#[test]
fn prints_copies(rt: HostRuntime) {
    let alloc = rt.alloc();
    let options = RenderOptions::new(alloc, 1, 1).expect(&rt, "a result");
    let view = ModuleView::new_rect(&CELLS, 3, 2).expect(&rt, "a view");
    let picture = Picture::of_grid(&view, options).expect(&rt, "a picture");
    let field = b"^XA\n^FO20,30^GFA,4,4,1,00506000^FS\n".as_slice();
    let cases = [
        (None, b"^XZ\n".as_slice()),
        (Some(1), b"^PQ1\n^XZ\n".as_slice()),
        (Some(99_999_999), b"^PQ99999999\n^XZ\n".as_slice()),
    ];
    for (copies, end) in cases {
        let bytes = label(alloc, &picture, (20, 30), copies).expect(&rt, "a result");
        assert!(rt; bytes.starts_with(field));
        assert_eq!(rt; bytes.as_slice().get(field.len()..).unwrap_or(&[]), end);
    }
}

/// Symbols are drawn with what printers are asked.
#[test]
fn draws_for_printers(rt: HostRuntime) {
    let alloc = rt.alloc();
    let symbol = Symbol::new(alloc, b"hello", EcLevel::M).expect(&rt, "a symbol");
    let copies = Settings {
        copies: Some(50),
        ..Settings::default()
    };
    let options = DrawOptions::new(alloc, Format::Zpl, &copies).expect(&rt, "options");
    let bytes = draw(alloc, &symbol, &options).expect(&rt, "a result");
    assert!(rt; bytes.starts_with(b"^XA\n^FO0,0^GFA,6728,6728,29,000000"));
    assert!(rt; bytes.ends_with(b"000000^FS\n^PQ50\n^XZ\n"));
    let paper = Settings {
        feed: Some(6),
        cut: true,
        ..Settings::default()
    };
    let options = DrawOptions::new(alloc, Format::EscPos, &paper).expect(&rt, "options");
    let bytes = draw(alloc, &symbol, &options).expect(&rt, "a result");
    assert!(rt; bytes.starts_with(b"\x1D\x76\x30\x00\x1D\x00\xE8\x00"));
    assert!(rt; bytes.ends_with(b"\x00\x00\x1B\x64\x06\x1D\x56\x42\x00"));
}

/// A setting has the name of its field.
#[test]
fn names_settings(rt: HostRuntime) {
    let names = [
        (Setting::Scale, "scale"),
        (Setting::Quiet, "quiet"),
        (Setting::ModuleMm, "module_mm"),
        (Setting::Dpi, "dpi"),
        (Setting::Inverted, "inverted"),
        (Setting::Title, "title"),
        (Setting::Caption, "caption"),
        (Setting::At, "at"),
        (Setting::Copies, "copies"),
        (Setting::Compressed, "compressed"),
        (Setting::Feed, "feed"),
        (Setting::Cut, "cut"),
        (Setting::Dark, "dark"),
        (Setting::Light, "light"),
        (Setting::AnyColors, "any_colors"),
    ];
    for (setting, name) in names {
        assert_eq!(rt; setting.name(), name);
    }
}
