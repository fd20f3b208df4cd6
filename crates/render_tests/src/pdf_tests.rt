//! Tests of PDF. The documents were written apart from this crate, by the pages of ISO 32000-1, and
//! pdfinfo, pdftoppm and Ghostscript read in them the titles, the sizes of the pages, the colours
//! and, at a whole number of pixels a module, exactly the dark modules.
ghost use Rattle.std.specs.Prelude.{◌≤◌};
ghost use Rattle.std.specs.Option.{ForSome};
ghost use Rattle.picture_settings.specs.declared.bounds.TheConstants.{MAX_MODULE_UM};

use crate::format_tests::rejects;
use crate::renderer_tests::{CELLS, draws};
use qrcode_core::plugin::PluginError;
use qrcode_core::symbol::Symbol;
use qrcode_core::traits::ModuleView;
use qrcode_core::types::EcLevel;
use qrcode_render::bounds::MAX_PDF_TITLE;
use qrcode_render::colors::{BLACK, NO_COLORS};
use qrcode_render::pdf::pdf;
use qrcode_render::{
    Colors, DrawOptions, Format, Ground, Pdf, PdfError, PdfPages, Picture, RenderOptions, Setting,
    Settings, draw,
};
use std::alloc::Global;

/// 29 columns and 28 rows: a module of 0.33 mm is 0.935433 points wide. The characters of the title
/// are one unit of UTF-16 each, but for the last one, which is two.
const ONE: &[u8] = b"%PDF-1.4
%\xE2\xE3\xCF\xD3
1 0 obj
<</Type/Catalog/Pages 2 0 R>>
endobj
3 0 obj
<</Title<FEFF00350020002800E900290020D83DDE00>>>
endobj
4 0 obj
<</Type/Page/Parent 2 0 R/MediaBox[0 0 27.128 26.193]/Contents 5 0 R>>
endobj
5 0 obj
<</Length 140>>
stream
1.000 0.961 0.800 rg 0 0 27.128 26.193 re f
0.102 0.169 0.361 rg
0.935433 0 0 -0.935433 0 26.193 cm
13 13 1 1 re
15 13 1 1 re
13 14 2 1 re
f
endstream
endobj
2 0 obj
<</Type/Pages/Resources<<>>/Kids[4 0 R ]/Count 1>>
endobj
xref
0 6
0000000000 65535 f 
0000000015 00000 n 
0000000399 00000 n 
0000000060 00000 n 
0000000124 00000 n 
0000000210 00000 n 
trailer
<</Size 6/Root 1 0 R/Info 3 0 R>>
startxref
465
%%EOF
";

/// Two pages and no title, with 8 points a module, and with 0.5 mm on a transparent ground.
const TWO: &[u8] = b"%PDF-1.4
%\xE2\xE3\xCF\xD3
1 0 obj
<</Type/Catalog/Pages 2 0 R>>
endobj
3 0 obj
<<>>
endobj
4 0 obj
<</Type/Page/Parent 2 0 R/MediaBox[0 0 232 224]/Contents 5 0 R>>
endobj
5 0 obj
<</Length 83>>
stream
1 g 0 0 232 224 re f
0 g
8 0 0 -8 0 224 cm
13 13 1 1 re
15 13 1 1 re
13 14 2 1 re
f
endstream
endobj
6 0 obj
<</Type/Page/Parent 2 0 R/MediaBox[0 0 41.103 39.686]/Contents 7 0 R>>
endobj
7 0 obj
<</Length 96>>
stream
0.000 0.000 0.000 rg
1.417323 0 0 -1.417323 0 39.686 cm
13 13 1 1 re
15 13 1 1 re
13 14 2 1 re
f
endstream
endobj
2 0 obj
<</Type/Pages/Resources<<>>/Kids[4 0 R 6 0 R ]/Count 2>>
endobj
xref
0 8
0000000000 65535 f 
0000000015 00000 n 
0000000521 00000 n 
0000000060 00000 n 
0000000080 00000 n 
0000000160 00000 n 
0000000291 00000 n 
0000000377 00000 n 
trailer
<</Size 8/Root 1 0 R/Info 3 0 R>>
startxref
593
%%EOF
";

/// 29 columns and 41 rows, of which 13 are those of the text: each line has 4, and one is left below
/// the last. A module of 0.5 mm is 1.417323 points wide, and 4 modules are 2 mm. 12 characters of
/// Courier, which are 2.4 modules wide, are in a line; 7 of them begin at (29 - 7 * 2.4) / 2 modules.
const LINES: &[u8] = b"%PDF-1.4
%\xE2\xE3\xCF\xD3
1 0 obj
<</Type/Catalog/Pages 2 0 R>>
endobj
3 0 obj
<<>>
endobj
4 0 obj
<</Type/Page/Parent 2 0 R/Resources<</Font<</F<</Type/Font/Subtype/Type1/BaseFont/Courier/Encoding/WinAnsiEncoding>>>>>>/MediaBox[0 0 41.103 58.111]/Contents 5 0 R>>
endobj
5 0 obj
<</Length 224>>
stream
1 g 0 0 41.103 58.111 re f
0 g
1.417323 0 0 -1.417323 0 58.111 cm
13 13 1 1 re
15 13 1 1 re
13 14 2 1 re
f
BT
/F 4.00 Tf
1 0 0 -1 0.10 32 Tm(\\(01\\)09506000)Tj
1 0 0 -1 7.30 36 Tm(134352)Tj
1 0 0 -1 6.10 40 Tm(\\(10\\)A'B)Tj
ET
endstream
endobj
2 0 obj
<</Type/Pages/Resources<<>>/Kids[4 0 R ]/Count 1>>
endobj
xref
0 6
0000000000 65535 f 
0000000015 00000 n 
0000000534 00000 n 
0000000060 00000 n 
0000000080 00000 n 
0000000261 00000 n 
trailer
<</Size 6/Root 1 0 R/Info 3 0 R>>
startxref
600
%%EOF
";

/// pdftotext and Ghostscript read these three lines, and pdffonts finds the font.
#[test]
fn writes_lines_below_pdf(rt: HostRuntime) {
    let alloc = rt.alloc();
    let options = [
        ("quiet", "13"),
        ("module_mm", "0.5"),
        ("caption", "(01)09506000134352\n(10)A'B\n"),
    ];
    assert!(rt; draws(alloc, &Pdf, &CELLS, (3, 2), &options, LINES));
}

/// The renderer takes a size in millimetres, a title and colours.
#[test]
fn draws_all_options_of_pdf(rt: HostRuntime) {
    let alloc = rt.alloc();
    let options = [
        ("scale", "2"),
        ("quiet", "13"),
        ("module_mm", "0.33"),
        ("title", "5 (é) \u{1F600}"),
        ("dark", "#1a2b5c"),
        ("light", "#fff5cc"),
        ("any_colors", "false"),
    ];
    assert!(rt; draws(alloc, &Pdf, &CELLS, (3, 2), &options, ONE));
}

/// Appends a page of the cells with 13 modules around them.
fn add(
    alloc: Global,
    bytes: &mut Vec<u8>,
    pages: &mut PdfPages,
    module_um: Option<usize>,
    colors: Colors,
) -> Result<(), PluginError>
    requires { ForSome module_um (λ n. n ≤ MAX_MODULE_UM) }
{
    let Some(view) = ModuleView::new_rect(&CELLS, 3, 2) else {
        return Err(PluginError::InvalidModuleGrid);
    };
    let Some(picture) = Picture::of_grid(&view, RenderOptions::new(alloc, 8, 13)?) else {
        return Err(PluginError::InvalidModuleGrid);
    };
    match pages.picture(alloc, &picture, module_um, colors) {
        Ok(page) => Ok(bytes.extend_from_slice(&page)?),
        Err(_) => Err(PluginError::OutOfMemory),
    }
}

/// The start, the pages and the end are the document.
#[test]
fn draws_pages(rt: HostRuntime) {
    let alloc = rt.alloc();
    let clear = Colors {
        dark: Some(BLACK),
        light: Some(Ground::Transparent),
    };
    let (mut pages, mut bytes) = PdfPages::start(alloc, None).expect(&rt, "a result");
    add(alloc, &mut bytes, &mut pages, None, NO_COLORS).expect(&rt, "a result");
    add(alloc, &mut bytes, &mut pages, Some(500), clear).expect(&rt, "a result");
    bytes
        .extend_from_slice(&pages.end(alloc).expect(&rt, "a result"))
        .expect(&rt, "a result");
    assert_eq!(rt; bytes.as_slice(), TWO);
}

/// Returns the document of a symbol, whose page is added.
fn paged(alloc: Global, symbol: &Symbol, options: &DrawOptions) -> Result<Vec<u8>, PdfError> {
    let (mut pages, mut bytes) = PdfPages::start(alloc, options.title)?;
    bytes.extend_from_slice(&pages.page(alloc, symbol, options)?)?;
    bytes.extend_from_slice(&pages.end(alloc)?)?;
    Ok(bytes)
}

/// A symbol of 21 modules, with 4 around it, is 232 points wide, and a page that is added is the
/// one that is drawn.
#[test]
fn draws_symbols_as_pdf(rt: HostRuntime) {
    let alloc = rt.alloc();
    let symbol = Symbol::new(alloc, b"hello", EcLevel::M).expect(&rt, "a symbol");
    let none = Settings::default();
    let options = DrawOptions::new(alloc, Format::Pdf, &none).expect(&rt, "options");
    let bytes = draw(alloc, &symbol, &options).expect(&rt, "a result");
    let page = bytes.get(80..).unwrap_or(&[]);
    assert!(rt;
        page.starts_with(
            b"4 0 obj\n<</Type/Page/Parent 2 0 R/MediaBox[0 0 232 232]/Contents 5 0 R>>\n"
        )
    );
    let picture = Picture::of_symbol(
        &symbol,
        RenderOptions::new(alloc, 8, 4).expect(&rt, "a result"),
    );
    assert!(rt; pdf(alloc, &picture, None).expect(&rt, "a result") == bytes);
    let pages = paged(alloc, &symbol, &options).expect(&rt, "pages");
    assert!(rt; pages == bytes);
}

/// A title has at most a million bytes.
#[test]
fn tests_titles_of_pdf(rt: HostRuntime) {
    let alloc = rt.alloc();
    let mut title = String::with_capacity(alloc, MAX_PDF_TITLE + 1).expect(&rt, "a result");
    for _ in 0..MAX_PDF_TITLE {
        title.push('a').expect(&rt, "a result");
    }
    let titled = |title| Settings {
        title: Some(title),
        ..Settings::default()
    };
    assert!(rt; DrawOptions::new(alloc, Format::Pdf, &titled(&title)).is_ok());
    title.push('a').expect(&rt, "a result");
    assert!(rt; rejects(alloc, Format::Pdf, &titled(&title), Setting::Title));
}
