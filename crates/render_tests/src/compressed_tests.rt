//! Tests of compressed data, by hand from the "Alternative Data Compression Scheme" of the ZPL II
//! guide: G to Y are 1 to 19 of the next digit, g to z are 20, 40, up to 400, a comma fills the row
//! with zeros, an exclamation mark with ones, and a colon repeats the row above.
use qrcode_core::plugin::PluginError;
use qrcode_core::symbol::Symbol;
use qrcode_core::traits::ModuleView;
use qrcode_core::types::{Color, EcLevel};
use qrcode_render::zpl::{compressed_label, label};
use qrcode_render::{DrawOptions, Format, Picture, RenderOptions, Settings, draw};
use std::alloc::Global;

/// Three columns and two rows: dark, light, dark; dark, dark, light.
static CELLS: [Color; 6] = [
    Color::Dark,
    Color::Light,
    Color::Dark,
    Color::Dark,
    Color::Dark,
    Color::Light,
];

/// Returns the label of a grid, at column 20 and row 30.
fn printed(
    alloc: Global,
    cells: &[Color],
    columns: usize,
    options: RenderOptions,
) -> Result<Vec<u8>, PluginError> {
    let Some(view) = ModuleView::new_rect(cells, columns, cells.len() / columns.max(1)) else {
        return Err(PluginError::InvalidModuleGrid);
    };
    let Some(picture) = Picture::of_grid(&view, options) else {
        return Err(PluginError::InvalidModuleGrid);
    };
    Ok(compressed_label(alloc, &picture, (20, 30), None)?)
}

/// Returns a row of modules, from the lengths of its runs: dark, light, and so on.
fn row(alloc: Global, lengths: &[usize]) -> Result<Vec<Color>, PluginError> {
    let mut cells = Vec::new(alloc);
    for (i, length) in lengths.iter().enumerate() {
        for _ in 0..*length {
            cells.push(if i % 2 == 0 {
                Color::Dark
            } else {
                Color::Light
            })?;
        }
    }
    Ok(cells)
}

/// The rows of one pixel a module are 00, 50, 60 and 00. Those of two are 0000, 3300, 3C00 and
/// 0000, twice each.
#[test]
fn compresses_small_labels(rt: HostRuntime) {
    let alloc = rt.alloc();
    let label = printed(
        alloc,
        &CELLS,
        3,
        RenderOptions::new(alloc, 1, 1).expect(&rt, "a result"),
    )
    .expect(&rt, "a result");
    let expected = b"^XA\n^FO20,30^GFA,4,4,1,,5,6,,^FS\n^XZ\n".as_slice();
    assert_eq!(rt; label.as_slice(), expected);
    let label = printed(
        alloc,
        &CELLS,
        3,
        RenderOptions::new(alloc, 2, 1).expect(&rt, "a result"),
    )
    .expect(&rt, "a result");
    let expected = b"^XA\n^FO20,30^GFA,16,16,2,,:H3,:3C,:,:^FS\n^XZ\n".as_slice();
    assert_eq!(rt; label.as_slice(), expected);
}

/// A module of 4 pixels is one digit: 19, 20, 39, 1, 40, 2 and 55 of them.
#[test]
fn counts_digits(rt: HostRuntime) {
    let alloc = rt.alloc();
    let cells = row(alloc, &[19, 20, 39, 1, 40, 2, 55]).expect(&rt, "a result");
    let label = printed(
        alloc,
        &cells,
        176,
        RenderOptions::new(alloc, 4, 0).expect(&rt, "a result"),
    )
    .expect(&rt, "a result");
    let expected = b"^XA\n^FO20,30^GFA,352,352,88,YFg0gYF0hFH0!:::^FS\n^XZ\n".as_slice();
    assert_eq!(rt; label.as_slice(), expected);
}

/// A module of 64 pixels is 16 digits: 400, 400, 416, 16, 800 and 16 of them.
#[test]
fn counts_many_digits(rt: HostRuntime) {
    let alloc = rt.alloc();
    let cells = row(alloc, &[25, 25, 26, 1, 50, 1]).expect(&rt, "a result");
    let label = printed(
        alloc,
        &cells,
        128,
        RenderOptions::new(alloc, 64, 0).expect(&rt, "a result"),
    )
    .expect(&rt, "a result");
    let head = b"^XA\n^FO20,30^GFA,65536,65536,1024,zFz0zVFV0zzF,:::::::".as_slice();
    assert!(rt; label.starts_with(head));
    assert!(rt; label.ends_with(b"::::^FS\n^XZ\n"));
    // 64 rows: 13 characters for the first, and one for each other.
    assert_eq!(rt; label.len(), 34 + 13 + 63 + 8);
}

/// 280 bytes a row: 357 rows are a field, five rows of modules and 37 rows of pixels. The next
/// field begins within a row of modules, and its first row is written in full.
#[test]
fn begins_fields_anew(rt: HostRuntime) {
    let alloc = rt.alloc();
    let label = printed(
        alloc,
        &CELLS,
        3,
        RenderOptions::new(alloc, 64, 16).expect(&rt, "a result"),
    )
    .expect(&rt, "a result");
    let first = b"^XA\n^FO20,30^GFA,99960,99960,280,,::::".as_slice();
    assert!(rt; label.starts_with(first));
    let around = b"^XA\n^FO20,30^GFA,99960,99960,280,".as_slice();
    let second = label.get(around.len() + 357..).unwrap_or(&[]);
    assert!(rt; second.starts_with(b"^FS\n^FO20,387^GFA,99960,99960,280,,::::"));
}

/// A symbol's label begins with four rows of light modules of 8 pixels, and is shorter.
#[test]
fn compresses_symbols(rt: HostRuntime) {
    let alloc = rt.alloc();
    let symbol = Symbol::new(alloc, b"hello", EcLevel::M).expect(&rt, "a symbol");
    let compressed = Settings {
        compressed: true,
        copies: Some(2),
        ..Settings::default()
    };
    let options = DrawOptions::new(alloc, Format::Zpl, &compressed).expect(&rt, "options");
    let bytes = draw(alloc, &symbol, &options).expect(&rt, "a result");
    let head = b"^XA\n^FO0,0^GFA,6728,6728,29,,:::::::,:::::::,:::::::,:::::::N0TF".as_slice();
    assert!(rt; bytes.starts_with(head));
    assert!(rt; bytes.ends_with(b",:::::::^FS\n^PQ2\n^XZ\n"));
    let picture = Picture::of_symbol(
        &symbol,
        RenderOptions::new(alloc, 8, 4).expect(&rt, "a result"),
    );
    assert!(rt;
        bytes.len()
            < label(alloc, &picture, (0, 0), None)
                .expect(&rt, "a result")
                .len()
                / 8
    );
}
