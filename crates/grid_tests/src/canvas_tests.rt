//! Tests of printed symbols, of the number of data cells, and of counts of modules by colour.
ghost use Rattle.std.specs.Prelude.{◌≡◌, ◌<◌, ◌≤◌, IfOk, pos};
ghost use Rattle.qrcode_base.specs.Symbols.{IsSymbol, width_of};
ghost use Rattle.qrcode_base.specs.declared.types.Version.TheVariants.{Micro, Normal};
ghost use Rattle.qrcode_grid.specs.Penalty.{IsFirstLeastMask};

mod plain;
mod scores;
mod tables;
mod words;

use qrcode_base::symbols::block_layout;
use qrcode_base::types::{Color, EcLevel, QrError, QrResult, Version};
use qrcode_grid::canvas::{
    Canvas, MaskPattern, Module, checkerboard, count_dark, count_squares, diagonal_lines, diamonds,
    draw_symbol, fields, functional_module_count, horizontal_lines, is_functional,
    large_checkerboard, meadow, vertical_lines,
};
use qrcode_grid::ec::construct_codewords;
use std::alloc::Global;

/// The symbol of the digits 12345, row by row.
static PRINTED: [&str; 11] = [
    "#######.#.#",
    "#.....#.##.",
    "#.###.#.#..",
    "#.###.#....",
    "#.###.#.###",
    "#.....#..##",
    "#######.#..",
    ".........##",
    "##..###..##",
    ".#.#...##..",
    "####.....##",
];

static LEVELS: [EcLevel; 4] = [EcLevel::L, EcLevel::M, EcLevel::Q, EcLevel::H];

/// Returns the 44 versions.
fn versions(alloc: Global) -> QrResult<Vec<Version>> {
    let mut all = Vec::new(alloc);
    for n in 1..41i16 {
        all.push(Version::Normal(n))?;
    }
    for n in 1..5i16 {
        all.push(Version::Micro(n))?;
    }
    Ok(all)
}

/// Returns the number of modules along a side of a symbol, or 0 if there is no such version.
fn side(version: Version) -> usize
    ensures is { 0 < result → result ≡ width_of version }
    ensures small { result ≤ 177 }
{
    match version {
        Version::Normal(n) if n >= 1 && n <= 40 => n as usize * 4 + 17,
        Version::Micro(n) if n >= 1 && n <= 4 => n as usize * 2 + 9,
        _ => 0,
    }
}

/// Returns the module at a column and a row, or an empty module outside the grid.
fn module_at(canvas: &Canvas, version: Version, x: usize, y: usize) -> Module
    requires { canvas.now.version ≡ version }
{
    let width = side(version);
    if x < width && y < width {
        canvas.get(x as i16, y as i16)
    } else {
        Module::Empty
    }
}

/// Returns a new canvas, if the version has the level.
fn new_canvas(alloc: Global, version: Version, level: EcLevel) -> QrResult<Canvas>
    ensures { IfOk result (λ canvas. canvas.version ≡ version) }
{
    let Some(_layout) = block_layout(version, level) else {
        return Err(QrError::InvalidVersion {
            version,
            ec_level: level,
        });
    };
    Canvas::new(alloc, version, level)
}

/// Returns the next number of a fixed sequence.
fn next_random(state: u32) -> u32 {
    state.wrapping_mul(1664525).wrapping_add(1013904223)
}

/// Draws a symbol with codewords from a fixed sequence.
fn draw(canvas: &mut Canvas, seed: u32)
    ensures { canvas.new.version ≡ canvas.old.version }
{
    let mut data = [0; 4000];
    let mut state = seed;
    for i in 0..4000usize {
        state = next_random(state);
        data[i] = (state >> 24) as u8;
    }
    canvas.draw_all_functional_patterns();
    canvas.draw_data(&data, &data);
}

/// Returns a symbol of a version with codewords of a fixed sequence.
fn drawn(alloc: Global, version: Version, seed: u32) -> QrResult<Canvas>
    ensures { IfOk result (λ canvas. canvas.version ≡ version) }
{
    let mut canvas = new_canvas(alloc, version, EcLevel::L)?;
    draw(&mut canvas, seed);
    Ok(canvas)
}

/// Returns whether colours are those of the printed symbol.
fn is_printed(colors: &[Color]) -> bool {
    let mut rest = colors.iter();
    for line in &PRINTED {
        for byte in line.bytes() {
            let dark = matches!(rest.next(), Some(Color::Dark));
            if dark != (byte == b'#') {
                return false;
            }
        }
    }
    rest.next().is_none()
}

/// Returns a canvas with the codewords of the digits 12345, without a mask.
fn digits(alloc: Global) -> QrResult<Canvas>
    ensures { IfOk result (λ canvas. canvas.version ≡ Micro (pos 1)) }
{
    let mut canvas = Canvas::new(alloc, Version::Micro(1), EcLevel::L)?;
    canvas.draw_all_functional_patterns();
    canvas.draw_data(&[0xA3, 0xDA, 0xD0], &[0x6E, 0xC7]);
    Ok(canvas)
}

/// Returns the colours, the mask and the score of the digits.
fn masked_digits(alloc: Global) -> QrResult<(Vec<Color>, MaskPattern, u16)> {
    let (best, pattern, score) = digits(alloc)?.apply_best_mask_with_score(alloc)?;
    Ok((best.into_colors(alloc)?, pattern, score))
}

#[test]
fn draws_12345(rt: HostRuntime) {
    let (colors, pattern, score) = masked_digits(rt.alloc()).expect(&rt, "no symbol");
    assert!(rt; is_printed(&colors) && pattern == MaskPattern::Diamonds && score == 85);
}

/// Returns the grid of some padded data.
fn grid(
    alloc: Global,
    bytes: &[u8],
    version: Version,
    level: EcLevel,
) -> QrResult<(Vec<Color>, MaskPattern)>
    requires { IsSymbol version level }
    ensures mask { IfOk result (λ r. IsFirstLeastMask version level r.1 r.0.items) }
{
    let (interleaved, correction) = construct_codewords(alloc, bytes, version, level)?;
    let symbol = draw_symbol(alloc, version, level, &interleaved, &correction)?;
    Ok(symbol)
}

#[test]
fn draws_symbols(rt: HostRuntime) {
    let drawn = grid(
        rt.alloc(),
        &[0xA3, 0xDA, 0xD0],
        Version::Micro(1),
        EcLevel::L,
    );
    let (colors, pattern) = drawn.expect(&rt, "no symbol");
    assert!(rt; is_printed(&colors) && pattern == MaskPattern::Diamonds);
}

/// Returns a canvas of version 1 with as many codewords as it holds, from a fixed sequence.
fn filled(alloc: Global) -> QrResult<Canvas>
    ensures { IfOk result (λ canvas. canvas.version ≡ Normal (pos 1)) }
{
    let mut data = [0; 26];
    let mut state = 7;
    for i in 0..26usize {
        state = next_random(state);
        data[i] = (state >> 24) as u8;
    }
    let mut canvas = Canvas::new(alloc, Version::Normal(1), EcLevel::L)?;
    canvas.draw_all_functional_patterns();
    canvas.draw_data(&data, &[]);
    Ok(canvas)
}

/// Returns how many cells of a canvas of version 1 have a bit, if another has the same modules.
fn placed_alike(canvas: &Canvas, other: &Canvas) -> Option<usize>
    requires one { canvas.now.version ≡ Normal (pos 1) }
    requires other { other.now.version ≡ Normal (pos 1) }
{
    let version = Version::Normal(1);
    let mut placed = 0usize;
    for y in 0..21 {
        for x in 0..21 {
            let module = module_at(canvas, version, x, y);
            if module != module_at(other, version, x, y) {
                return None;
            }
            placed = placed.wrapping_add(usize::from(matches!(module, Module::Unmasked(_))));
        }
    }
    Some(placed)
}

#[test]
fn drops_bits_past_the_last_cell(rt: HostRuntime) {
    let long = drawn(rt.alloc(), Version::Normal(1), 7).expect(&rt, "no canvas");
    let short = filled(rt.alloc()).expect(&rt, "no canvas");
    assert!(rt; placed_alike(&short, &long) == Some(208));
}

/// Returns how many cells of a version no codeword takes, and how many codeword bits are missing:
/// four in M1 and M3.
fn left_over(version: Version) -> (usize, usize) {
    match version {
        Version::Normal(n) => (
            if n >= 2 && n <= 6 {
                7
            } else if n >= 21 && n <= 27 {
                4
            } else if n >= 14 && n <= 34 {
                3
            } else {
                0
            },
            0,
        ),
        Version::Micro(n) => (0, if n % 2 == 1 { 4 } else { 0 }),
    }
}

/// Returns how many cells of a grid are not in functional patterns.
fn data_cells(alloc: Global, version: Version) -> QrResult<usize> {
    let mut canvas = new_canvas(alloc, version, EcLevel::L)?;
    canvas.draw_all_functional_patterns();
    let width = side(version);
    let mut cells = 0usize;
    for y in 0..width {
        for x in 0..width {
            if matches!(canvas.get(x as i16, y as i16), Module::Empty) {
                cells = cells.wrapping_add(1);
            }
        }
    }
    Ok(cells)
}

/// Returns the number of codewords of a symbol, if there is one.
fn codewords(version: Version, level: EcLevel) -> Option<usize> {
    let layout = block_layout(version, level)?;
    let first = usize::from(layout.first_count);
    let second = usize::from(layout.second_count);
    let data = usize::from(layout.first_size) * first + usize::from(layout.second_size) * second;
    Some(data + usize::from(layout.correction) * (first + second))
}

/// Returns at how many levels a version has symbols, if at each of them the codewords take all of
/// these data cells except those left over.
fn fitting_levels(version: Version, cells: usize) -> Option<usize> {
    let (left, missing) = left_over(version);
    let mut levels = 0usize;
    for level in LEVELS {
        if let Some(count) = codewords(version, level) {
            if cells.wrapping_add(missing) != count.wrapping_mul(8).wrapping_add(left) {
                return None;
            }
            levels = levels.wrapping_add(1);
        }
    }
    Some(levels)
}

/// The codewords take all data cells of each grid except those left over.
#[test]
fn codewords_fit_the_grids(rt: HostRuntime) {
    let mut symbols = 0usize;
    for version in &versions(rt.alloc()).expect(&rt, "no versions") {
        let cells = data_cells(rt.alloc(), *version).expect(&rt, "no canvas");
        let levels = fitting_levels(*version, cells);
        assert!(rt; levels.is_some(), "{version:?}");
        symbols = symbols.wrapping_add(levels.unwrap_or(0));
    }
    assert!(rt; symbols == 168);
}

#[test]
fn tells_functional_cells(rt: HostRuntime) {
    assert!(rt; is_functional(Version::Normal(1), 21, -1, 6));
    assert!(rt; !is_functional(Version::Normal(1), 21, -1, -1));
    assert!(rt; is_functional(Version::Normal(7), 45, 22, 22));
    assert!(rt; is_functional(Version::Micro(1), 11, 8, 8));
}

/// A negative coordinate counts from the far edge.
#[test]
fn counts_from_the_far_edge(rt: HostRuntime) {
    let canvas = Canvas::new(rt.alloc(), Version::Normal(1), EcLevel::L);
    let mut canvas = canvas.expect(&rt, "no canvas");
    canvas.put(-21, -21, Color::Dark);
    canvas.put(-1, -7, Color::Light);
    *canvas.get_mut(-2, 3) = Module::Unmasked(Color::Dark);
    assert!(rt; canvas.get(0, 0) == Module::Masked(Color::Dark));
    let light = Module::Masked(Color::Light);
    assert!(rt; canvas.get(-1, -7) == light && canvas.get(20, -7) == light);
    assert!(rt; canvas.get(-1, 14) == light && canvas.get(20, 14) == light);
    assert!(rt; canvas.get(19, -18) == Module::Unmasked(Color::Dark));
    assert!(rt; canvas.get(-7, -1) == Module::Empty);
}

#[test]
fn masks_by_each_pattern(rt: HostRuntime) {
    assert!(rt; checkerboard(0, 0) && horizontal_lines(0, 0) && vertical_lines(0, 0));
    assert!(rt; diagonal_lines(0, 0) && large_checkerboard(0, 0) && fields(0, 0));
    assert!(rt; diamonds(0, 0) && meadow(0, 0));
    assert!(rt; !checkerboard(1, 0) && !horizontal_lines(0, 1) && !vertical_lines(1, 0));
    assert!(rt; !diagonal_lines(1, 0) && !large_checkerboard(3, 0) && !fields(1, 1));
    assert!(rt; diamonds(1, 2) && !meadow(1, 0));
}

/// The length of the longest of these rows.
const LONGEST: usize = 530;

/// Returns whether exactly one square is counted in a pair of alternating rows that has a square of
/// two by two modules in one colour at a place.
fn has_one_square(width: usize, place: usize, color: u8) -> bool {
    let mut upper = [0; LONGEST];
    let mut lower = [1; LONGEST];
    for i in 0..LONGEST {
        upper[i] = if i % 2 == 0 { 0 } else { 1 };
        lower[i] = if i % 2 == 0 { 1 } else { 0 };
    }
    if place >= LONGEST - 1 || width > LONGEST {
        return false;
    }
    for i in place..place + 2 {
        upper[i] = color;
        lower[i] = color;
    }
    count_squares(&upper[..width], &lower[..width]) == 1
}

/// The rows end at and after multiples of the lane width, and the longest has several blocks
/// of lanes.
#[test]
fn finds_a_square_at_each_place(rt: HostRuntime) {
    for width in [21, 33, 37, 177, LONGEST] {
        for place in 0..width - 1 {
            for color in [0, 1] {
                assert!(rt;
                    has_one_square(width, place, color),
                    "{color} at {place} of {width}"
                );
            }
        }
    }
}

/// Returns bytes of which every third one, from the first on, is 0.
fn striped(alloc: Global, len: usize) -> QrResult<Vec<u8>> {
    let mut bytes = Vec::with_capacity(alloc, len)?;
    for i in 0..len {
        bytes.push(if i % 3 == 0 { 0 } else { (i % 255) as u8 + 1 })?;
    }
    Ok(bytes)
}

/// Lengths of such bytes, and how many of them are not 0.
static STRIPES: [(usize, usize); 20] = [
    (0, 0),
    (1, 0),
    (2, 1),
    (15, 10),
    (16, 10),
    (17, 11),
    (31, 20),
    (32, 21),
    (33, 22),
    (63, 42),
    (64, 42),
    (65, 43),
    (95, 63),
    (96, 64),
    (97, 64),
    (255, 170),
    (256, 170),
    (257, 171),
    (272, 181),
    (31329, 20886),
];

#[test]
fn counts_dark_bytes_around_the_lanes(rt: HostRuntime) {
    assert!(rt; count_dark(&[0, 1, 2, 0, 255]) == 3);
    for (len, want) in STRIPES {
        let bytes = striped(rt.alloc(), len).expect(&rt, "no bytes");
        assert!(rt; count_dark(&bytes) == want, "of {len}");
    }
}

/// Versions, and how many modules their function patterns have.
static FUNCTIONAL: [(Version, Option<usize>); 8] = [
    (Version::Normal(1), Some(233)),
    (Version::Normal(2), Some(266)),
    (Version::Normal(7), Some(457)),
    (Version::Normal(40), Some(1681)),
    (Version::Micro(1), Some(85)),
    (Version::Micro(4), Some(97)),
    (Version::Normal(41), None),
    (Version::Micro(0), None),
];

#[test]
fn counts_functional_modules(rt: HostRuntime) {
    for (version, want) in FUNCTIONAL {
        assert!(rt; functional_module_count(version) == want, "{version:?}");
    }
}
