//! Tests of messages that several symbols carry, of turned symbols, and of the details of symbols.
use crate::served::ran;
use qrcode_core::types::QrError;
use std::alloc::Global;

/// A version 1 symbol at scale 1 with its quiet zone: 9 bytes before 29 rows of 4 bytes.
const BITMAP: usize = 9 + 29 * 4;

/// The words for parts in version 1 at level L, which has 152 data bits: 20 for the header, 12 for
/// the header of a Byte segment, and 15 bytes; 17 bytes without a sequence.
static SMALL: [&str; 10] = [
    "--split",
    "-c",
    "bytes",
    "-l",
    "L",
    "--max-version",
    "1",
    "-f",
    "pbm",
    "-s1",
];

/// Each row has a number of bytes and of symbols.
static PARTS: [(usize, usize); 6] = [(1, 1), (17, 1), (18, 2), (30, 2), (31, 3), (240, 16)];

/// What is said of a message that no 16 symbols hold.
const TOO_LONG: &str = "data too long: no 16 symbols hold it at this level up to --max-version";

#[test]
fn splits_messages(rt: HostRuntime) {
    let bytes = [b'a'; 241];
    for (length, parts) in PARTS.iter() {
        let answer = ran(rt.alloc(), &SMALL, &bytes[..(*length).min(241)]);
        let written = parts.saturating_mul(BITMAP);
        assert!(rt;
            answer.has_length(written) && answer.unread == 0,
            "{length}"
        );
    }
    assert!(rt; ran(rt.alloc(), &SMALL, &bytes).has_reported(1, TOO_LONG));
}

/// The parts of a text beyond ASCII are in the fewest bits: version 1 holds 10 Kanji, and 9 after a
/// header, which take 20 + 4 + 8 + 9 * 13 bits.
#[test]
fn splits_texts(rt: HostRuntime) -> Result<(), QrError> {
    let words = ["--split", "-lL", "--max-version=1", "-fpbm", "-s1"];
    for (count, parts) in [(10_usize, 1_usize), (11, 2), (18, 2), (19, 3), (144, 16)] {
        let mut text = Vec::new(rt.alloc());
        for place in 0..count {
            text.extend_from_slice("\u{6771}".as_bytes())?;
        }
        assert!(rt;
            ran(rt.alloc(), &words, &text).has_length(parts.saturating_mul(BITMAP)),
            "{count}"
        );
        if count == 144 {
            text.extend_from_slice("\u{6771}".as_bytes())?;
            assert!(rt; ran(rt.alloc(), &words, &text).has_reported(1, TOO_LONG));
        }
    }
    Ok(())
}

/// 2,400 letters of Thai have 7,200 bytes in UTF-8, and take 12 + 4 + 16 + 2400 * 8 bits: version 36
/// has 161 modules a side and room for them. They are one code, of the whole input and of a line.
#[test]
fn draws_one_symbol_of_many_bytes(rt: HostRuntime) -> Result<(), QrError> {
    let mut text = Vec::new(rt.alloc());
    for place in 0..2400 {
        text.extend_from_slice("\u{e2a}".as_bytes())?;
    }
    text.push(b'\n')?;
    for portion in ["-v", "--split", "--lines"] {
        let answer = ran(rt.alloc(), &[portion, "-lL", "-fpbm", "-s1"], &text);
        assert!(rt; answer.status == 0 && answer.label.len() == 11 + 169 * 22);
    }
    Ok(())
}

/// More than 16 times 7089 bytes are not read to the end, or more than 16 times 7089 characters of
/// four bytes where the input may be a text.
#[test]
fn reads_no_more_than_symbols_hold(rt: HostRuntime) -> Result<(), QrError> {
    let mut long = Vec::new(rt.alloc());
    long.resize(16 * 7089 + 9, b'1')?;
    let answer = ran(rt.alloc(), &["--split", "-cbytes", "-fzpl"], &long);
    assert!(rt; answer.has_reported(1, TOO_LONG) && answer.unread == 8);
    long.resize(16 * 4 * 7089 + 9, b'1')?;
    let answer = ran(rt.alloc(), &["--split", "-fzpl"], &long);
    assert!(rt; answer.has_reported(1, TOO_LONG) && answer.unread == 8);
    Ok(())
}

/// The words for parts that are bitmaps, and for files of them.
static FILES: [&str; 9] = [
    "--split",
    "-c",
    "bytes",
    "-lL",
    "--max-version=1",
    "-fpbm",
    "-s1",
    "-o",
    "p-%02d",
];

/// The files of the parts have the pictures that follow each other in one output. There is room
/// for three.
#[test]
fn writes_files_of_parts(rt: HostRuntime) {
    let bytes = [b'a'; 46];
    let stream = ran(rt.alloc(), &FILES[..7], &bytes[..45]);
    let answer = ran(rt.alloc(), &FILES, &bytes[..45]);
    assert!(rt; answer.has_length(0) && answer.has_files("p-01\np-02\np-03\n"));
    assert!(rt; stream.has_written(&answer.files.contents));
    let answer = ran(rt.alloc(), &FILES, &bytes);
    assert!(rt; answer.has_files("p-01\np-02\np-03\n"));
    assert!(rt; answer.has_reported(1, "cannot write p-04: no space left on device"));
    let empty = ran(rt.alloc(), &FILES, b"");
    assert!(rt; empty.has_reported(1, "empty input, see --allow-empty") && empty.has_files(""));
}

/// Whether the module in this column and row of a bitmap of 21 columns, without a quiet zone,
/// is dark.
fn is_dark(bitmap: &[u8], column: usize, row: usize) -> bool {
    let place = row
        .saturating_mul(3)
        .saturating_add(column / 8)
        .saturating_add(9);
    match bitmap.get(place) {
        Some(byte) => *byte >> (7 - column % 8) & 1 == 1,
        None => false,
    }
}

/// Returns the column and the row to which a turn of 21 columns and rows moves a module.
fn moved(degrees: &str, x: usize, y: usize) -> (usize, usize) {
    let (left, up) = (20_usize.saturating_sub(x), 20_usize.saturating_sub(y));
    match degrees {
        "90" => (up, x),
        "180" => (left, up),
        "270" => (y, left),
        _ => (x, y),
    }
}

/// Whether a bitmap is another one, turned clockwise by `degrees`.
fn is_turned(degrees: &str, upright: &[u8], turned: &[u8]) -> bool {
    (0..441_usize).all(|place| {
        let (x, y) = (place % 21, place / 21);
        let (column, row) = moved(degrees, x, y);
        is_dark(turned, column, row) == is_dark(upright, x, y)
    })
}

static TURNS: [&str; 4] = ["0", "90", "180", "270"];

/// A quarter turn clockwise moves the module in column x of row y to column 20 - y of row x.
#[test]
fn turns_symbols(rt: HostRuntime) {
    let upright = ran(rt.alloc(), &["-fpbm", "-s1", "-q0"], b"hello");
    assert!(rt; upright.has_length(9 + 3 * 21));
    for degrees in TURNS.iter() {
        let words = ["-fpbm", "-s1", "-q0", "--rotate", degrees];
        let answer = ran(rt.alloc(), &words, b"hello");
        assert!(rt; answer.has_length(9 + 3 * 21));
        assert!(rt;
            is_turned(degrees, &upright.label, &answer.label),
            "{degrees}"
        );
    }
}

/// The details of a symbol. Versions and segments are computed by hand from ISO/IEC 18004:2006,
/// "Data encodation"; the masks are those that the Rust crate `qrcode-core` 2.2.0 chooses.
static DETAILS: [(&[&str], &[u8], &str); 11] = [
    (
        &[],
        b"hello",
        "version 1, level M, mask 7, segments byte 5, 21 modules",
    ),
    (
        &["--module-mm", "0.5"],
        b"0123456789",
        "version 1, level M, mask 0, segments numeric 10, 21 modules of 0.500 mm, 10.500 mm",
    ),
    (
        &["-l", "q", "-f", "png", "--dpi", "300", "-s", "4"],
        b"HELLO\n",
        "version 1, level Q, mask 5, segments alphanumeric 5, 21 modules of 0.339 mm, 7.112 mm",
    ),
    (
        &["-f", "zpl", "--module-mm", "0.5", "--dpi", "203"],
        b"hello",
        "version 1, level M, mask 7, segments byte 5, 21 modules of 0.500 mm, 10.510 mm",
    ),
    (
        &["-f", "zpl", "--module-mm", "0.38", "--dpmm", "8"],
        b"hello",
        "version 1, level M, mask 7, segments byte 5, 21 modules of 0.375 mm, 7.875 mm",
    ),
    (
        &["-f", "png"],
        b"https://example.org/123456789012",
        "version 3, level M, mask 6, segments byte 20 numeric 12, 29 modules",
    ),
    (
        &["-lL"],
        b"\xE3\x81\x82\xE3\x82\x8A\xE3\x81\x8C\xE3\x81\xA8\xE3\x81\x86",
        "version 1, level L, mask 7, segments kanji 5, 21 modules",
    ),
    (
        &["-lL", "-c", "text"],
        b"\xE3\x81\x82\xE3\x82\x8A\xE3\x81\x8C\xE3\x81\xA8\xE3\x81\x86",
        "version 1, level L, mask 7, segments byte 15, 21 modules",
    ),
    (
        &["-c", "bytes"],
        b"\x93\x5F\xE4\xAA",
        "version 1, level M, mask 0, segments kanji 2, 21 modules",
    ),
    (
        &["-c", "gs1"],
        b"(01)09506000134352(10)ABC",
        "version 1, level M, mask 3, segments numeric 18 alphanumeric 3, 21 modules\n\
            as a link: version 3",
    ),
    (
        &["-c", "micro", "-lL"],
        b"12345",
        "version M1, level L, mask 2, segments numeric 5, 11 modules",
    ),
];

/// Whether these details of an input are written alone, and beside its label.
pub fn has_details(
    alloc: Global,
    words: &[&str],
    bytes: &[u8],
    line: &str,
) -> Result<bool, QrError> {
    let details = format!(in alloc; "{line}\n")?;
    let mut asked: Vec<&str> = Vec::new(alloc);
    asked.push("--info")?;
    asked.extend_from_slice(words)?;
    let alone = ran(alloc, &asked, bytes);
    asked[0] = "--verbose";
    let beside = ran(alloc, &asked, bytes);
    let drawn = ran(alloc, words, bytes);
    Ok(
        alone.has_written(details.as_bytes())
            && beside.has_said(0, &details)
            && beside.label.as_slice() == drawn.label.as_slice(),
    )
}

#[test]
fn details_of_symbols(rt: HostRuntime) -> Result<(), QrError> {
    for (words, bytes, line) in DETAILS.iter() {
        assert!(rt; has_details(rt.alloc(), words, bytes, line)?, "{line}");
    }
    Ok(())
}

/// The details of lines and parts follow each other, whatever the format, and an error is as it is
/// for a label.
#[test]
fn details_of_each(rt: HostRuntime) {
    let alloc = rt.alloc();
    let words = ["--info", "--lines", "-f", "png"];
    let details = "\
version 1, level M, mask 7, segments byte 5, 21 modules
version 1, level M, mask 0, segments numeric 10, 21 modules
";
    assert!(rt; ran(alloc, &words, b"hello\n0123456789\n").has_written(details.as_bytes()));
    let words = ["-v", "--split", "-lL", "--max-version=1", "-fpbm", "-s1"];
    let parts = ran(alloc, &words, &[b'a'; 18]);
    assert!(rt; parts.status == 0 && parts.label.len() == 2 * BITMAP);
    assert!(rt; parts.said.starts_with(b"version 1, level L, mask "));
    assert!(rt; parts.said.ends_with(b", 21 modules\n"));
    assert!(rt; parts.said.iter().filter(|byte| **byte == b'\n').count() == 2);
    let wrong = ran(alloc, &["--info", "-c", "gs1"], b"(01)09506000134351");
    let line = "(01), element 1, character 14: wrong check digit; the check digit would be 2";
    assert!(rt; wrong.has_reported(1, line));
}
