//! Tests of labels and errors.
use crate::served::{draw_alike, ran, reports};
use qrcode_core::types::QrError;
use std::alloc::Global;

/// Each row has the words after `-f pbm`, the status and the number of bytes written: those of a
/// bitmap of that many columns and rows.
static BITMAPS: [(&[&str], usize); 11] = [
    (&["-f", "pbm", "-l", "L"], 11 + 29 * 232),
    (
        &["--format", "pbm", "--level", "L", "--scale", "1"],
        9 + 4 * 29,
    ),
    (&["-f", "pbm", "-s", "x", "-q", "0", "-s", "+1"], 9 + 3 * 21),
    (
        &["-f", "pbm", "-l", "q", "-c", "micro", "-s", "1"],
        9 + 3 * 21,
    ),
    (
        &["-f", "pbm", "-c", "text", "-s", "1", "-q", "1"],
        9 + 3 * 23,
    ),
    (&["-o", "a.pbm", "-s", "1"], 9 + 4 * 29),
    (&["-f", "pbm", "-s", "1", "--min-version", "5"], 9 + 6 * 45),
    (&["-f", "pbm", "-s", "1", "--max-version", "1"], 9 + 4 * 29),
    (&["--format=pbm", "-s1", "--quiet=3"], 9 + 4 * 27),
    (&["-fpbm", "-s=1", "-q0", "-"], 9 + 3 * 21),
    (&["-o", "A.B.Pbm", "-s1", "--", "-f"], 9 + 4 * 29),
];

#[test]
fn draws_bitmaps(rt: HostRuntime) {
    for (row, (words, length)) in BITMAPS.iter().enumerate() {
        let answer = ran(rt.alloc(), words, b"hello");
        assert!(rt; answer.has_length(*length), "row {row}");
    }
}

/// Each row has a format, an ending of a name that asks for it, and the bytes with which its files
/// begin: the signature of PNG (ISO/IEC 15948, 5.2), the magic number of Netpbm's `P4`, the first
/// comment of EPS, `GS v 0` of ESC/POS and `^XA` of ZPL.
static FORMATS: [(&str, &str, &[u8]); 9] = [
    ("svg", "a.svg", b"<svg "),
    ("png", "a.b.png", b"\x89PNG\r\n\x1A\n"),
    ("pbm", ".pbm", b"P4\n"),
    ("eps", "a.eps", b"%!PS-Adobe-3.0 EPSF-3.0\n"),
    ("escpos", "a.escpos", b"\x1Dv0\0"),
    ("zpl", "a.zpl", b"^XA\n"),
    ("terminal", "a.txt", b"      "),
    ("png", "a.pbm.PNG", b"\x89PNG\r\n\x1A\n"),
    ("svg", "-", b"<svg "),
];

fn takes_format(alloc: Global, format: &str, name: &str, beginning: &[u8]) -> bool {
    let named = ran(alloc, &["-f", format], b"hello");
    named.label.starts_with(beginning)
        && draw_alike(alloc, &["-o", name], b"hello", &["-f", format], b"hello")
}

#[test]
fn takes_formats(rt: HostRuntime) {
    for (format, name, beginning) in FORMATS.iter() {
        assert!(rt;
            takes_format(rt.alloc(), format, name, beginning),
            "{format} {name}"
        );
    }
}

static BITMAP: [&str; 2] = ["-f", "pbm"];

static BYTES: [&str; 4] = ["-f", "pbm", "-c", "bytes"];

static TEXT: [&str; 4] = ["-f", "pbm", "-c", "text"];

static ELEMENTS: [&str; 4] = ["-f", "pbm", "-c", "gs1"];

/// Whether two ways to ask draw a label each, and not the same.
fn draw_apart(
    alloc: Global,
    words: &[&str],
    input: &[u8],
    other_words: &[&str],
    other_input: &[u8],
) -> bool {
    let other = ran(alloc, other_words, other_input);
    let one = ran(alloc, words, input);
    one.status == 0 && other.status == 0 && one.label.as_slice() != other.label.as_slice()
}

/// Bytes that are ASCII, or no UTF-8, are drawn as they are, and other text in fewer bits than as
/// UTF-8. With `--strongest` 5 bytes have level H, at which version 1 holds 7.
#[test]
fn chooses_content_and_level(rt: HostRuntime) {
    let alloc = rt.alloc();
    assert!(rt; draw_alike(alloc, &BITMAP, b"hello", &BYTES, b"hello"));
    assert!(rt; draw_apart(alloc, &BITMAP, b"hello", &TEXT, b"hello"));
    assert!(rt; draw_alike(alloc, &BITMAP, b"caf\xE9", &BYTES, b"caf\xE9"));
    assert!(rt; draw_apart(alloc, &BITMAP, b"Gr\xC3\xBC", &TEXT, b"Gr\xC3\xBC"));
    assert!(rt; draw_apart(alloc, &BITMAP, b"Gr\xC3\xBC", &BYTES, b"Gr\xC3\xBC"));
    let (strongest, high) = (["-f", "pbm", "--strongest"], ["-f", "pbm", "-l", "H"]);
    assert!(rt; draw_alike(alloc, &strongest, b"hello", &high, b"hello"));
}

/// The text `hello` with what is no part of it.
static HELLO: [&[u8]; 4] = [
    b"hello\n",
    b"hello\r\n",
    b"\xEF\xBB\xBFhello",
    b"\xEF\xBB\xBFhello\n",
];

/// Whether a text is drawn as `hello` is, and as it stands where bytes or all of it are asked for.
fn is_trimmed(alloc: Global, text: &[u8]) -> bool {
    let kept = ["-f", "pbm", "--keep-newline"];
    draw_alike(alloc, &BITMAP, text, &BITMAP, b"hello")
        && draw_apart(alloc, &BYTES, text, &BYTES, b"hello")
        && draw_apart(alloc, &kept, text, &BITMAP, b"hello")
}

/// One newline at the end of a text that is read, a carriage return before it and a byte order mark
/// at the start are no part of it. Of bytes and of a text among the words they are, and they are
/// kept on request.
#[test]
fn trims_a_text(rt: HostRuntime) {
    let alloc = rt.alloc();
    for text in HELLO.iter() {
        assert!(rt; is_trimmed(alloc, text));
    }
    assert!(rt; draw_alike(alloc, &BITMAP, b"hello\n\n", &BYTES, b"hello\n"));
    assert!(rt; draw_alike(alloc, &BITMAP, b"hello\r", &BYTES, b"hello\r"));
    assert!(rt; draw_alike(alloc, &BITMAP, b"caf\xE9\n", &BYTES, b"caf\xE9\n"));
    assert!(rt;
        draw_alike(
            alloc,
            &["-f", "pbm", "hello\n"],
            b"hello\n",
            &BYTES,
            b"hello\n"
        )
    );
    assert!(rt; draw_alike(alloc, &ELEMENTS, b"(90)A\n", &ELEMENTS, b"(90)A"));
}

/// A size in millimetres and a resolution give the scale, in whole dots: of 0.5 mm 6 at 300 dots an
/// inch (0.5 * 300 / 25.4 = 5.9), and 4 at 203 (4.0 - 0.004). PNG has the resolution, too. 8 dots a
/// millimetre are 203.2 an inch, so that 0.495 mm have 4 (3.96) and 0.743 mm have 6 (5.94).
static DOTS: [(&[&str], &[&str]); 6] = [
    (
        &["-f", "zpl", "--module-mm", "0.5", "--dpi", "300"],
        &["-f", "zpl", "-s", "6"],
    ),
    (
        &["-f", "escpos", "--module-mm", "0.5", "--dpi", "203"],
        &["-f", "escpos", "-s", "4"],
    ),
    (
        &["-f", "png", "--module-mm", "0.5", "--dpi", "300"],
        &["-f", "png", "-s", "6", "--dpi", "300"],
    ),
    (
        &["-f", "zpl", "--module-mm", "0.495", "--dpmm", "8"],
        &["-f", "zpl", "-s", "4"],
    ),
    (
        &["-f", "escpos", "--module-mm", "0.743", "--dpi", "203.2"],
        &["-f", "escpos", "-s", "6"],
    ),
    (
        &["-f", "png", "--module-mm", "0.125", "--dpmm", "8"],
        &["-f", "png", "-s", "1", "--dpi", "203.2"],
    ),
];

#[test]
fn draws_in_dots(rt: HostRuntime) {
    for (row, (words, others)) in DOTS.iter().enumerate() {
        assert!(rt;
            draw_alike(rt.alloc(), words, b"hello", others, b"hello"),
            "row {row}"
        );
    }
}

/// What is said of modules of whole dots: nothing, unless they differ by more than 5 in 100 from what
/// was asked for. At 8 dots a millimetre 0.357 to 0.395 mm are 3 dots, of 0.375 mm: 5.04 in 100 more
/// and 5.06 less at the ends.
static WIDTHS: [(&str, &str); 4] = [
    (
        "0.357",
        "qrlabel: in whole dots a module is 0.375 mm wide, and not 0.357 mm\n",
    ),
    ("0.358", ""),
    ("0.394", ""),
    (
        "0.395",
        "qrlabel: in whole dots a module is 0.375 mm wide, and not 0.395 mm\n",
    ),
];

#[test]
fn says_another_width(rt: HostRuntime) {
    for (module, said) in WIDTHS.iter() {
        let words = ["-f", "zpl", "--dpmm", "8", "--module-mm", module];
        assert!(rt;
            ran(rt.alloc(), &words, b"hello").has_said(0, said),
            "{module}"
        );
    }
    // Where there is no label, that alone is said.
    let words = ["-f", "zpl", "--dpmm", "8", "--module-mm", "0.395"];
    let answer = ran(rt.alloc(), &words, b"");
    assert!(rt; answer.has_reported(1, "empty input, see --allow-empty"));
    // In a format without dots it is the width that was asked for.
    let answer = ran(rt.alloc(), &["-f", "eps", "--module-mm", "0.395"], b"hello");
    assert!(rt; answer.has_said(0, ""));
}

/// A PDF document of one page (ISO 32000-1, 7.5.2 and 7.5.5: its first line, and its last).
#[test]
fn draws_a_document(rt: HostRuntime) {
    let words = ["-f", "pdf", "--module-mm", "0.5", "--title", "A"];
    let answer = ran(rt.alloc(), &words, b"hello");
    assert!(rt; answer.status == 0);
    assert!(rt; answer.label.starts_with(b"%PDF-1.4\n"));
    assert!(rt; answer.label.ends_with(b"%%EOF\n"));
}

/// Micro QR symbols of text that is not ASCII are those of its bytes, if these are asked for.
#[test]
fn draws_micro_bytes(rt: HostRuntime) {
    let words = ["-f", "pbm", "-l", "L", "-s", "1", "-c", "micro-bytes"];
    // Version M3 at level L has 15 modules a side, and room for the 6 bytes.
    assert!(rt; ran(rt.alloc(), &words, "倉庫".as_bytes()).has_length(9 + 3 * 19));
    let (ascii, text) = (
        ["-f", "pbm", "-c", "micro-bytes"],
        ["-f", "pbm", "-c", "micro"],
    );
    assert!(rt; draw_alike(rt.alloc(), &ascii, b"A1-4711", &text, b"A1-4711"));
}

/// Bracketed elements are drawn as their element string, in which the separator 1D (hex) ends those
/// whose length is not predefined (GS1 General Specifications, 7.8).
#[test]
fn draws_elements(rt: HostRuntime) {
    let written = b"(01)09506000134352(10)ABC123(21)7";
    let elements = b"010950600013435210ABC123\x1D217";
    assert!(rt; draw_alike(rt.alloc(), &ELEMENTS, written, &ELEMENTS, elements));
}

/// Inputs of which there is no label, and the line that says why. How much there is room for is in
/// table 7 of ISO/IEC 18004:2006; at level L version 40 holds 2952 bytes after the designator of
/// UTF-8, which takes 12 of the 23648 bits. The check digit of 9506000134352 is 2.
static ERRORS: [(&str, &[u8], &str); 19] = [
    (
        "text",
        b"caf\xE9",
        "invalid character byte 0xe9 at position 3",
    ),
    (
        "text",
        b"a\xE3\x81",
        "invalid character byte 0xe3 at position 1",
    ),
    (
        "text",
        &[b'a'; 2953],
        "data too long: 2953 bytes, and level L up to version 40 has room for 2952 bytes or 7085 digits; see --split",
    ),
    (
        "bytes",
        &[b'a'; 2954],
        "data too long: 2954 bytes, and level L up to version 40 has room for 2953 bytes or 7089 digits; see --split",
    ),
    (
        "text",
        &[0xFF; 7089],
        "invalid character byte 0xff at position 0",
    ),
    (
        "auto",
        &[0xFF; 7090],
        "data too long: more than 7089 bytes; see --split",
    ),
    (
        "micro",
        &[b'a'; 16],
        "data too long: 16 bytes, and level L up to version M4 has room for 15 bytes or 35 digits",
    ),
    (
        "micro",
        b"Gr\xC3\xBC",
        "no Micro symbol is read as this text, see -c micro-bytes",
    ),
    (
        "micro",
        b"caf\xE9",
        "no Micro symbol is read as this text, see -c micro-bytes",
    ),
    ("auto", b"\n", "empty input, see --allow-empty"),
    ("bytes", b"", "empty input, see --allow-empty"),
    (
        "gs1-unchecked",
        b"10AB|C",
        "(10), element 1: a character of the value is not allowed there",
    ),
    (
        "gs1-unchecked",
        b"0109506000134353",
        "(01), element 1: wrong check digit; the check digit would be 2",
    ),
    (
        "gs1-unchecked",
        b"0109506000134352(10)AB",
        "element 2: the identifier is cut short, or not two to four digits",
    ),
    (
        "gs1-unchecked",
        b"hello",
        "element 1: the identifier is cut short, or not two to four digits",
    ),
    (
        "gs1-unchecked",
        b"010950600013435205A",
        "element 2: unknown identifier",
    ),
    (
        "gs1-unchecked",
        b"(01)09506000134351",
        "(01), element 1: wrong check digit; the check digit would be 2",
    ),
    (
        "gs1-unchecked",
        b"(10)A(01)1",
        "(01), element 2: the length of the value is wrong",
    ),
    (
        "gs1-unchecked",
        b"(10)",
        "(10), element 1: the value is empty, or a bracket is not closed",
    ),
];

#[test]
fn reports_errors(rt: HostRuntime) {
    for (content, bytes, line) in ERRORS.iter() {
        assert!(rt;
            reports(rt.alloc(), &["-l", "L", "-c", content], bytes, line),
            "{line}"
        );
    }
    let empty = ran(rt.alloc(), &["--allow-empty"], b"");
    assert!(rt; empty.status == 0 && empty.label.starts_with(b"<svg "));
}

/// Each row has words, and the bytes with which the picture ends: `^PQ` of ZPL, `ESC d` and
/// `GS V 66 0` of ESC/POS, as the makers' manuals have them.
static ENDS: [(&[&str], &[u8]); 5] = [
    (
        &["-f", "zpl", "--copies", "99999999"],
        b"^FS\n^PQ99999999\n^XZ\n",
    ),
    (&["-f", "zpl"], b"^FS\n^XZ\n"),
    (&["-f", "escpos", "--feed=255"], b"\x1Bd\xFF"),
    (&["-f", "escpos", "--cut"], b"\x1DVB\0"),
    (
        &["-f", "escpos", "--cut", "--feed", "0"],
        b"\x1Bd\0\x1DVB\0",
    ),
];

#[test]
fn asks_printers(rt: HostRuntime) {
    for (row, (words, end)) in ENDS.iter().enumerate() {
        let answer = ran(rt.alloc(), words, b"hello");
        assert!(rt;
            answer.status == 0 && answer.label.ends_with(end),
            "row {row}"
        );
    }
    let plain = ran(rt.alloc(), &["-f", "zpl"], b"hello");
    let compressed = ran(rt.alloc(), &["-f", "zpl", "--compressed"], b"hello");
    assert!(rt; compressed.status == 0);
    assert!(rt; compressed.label.len() < plain.label.len() / 8);
}

/// Each row has the level, the greatest version, a number of bytes that are too many, and how much
/// there is room for and which level they fit, by table 7 of ISO/IEC 18004:2006.
static ROOMS: [(&str, &str, usize, &str); 7] = [
    (
        "H",
        "40",
        1274,
        "1273 bytes or 3057 digits; it fits level Q",
    ),
    (
        "H",
        "40",
        1664,
        "1273 bytes or 3057 digits; it fits level M",
    ),
    (
        "H",
        "40",
        2953,
        "1273 bytes or 3057 digits; it fits level L",
    ),
    ("H", "40", 2954, "1273 bytes or 3057 digits"),
    (
        "Q",
        "40",
        2331,
        "1663 bytes or 3993 digits; it fits level M",
    ),
    ("M", "5", 106, "84 bytes or 202 digits; it fits level L"),
    ("H", "9", 99, "98 bytes or 235 digits; it fits level Q"),
];

#[test]
fn says_at_which_level_it_fits(rt: HostRuntime) -> Result<(), QrError> {
    let bytes = [b'a'; 2954];
    for (level, version, length, room) in ROOMS.iter() {
        let words = ["-c", "bytes", "-l", level, "--max-version", version];
        let line = format!(in rt.alloc();
            "data too long: {length} bytes, and level {level} up to version {version} has room for {room}; see --split"
        )?;
        let long = &bytes[..(*length).min(2954)];
        assert!(rt; reports(rt.alloc(), &words, long, &line));
    }
    Ok(())
}

/// A hundred labels are drawn in one process: `tools/refuse-growth` checks that each is freed
/// before the next.
static PICTURES: [&[&str]; 3] = [
    &["-f", "svg"],
    &["-f", "png", "-l", "Q", "-c", "text"],
    &["-f", "terminal", "-l", "H"],
];

#[test]
fn draws_a_hundred_labels(rt: HostRuntime) {
    let text = [b'a'; 100];
    for length in 0..100 {
        let answer = ran(rt.alloc(), PICTURES[length % 3], &text[..length + 1]);
        assert!(rt; answer.status == 0);
    }
}
