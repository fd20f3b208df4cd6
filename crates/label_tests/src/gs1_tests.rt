//! Tests of labels of GS1 elements and of their links.
use crate::served::{draw_alike, ran, reports};
use std::alloc::{AllocError, Global};

/// Inputs that the table of identifiers does not allow, and the line that says why. The check digit
/// of 0950600013435 is 2, that of 950600013435 also, 13 is no month, and the pair of the model number
/// 1987654Ad4X4bL5ttr2310c is 2K (GS1 General Specifications, "Check character pair").
static ERRORS: [(&str, &str); 16] = [
    (
        "hello",
        "element 1: the identifier is cut short, or not two to four digits",
    ),
    (
        "0109506000134352(10)AB",
        "element 2: the identifier is cut short, or not two to four digits",
    ),
    ("010950600013435205A", "(05), element 2: unknown identifier"),
    ("(4399)A", "(4399), element 1: unknown identifier"),
    ("(10)A(8099)1", "(8099), element 2: unknown identifier"),
    (
        "0109506000134353",
        "(01), element 1, character 14: wrong check digit; the check digit would be 2",
    ),
    (
        "(253)9506000134355",
        "(253), element 1, character 13: wrong check digit; the check digit would be 2",
    ),
    (
        "(8013)1987654Ad4X4bL5ttr2310c2L",
        "(8013), element 1, character 24: wrong pair of check characters; the pair would be 2K",
    ),
    (
        "(10)A(01)1",
        "(01), element 2, character 2: the value is too short",
    ),
    (
        "(10)",
        "(10), element 1, character 1: the value is too short",
    ),
    (
        "(10)123456789012345678901",
        "(10), element 1, character 21: the value is too long",
    ),
    (
        "(37)ABC",
        "(37), element 1, character 1: a character that is not allowed there",
    ),
    (
        "10AB|C",
        "(10), element 1, character 3: a character that is not allowed there",
    ),
    ("(17)261301", "(17), element 1, character 3: no such month"),
    (
        "(7003)2612",
        "(7003), element 1, character 5: the value is too short",
    ),
    (
        "no brackets",
        "element 1: the identifier is cut short, or not two to four digits",
    ),
];

#[test]
fn refuses_by_the_table(rt: HostRuntime) {
    for (text, line) in ERRORS.iter() {
        assert!(rt;
            reports(rt.alloc(), &["-c", "gs1"], text.as_bytes(), line),
            "{line}"
        );
    }
}

/// Elements that may not stand together (GS1 General Specifications, "Mandatory associations" and
/// "Invalid pairs of GTINs"), in both forms, and the line that says why.
static APART: [(&[u8], &str); 6] = [
    (
        b"(10)ABC",
        "(10), element 1: an element that has to stand beside it is missing",
    ),
    (
        b"10ABC",
        "(10), element 1: an element that has to stand beside it is missing",
    ),
    (
        b"(02)09506000134352",
        "(02), element 1: an element that has to stand beside it is missing",
    ),
    (
        b"]Q3010950600013435210A\x1D10B",
        "(10), element 2: element 3 may not stand beside it",
    ),
    (
        b"(01)09506000134352(02)09506000134352(37)2",
        "(01), element 1: element 2 may not stand beside it",
    ),
    (
        b"(01)09506000134352(01)04012345678901",
        "(01), element 1: element 2 may not stand beside it",
    ),
];

#[test]
fn refuses_what_may_not_stand_together(rt: HostRuntime) {
    for (elements, line) in APART.iter() {
        assert!(rt;
            reports(rt.alloc(), &["-c", "gs1"], elements, line),
            "{line}"
        );
        assert!(rt; ran(rt.alloc(), &UNCHECKED, elements).status == 0, "{line}");
    }
}

/// What scanners give is drawn without their marks; an opening bracket may stand in a value.
#[test]
fn draws_what_a_scanner_gives(rt: HostRuntime) {
    let alloc = rt.alloc();
    let written = b"(01)09506000134352(10)ABC";
    for words in [&CHECKED, &UNCHECKED] {
        for given in [
            b"]Q3010950600013435210ABC".as_slice(),
            b"010950600013435210ABC\x1D".as_slice(),
            b"]Q3010950600013435210ABC\x1D\r\n".as_slice(),
        ] {
            assert!(rt; draw_alike(alloc, words, given, words, written));
        }
        assert!(rt; ran(alloc, words, b"010950600013435210A(02)B").status == 0);
        assert!(rt; ran(alloc, words, b"]Q3").status == 1);
    }
}

static CHECKED: [&str; 4] = ["-f", "pbm", "-c", "gs1"];

static UNCHECKED: [&str; 4] = ["-f", "pbm", "-c", "gs1-unchecked"];

/// What the table does not have is drawn without its check, as the element string that it is.
#[test]
fn draws_unchecked_elements(rt: HostRuntime) {
    let alloc = rt.alloc();
    assert!(rt; ran(alloc, &CHECKED, b"(4399)A").status == 1);
    let string = b"4399A\x1D10B";
    assert!(rt; draw_alike(alloc, &UNCHECKED, b"(4399)A(10)B", &UNCHECKED, string));
    let both = b"(01)09506000134352(10)ABC";
    assert!(rt; draw_alike(alloc, &CHECKED, both, &UNCHECKED, both));
}

/// Links are drawn as the bytes that they are. The first is an example of the GS1 Digital Link
/// Standard: URI Syntax.
static LINKS: [(&[&str], &[u8], &[u8]); 5] = [
    (
        &["-f", "pbm", "-c", "link"],
        b"(01)09506000134352(10)ABC1(21)12345(17)180426\n",
        b"https://id.gs1.org/01/09506000134352/10/ABC1/21/12345?17=180426",
    ),
    (
        &["-f", "pbm", "-c", "link", "--domain", "example.com:8080"],
        b"(17)261231(01)09506000134352",
        b"https://example.com:8080/01/09506000134352?17=261231",
    ),
    (
        &["-f", "pbm", "-c", "link", "--domain=x"],
        b"(414)9506000134352(254)32a/b",
        b"https://x/414/9506000134352/254/32a%2Fb",
    ),
    (
        &["-f", "pbm", "-c", "link", "--upper"],
        b"(01)09506000134352(10)ABC",
        b"HTTPS://ID.GS1.ORG/01/09506000134352/10/ABC",
    ),
    (
        &[
            "-f",
            "pbm",
            "-c",
            "link",
            "--upper",
            "--domain",
            "example.com/shop",
        ],
        b"(00)106141412345678908",
        b"HTTPS://EXAMPLE.COM/shop/00/106141412345678908",
    ),
];

#[test]
fn draws_links(rt: HostRuntime) {
    let bytes = ["-f", "pbm", "-c", "bytes"];
    for (row, (words, elements, link)) in LINKS.iter().enumerate() {
        assert!(rt;
            draw_alike(rt.alloc(), words, elements, &bytes, link),
            "row {row}"
        );
    }
    let details = ran(
        rt.alloc(),
        &["--info", "-c", "link", "--domain", "X"],
        b"(01)09506000134352",
    );
    assert!(rt; details.status == 0);
    // `https` takes 52 bits, `://X/01/` 57 and the digits 61, in a version with room for 224.
    assert!(rt;
        details.label.ends_with(
            b", segments byte 5 alphanumeric 8 numeric 14, 25 modules
as elements: version 1\n"
        )
    );
}

/// Elements, and how they come out as a link. The bits of the link of 01 are more than the 224 of
/// version 2: 22 bytes take 188, and 14 digits 61.
static OTHER_WAYS: [(&[u8], &[u8]); 4] = [
    (b"(01)09506000134352", b" modules\nas a link: version 3\n"),
    (b"0109506000134352", b" modules\nas a link: version 3\n"),
    (b"(90)A", b" modules\nas a link: none\n"),
    (b"90A", b" modules\nas a link: none\n"),
];

#[test]
fn says_the_version_of_the_other_way(rt: HostRuntime) {
    for (elements, end) in OTHER_WAYS.iter() {
        let details = ran(rt.alloc(), &["--info", "-c", "gs1"], elements);
        assert!(rt; details.status == 0 && details.label.ends_with(end));
    }
    let words = ["--info", "-c", "link", "--max-version", "2"];
    let details = ran(rt.alloc(), &words, b"(01)09506000134352");
    assert!(rt; details.status == 1);
    // In capitals 22 characters of the Alphanumeric mode take 134 bits.
    let words = ["--info", "-c", "link", "--upper", "--max-version", "2"];
    let details = ran(rt.alloc(), &words, b"(01)09506000134352");
    assert!(rt; details.status == 0 && details.label.starts_with(b"version 2, "));
    let words = ["--info", "-c", "gs1", "--max-version", "2"];
    let details = ran(rt.alloc(), &words, b"(01)09506000134352");
    assert!(rt; details.label.ends_with(b" modules\nas a link: too long\n"));
}

/// Elements of which there is no link, and the line that says why.
static REFUSED: [(&[u8], &str); 9] = [
    (b"", "empty input, see --allow-empty"),
    (b"caf\xE9", "invalid character byte 0xe9 at position 3"),
    (
        b"0109506000134352",
        "no elements, which are written as in (01)09506000134352",
    ),
    (
        b"(01)09506000134351",
        "(01), element 1, character 14: wrong check digit; the check digit would be 2",
    ),
    (
        b"(10)A",
        "no element is the key of a link, as (01), (00) or (414) are",
    ),
    (
        b"(01)09506000134352(10)A(235)B",
        "(10), element 2: may not stand beside another qualifier of the link's key",
    ),
    (
        b"(01)09506000134352(17)261231(17)261231",
        "(17), element 2: the identifier stands once more after it",
    ),
    (
        b"(3922)2172(01)09506000134352",
        "(3922), element 1: an element that has to stand beside it is missing",
    ),
    (
        b"(00)106141412345678908(420)1(421)0361",
        "(420), element 2: element 3 may not stand beside it",
    ),
];

#[test]
fn refuses_links(rt: HostRuntime) {
    for (elements, line) in REFUSED.iter() {
        assert!(rt;
            reports(rt.alloc(), &["-c", "link"], elements, line),
            "{line}"
        );
    }
    let keys = ran(
        rt.alloc(),
        &["-c", "link"],
        b"(01)09506000134352(8010)9506000A1",
    );
    let line = "element 1: a link has one key, and there is another after this one";
    assert!(rt; keys.has_reported(1, line));
}

/// Contents of elements, and the line that has them.
static HRI: [(&str, &[u8], &[u8]); 9] = [
    (
        "gs1",
        b"(01)09506000134352(10)ABC\n",
        b"(01)09506000134352(10)ABC\n",
    ),
    (
        "gs1",
        b"010950600013435210ABC",
        b"(01)09506000134352(10)ABC\n",
    ),
    ("gs1-unchecked", b"4399A\x1D10B", b"(4399)A(10)B\n"),
    ("gs1-unchecked", b"(4399)A(10)B", b"(4399)A(10)B\n"),
    (
        "link",
        b"(10)ABC(01)09506000134352",
        b"(10)ABC(01)09506000134352\n",
    ),
    (
        "gs1",
        b"(01)09506000134352(10)ABC(17)261231(21)7",
        b"(01)09506000134352\n(10)ABC\n(17)261231\n(21)7\n",
    ),
    (
        "gs1",
        b"010950600013435210ABC\x1D1726123121ABCDEFGHIJ",
        b"(01)09506000134352\n(10)ABC\n(17)261231\n(21)ABCDEFGHIJ\n",
    ),
    (
        "gs1-unchecked",
        b"010950600013435210AB(C\x1D1726123121ABCDEFGHIJ",
        b"(01)09506000134352(10)AB(C(17)261231(\n21)ABCDEFGHIJ\n",
    ),
    (
        "link",
        b"(01)09506000134352(10)ABC(17)261231(21)ABCDEFGHIJ",
        b"(01)09506000134352\n(10)ABC\n(17)261231\n(21)ABCDEFGHIJ\n",
    ),
];

/// Whether `--hri` adds this line to a label, and nothing else.
fn adds_line(alloc: Global, content: &str, input: &[u8], line: &[u8]) -> bool {
    let plain = ran(alloc, &["-f", "terminal", "-c", content], input);
    let more = ran(alloc, &["-f", "terminal", "--hri", "-c", content], input);
    more.status == 0 && more.label.strip_prefix(plain.label.as_slice()) == Some(line)
}

/// Whether bytes have a part.
fn has(bytes: &[u8], part: &[u8]) -> bool {
    for n in 0..bytes.len() {
        if bytes[n..].starts_with(part) {
            return true;
        }
    }
    false
}

/// Version 2 has 33 modules with its quiet zone, and 27 characters of 2 modules a line. 18 characters
/// of 3 modules are 32.4 wide, so that they begin at 0.3.
#[test]
fn writes_elements_below_pages(rt: HostRuntime) {
    let words = ["-f", "pdf", "-c", "gs1", "--hri"];
    let label = ran(rt.alloc(), &words, b"(01)09506000134352(10)ABC(17)261231");
    assert!(rt; label.status == 0);
    let lines = b"\nBT\n/F 3.00 Tf\n\
1 0 0 -1 0.30 36 Tm(\\(01\\)09506000134352)Tj\n\
1 0 0 -1 10.20 39 Tm(\\(10\\)ABC)Tj\n\
1 0 0 -1 7.50 42 Tm(\\(17\\)261231)Tj\nET\nendstream";
    assert!(rt; has(&label.label, lines));
    assert!(rt; has(&label.label, b"/BaseFont/Courier"));
}

/// 264 pixels, of which 26 letters of 10 are in a line, and three lines of 20 pixels.
#[test]
fn writes_elements_below_png(rt: HostRuntime) {
    let words = ["-f", "png", "-c", "gs1", "--hri"];
    let label = ran(rt.alloc(), &words, b"(01)09506000134352(10)ABC(17)261231");
    assert!(rt; label.status == 0);
    assert!(rt; label.label.get(16..24) == Some([0, 0, 1, 8, 0, 0, 1, 68].as_slice()));
}

#[test]
fn writes_elements_below_the_symbol(rt: HostRuntime) {
    for (content, input, line) in HRI.iter() {
        assert!(rt; adds_line(rt.alloc(), content, input, line), "{content}");
    }
    let words = ["-f", "svg", "--rotate", "90", "-c", "gs1", "--hri"];
    let label = ran(rt.alloc(), &words, b"(01)09506000134352(10)A");
    assert!(rt; label.status == 0);
    assert!(rt;
        label
            .label
            .ends_with(b" fill=\"#000\">(01)09506000134352(10)A</text>\n</svg>\n")
    );
}

/// A domain is a host name, or with a port or a path, and only links have one.
static DOMAINS: [(&[&str], &str); 4] = [
    (&["--domain", "a.org", "hello"], "'a.org'"),
    (
        &["-c", "link", "--domain", "a//b", "(01)09506000134352"],
        "'a//b'",
    ),
    (&["-c", "link", "--domain=", "(01)09506000134352"], "''"),
    (
        &["-c", "link", "--domain", "a.org:", "(01)09506000134352"],
        "'a.org:'",
    ),
];

#[test]
fn names_wrong_domains(rt: HostRuntime) -> Result<(), AllocError> {
    let text = "a host name, or with a port or a path, and with -c link\ntry qrlabel --help";
    for (words, value) in DOMAINS.iter() {
        let answer = ran(rt.alloc(), words, b"");
        let line = format!(in rt.alloc(); "invalid --domain {value}: {text}")?;
        assert!(rt; answer.has_reported(2, &line));
    }
    Ok(())
}
