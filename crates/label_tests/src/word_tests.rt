//! Tests of words that are wrong, of help and of the version.
use crate::served::ran;
use qrcode_core::types::QrError;
use std::alloc::Global;
use std::process::Abort;

/// The line for the name of an output that is wrong.
const OUTPUT: &str = "\
with -f any name, else one that ends with .txt, .svg, .png, .pbm, .eps, .pdf, .escpos or .zpl; \
for --lines and --split alone with a number, %d or %0Nd, N from 1 to 9";

/// The lines for a scale and a size that are wrong.
const SCALE: &str = "1 to 64, and not with both --module-mm and --dpi or --dpmm";

const MODULE: &str = "\
0.05 to 10, at most three decimals, for svg, png, eps and pdf; with --dpi or --dpmm for png, zpl \
and escpos, 1 to 64 whole dots";

/// The lines for resolutions that are wrong.
const DPI: &str =
    "50 to 2400, at most one decimal, for png and zpl; with --module-mm for escpos, too";

const DPMM: &str = "2 to 94, not with --dpi, for png and zpl; with --module-mm for escpos, too";

/// What colors can be.
const DARK: &str =
    "#rrggbb or one of CSS's sixteen names, for svg, png, eps and pdf; lighter colors need --any-colors";

const LIGHT: &str =
    "as --dark, or transparent; in a contrast of 3 at least, unless --any-colors is given";

/// What labels one after the other need.
const STREAM: &str = "\
--lines and --split need -f terminal, pbm, escpos or zpl, or --lines -f pdf, or files as in -o \
label-%05d.png";

/// What `--split` does not go with.
const SPLIT: &str = "\
not with --lines, --strongest, --min-version, --no-kanji, or -c gs1, gs1-unchecked, link, micro \
or micro-bytes";

/// What a title can be.
const TITLE: &str = "a text without control characters, for svg, png, eps and pdf";

/// Words that are wrong, and what is written about them: the beginning and the rest of the line.
type Wrong = (&'static [&'static str], &'static str, &'static str);

/// Of each row nothing is read or drawn.
static WRONG_WORDS: [Wrong; 37] = [
    (&["--foo"], "", "no option --foo"),
    (&["-x"], "", "no option -x"),
    (&["-s"], "", "no value after --scale"),
    (&["a", "b"], "", "more than one text: b"),
    (&["--", "-a", "-b"], "", "more than one text: -b"),
    (&["a", "--", "--help"], "", "more than one text: --help"),
    (&["-x4"], "", "no option -x4"),
    (&["--lines=1"], "", "no option --lines=1"),
    (&["--=a"], "", "no option --=a"),
    (
        &["--\u{1B}]0;x\u{7}"],
        "",
        "no option '--'$'\\033'']0;x'$'\\a'",
    ),
    (&["a", "b\u{7F}c"], "", "more than one text: 'b'$'\\177''c'"),
    (&["--scale="], "invalid --scale '': ", SCALE),
    (&["-s", "0"], "invalid --scale '0': ", SCALE),
    (&["-s", "65"], "invalid --scale '65': ", SCALE),
    (&["-s", "x"], "invalid --scale 'x': ", SCALE),
    (&["-q", "17"], "invalid --quiet '17': ", "0 to 16"),
    (
        &["-l", "X"],
        "invalid --level 'X': ",
        "L, M, Q or H; for a Micro symbol L, M or Q",
    ),
    (
        &["-c", "micro", "-l", "H"],
        "invalid --level 'H': ",
        "L, M, Q or H; for a Micro symbol L, M or Q",
    ),
    (
        &["--first", "5"],
        "invalid --first '5': ",
        "0 to 1000000000, with --lines",
    ),
    (
        &["--lines", "-f", "zpl", "--first", "1000000001"],
        "invalid --first '1000000001': ",
        "0 to 1000000000, with --lines",
    ),
    (
        &["--lines", "-f", "zpl", "--first", "-1"],
        "invalid --first '-1': ",
        "0 to 1000000000, with --lines",
    ),
    (&["-k"], "invalid --keep-going: ", "with --lines"),
    (
        &["-f", "zpl", "--copies", "0"],
        "invalid --copies '0': ",
        "1 to 99999999, for zpl",
    ),
    (
        &["-f", "zpl", "--copies", "100000000"],
        "invalid --copies '100000000': ",
        "1 to 99999999, for zpl",
    ),
    (
        &["-f", "escpos", "--copies", "2"],
        "invalid --copies '2': ",
        "1 to 99999999, for zpl",
    ),
    (
        &["-f", "pbm", "--compressed"],
        "invalid --compressed: ",
        "for zpl",
    ),
    (
        &["-f", "escpos", "--feed", "256"],
        "invalid --feed '256': ",
        "0 to 255, for escpos",
    ),
    (
        &["-f", "escpos", "--feed", "x"],
        "invalid --feed 'x': ",
        "0 to 255, for escpos",
    ),
    (
        &["-f", "zpl", "--feed", "1"],
        "invalid --feed '1': ",
        "0 to 255, for escpos",
    ),
    (&["-f", "zpl", "--cut"], "invalid --cut: ", "for escpos"),
    (
        &["-c", "mikro"],
        "invalid --content 'mikro': ",
        "auto, text, bytes, gs1, gs1-unchecked, link, micro or micro-bytes",
    ),
    (
        &["-f", "gif"],
        "invalid --format 'gif': ",
        "terminal, svg, png, pbm, eps, pdf, escpos or zpl",
    ),
    (&["-o", "a.gif"], "invalid --output 'a.gif': ", OUTPUT),
    (&["-o", "a%d.png"], "invalid --output 'a%d.png': ", OUTPUT),
    (
        &["-o", "a%05d.png", "b"],
        "invalid --output 'a%05d.png': ",
        OUTPUT,
    ),
    (
        &["--lines", "-o", "a%5d.png"],
        "invalid --output 'a%5d.png': ",
        OUTPUT,
    ),
    (
        &["--lines", "-o", "a%020d.zpl"],
        "invalid --output 'a%020d.zpl': ",
        OUTPUT,
    ),
];

const HRI: &str = "with -c gs1, gs1-unchecked or link, for terminal, svg, png, eps, zpl and pdf";

const NO_KANJI: &str = "with -c bytes";

/// The same of values of options.
static WRONG_VALUES: [Wrong; 55] = [
    (&["--upper"], "invalid --upper: ", "with -c link"),
    (&["--inverted"], "invalid --inverted: ", "for terminal"),
    (&["--dpi", "300"], "invalid --dpi '300': ", DPI),
    (
        &["--module-mm", "0.04"],
        "invalid --module-mm '0.04': ",
        MODULE,
    ),
    (
        &["--module-mm", "0.3333"],
        "invalid --module-mm '0.3333': ",
        MODULE,
    ),
    (
        &["-f", "png", "--dpi", "203.25"],
        "invalid --dpi '203.25': ",
        DPI,
    ),
    (&["-f", "png", "--dpmm", "1"], "invalid --dpmm '1': ", DPMM),
    (
        &["-f", "png", "--dpmm", "95"],
        "invalid --dpmm '95': ",
        DPMM,
    ),
    (
        &["-f", "png", "--dpmm", "8.5"],
        "invalid --dpmm '8.5': ",
        DPMM,
    ),
    (&["-f", "svg", "--dpmm", "8"], "invalid --dpmm '8': ", DPMM),
    (
        &["-f", "escpos", "--dpmm", "8"],
        "invalid --dpmm '8': ",
        DPMM,
    ),
    (
        &["-f", "png", "--dpmm", "8", "--dpi", "203.2"],
        "invalid --dpmm '8': ",
        DPMM,
    ),
    (
        &["-f", "zpl", "--module-mm", "0.05", "--dpi", "203"],
        "invalid --module-mm '0.05': ",
        MODULE,
    ),
    (
        &["-f", "escpos", "--module-mm", "10", "--dpi", "203"],
        "invalid --module-mm '10': ",
        MODULE,
    ),
    (
        &["-f", "png", "--module-mm", "1", "--dpi", "2401"],
        "invalid --dpi '2401': ",
        DPI,
    ),
    (
        &["-f", "png", "--module-mm", "1", "--dpi", "203", "-s", "4"],
        "invalid --scale '4': ",
        SCALE,
    ),
    (
        &["-f", "svg", "--module-mm", "1", "--dpi", "203"],
        "invalid --dpi '203': ",
        DPI,
    ),
    (
        &["--at", "1"],
        "invalid --at '1': ",
        "X,Y, each 0 to 18000, for zpl",
    ),
    (
        &["-f", "zpl", "--at", "18001,0"],
        "invalid --at '18001,0': ",
        "X,Y, each 0 to 18000, for zpl",
    ),
    (
        &["-f", "pbm", "--title", "x"],
        "invalid --title 'x': ",
        TITLE,
    ),
    (
        &["-f", "svg", "--title", "a\nb"],
        "invalid --title 'a'$'\\n''b': ",
        TITLE,
    ),
    (
        &["-f", "pdf", "--title", "\t'"],
        "invalid --title ''$'\\t'\\''': ",
        TITLE,
    ),
    (
        &["-f", "png", "--title", "\u{9B}"],
        "invalid --title ''$'\\302\\233': ",
        TITLE,
    ),
    (
        &["-f", "svg", "--title", "\u{FFFE}"],
        "invalid --title ''$'\\357\\277\\276': ",
        TITLE,
    ),
    (&["--hri", "hello"], "invalid --hri: ", HRI),
    (
        &["--hri", "-c", "gs1", "-f", "escpos", "(10)A"],
        "invalid --hri: ",
        HRI,
    ),
    (
        &["--hri", "-c", "link", "-o", "a.pbm", "(10)A"],
        "invalid --hri: ",
        HRI,
    ),
    (
        &["-c", "micro", "--strongest"],
        "invalid --strongest: ",
        "not for a Micro symbol",
    ),
    (
        &["-c", "micro", "--min-version", "1"],
        "invalid --min-version '1': ",
        "1 to 40, not for a Micro symbol",
    ),
    (
        &["--min-version", "5", "--max-version", "4"],
        "invalid --max-version '4': ",
        "1 to 40, at least --min-version, not for a Micro symbol",
    ),
    (&["-r", "a", "b"], "invalid --read 'a': ", "not with a text"),
    (&["--lines"], "", STREAM),
    (
        &["--lines", "-f", "zpl", "b"],
        "invalid --lines: ",
        "not with a text",
    ),
    (
        &["-c", "micro-bytes", "--strongest"],
        "invalid --strongest: ",
        "not for a Micro symbol",
    ),
    (&["--no-kanji"], "invalid --no-kanji: ", NO_KANJI),
    (
        &["-c", "text", "--no-kanji"],
        "invalid --no-kanji: ",
        NO_KANJI,
    ),
    (
        &["-c", "micro-bytes", "--no-kanji"],
        "invalid --no-kanji: ",
        NO_KANJI,
    ),
    (
        &["-c", "gs1", "--no-kanji"],
        "invalid --no-kanji: ",
        NO_KANJI,
    ),
    (
        &["--split", "-f", "zpl", "-c", "bytes", "--no-kanji"],
        "invalid --split: ",
        SPLIT,
    ),
    (&["--split"], "", STREAM),
    (&["--split", "-f", "pdf"], "", STREAM),
    (
        &["--split", "--lines", "-f", "zpl"],
        "invalid --split: ",
        SPLIT,
    ),
    (
        &["--split", "--strongest", "-f", "zpl"],
        "invalid --split: ",
        SPLIT,
    ),
    (
        &["--split", "--min-version=2", "-f", "zpl"],
        "invalid --split: ",
        SPLIT,
    ),
    (
        &["--split", "-f", "zpl", "-c", "gs1"],
        "invalid --split: ",
        SPLIT,
    ),
    (
        &["--split", "-f", "zpl", "-c", "micro"],
        "invalid --split: ",
        SPLIT,
    ),
    (
        &["--rotate", "45"],
        "invalid --rotate '45': ",
        "0, 90, 180 or 270",
    ),
    (
        &["-v", "--lines", "-f", "zpl"],
        "invalid --verbose: ",
        "not with --lines, see --info",
    ),
    (
        &["-f", "png", "--dark", "Red"],
        "invalid --dark 'Red': ",
        DARK,
    ),
    (
        &["-f", "pbm", "--dark", "red"],
        "invalid --dark 'red': ",
        DARK,
    ),
    (
        &["-f", "png", "--dark", "yellow"],
        "invalid --dark 'yellow': ",
        DARK,
    ),
    (
        &["-f", "png", "--light", "#12345"],
        "invalid --light '#12345': ",
        LIGHT,
    ),
    (
        &["-f", "png", "--light", "navy"],
        "invalid --light 'navy': ",
        LIGHT,
    ),
    (
        &["-f", "zpl", "--any-colors"],
        "invalid --any-colors: ",
        "for svg, png, eps and pdf",
    ),
    (
        &["--info", "-o", "a.png"],
        "invalid --info: ",
        "not with the name of an output",
    ),
];

fn are_named(rt: &impl Abort, alloc: Global, rows: &[Wrong]) -> Result<(), QrError> {
    for (row, (words, head, text)) in rows.iter().enumerate() {
        let answer = ran(alloc, words, b"hello");
        let whole = format!(in alloc; "{head}{text}\ntry qrlabel --help")?;
        assert!(rt;
            answer.has_reported(2, &whole) && answer.unread == 5,
            "row {row}"
        );
    }
    Ok(())
}

#[test]
fn names_what_is_wrong(rt: HostRuntime) -> Result<(), QrError> {
    are_named(&rt, rt.alloc(), &WRONG_WORDS)
}

#[test]
fn names_wrong_values(rt: HostRuntime) -> Result<(), QrError> {
    are_named(&rt, rt.alloc(), &WRONG_VALUES)
}

#[test]
fn names_a_long_title(rt: HostRuntime) -> Result<(), QrError> {
    let mut title = String::new(rt.alloc());
    for _ in 0..245 {
        title.push('a')?;
    }
    let line = "invalid --title: too long: for png and pdf it has at most 1000000 bytes, for eps \
        at most 244 characters, of which one beyond ASCII counts 8 to 16\ntry qrlabel --help";
    let answer = ran(rt.alloc(), &["-f", "eps", "--title", &title], b"hello");
    assert!(rt; answer.has_reported(2, line));
    let drawn = ran(rt.alloc(), &["-f", "svg", "--title", &title], b"hello");
    assert!(rt; drawn.status == 0);
    Ok(())
}

/// Help and the version come first, whatever else is asked for.
static HELPS: [(&[&str], &str); 3] = [
    (&["--help"], "usage: qrlabel [OPTIONS] [TEXT]\n"),
    (&["-s", "99", "-h"], "usage: qrlabel [OPTIONS] [TEXT]\n"),
    (&["-V", "-l", "X"], "qrlabel 0.5.0\n"),
];

#[test]
fn shows_help(rt: HostRuntime) {
    for (row, (words, beginning)) in HELPS.iter().enumerate() {
        let answer = ran(rt.alloc(), words, b"hello");
        assert!(rt; answer.status == 0 && answer.unread == 5, "row {row}");
        assert!(rt; answer.label.starts_with(beginning.as_bytes()), "row {row}");
    }
}
