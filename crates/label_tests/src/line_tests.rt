//! Tests of labels of lines.
use crate::served::{ran, reports};
use crate::test_files::Kept;
use label_words::read_words;
use labels::{LEFT_OUT, run};
use programs::{FromReader, FromWriter};
use qrcode_core::types::QrError;
use std::alloc::Global;

/// Words for a label of each line, and for one label, in the same format.
const EACH: [&str; 5] = ["--lines", "-f", "pbm", "-s", "1"];

const ONE: [&str; 4] = ["-f", "pbm", "-s", "1"];

/// Whether the labels of the lines are these, one after the other.
fn are_drawn(alloc: Global, input: &[u8], lines: &[&str]) -> bool {
    let drawn = ran(alloc, &EACH, input);
    let mut rest = drawn.label.as_slice();
    for line in lines {
        let one = ran(alloc, &ONE, line.as_bytes());
        if one.status != 0 || !rest.starts_with(&one.label) {
            return false;
        }
        rest = &rest[one.label.len()..];
    }
    drawn.status == 0 && drawn.said.is_empty() && rest.is_empty()
}

/// Lines end with a newline, with or without a carriage return before it, or with the input, as the
/// lines of `BufRead::lines` of Rust.
#[test]
fn draws_lines(rt: HostRuntime) {
    let alloc = rt.alloc();
    assert!(rt; are_drawn(alloc, b"", &[]));
    assert!(rt; are_drawn(alloc, b"hello", &["hello"]));
    assert!(rt; are_drawn(alloc, b"hello\n", &["hello"]));
    assert!(rt; are_drawn(alloc, b"a\nhello\nb\n", &["a", "hello", "b"]));
    assert!(rt; are_drawn(alloc, b"a\r\nb\r", &["a", "b\r"]));
    assert!(rt; are_drawn(alloc, b"a\rb\r\r\n", &["a\rb\r"]));
}

/// Whether a run stops at a line after `labels` labels, of 125 bytes each, leaves `unread` bytes,
/// and reports `line`.
fn stops(alloc: Global, input: &[u8], unread: usize, labels: usize, line: &str) -> bool {
    let answer = ran(alloc, &EACH, input);
    answer.has_said(1, line)
        && answer.label.len() == labels.saturating_mul(9 + 4 * 29)
        && answer.unread == unread
}

/// Inputs with a line that has no label, how many bytes are left unread, and what is written about
/// it. The labels of the lines before it are written.
#[test]
fn stops_at_a_line(rt: HostRuntime) -> Result<(), QrError> {
    let alloc = rt.alloc();
    let mut long = Vec::new(alloc);
    long.extend_from_slice(b"a\nb\n")?;
    long.resize(4 + 4 * 7089 + 2 + 9, b'x')?;
    let empty = "qrlabel: line 3: empty input, see --allow-empty\n";
    assert!(rt; stops(alloc, b"a\nb\n\nc\n", 2, 2, empty));
    let empty = "qrlabel: line 1: empty input, see --allow-empty\n";
    assert!(rt; stops(alloc, b"\r\na\n", 2, 0, empty));
    let line = "\
qrlabel: line 3: data too long: more than 7089 bytes\n";
    assert!(rt; stops(alloc, &long, 9, 2, line));
    let whole = ran(alloc, &EACH, b"a\nb");
    assert!(rt; whole.has_length(2 * (9 + 4 * 29)) && whole.unread == 0);
    Ok(())
}

/// How often bytes stand in a text.
fn count(text: &[u8], bytes: &[u8]) -> usize {
    (0..text.len())
        .filter(|&i| text[i..].starts_with(bytes))
        .count()
}

/// Labels of lines are the pages of one document. A line that is left out has none, and where no
/// line has one nothing is written.
#[test]
fn draws_pages(rt: HostRuntime) {
    let words = ["--lines", "-k", "-f", "pdf", "--rotate", "90"];
    let answer = ran(rt.alloc(), &words, b"a\n\nhello\nb\n");
    let line = "qrlabel: line 2: empty input, see --allow-empty\n";
    assert!(rt; answer.has_said(LEFT_OUT, line));
    assert!(rt; answer.label.starts_with(b"%PDF-1.4\n"));
    assert!(rt; answer.label.ends_with(b"\n%%EOF\n"));
    assert!(rt; count(&answer.label, b"<</Type/Page/") == 3);
    assert!(rt; count(&answer.label, b"/Kids[4 0 R 6 0 R 8 0 R ]/Count 3>>") == 1);
    assert!(rt; ran(rt.alloc(), &words, b"\n").label.is_empty());
}

/// A line without any bytes is drawn if the words say so.
#[test]
fn draws_an_empty_line(rt: HostRuntime) {
    let words = ["--lines", "--allow-empty", "-f", "pbm", "-s", "1"];
    assert!(rt; ran(rt.alloc(), &words, b"a\n\nb\n").has_length(3 * (9 + 4 * 29)));
}

/// Where a write fails, what is written is a beginning of the labels.
#[test]
fn begins_labels(rt: HostRuntime) {
    let whole = ran(rt.alloc(), &EACH, b"a\nb\nc\n");
    let mut room = [0u8; 300];
    let mut said: Vec<u8> = Vec::new(rt.alloc());
    let mut input: &[u8] = b"a\nb\nc\n";
    let mut reader = FromReader::new(&mut input);
    let mut errors = FromWriter::new(&mut said);
    let status = match read_words(&EACH) {
        Ok(values) => {
            let mut writer = FromWriter::new(&mut room[..]);
            let mut files = Kept::new(rt.alloc());
            run(
                rt.alloc(),
                &values,
                false,
                &mut reader,
                &mut writer,
                &mut files,
                &mut errors,
            )
        }
        Err(_) => 2,
    };
    let line = "qrlabel: line 3: cannot write standard output: input or output error\n";
    assert!(rt; status == 1 && said.as_slice() == line.as_bytes());
    assert!(rt; whole.label.starts_with(&room));
}

/// Each label is in a file, whose name has the number of its line: with `%05d` of five digits.
#[test]
fn draws_into_files(rt: HostRuntime) {
    let (png, name) = (["-f", "png"], "label-%05d.png");
    let answer = ran(rt.alloc(), &["--lines", "-o", name], b"a\nhello\r\nb");
    let (a, hello) = (ran(rt.alloc(), &png, b"a"), ran(rt.alloc(), &png, b"hello"));
    let b = ran(rt.alloc(), &png, b"b");
    assert!(rt; answer.status == 0 && answer.label.is_empty());
    assert!(rt; answer.has_files("label-00001.png\nlabel-00002.png\nlabel-00003.png\n"));
    let rest = answer.files.contents.as_slice();
    assert!(rt; rest.starts_with(&a.label) && rest.ends_with(&b.label));
    assert!(rt; rest[a.label.len()..].starts_with(&hello.label));
    assert!(rt; rest.len() == a.label.len() + hello.label.len() + b.label.len());
}

/// Each row has a name with a number, and what is written of two lines; the second has no label.
static NAMES: [(&str, &str); 6] = [
    ("%d.svg", "1.svg\n"),
    ("a%01d.zpl", "a1.zpl\n"),
    ("a-%09d.pbm", "a-000000001.pbm\n"),
    ("d/d%02d.d.png", "d/d01.d.png\n"),
    ("a%5d.svg", ""),
    ("%d%d.svg", ""),
];

#[test]
fn names_files(rt: HostRuntime) {
    for (name, names) in NAMES.iter() {
        let answer = ran(rt.alloc(), &["--lines", "-o", name], b"a\n\n");
        let status = if names.is_empty() { 2 } else { 1 };
        assert!(rt;
            answer.status == status && answer.has_files(names),
            "{name}"
        );
    }
}

/// Whether a run writes three files, and reports that there is no room for the fourth.
fn fills_the_disk(alloc: Global, words: &[&str], input: &[u8]) -> bool {
    let answer = ran(alloc, words, input);
    answer.has_files("1.png\n2.png\n3.png\n")
        && answer.has_reported(1, "line 4: cannot write 4.png: no space left on device")
}

/// Where a file can't be written, those before it are there, and the error has the number, the name
/// and the reason.
#[test]
fn stops_at_a_file(rt: HostRuntime) {
    assert!(rt; fills_the_disk(rt.alloc(), &["--lines", "-o", "%d.png"], b"a\nb\nc\nd\n"));
}

/// Lines that follow a write error are not drawn, also where lines are left out.
#[test]
fn stops_at_a_file_that_fails(rt: HostRuntime) {
    let words = ["--lines", "-k", "-o", "%d.png"];
    assert!(rt; fills_the_disk(rt.alloc(), &words, b"a\nb\nc\nd\ne\n"));
}

/// With `-k` a line that has no label is left out, to its end if it is long, and reported with its
/// number; the labels of the others are drawn, and the status says so.
#[test]
fn leaves_lines_out(rt: HostRuntime) -> Result<(), QrError> {
    let mut input = Vec::new(rt.alloc());
    input.extend_from_slice(b"a\n\nb\n")?;
    input.resize(5 + 30000, b'x')?;
    input.extend_from_slice(b"\r\nhello\n")?;
    let words = ["--lines", "-k", "--first", "7", "-f", "pbm", "-s", "1"];
    let answer = ran(rt.alloc(), &words, &input);
    let drawn = ran(rt.alloc(), &EACH, b"a\nb\nhello\n");
    let said = "\
qrlabel: line 8: empty input, see --allow-empty
qrlabel: line 10: data too long: more than 7089 bytes
";
    assert!(rt; answer.has_said(LEFT_OUT, said) && answer.unread == 0);
    assert!(rt; drawn.has_written(&answer.label));
    Ok(())
}

/// The first line has the number that is asked for, in the names of files and in errors, and a line
/// that is left out has no file.
#[test]
fn numbers_from_the_first(rt: HostRuntime) {
    let words = ["--lines", "--first", "98", "-k", "-o", "a-%03d.svg"];
    let answer = ran(rt.alloc(), &words, b"a\n\nb\n");
    assert!(rt; answer.has_files("a-098.svg\na-100.svg\n"));
    let line = "qrlabel: line 99: empty input, see --allow-empty\n";
    assert!(rt; answer.has_said(LEFT_OUT, line));
    let stopped = ["--lines", "--first", "0", "-f", "zpl"];
    assert!(rt;
        reports(
            rt.alloc(),
            &stopped,
            b"\n",
            "line 0: empty input, see --allow-empty"
        )
    );
}
