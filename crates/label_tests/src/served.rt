//! A run of the program, and what tests ask of it. What is compared stands in functions of a line
//! or two, since each `assert_eq!` in a test makes its proof longer.
use crate::test_files::Kept;
use label_words::read_words;
use labels::{misused, run};
use programs::{FromReader, FromWriter};
use std::alloc::Global;

/// The result of a run: the status, the number of bytes left unread, and what was written to
/// both outputs.
#[derive(Drop)]
pub struct Served {
    pub status: u8,
    pub unread: usize,
    pub label: Vec<u8>,
    pub said: Vec<u8>,
    pub files: Kept,
}

impl Served {
    /// Whether it ended with 0, wrote `length` bytes, and reported nothing.
    pub fn has_length(&self, length: usize) -> bool {
        self.status == 0 && self.label.len() == length && self.said.is_empty()
    }

    /// Whether it ended with 0, wrote these bytes, and reported nothing.
    pub fn has_written(&self, label: &[u8]) -> bool {
        self.status == 0 && self.label.as_slice() == label && self.said.is_empty()
    }

    /// Whether it ended with this status, and reported exactly these lines.
    pub fn has_said(&self, status: u8, said: &str) -> bool {
        self.status == status && self.said.as_slice() == said.as_bytes()
    }

    /// Whether it ended with this status, wrote nothing, and reported exactly this line, of which
    /// the program's name and the newline are left out.
    pub fn has_reported(&self, status: u8, line: &str) -> bool {
        self.status == status && self.label.is_empty() && is_report(&self.said, line)
    }

    /// Whether the files that it wrote have these names, each with a newline after it.
    pub fn has_files(&self, names: &str) -> bool {
        self.files.names.as_str() == names
    }
}

/// Whether these bytes are the program's name, a line and a newline.
fn is_report(said: &[u8], line: &str) -> bool {
    match said.strip_prefix(b"qrlabel: ") {
        Some(rest) => rest.strip_suffix(b"\n") == Some(line.as_bytes()),
        None => false,
    }
}

/// Runs the program with words and an input. Its output is no terminal.
pub fn ran(alloc: Global, words: &[&str], input: &[u8]) -> Served {
    let mut bytes = input;
    let mut label: Vec<u8> = Vec::new(alloc);
    let mut said: Vec<u8> = Vec::new(alloc);
    let mut reader = FromReader::new(&mut bytes);
    let mut writer = FromWriter::new(&mut label);
    let mut errors = FromWriter::new(&mut said);
    let mut files = Kept::new(alloc);
    let status = match read_words(words) {
        Ok(values) => run(
            alloc,
            &values,
            false,
            &mut reader,
            &mut writer,
            &mut files,
            &mut errors,
        ),
        Err(misuse) => misused(&mut errors, misuse, None),
    };
    Served {
        status,
        unread: bytes.len(),
        label,
        said,
        files,
    }
}

/// Whether two ways to ask draw the same, and nothing is wrong with either.
pub fn draw_alike(
    alloc: Global,
    words: &[&str],
    input: &[u8],
    other_words: &[&str],
    other_input: &[u8],
) -> bool {
    let other = ran(alloc, other_words, other_input);
    other.status == 0 && ran(alloc, words, input).has_written(&other.label)
}

/// Whether a run has no label, and reports exactly this line.
pub fn reports(alloc: Global, words: &[&str], input: &[u8], line: &str) -> bool {
    ran(alloc, words, input).has_reported(1, line)
}
