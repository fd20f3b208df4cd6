//! Tests of `programs`: devices that fail, and what is said about it.
use programs::{
    Fault, FromReader, FromWriter, Gathered, ReportingSink, ReportingSource, Sink, read_all,
    reason_text, report_device, write_all, write_line,
};
use std::alloc::AllocError;
use std::io;
use std::io::{ErrorKind, Read, Write};

/// A reader and a writer that fail with a kind, or take nothing.
#[derive(Clone, Copy)]
struct Broken(Option<ErrorKind>);

impl Read for Broken {
    fn read(&mut self, _buf: &mut [u8]) -> io::Result<usize> {
        match self.0 {
            Some(kind) => Err(io::Error::from(kind)),
            None => Ok(0),
        }
    }
}

impl Write for Broken {
    fn write(&mut self, _buf: &[u8]) -> io::Result<usize> {
        match self.0 {
            Some(kind) => Err(io::Error::from(kind)),
            None => Ok(0),
        }
    }

    fn flush(&mut self) -> io::Result<()> {
        Err(io::Error::from(ErrorKind::StorageFull))
    }
}

#[test]
fn keeps_why_a_device_failed(rt: HostRuntime) {
    for kind in [ErrorKind::IsADirectory, ErrorKind::BrokenPipe] {
        let mut reader = FromReader::new(Broken(Some(kind)));
        assert!(rt; matches!(read_all(rt.alloc(), &mut reader), Err(Fault::Read)));
        assert_eq!(rt; reader.reason(), Some(kind));
        let mut writer = FromWriter::new(Broken(Some(kind)));
        assert!(rt; write_all(&mut writer, b"text").is_err());
        assert_eq!(rt; writer.reason(), Some(kind));
    }
}

#[test]
fn keeps_why_nothing_was_written(rt: HostRuntime) {
    let mut reader = FromReader::new(Broken(None));
    assert!(rt; read_all(rt.alloc(), &mut reader).is_ok());
    assert_eq!(rt; reader.reason(), None);
    let mut writer = FromWriter::new(Broken(None));
    assert!(rt; write_all(&mut writer, b"text").is_err());
    assert_eq!(rt; writer.reason(), Some(ErrorKind::WriteZero));
    let mut flushed = FromWriter::new(Broken(None));
    assert!(rt; write_all(&mut flushed, b"").is_err());
    assert_eq!(rt; flushed.reason(), Some(ErrorKind::StorageFull));
}

#[test]
fn has_the_words_of_the_system(rt: HostRuntime) {
    // From strerror of glibc 2.36.
    for (number, words) in [
        (2, "no such file or directory"),
        (13, "permission denied"),
        (17, "file exists"),
        (20, "not a directory"),
        (21, "is a directory"),
        (27, "file too large"),
        (28, "no space left on device"),
        (30, "read-only file system"),
        (36, "file name too long"),
        (40, "too many levels of symbolic links"),
        (122, "disk quota exceeded"),
    ] {
        let kind = io::Error::from_raw_os_error(number).kind();
        assert!(rt; reason_text(kind) == words, "{number}");
    }
}

#[test]
fn reports_a_device(rt: HostRuntime) {
    let mut said = Vec::new(rt.alloc());
    let mut errors = FromWriter::new(&mut said);
    let missing = Some(ErrorKind::NotFound);
    assert_eq!(rt;
        report_device(&mut errors, "drawer", "read", "a.txt", missing),
        1
    );
    let closed = Some(ErrorKind::BrokenPipe);
    if !errors.failed() {
        assert_eq!(rt;
            report_device(&mut errors, "drawer", "write", "b.txt", closed),
            141
        );
    }
    if !errors.failed() {
        assert_eq!(rt;
            report_device(&mut errors, "drawer", "write", "c.txt", None),
            1
        );
    }
    let lines = "drawer: cannot read a.txt: no such file or directory\n\
        drawer: cannot write c.txt: input or output error\n";
    assert!(rt; said.as_slice() == lines.as_bytes());
}

/// A writer that counts the writes and the bytes, of which it takes at most 5000 at a time.
#[derive(Drop)]
struct Counted {
    writes: usize,
    bytes: usize,
}

impl Write for Counted {
    fn write(&mut self, buf: &[u8]) -> io::Result<usize> {
        let taken = buf.len().min(5000);
        self.writes = self.writes.saturating_add(1);
        self.bytes = self.bytes.saturating_add(taken);
        Ok(taken)
    }

    fn flush(&mut self) -> io::Result<()> {
        Ok(())
    }
}

/// How many writes and bytes a line of three pieces of this text takes.
fn written_line(text: &str) -> (usize, usize) {
    let mut counted = Counted {
        writes: 0,
        bytes: 0,
    };
    let mut errors = Gathered::new(FromWriter::new(&mut counted));
    let _ = write_line(&mut errors, "qrlabel", &[text, text, text]);
    (counted.writes, counted.bytes)
}

#[test]
fn a_line_is_one_write(rt: HostRuntime) -> Result<(), AllocError> {
    assert_eq!(rt; written_line("a"), (1, 13));
    let mut text = String::new(rt.alloc());
    for _ in 0..1362 {
        text.push('a')?;
    }
    assert_eq!(rt; written_line(&text), (1, 4096));
    text.push('a')?;
    assert_eq!(rt; written_line(&text), (2, 4099));
    for _ in 0..6 {
        text.push_str("more than is gathered at once")?;
    }
    assert_eq!(rt; written_line(&text).1, 4621);
    Ok(())
}
