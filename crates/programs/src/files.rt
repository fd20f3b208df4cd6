//! Files that are written whole: a file gets its new content when this is complete.
//!
//! The content is written to a part, a file of its own in the same folder, which then gets the
//! name. No contract can say which file has a name, so tests look at real files (`file_tests`).
ghost use Rattle.std.specs.Prelude.{◌≡◌, IfOk};
ghost use Rattle.std.specs.Path.{path_buf_bytes, path_with_file_name};
ghost use Rattle.programs.specs.Parts.{part_name};

use std::alloc::{AllocError, Global};
use std::fs::{File, Metadata, Permissions};
use std::io::{ErrorKind, Seek, Write};
use std::os::unix::fs::{MetadataExt, OpenOptionsExt, PermissionsExt, fchown};
use std::path::PathBuf;
use std::{fs, io, process};

/// How many names of a part are tried.
const MAX_TRIES: u32 = 100;

/// The number of links, one after the other, that the system follows too.
const MAX_LINKS: u32 = 40;

/// A file that is written whole. It has to be finished or discarded.
pub struct WholeFile<'a> {
    rt: &'a HostRuntime,
    file: File,
    place: Place,
}

/// Where the content is written.
#[derive(Drop)]
enum Place {
    /// To a part, which then gets the name.
    Part { part: PathBuf, name: PathBuf },
    /// Over what the file has.
    File,
    /// To what is not a regular file.
    Device,
}

impl<'a> WholeFile<'a> {
    /// Begins to write the file of this name. If the name is a symbolic link, that is the file
    /// which it leads to, and which need not be there yet.
    ///
    /// The part is `PROGRAM-PROCESS-N.part` in the folder of the file, and is new. If it replaces a
    /// file, it has its owner, its group and its permissions, as far as the system allows that.
    /// A file that has other names (hard links), or whose folder takes no part, is written in place.
    /// What is not a regular file, such as a device or a pipe, is written as it is, and so is an
    /// open file by a name of its descriptor, such as `/dev/fd/3`, from its end on.
    ///
    /// It fails with the reason that the system gives, as where a file is read-only, with
    /// `AlreadyExists` after 100 names for the part, and with `OutOfMemory`.
    pub fn create(
        rt: &'a HostRuntime,
        path: &str,
        program: &str,
    ) -> Result<WholeFile<'a>, ErrorKind> {
        create(rt, path, program).map_err(|error| error.kind())
    }

    /// Returns the file to write to, from its start on.
    pub fn file(&self) -> &File {
        &self.file
    }

    /// Gives the file its new content, once the system has stored it, and waits until the system has
    /// stored the name too, where it can. It fails with the reason that the system gives. Then the
    /// file has the content that it had, unless it was written in place. No part is left.
    pub fn finish(self) -> Result<(), ErrorKind> {
        if let Place::Part { .. } = &self.place
            && let Err(error) = self.file.sync_all()
        {
            self.discard();
            return Err(error.kind());
        }
        let folder = match self.folder() {
            Ok(folder) => folder,
            Err(kind) => {
                self.discard();
                return Err(kind);
            }
        };
        let ended = self.end();
        if let Some(folder) = folder {
            let _ = folder.sync_all();
        }
        ended
    }

    /// Opens the folder in which a part gets its name, if it can be read. It fails only for lack of
    /// memory.
    fn folder(&self) -> Result<Option<File>, ErrorKind> {
        let Place::Part { name, .. } = &self.place else {
            return Ok(None);
        };
        let Ok(path) = name.with_file_name(self.rt.alloc(), ".") else {
            return Err(ErrorKind::OutOfMemory);
        };
        match File::open(self.rt, &path) {
            Ok(folder) => Ok(Some(folder)),
            Err(error) => match error.kind() {
                ErrorKind::OutOfMemory => Err(ErrorKind::OutOfMemory),
                _ => Ok(None),
            },
        }
    }

    /// Does what `finish` does, but does not wait until the system has stored the content.
    fn end(self) -> Result<(), ErrorKind> {
        let WholeFile { rt, file, place } = self;
        let result = match &place {
            Place::Part { part, name } => rename(rt, part, name),
            Place::File => end_here(&file),
            Place::Device => Ok(()),
        };
        result.map_err(|error| error.kind())
    }

    /// Leaves the file with the content that it had, and removes the part. A file that was written
    /// in place ends after what was written, if something was.
    pub fn discard(self) {
        let WholeFile { rt, file, place } = self;
        match &place {
            Place::Part { part, .. } => {
                let _ = fs::remove_file(rt, part);
            }
            Place::File => end_if_begun(&file),
            Place::Device => {}
        }
    }
}

/// Writes the file of this name whole. It follows links and fails as `WholeFile` does, and with the
/// reason of a write that failed. It does not wait until the system has stored the content, since it
/// is for many files.
pub fn put_file(
    rt: &HostRuntime,
    path: &str,
    program: &str,
    content: &[u8],
) -> Result<(), ErrorKind> {
    let whole = WholeFile::create(rt, path, program)?;
    match fill(whole.file(), content) {
        Ok(()) => whole.end(),
        Err(error) => {
            whole.discard();
            Err(error.kind())
        }
    }
}

/// Writes all of the content.
fn fill(file: &File, content: &[u8]) -> io::Result<()> {
    let mut writer = file;
    writer.write_all(content)
}

/// Begins to write a device or what is open already as it is, and a file or a new file whole.
fn create<'a>(rt: &'a HostRuntime, path: &str, program: &str) -> io::Result<WholeFile<'a>> {
    if is_descriptor(path) {
        let file = File::options().append(true).open(rt, path)?;
        let place = Place::Device;
        return Ok(WholeFile { rt, file, place });
    }
    let (file, place) = match fs::metadata(rt, path) {
        Ok(found) if found.is_file() => begin_replacing(rt, path, program, &found)?,
        Ok(_) => (open(rt, path)?, Place::Device),
        Err(error) if error.kind() == ErrorKind::NotFound => {
            let name = end_of_links(rt, path)?;
            let (file, part) = create_part(rt, &name, program, 0o666)?;
            (file, Place::Part { part, name })
        }
        Err(error) => return Err(error),
    };
    Ok(WholeFile { rt, file, place })
}

/// Whether a name is that of a descriptor, by which the system opens what it is open on.
fn is_descriptor(path: &str) -> bool {
    matches!(path, "/dev/stdin" | "/dev/stdout" | "/dev/stderr")
        || path.starts_with("/dev/fd/")
        || path.starts_with("/proc/self/fd/")
}

/// Begins to write a file that is there and can be written: to a part, or in place where it has
/// other names, or there can be no part.
fn begin_replacing(
    rt: &HostRuntime,
    path: &str,
    program: &str,
    old: &Metadata,
) -> io::Result<(File, Place)> {
    let file = open(rt, path)?;
    if old.nlink() > 1 {
        return Ok((file, Place::File));
    }
    match create_part_like(rt, path, program, old) {
        Ok(begun) => Ok(begun),
        Err(error) if is_final(error.kind()) => Err(error),
        Err(_) => Ok((file, Place::File)),
    }
}

/// Whether a fault of a part says nothing of the folder, or that a file can't grow, either.
fn is_final(kind: ErrorKind) -> bool {
    matches!(
        kind,
        ErrorKind::AlreadyExists
            | ErrorKind::OutOfMemory
            | ErrorKind::StorageFull
            | ErrorKind::QuotaExceeded
    )
}

/// Opens what is there for writing, and keeps what it has.
fn open(rt: &HostRuntime, path: &str) -> io::Result<File> {
    File::options().write(true).open(rt, path)
}

/// Returns the name that a path leads to through links: of a file, or of nothing yet.
fn end_of_links(rt: &HostRuntime, path: &str) -> io::Result<PathBuf> {
    let mut name = PathBuf::from_str(rt.alloc(), path)?;
    for _ in 0..=MAX_LINKS {
        match fs::read_link(rt, &name) {
            Ok(next) => {
                name.pop();
                name.push(next)?;
            }
            Err(error) if is_no_link(error.kind()) => return Ok(name),
            Err(error) => return Err(error),
        }
    }
    Err(io::Error::from(ErrorKind::FilesystemLoop))
}

/// Whether what is read as a link is none, or is not there.
fn is_no_link(kind: ErrorKind) -> bool {
    matches!(kind, ErrorKind::InvalidInput | ErrorKind::NotFound)
}

/// Creates a part to replace a file, with its owner, its group and its permissions.
fn create_part_like(
    rt: &HostRuntime,
    path: &str,
    program: &str,
    old: &Metadata,
) -> io::Result<(File, Place)> {
    let name = end_of_links(rt, path)?;
    let found = fs::symlink_metadata(rt, &name)?;
    // The links of /proc can have the name of a file that is there no more.
    if (found.dev(), found.ino()) != (old.dev(), old.ino()) {
        return Err(io::Error::from(ErrorKind::NotFound));
    }
    let (file, part) = create_part(rt, &name, program, 0o600)?;
    match make_like(&file, old) {
        Ok(()) => Ok((file, Place::Part { part, name })),
        Err(error) => {
            let _ = fs::remove_file(rt, &part);
            Err(error)
        }
    }
}

/// Gives a file the owner, the group and the permissions of another. If the group is not allowed,
/// the group that the file has gets what everyone may do.
fn make_like(file: &File, old: &Metadata) -> io::Result<()> {
    let _ = fchown(file, Some(old.uid()), None);
    let everyone = old.mode() & 0o7;
    let group = match fchown(file, None, Some(old.gid())) {
        Ok(()) => old.mode() & 0o70,
        Err(_) => everyone * 8,
    };
    file.set_permissions(Permissions::from_mode(old.mode() & 0o700 | group | everyone))
}

/// Creates a part in the folder of a name, under the first name that is free.
fn create_part(
    rt: &HostRuntime,
    name: &PathBuf,
    program: &str,
    mode: u32,
) -> io::Result<(File, PathBuf)> {
    let mut options = File::options();
    options.write(true).create_new(true).mode(mode);
    for n in 1..=MAX_TRIES {
        let part = part_path(rt.alloc(), name, program, process::id(rt.process()), n)?;
        match options.open(rt, &part) {
            Ok(file) => return Ok((file, part)),
            Err(error) if error.kind() == ErrorKind::AlreadyExists => {}
            Err(error) => return Err(error),
        }
    }
    Err(io::Error::from(ErrorKind::AlreadyExists))
}

/// Returns the path of a part in the folder of a name.
fn part_path(
    alloc: Global,
    name: &PathBuf,
    program: &str,
    process: u32,
    n: u32,
) -> Result<PathBuf, AllocError>
    ensures { IfOk result (λ part. path_buf_bytes part
        ≡ path_with_file_name (path_buf_bytes name.now) (part_name program.now process n)) }
{
    let part = format!(in alloc; "{program}-{process}-{n}.part")?;
    name.with_file_name(alloc, part.as_str())
}

/// Gives a part the name. Where the system does not allow that, as for a file of its own mount, the
/// file gets the content of the part in place. The part is not there afterwards.
fn rename(rt: &HostRuntime, part: &PathBuf, name: &PathBuf) -> io::Result<()> {
    match fs::rename(rt, part, name) {
        Ok(()) => Ok(()),
        Err(error) => {
            let copied = copy_over(rt, part, name.as_str());
            let _ = fs::remove_file(rt, part);
            copied.map_err(|_| error)
        }
    }
}

/// Writes the content of a part over that of a file.
fn copy_over(rt: &HostRuntime, part: &PathBuf, name: &str) -> io::Result<()> {
    let mut content = File::open(rt, part)?;
    let mut file = open(rt, name)?;
    io::copy(&mut content, &mut file)?;
    end_here(&file)
}

/// Cuts a file off after what was written.
fn end_here(file: &File) -> io::Result<()> {
    let mut at = file;
    let end = at.stream_position()?;
    file.set_len(end)
}

/// Cuts a file off after what was written, if something was.
fn end_if_begun(file: &File) {
    let mut at = file;
    if let Ok(end) = at.stream_position()
        && end > 0
    {
        let _ = file.set_len(end);
    }
}
