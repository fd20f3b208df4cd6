//! Tests of `programs`: files that are written whole. Each makes a folder, and removes it if it
//! passes.
use programs::{WholeFile, put_file};
use std::io::{ErrorKind, Write};
use std::os::unix::fs::{MetadataExt, PermissionsExt, symlink};
use std::path::PathBuf;
use std::process::id;
use std::test::Fail;
use std::{env, fs, io};

/// Makes a new folder and a folder `folder` in it, and goes to the first. It returns its path.
fn go_to_new_folder(rt: &HostRuntime, test: &str) -> io::Result<PathBuf> {
    let name = format!(in rt.alloc(); "programs-{}-{test}", id(rt.process()))?;
    let path = env::temp_dir(rt)?.join(rt.alloc(), name.as_str())?;
    fs::create_dir(rt, &path)?;
    env::set_current_dir(rt, &path)?;
    fs::create_dir(rt, "folder")?;
    Ok(path)
}

/// Whether a file has this content.
fn has(rt: &HostRuntime, path: &str, content: &[u8]) -> bool {
    match fs::read(rt, path) {
        Ok(bytes) => bytes.as_slice() == content,
        Err(_) => false,
    }
}

/// The permissions of a file.
fn mode(rt: &HostRuntime, path: &str) -> Option<u32> {
    Some(fs::metadata(rt, path).ok()?.mode() & 0o777)
}

/// How many files there are in a folder.
fn count(rt: &HostRuntime, folder: &str) -> usize {
    match fs::read_dir(rt, folder) {
        Ok(files) => files.count(),
        Err(_) => 0,
    }
}

/// Writes to a file, and then discards it.
fn write_and_discard(rt: &HostRuntime, path: &str, program: &str) -> Result<(), ErrorKind> {
    let whole = WholeFile::create(rt, path, program)?;
    let mut file = whole.file();
    let written = file.write_all(b"half");
    whole.discard();
    written.map_err(|error| error.kind())
}

#[test]
fn replaces_a_file(rt: HostRuntime) -> Result<(), Fail> {
    let path = go_to_new_folder(&rt, "replaces_a_file")?;
    assert_eq!(rt; put_file(&rt, "folder/new.txt", "drawer", b"first"), Ok(()));
    assert!(rt; has(&rt, "folder/new.txt", b"first"));
    for bits in [0o600, 0o644, 0o755, 0o640] {
        fs::set_permissions(&rt, "folder/new.txt", fs::Permissions::from_mode(bits))?;
        assert_eq!(rt; put_file(&rt, "folder/new.txt", "drawer", b"next"), Ok(()));
        assert_eq!(rt; mode(&rt, "folder/new.txt"), Some(bits));
    }
    assert!(rt; has(&rt, "folder/new.txt", b"next"));
    assert_eq!(rt; count(&rt, "folder"), 1);
    fs::remove_dir_all(&rt, &path)?;
    Ok(())
}

#[test]
fn follows_links(rt: HostRuntime) -> Result<(), Fail> {
    let path = go_to_new_folder(&rt, "follows_links")?;
    fs::write(&rt, "folder/old.txt", "old")?;
    symlink(&rt, "old.txt", "folder/first")?;
    symlink(&rt, "folder/first", "second")?;
    symlink(&rt, "folder/none.txt", "third")?;
    for (link, file) in [("second", "folder/old.txt"), ("third", "folder/none.txt")] {
        assert_eq!(rt; put_file(&rt, link, "drawer", b"new"), Ok(()));
        assert!(rt; has(&rt, file, b"new"));
        assert!(rt; fs::symlink_metadata(&rt, link)?.is_symlink());
    }
    assert_eq!(rt; count(&rt, "folder"), 3);
    fs::remove_dir_all(&rt, &path)?;
    Ok(())
}

#[test]
fn follows_no_link_of_a_part(rt: HostRuntime) -> Result<(), Fail> {
    let path = go_to_new_folder(&rt, "follows_no_link_of_a_part")?;
    let part = format!(in rt.alloc(); "folder/drawer-{}-1.part", id(rt.process()))?;
    fs::write(&rt, "folder/victim", "kept")?;
    symlink(&rt, "victim", part.as_str())?;
    assert_eq!(rt; put_file(&rt, "folder/file", "drawer", b"new"), Ok(()));
    assert!(rt; has(&rt, "folder/victim", b"kept"));
    assert!(rt; has(&rt, "folder/file", b"new"));
    assert_eq!(rt; count(&rt, "folder"), 3);
    fs::remove_dir_all(&rt, &path)?;
    Ok(())
}

#[test]
fn writes_in_place(rt: HostRuntime) -> Result<(), Fail> {
    let path = go_to_new_folder(&rt, "writes_in_place")?;
    // No part can have a name as long as this, so the folder takes none.
    let program = "p".repeat(rt.alloc(), 255)?;
    fs::write(&rt, "folder/file", "longer")?;
    let inode = fs::metadata(&rt, "folder/file")?.ino();
    assert_eq!(rt;
        put_file(&rt, "folder/file", program.as_str(), b"new"),
        Ok(())
    );
    assert!(rt; has(&rt, "folder/file", b"new"));
    assert_eq!(rt; fs::metadata(&rt, "folder/file")?.ino(), inode);
    let refused = put_file(&rt, "folder/none", program.as_str(), b"new");
    assert_eq!(rt; refused, Err(ErrorKind::InvalidFilename));
    assert_eq!(rt; count(&rt, "folder"), 1);
    fs::remove_dir_all(&rt, &path)?;
    Ok(())
}

#[test]
fn keeps_a_file_after_a_fault(rt: HostRuntime) -> Result<(), Fail> {
    let path = go_to_new_folder(&rt, "keeps_a_file_after_a_fault")?;
    fs::write(&rt, "folder/file", "old")?;
    assert_eq!(rt; write_and_discard(&rt, "folder/file", "drawer"), Ok(()));
    assert!(rt; has(&rt, "folder/file", b"old"));
    assert_eq!(rt; write_and_discard(&rt, "folder/none", "drawer"), Ok(()));
    assert_eq!(rt; count(&rt, "folder"), 1);
    fs::remove_dir_all(&rt, &path)?;
    Ok(())
}

#[test]
fn gives_the_reason(rt: HostRuntime) -> Result<(), Fail> {
    let path = go_to_new_folder(&rt, "gives_the_reason")?;
    fs::write(&rt, "file", "old")?;
    symlink(&rt, "loop", "loop")?;
    let long = "n".repeat(rt.alloc(), 255)?;
    assert_eq!(rt; put_file(&rt, long.as_str(), "drawer", b"new"), Ok(()));
    let longer = "n".repeat(rt.alloc(), 256)?;
    for (path, kind) in [
        ("folder", ErrorKind::IsADirectory),
        ("none/file", ErrorKind::NotFound),
        ("file/file", ErrorKind::NotADirectory),
        ("loop", ErrorKind::FilesystemLoop),
        (longer.as_str(), ErrorKind::InvalidFilename),
    ] {
        assert_eq!(rt; put_file(&rt, path, "drawer", b"new"), Err(kind));
    }
    assert_eq!(rt;
        put_file(&rt, "/dev/full", "drawer", b"new"),
        Err(ErrorKind::StorageFull)
    );
    assert_eq!(rt; put_file(&rt, "/dev/null", "drawer", b"new"), Ok(()));
    fs::remove_dir_all(&rt, &path)?;
    Ok(())
}

#[test]
fn two_at_a_time_do_not_mix(rt: HostRuntime) -> Result<(), Fail> {
    let path = go_to_new_folder(&rt, "two_at_a_time_do_not_mix")?;
    assert_eq!(rt; two_at_a_time(&rt), Ok(()));
    assert!(rt; has(&rt, "folder/file", b"longer one"));
    assert_eq!(rt; count(&rt, "folder"), 1);
    fs::remove_dir_all(&rt, &path)?;
    Ok(())
}

/// Begins a file twice, and writes to both by turns.
fn two_at_a_time(rt: &HostRuntime) -> Result<(), ErrorKind> {
    let one = WholeFile::create(rt, "folder/file", "drawer")?;
    match WholeFile::create(rt, "folder/file", "drawer") {
        Ok(other) => {
            let (mut first, mut second) = (one.file(), other.file());
            let wrote = first.write_all(b"longer").is_ok()
                && second.write_all(b"short").is_ok()
                && first.write_all(b" one").is_ok();
            let finished = other.finish().and(one.finish());
            if wrote {
                finished
            } else {
                Err(ErrorKind::Other)
            }
        }
        Err(kind) => {
            one.discard();
            Err(kind)
        }
    }
}
