//! Files that are written whole or not at all: each is made under a temporary name, and renamed.
use edit_sums::Content;
use std::fs::{self, File, OpenFile};
use std::io::{self, ErrorKind, Write};
use std::os::unix::fs::symlink;
use std::rt::Files;

/// Removes a file or a link, if it is there.
pub(crate) fn remove(rt: &impl Files, name: &str) -> io::Result<()> {
    match fs::remove_file(rt, name) {
        Ok(()) => Ok(()),
        Err(error) => match error.kind() {
            ErrorKind::NotFound => Ok(()),
            _ => Err(error),
        },
    }
}

// Makes a file with these bytes, which are on the disk when it returns.
fn make_file<R: Files>(rt: &R, name: &str, bytes: &[u8]) -> io::Result<()>
where
    R::File: Drop,
{
    let mut file = File::create_new(rt, name)?;
    file.write_all(bytes)?;
    file.sync_all()
}

/// Puts a file with these bytes at a name.
pub(crate) fn put_bytes<R: Files>(
    rt: &R,
    temporary: &str,
    name: &str,
    bytes: &[u8],
) -> io::Result<()>
where
    R::File: Drop,
{
    remove(rt, temporary)?;
    make_file(rt, temporary, bytes)?;
    fs::rename(rt, temporary, name)
}

// Puts a link at a name.
fn put_link(rt: &impl Files, temporary: &str, name: &str, target: &[u8]) -> io::Result<()> {
    let Ok(target) = str::from_utf8(target) else {
        return Err(ErrorKind::InvalidData.into());
    };
    remove(rt, temporary)?;
    symlink(rt, target, temporary)?;
    fs::rename(rt, temporary, name)
}

/// Puts a content at a name: a file, a link, or nothing.
pub(crate) fn put<R: Files>(
    rt: &R,
    temporary: &str,
    name: &str,
    content: &Content,
) -> io::Result<()>
where
    R::File: Drop,
{
    match content {
        Content::Gone => remove(rt, name),
        Content::Link(target) => put_link(rt, temporary, name, target.bytes()),
        Content::File(file) => put_bytes(rt, temporary, name, file.bytes()),
    }
}

/// Makes a folder, unless it is there. What stands there has to be a folder, and no link to one: so nothing is ever written
/// outside.
pub(crate) fn make_folder(rt: &impl Files, name: &str) -> io::Result<()> {
    match fs::create_dir(rt, name) {
        Ok(()) => Ok(()),
        Err(error) => match error.kind() {
            ErrorKind::AlreadyExists if fs::symlink_metadata(rt, name)?.is_dir() => Ok(()),
            _ => Err(error),
        },
    }
}
