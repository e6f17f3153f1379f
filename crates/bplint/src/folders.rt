//! Lists folders, and shows the names of their entries in lines. A name can have characters that a line may not show,
//! or bytes that are not UTF-8; these are shown as `\xHH` or `\UHHHH`, so that each name fits on one line.

use crate::input::read_whole;
use crate::input_fault::InputFault;
use bplint_lines::is_unshown;
use std::alloc::{AllocError, Global};
use std::fs::{self, Files};

/// The type of a folder's entry.
#[derive(Clone, Copy, Drop)]
pub enum Entry {
    /// A folder.
    Folder,
    /// A regular file.
    File,
    /// A link, a pipe, a socket or a device.
    Other,
}

/// A file system whose folders are walked over.
pub trait Folders {
    /// Returns true if the name leads to a folder, directly or through a link.
    fn is_folder(&self, name: &str) -> bool;

    /// Returns the type of what is at a path. Does not follow a link.
    fn entry_at(&self, path: &str) -> Result<Entry, InputFault>;

    /// Returns the paths of all entries of a folder, sorted by the bytes of their names, the last name first. They need
    /// not be UTF-8. Follows a link to a folder.
    fn paths_in(&self, alloc: Global, folder: &str) -> Result<Vec<Vec<u8>>, InputFault>;
}

impl Folders for HostRuntime {
    fn is_folder(&self, name: &str) -> bool {
        fs::metadata(self, name).is_ok_and(|metadata| metadata.is_dir())
    }

    fn entry_at(&self, path: &str) -> Result<Entry, InputFault> {
        match fs::symlink_metadata(self, path) {
            Ok(metadata) if metadata.is_dir() => Ok(Entry::Folder),
            Ok(metadata) if metadata.is_file() => Ok(Entry::File),
            Ok(_) => Ok(Entry::Other),
            Err(error) => Err(InputFault::Open(error.kind())),
        }
    }

    fn paths_in(&self, alloc: Global, folder: &str) -> Result<Vec<Vec<u8>>, InputFault> {
        let front = with_slash(alloc, folder)?;
        let mut dir = self
            .open_dir(&front)
            .map_err(|error| InputFault::Open(error.kind()))?;
        let names = read_whole(alloc, &mut dir)?;
        let mut paths = joined_all(alloc, &front, &names)?;
        paths.sort_unstable();
        paths.reverse();
        Ok(paths)
    }
}

/// A zero byte ends each name. `.` and `..` are left out.
fn joined_all(alloc: Global, front: &str, names: &[u8]) -> Result<Vec<Vec<u8>>, AllocError> {
    let mut paths = Vec::new(alloc);
    for name in names.split(|octet| *octet == 0) {
        match name {
            b"" | b"." | b".." => {}
            _ => paths.push(joined(alloc, front, name)?)?,
        }
    }
    Ok(paths)
}

fn with_slash(alloc: Global, folder: &str) -> Result<String, AllocError> {
    let mut front = String::from_str(alloc, folder)?;
    if !folder.ends_with('/') {
        front.push('/')?;
    }
    Ok(front)
}

fn joined(alloc: Global, front: &str, name: &[u8]) -> Result<Vec<u8>, AllocError> {
    let mut path = Vec::new(alloc);
    path.extend_from_slice(front.as_bytes())?;
    path.extend_from_slice(name)?;
    Ok(path)
}

/// Returns a name in which `\xHH` replaces each control character, and `\UHHHH` each other character that a line may
/// not show, so that it fits on one line and is displayed in its order.
pub fn shown_name(alloc: Global, name: &str) -> Result<String, AllocError> {
    let mut shown = String::new(alloc);
    for c in name.chars() {
        match u16::try_from(c as u32) {
            Ok(unit) if c.is_control() => write!(shown, "\\x{unit:02x}")?,
            Ok(unit) if is_unshown(unit) => write!(shown, "\\U{unit:04x}")?,
            _ => shown.push(c)?,
        }
    }
    Ok(shown)
}

/// Returns a name that is not UTF-8, in which `\xHH` replaces each byte that is not printable ASCII.
pub fn shown_octets(alloc: Global, name: &[u8]) -> Result<String, AllocError> {
    let mut shown = String::new(alloc);
    for octet in name {
        if 0x20 <= *octet && *octet < 0x7f {
            shown.push(*octet as char)?;
        } else {
            write!(shown, "\\x{octet:02x}")?;
        }
    }
    Ok(shown)
}
