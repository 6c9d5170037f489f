//! The paths in folders.
use crate::marked::marked;
use crate::output::{FileId, id_of};
use std::alloc::{AllocError, Global};
use std::fs::Files;
use std::io::Read;
use std::{fs, io};

/// So many bytes of names are read at once. There is room for each name.
const HELD: usize = 4096;

/// What is at a path.
#[derive(Clone, Copy)]
pub enum Kind {
    Folder,
    File,
    Link,
    /// A device, a pipe or a socket.
    Device,
}

/// Returns whether the path is that of a folder, or of a link to one.
pub fn is_folder(rt: &HostRuntime, path: &str) -> bool {
    matches!(kind_of(rt, path, true), Ok(Kind::Folder))
}

/// Returns what is at the path, or if links are followed, at the end of the link there.
pub fn kind_of(rt: &HostRuntime, path: &str, follow: bool) -> io::Result<Kind> {
    let metadata = if follow {
        fs::metadata(rt, path)?
    } else {
        fs::symlink_metadata(rt, path)?
    };
    if metadata.is_dir() {
        Ok(Kind::Folder)
    } else if metadata.is_file() {
        Ok(Kind::File)
    } else if metadata.is_symlink() {
        Ok(Kind::Link)
    } else {
        Ok(Kind::Device)
    }
}

/// Returns whether the folder at the path is one of those on the way to it from `top`, which a link led back to.
pub fn is_loop(rt: &HostRuntime, top: &str, path: &str) -> bool {
    let Some(own) = folder_id(rt, path) else {
        return false;
    };
    let least = top.trim_end_matches('/').len();
    let mut inner = path;
    for _ in 0..path.len() {
        match inner.rsplit_once('/') {
            Some((outer, _)) if outer.len() >= least => {
                if folder_id(rt, outer) == Some(own) {
                    return true;
                }
                inner = outer;
            }
            _ => return false,
        }
    }
    false
}

/// Returns which folder of the system is at the path.
fn folder_id(rt: &HostRuntime, path: &str) -> Option<FileId> {
    match fs::metadata(rt, path) {
        Ok(metadata) => Some(id_of(&metadata)),
        Err(_) => None,
    }
}

/// Pushes the paths in the folder, so that they are popped in the order of names. One that is not UTF-8 is marked.
/// Those that can be read are pushed also if another one cannot, which is the error.
pub fn push_paths(rt: &HostRuntime, folder: &str, stack: &mut Vec<String>) -> io::Result<()> {
    let mut names = Vec::new(rt.alloc());
    let done = read_names(rt, folder, &mut names);
    let mut paths = paths_of(rt.alloc(), folder, &names)?;
    paths.sort()?;
    move_back(&mut paths, stack)?;
    done
}

/// Appends the names in the folder, each with a byte 0 after it.
fn read_names(rt: &HostRuntime, folder: &str, names: &mut Vec<u8>) -> io::Result<()> {
    let mut inside = String::from_str(rt.alloc(), folder)?;
    inside.push('/')?;
    let mut held = rt.open_dir(inside.as_str())?;
    read_all(&mut held, names)
}

/// Appends the names that are read from an open folder.
fn read_all<R: Read>(held: &mut R, names: &mut Vec<u8>) -> io::Result<()> {
    let mut buffer = [0u8; HELD];
    for _ in 0..u64::MAX {
        let len = held.read(&mut buffer)?;
        if len == 0 {
            return Ok(());
        }
        names.extend_from_slice(&buffer[..len])?;
    }
    Ok(())
}

/// Returns the paths of these names in the folder.
fn paths_of(alloc: Global, folder: &str, names: &[u8]) -> Result<Vec<String>, AllocError> {
    let mut paths = Vec::new(alloc);
    for name in names.split(|byte| *byte == 0) {
        if is_inside(name) {
            paths.push(path_of(alloc, folder, name)?)?;
        }
    }
    Ok(paths)
}

/// Returns whether the name is that of something in a folder, and not of the folder or the one above it.
fn is_inside(name: &[u8]) -> bool {
    !matches!(name, [] | [b'.'] | [b'.', b'.'])
}

/// Returns the path of this name in the folder.
fn path_of(alloc: Global, folder: &str, name: &[u8]) -> Result<String, AllocError> {
    let mut path = String::from_str(alloc, folder)?;
    if !folder.ends_with('/') {
        path.push('/')?;
    }
    path.push_str(marked(alloc, name)?.as_str())?;
    Ok(path)
}

/// Moves all paths onto the stack, the last one first.
fn move_back(paths: &mut Vec<String>, stack: &mut Vec<String>) -> Result<(), AllocError> {
    for _ in 0..paths.len() {
        if let Some(path) = paths.pop() {
            stack.push(path)?;
        }
    }
    Ok(())
}
