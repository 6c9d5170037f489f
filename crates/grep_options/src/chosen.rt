//! Which of the files that arguments name, and of those in folders, are searched.
use crate::command::Arguments;
use crate::options::{Devices, Folders};
use crate::rules::is_left_out;
use crate::walk::{Kind, is_loop, kind_of};
use std::alloc::AllocError;
use std::io;

/// What is done with a path in a folder.
#[derive(Clone, Copy)]
pub enum Step {
    /// The file is searched.
    Search,
    /// The paths in the folder are next.
    Enter,
    /// It is passed over.
    Pass,
    /// It is a link to a folder in which it is.
    Loop,
}

/// Returns whether the file or the folder that this argument names is passed over. Standard input never is, and neither
/// is the folder in which the program runs, if it is searched because no argument names another one.
pub fn is_passed(
    rt: &HostRuntime,
    arguments: &Arguments<'_>,
    name: &str,
) -> Result<bool, AllocError> {
    if name == "-" || arguments.files.is_empty() {
        return Ok(false);
    }
    match kind_of(rt, name, true) {
        Ok(Kind::Folder) if arguments.folders == Folders::Skip => Ok(true),
        Ok(Kind::Folder) => is_left_out(rt.alloc(), &arguments.folder_rules, true, name),
        Ok(Kind::Device) if arguments.devices == Devices::Skip => Ok(true),
        Ok(_) => is_left_out(rt.alloc(), &arguments.file_rules, true, name),
        // The search says why it cannot be read.
        Err(_) => Ok(false),
    }
}

/// Returns what is done with a path in a folder. The search began at `top`.
pub fn step_of(
    rt: &HostRuntime,
    arguments: &Arguments<'_>,
    top: &str,
    path: &str,
) -> io::Result<Step> {
    match kind_of(rt, path, arguments.links) {
        Ok(Kind::Folder) => step_of_folder(rt, arguments, top, path),
        Ok(Kind::Link) => Ok(Step::Pass),
        Ok(Kind::Device) if arguments.devices != Devices::Read => Ok(Step::Pass),
        Ok(_) => step_of_file(rt, arguments, path),
        Err(error) => match step_of_file(rt, arguments, path)? {
            Step::Pass => Ok(Step::Pass),
            _ => Err(error),
        },
    }
}

/// Returns what is done with a folder.
fn step_of_folder(
    rt: &HostRuntime,
    arguments: &Arguments<'_>,
    top: &str,
    path: &str,
) -> io::Result<Step> {
    if is_left_out(rt.alloc(), &arguments.folder_rules, false, name_in(path))? {
        Ok(Step::Pass)
    } else if arguments.links && is_loop(rt, top, path) {
        Ok(Step::Loop)
    } else {
        Ok(Step::Enter)
    }
}

/// Returns what is done with a file.
fn step_of_file(rt: &HostRuntime, arguments: &Arguments<'_>, path: &str) -> io::Result<Step> {
    if is_left_out(rt.alloc(), &arguments.file_rules, false, name_in(path))? {
        Ok(Step::Pass)
    } else {
        Ok(Step::Search)
    }
}

/// Returns the name that ends a path.
pub fn name_in(path: &str) -> &str {
    match path.rsplit_once('/') {
        Some((_, name)) => name,
        None => path,
    }
}
