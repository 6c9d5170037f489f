//! Putting the result in the place of the file that was read.
use crate::fault::Fault;
use crate::filled::write_printed;
use crate::job::Job;
use program_text::failure::Failure;
use std::fs::{File, Metadata, OpenOptions};
use std::os::unix::fs::{MetadataExt, OpenOptionsExt, fchown};
use std::{fs, io};

/// The new files of one file have at most this many names.
const NAME_COUNT: u32 = 100;

/// Does the job for each of these files, in order, and puts the result in its place. With a suffix, the old file stays
/// under its name with the suffix. A file for which that fails is as it was, and is named on standard error, and the
/// next one is read. Returns whether there was such a file.
pub fn replace_files(
    rt: &HostRuntime,
    job: &mut Job<'_>,
    names: &[&str],
    suffix: Option<&str>,
) -> bool {
    let mut failed = false;
    for name in names {
        if let Err(fault) = replace_named(rt, job, name, suffix) {
            failed = true;
            // The status says so even if the line cannot be written.
            let _ = eprintln!(rt; "replacer: {name}: {fault}");
        }
    }
    failed
}

/// Replaces the file of this name, or the one to which a symbolic link of this name leads.
fn replace_named(
    rt: &HostRuntime,
    job: &mut Job<'_>,
    name: &str,
    suffix: Option<&str>,
) -> Result<(), Fault> {
    if read(fs::symlink_metadata(rt, name))?.is_symlink() {
        let target = read(fs::canonicalize(rt, name))?.into_string();
        return replace_file(rt, job, target.as_str(), suffix);
    }
    replace_file(rt, job, name, suffix)
}

/// Replaces the file of this name. If that fails, the new file is removed.
fn replace_file(
    rt: &HostRuntime,
    job: &mut Job<'_>,
    name: &str,
    suffix: Option<&str>,
) -> Result<(), Fault> {
    if !read(fs::metadata(rt, name))?.is_file() {
        return Err(Fault::NotRegular);
    }
    let old = read(fs::open(rt, name))?;
    let (new_name, new) = create_beside(rt, name)?;
    let new_name = new_name.as_str();
    let replaced = match write_new(rt, job, old, new) {
        Ok(()) => take_place(rt, name, new_name, suffix),
        Err(fault) => Err(fault),
    };
    if replaced.is_err() {
        // The fault says why the file was not replaced.
        let _ = fs::remove_file(rt, new_name);
    }
    replaced
}

/// Makes a new file in the folder of this one. Returns its name, too.
fn create_beside(rt: &HostRuntime, name: &str) -> Result<(String, File), Fault> {
    for number in 0..NAME_COUNT {
        let new_name = format!(in rt.alloc(); "{name}.replacer-{number}")?;
        match create_new(rt, new_name.as_str()) {
            Ok(file) => return Ok((new_name, file)),
            Err(error) if error.kind() == io::ErrorKind::AlreadyExists => {}
            Err(error) => return Err(Fault::New(error)),
        }
    }
    Err(Fault::Taken)
}

/// Makes a file that is not there yet, and which only its owner may read until it has its permissions.
fn create_new(rt: &HostRuntime, name: &str) -> io::Result<File> {
    let mut options = OpenOptions::new();
    options.write(true).create_new(true).mode(0o600);
    options.open(rt, name)
}

/// Writes the result for the old file to the new one, gives it owner and permissions, and closes both.
fn write_new(rt: &HostRuntime, job: &mut Job<'_>, old: File, new: File) -> Result<(), Fault> {
    let access = read(old.metadata())?;
    let new = write_printed(rt.alloc(), job, old, new)?;
    if let Err(error) = keep_access(&new, &access) {
        return Err(Fault::Access(error));
    }
    // Closing a file hides a failure to write it.
    match new.sync_all() {
        Ok(()) => Ok(()),
        Err(error) => Err(Fault::New(error)),
    }
}

/// Gives the file this owner and group, if it has others, and these permissions.
fn keep_access(file: &File, access: &Metadata) -> io::Result<()> {
    let made = file.metadata()?;
    if made.uid() != access.uid() || made.gid() != access.gid() {
        fchown(file, Some(access.uid()), Some(access.gid()))?;
    }
    file.set_permissions(access.permissions())
}

/// Renames the new file to the name of the old one, which first gets another name if there is a suffix.
fn take_place(
    rt: &HostRuntime,
    name: &str,
    new_name: &str,
    suffix: Option<&str>,
) -> Result<(), Fault> {
    let Some(suffix) = suffix else {
        return rename(rt, new_name, name);
    };
    let kept_name = format!(in rt.alloc(); "{name}{suffix}")?;
    if let Err(error) = fs::hard_link(rt, name, kept_name.as_str()) {
        return Err(Fault::Old(error));
    }
    let renamed = rename(rt, new_name, name);
    if renamed.is_err() {
        // The old file still has its own name.
        let _ = fs::remove_file(rt, kept_name.as_str());
    }
    renamed
}

fn rename(rt: &HostRuntime, from: &str, to: &str) -> Result<(), Fault> {
    match fs::rename(rt, from, to) {
        Ok(()) => Ok(()),
        Err(error) => Err(Fault::Rename(error)),
    }
}

/// An error of the system is one of reading.
fn read<T: Drop>(found: io::Result<T>) -> Result<T, Fault> {
    match found {
        Ok(found) => Ok(found),
        Err(error) => Err(Fault::Text(Failure::Read(error))),
    }
}
