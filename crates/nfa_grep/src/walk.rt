//! The paths in a folder that are still to be searched.
use grep_options::ignores::Ignores;
use grep_options::walk::push_paths;
use std::alloc::{AllocError, Global};
use std::io;

/// The paths in a folder, and in those in it, that come next, and the rules that leave some out.
#[derive(Drop)]
pub struct Walk<'f> {
    top: &'f str,
    paths: Vec<String>,
    ignores: Option<Ignores>,
}

impl<'f> Walk<'f> {
    /// Returns a walk that begins at this folder, without the paths in it. It minds `.gitignore` files if `ignoring`.
    pub fn new(alloc: Global, top: &'f str, ignoring: bool) -> Walk<'f> {
        Walk {
            top,
            paths: Vec::new(alloc),
            ignores: if ignoring {
                Some(Ignores::new(alloc))
            } else {
                None
            },
        }
    }

    /// Returns the folder where the walk began.
    pub fn top(&self) -> &'f str {
        self.top
    }

    /// Returns the next path.
    pub fn next(&mut self) -> Option<String> {
        self.paths.pop()
    }

    /// Adds the paths in the folder, which come next, in the order of names.
    pub fn push_folder(&mut self, rt: &HostRuntime, folder: &str) -> io::Result<()> {
        push_paths(rt, folder, &mut self.paths)
    }

    /// Adds the rules of the folder.
    pub fn read_rules(&mut self, rt: &HostRuntime, folder: &str) -> io::Result<()> {
        match &mut self.ignores {
            Some(ignores) => ignores.enter(rt, self.top, folder),
            None => Ok(()),
        }
    }

    /// Returns whether the rules leave the path out, which came next.
    pub fn leaves_out(&mut self, rt: &HostRuntime, path: &str) -> Result<bool, AllocError> {
        match &mut self.ignores {
            Some(ignores) => ignores.leaves_out(rt, self.top, path),
            None => Ok(false),
        }
    }
}
