//! The rules of the `.gitignore` files in the folders that are searched.
use crate::chosen::name_in;
use crate::ignored::is_ignored;
use crate::ignoring::{IgnoreRule, rule_of_line};
use crate::marked::without_mark;
use crate::rules::has_class;
use crate::walk::{Kind, kind_of};
use std::alloc::{AllocError, Global};
use std::{fs, io};

/// The name of a file with rules.
const FILE: &str = ".gitignore";

/// The name of what git has in a folder for itself.
const OWN: &str = ".git";

/// A line says nothing if it has more bytes than this, as many as the path of a file may have. The time and the stack
/// that a glob takes grow with it.
const LONGEST: usize = 4096;

/// The rules of the folders on the way to a path, those of the folder where the search began first.
#[derive(Drop)]
pub struct Ignores {
    rules: Vec<IgnoreRule>,
}

impl Ignores {
    /// Returns no rules.
    pub fn new(alloc: Global) -> Ignores {
        Ignores {
            rules: Vec::new(alloc),
        }
    }

    /// Adds the rules of the file in the folder, if one is there. The search began at `top`.
    pub fn enter(&mut self, rt: &HostRuntime, top: &str, folder: &str) -> io::Result<()> {
        let mut path = String::from_str(rt.alloc(), folder)?;
        path.push('/')?;
        path.push_str(FILE)?;
        // As git does it, a link is not followed.
        if let Ok(Kind::File) = kind_of(rt, path.as_str(), false) {
            let bytes = fs::read(rt, path.as_str())?;
            let text = String::from_utf8_lossy(rt.alloc(), &bytes)?;
            let depth = depth_of(inner(top, folder));
            self.push_lines(rt.alloc(), depth, text.as_str())?;
        }
        Ok(())
    }

    /// Adds the rules that the lines of this text say.
    fn push_lines(&mut self, alloc: Global, depth: usize, text: &str) -> Result<(), AllocError> {
        let text = text.strip_prefix('\u{feff}').unwrap_or(text);
        for line in text.split('\n') {
            self.push_line(alloc, depth, line.strip_suffix('\r').unwrap_or(line))?;
        }
        Ok(())
    }

    /// Adds the rule that this line says. One that is too long, or has a class of characters, says nothing here.
    fn push_line(&mut self, alloc: Global, depth: usize, line: &str) -> Result<(), AllocError> {
        if line.len() > LONGEST || has_class(alloc, line)? {
            return Ok(());
        }
        if let Some(rule) = rule_of_line(alloc, depth, line)? {
            self.rules.push(rule)?;
        }
        Ok(())
    }

    /// Returns whether the path is passed over. The search began at `top`, and no path in a folder comes after the
    /// paths next to that folder.
    pub fn leaves_out(
        &mut self,
        rt: &HostRuntime,
        top: &str,
        path: &str,
    ) -> Result<bool, AllocError> {
        let path = without_mark(path);
        if name_in(path) == OWN {
            return Ok(true);
        }
        let inside = inner(top, path);
        self.leave(depth_of(inside));
        let folder = matches!(kind_of(rt, path, false), Ok(Kind::Folder));
        is_ignored(rt.alloc(), &self.rules, folder, inside)
    }

    /// Drops the rules of folders in which a path with this many names is not.
    fn leave(&mut self, depth: usize) {
        for _ in 0..self.rules.len() {
            match self.rules.last() {
                Some(rule) if rule.depth >= depth => {
                    let _ = self.rules.pop();
                }
                _ => return,
            }
        }
    }
}

/// Returns the path as it is in the folder where the search began.
fn inner<'p>(top: &str, path: &'p str) -> &'p str {
    path.strip_prefix(top)
        .unwrap_or(path)
        .trim_start_matches('/')
}

/// Returns how many names the path in a folder has.
fn depth_of(inside: &str) -> usize {
    if inside.is_empty() {
        0
    } else {
        inside.split('/').count()
    }
}
