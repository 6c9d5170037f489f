//! A line on standard error that says how far the search is.
use std::alloc::{AllocError, Global};
use std::io::IsTerminal;
use std::time::{Clock, Duration};

/// Each terminal has at least this many columns before the last one.
const COLUMNS: usize = 79;

/// As many blanks.
const BLANKS: &str =
    "                                                                               ";

/// At least this many milliseconds are between two lines.
const PAUSE: u64 = 100;

/// How far the search is.
#[derive(Clone, Copy)]
pub struct Progress {
    shown: bool,
    /// How many inputs were searched.
    searched: u64,
    /// When the next line is written.
    due: Duration,
}

impl Progress {
    /// Returns the progress of a search that begins. It is shown if it is wanted, standard error is a terminal, and
    /// the output is not.
    pub fn new(rt: &HostRuntime, wanted: bool) -> Progress {
        Progress {
            shown: wanted && rt.stderr().is_terminal() && !rt.stdout().is_terminal(),
            searched: 0,
            due: Duration::ZERO,
        }
    }

    /// Returns whether it is shown.
    pub fn is_shown(self) -> bool {
        self.shown
    }

    /// Counts the input of this name, and shows that it is searched now.
    pub fn begin(&mut self, rt: &HostRuntime, name: &str) {
        if self.shown && self.is_due(rt) {
            // The search goes on even if the line cannot be written.
            if let Ok(line) = line_of(rt.alloc(), self.searched, name) {
                let _ = eprint!(rt; "\r{BLANKS}\r{line}");
            }
        }
        self.searched = self.searched.saturating_add(1);
    }

    /// Returns whether enough time has gone by since the last line.
    fn is_due(&mut self, rt: &HostRuntime) -> bool {
        match rt.monotonic() {
            Ok(now) if now >= self.due => {
                self.due = now.saturating_add(Duration::from_millis(PAUSE));
                true
            }
            _ => false,
        }
    }

    /// Erases the line, if it is shown.
    pub fn erase(self, rt: &HostRuntime) {
        if self.shown {
            erase_line(rt);
        }
    }
}

/// Erases the line.
pub fn erase_line(rt: &HostRuntime) {
    let _ = eprint!(rt; "\r{BLANKS}\r");
}

/// Returns the line, without what would not fit. A character that is not ASCII may have two columns.
fn line_of(alloc: Global, searched: u64, name: &str) -> Result<String, AllocError> {
    let whole = format!(in alloc; "{searched} searched, now {name}")?;
    let mut line = String::new(alloc);
    let mut columns = 0usize;
    for character in whole.as_str().chars() {
        columns = columns.saturating_add(if character.is_ascii() { 1 } else { 2 });
        if columns > COLUMNS {
            return Ok(line);
        }
        line.push(if character.is_control() {
            '?'
        } else {
            character
        })?;
    }
    Ok(line)
}
