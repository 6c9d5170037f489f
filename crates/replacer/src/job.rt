//! What is printed of an input.
ghost use Rattle.std.specs.Prelude.{◌≡◌, [], IfErr, IfOk, IfSome, List, OnOk, ℕ};
ghost use Rattle.std.specs.Io.KnownBytes.{Appends};
ghost use Rattle.regex_hir.specs.Re.{Re};
ghost use Rattle.nfa_engines.specs.Paths.{is_utf8_empty};
ghost use Rattle.nfa_compiler.specs.Patterns.{PatternHit};
ghost use Rattle.nfa_meta.specs.RegexState.{KeepsRegex};
ghost use Rattle.program_text.specs.Lines.{lines_of};
ghost use Rattle.replacer.specs.Hits.{AreHitsOf, SearchesFor, Sought};
ghost use Rattle.replacer.specs.Printed.{IsFixedText, IsMisused, Prints, lines_shown, shown};

use crate::action::Action;
use crate::command::Request;
use crate::filling::BadStretch;
use crate::line::Line;
use crate::pattern::regex_of;
use crate::shown::show;
use nfa_compiler::{CompileError, OnlyPattern, laws};
use nfa_meta::Regex;
use program_text::failure::Failure;
use program_text::stream::{read_line, write_bytes};
use std::alloc::{AllocFailed, Global};
use std::fmt;
use std::io::{BufRead, ErrorKind, Write};
use std::marker::Model;

/// A template that cannot be read, or names a group that its pattern does not have.
#[derive(Clone, Copy, Debug)]
pub struct BadFilling {
    /// The number of the pattern.
    pub number: usize,
    pub bad: BadStretch,
}

/// Why a request cannot be done.
#[derive(Debug, Drop)]
pub enum Mistake {
    /// Allocation failed.
    Memory,
    /// The only pattern cannot be compiled.
    OnlyPattern(OnlyPattern),
    /// One of several patterns cannot be compiled.
    Pattern(CompileError),
    /// The template of a pattern cannot be read.
    Template(BadFilling),
}

impl fmt::Display for Mistake {
    fn fmt<W: fmt::Write>(&self, f: &mut fmt::Formatter<W>) -> fmt::Result {
        match self {
            Mistake::Memory => f.write_str("out of memory"),
            Mistake::OnlyPattern(error) => fmt::Display::fmt(error, f),
            Mistake::Pattern(error) => fmt::Display::fmt(error, f),
            Mistake::Template(filling) => fmt::Display::fmt(&filling.bad, f),
        }
    }
}

impl<T: Drop> From<AllocFailed<T>> for Mistake {
    ghost use Rattle.std.specs.Prelude.{◌≡◌};
    ghost use Rattle.replacer.specs.declared.job.Mistake.TheVariants as mistake;

    ghost from_gives = { λ _ made. made ≡ mistake.Memory };

    fn from(_: AllocFailed<T>) -> Mistake {
        Mistake::Memory
    }
}

/// A request whose patterns are compiled, and whose templates are read.
///
/// A contract sees the request.
#[derive(Drop)]
pub struct Job<'w> {
    request: Request<'w>,
    regex: Regex,
    action: Action<'w>,
}

impl<'w> Model for Job<'w> {
    ghost use Rattle.replacer.specs.Hits.{IsSearchOf};
    ghost use Rattle.replacer.specs.Printed.{IsActionOf, sought};
    ghost use Rattle.replacer.specs.declared.command.Request.{Request};

    ghost Value = { Request };

    ghost view = { λ j. j.request };

    ghost invariant = { λ j. IsSearchOf (sought j.request) j.regex.choice
        × IsActionOf j.regex.choice.nfa.groups j.request.command j.action };
}

impl<'w> Job<'w> {
    /// Compiles the patterns, and reads the templates if there are some.
    pub fn new(alloc: Global, request: Request<'w>) -> Result<Job<'w>, Mistake>
        ensures request { IfOk result (λ job. job ≡ request.entry) }
        ensures fixed { IfOk result (λ _. IsFixedText request.entry) }
        ensures mistake { IfErr result (IsMisused request.entry) }
    {
        laws::groups_are_those_of_texts();
        let regex = match regex_of(alloc, request) {
            Ok(regex) => regex,
            Err(mistake) => return Err(mistake),
        };
        let action = match Action::new(alloc, request.command, &regex) {
            Ok(action) => action,
            Err(mistake) => return Err(mistake),
        };
        Ok(Job {
            request,
            regex,
            action,
        })
    }

    /// Reads an input to its end, and prints it with its matches replaced, or its fields. By lines, memory is bounded
    /// by the longest line and what is printed of it.
    ///
    /// Fails if the input cannot be read, the output cannot be written or allocation failed.
    pub fn print<R: BufRead, W: Write>(
        &mut self,
        alloc: Global,
        input: &mut R,
        out: &mut W,
    ) -> Result<(), Failure>
        ensures printed { OnOk result (Prints self.old (R.remaining input.old) (W.contents out.old)
            (W.contents out.new)) }
        ensures kept { self.new ≡ self.old }
    {
        laws::groups_are_those_of_texts();
        let limit = self.request.limit;
        if !self.request.whole {
            print_lines(alloc, &mut self.regex, &self.action, limit, input, out)?;
            return Ok(());
        }
        let text = whole_text(alloc, input)?;
        let line = Line::whole(&text);
        let printed = show(alloc, &mut self.regex, &self.action, limit, line)?;
        write_bytes(out, &printed.text)?;
        Ok(())
    }
}

/// Reads an input to its end.
fn whole_text<R: BufRead>(alloc: Global, input: &mut R) -> Result<Vec<u8>, Failure>
    ensures { IfOk result (λ text. IfSome (R.remaining input.old) (λ bytes. text.items ≡ bytes)) }
{
    let mut text = Vec::new(alloc);
    match input.read_to_end(&mut text) {
        Ok(_) => Ok(text),
        Err(error) if error.kind() == ErrorKind::OutOfMemory => Err(Failure::Memory),
        Err(error) => Err(Failure::Read(error)),
    }
}

/// Prints what is printed of the lines of an input, in order.
fn print_lines<R: BufRead, W: Write>(
    alloc: Global,
    regex: &mut Regex,
    action: &Action<'_>,
    limit: Option<usize>,
    input: &mut R,
    out: &mut W,
) -> Result<(), Failure>
    ensures printed { OnOk result ((sought : Sought) (res : List Re) (hits : List ℕ → List PatternHit)
        → SearchesFor sought res regex.old.choice → AreHitsOf res (is_utf8_empty regex.old.choice.nfa) hits
        → IfSome (R.remaining input.old) (λ text. Appends (W.contents out.old) (W.contents out.new)
        (lines_shown regex.old.choice.nfa.groups hits action.now limit (lines_of text)))) }
    ensures keeps { KeepsRegex regex.old regex.new }
{
    let mut line = Vec::new(alloc);
    let mut left = limit;
    for before in 0..u64::MAX {
        if !read_line(input, before + 1, &mut line)? {
            return Ok(());
        }
        let Ok(shown) = show(alloc, regex, action, left, Line::of(&line)) else {
            return Err(Failure::Line(before + 1));
        };
        left = shown.left;
        write_bytes(out, &shown.text)?;
    }
    Err(Failure::TooLong)
}
