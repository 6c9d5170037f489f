//! The line of a text in which a span starts, with marks under the span.
ghost use Rattle.std.specs.Prelude.{◌≡◌, ◌≤◌, ◌-◌, IsCharBoundary, drop, length, max, take, sum_by};
ghost use Rattle.nfa_compiler.specs.Rejected.{blank_byte, first_line, last_line, starts_char};

use std::fmt;

/// The line of a text in which a span starts, with marks under the span.
#[derive(Clone, Copy)]
pub(crate) struct Excerpt<'t> {
    /// The line up to the span.
    before: &'t str,
    /// The line from the span on.
    rest: &'t str,
    /// The number of marks.
    marks: usize,
}

impl<'t> Excerpt<'t> {
    ghost use Rattle.nfa_compiler.specs.declared.excerpt.Excerpt.{Excerpt};

    /// Returns the excerpt of the text for this span.
    pub(crate) fn new(text: &'t str, start: usize, end: usize) -> Excerpt<'t>
        requires ordered { start ≤ end }
        requires start { IsCharBoundary text.now start }
        ensures before { result.before.now ≡ last_line (take start text.now) }
        ensures rest { result.rest.now ≡ first_line (drop start text.now) }
        ensures marks { result.marks
            ≡ max 1 (sum_by starts_char (take (end - start) (first_line (drop start text.now)))) }
    {
        let (before, rest) = text.split_at(start);
        let before = last_line(before);
        let rest = first_line(rest);
        let marked = rest.len().min(end - start);
        let marks = start_count(&rest.as_bytes()[..marked]).max(1);
        Excerpt {
            before,
            rest,
            marks,
        }
    }
}

/// Returns the part of the text before its first line feed.
fn first_line(text: &str) -> &str
    ensures { result.now ≡ first_line text.now }
{
    match text.split_once('\n') {
        Some((first, _)) => first,
        None => text,
    }
}

/// Returns the part of the text after its last line feed.
fn last_line(text: &str) -> &str
    ensures { result.now ≡ last_line text.now }
{
    match text.rsplit_once('\n') {
        Some((_, last)) => last,
        None => text,
    }
}

/// Returns the number of bytes with which a character starts.
fn start_count(bytes: &[u8]) -> usize
    ensures value { result ≡ sum_by starts_char bytes.now }
    ensures bound { result ≤ length bytes.now }
{
    let mut count: usize = 0;
    for byte in bytes {
        count += start_weight(*byte);
    }
    count
}

/// Returns 1 for a byte with which a character starts, and otherwise 0.
fn start_weight(byte: u8) -> usize
    ensures value { result ≡ starts_char byte }
    ensures bound { result ≤ 1 }
{
    if byte < 128 || byte >= 192 { 1 } else { 0 }
}

/// Blanks as wide as a text: a tab for a tab, and a space for each other character.
#[derive(Clone, Copy)]
struct Blank<'t>(&'t str);

impl fmt::Display for Blank<'_> {
    ghost use Rattle.std.specs.Prelude.{Some};
    ghost use Rattle.std.specs.List.{flat_map};

    ghost output = { λ blank. Some (flat_map blank_byte blank.0.now) };

    fn fmt<W: fmt::Write>(&self, f: &mut fmt::Formatter<W>) -> fmt::Result {
        for byte in self.0.as_bytes() {
            f.write_str(blank_byte(*byte))?;
        }
        Ok(())
    }
}

/// Returns the blank for a byte: none if no character starts with it.
fn blank_byte(byte: u8) -> &'static str
    ensures { result.now ≡ blank_byte byte }
{
    if byte == b'\t' {
        "\t"
    } else if byte < 128 || byte >= 192 {
        " "
    } else {
        ""
    }
}

/// This number of marks.
#[derive(Clone, Copy)]
struct Marks(usize);

impl fmt::Display for Marks {
    ghost use Rattle.std.specs.Prelude.{Some, replicate};

    ghost output = { λ marks. Some (replicate marks.0 94) };

    fn fmt<W: fmt::Write>(&self, f: &mut fmt::Formatter<W>) -> fmt::Result {
        for _i in 0..self.0 {
            write!(f, "^")?;
        }
        Ok(())
    }
}

impl fmt::Display for Excerpt<'_> {
    ghost use Rattle.std.specs.Prelude.{Some};
    ghost use Rattle.nfa_compiler.specs.Rejected.{excerpt_text};

    ghost output = { λ x. Some (excerpt_text x.before.now x.rest.now x.marks) };

    fn fmt<W: fmt::Write>(&self, f: &mut fmt::Formatter<W>) -> fmt::Result {
        let (before, rest) = (self.before, self.rest);
        let (blank, marks) = (Blank(before), Marks(self.marks));
        write!(f, "    {before}{rest}\n    {blank}{marks}")
    }
}
