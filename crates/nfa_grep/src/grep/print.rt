//! What is printed of a line in which a pattern matches.
ghost use Rattle.std.specs.Prelude.{◌≡◌, ◌≤◌, ◌<◌, ◌+◌, ◌^◌, ◌++◌, All, IfOk, List, OnOk, false, length, [], None};
ghost use Rattle.std.specs.Prelude.{if◌then◌else◌, map};
ghost use Rattle.std.specs.List.{flat_map};
ghost use Rattle.regex_hir.specs.Re.{Re};
ghost use Rattle.regex_search_core.specs.Found.{found_of};
ghost use Rattle.regex_search_core.specs.Search.{whole};
ghost use Rattle.nfa_engines.specs.Lists.{AreDisjoint, IsInside};
ghost use Rattle.nfa_grep.specs.Meant.{Mean, all_found, is_found, span_of};
ghost use Rattle.nfa_grep.specs.Printed.{coloured_found, has_colours, has_text, is_selected, line_colour, mark_of};
ghost use Rattle.nfa_grep.specs.Printed.{match_colour, painted_line, piece, shown, shown_if_selected, shown_matches};
ghost use Rattle.nfa_grep.specs.Printed.{shown_whole, text_of};
ghost use Rattle.program_text.specs.Lines.{with_end};

use crate::grep::Grep;
use crate::line::{Place, append_head};
use crate::paint::{Colour, LineColours, append_matched, append_painted, code_of};
use grep_options::colours::Colours;
use grep_options::options::Options;
use nfa_compiler::laws;
use program_text::line::{append_record, record_content};
use regex_search_core::{Input, Match};
use std::alloc::AllocError;

impl<'p, 'c> Grep<'p, 'c> {
    /// Returns all matches in the text of a line, from left to right.
    fn matches(&mut self, text: &[u8]) -> Result<Vec<Match>, AllocError>
        ensures all { IfOk result (λ found. (res : List Re) → Mean self.old res
            → map span_of (map found_of found.items) ≡ map span_of (all_found res text.now)) }
        ensures inside { IfOk result (λ found. All (λ m. IsInside (whole text.now) (found_of m)) found.items) }
        ensures apart { IfOk result (λ found. AreDisjoint (whole text.now) None (map found_of found.items)) }
        ensures kept { self.new ≡ self.old }
    {
        laws::iterations_find_all_hits();
        let Ok(matches) = self.regex.find_all(self.alloc, Input::new(text)) else {
            return Err(AllocError);
        };
        Ok(matches)
    }

    /// Appends what is printed of the line if it is selected, and returns whether it is.
    pub fn append_line(
        &mut self,
        place: Place<'_>,
        line: &[u8],
        out: &mut Vec<u8>,
    ) -> Result<bool, AllocError>
        requires counted { place.offset + length line.now < 2 ^ 64 }
        ensures selected { IfOk result (λ selected. (res : List Re) → Mean self.old res
            → selected ≡ is_selected self.old.options res line.now) }
        ensures shown { OnOk result ((res : List Re) → Mean self.old res → out.new.items
            ≡ out.old.items ++ shown_if_selected self.old.options res place.entry.name.now place.entry.number
            place.entry.offset line.now) }
        ensures kept { self.new ≡ self.old }
    {
        let options = self.options;
        let at = Place { end: b':', ..place };
        if options.only && !options.inverted {
            return self.append_matches(at, line, out);
        }
        let selected = self.selects(line);
        if selected && !options.only {
            self.append_whole(at, line, out)?;
        }
        Ok(selected)
    }

    /// Appends what is printed of a line because of one near it.
    pub fn append_near(
        &mut self,
        place: Place<'_>,
        line: &[u8],
        out: &mut Vec<u8>,
    ) -> Result<(), AllocError>
        requires counted { place.offset + length line.now < 2 ^ 64 }
        ensures shown { OnOk result ((res : List Re) → Mean self.old res → out.new.items
            ≡ out.old.items ++ shown self.old.options res place.entry.name.now place.entry.number place.entry.offset
            false line.now) }
        ensures kept { self.new ≡ self.old }
    {
        let at = Place { end: b'-', ..place };
        if !self.options.only {
            return self.append_whole(at, line, out);
        }
        if self.options.inverted {
            self.append_matches(at, line, out)?;
        }
        Ok(())
    }

    /// Appends each match in the text of the line that is not empty, and returns whether there is any match, which may
    /// be empty. The line is searched once.
    fn append_matches(
        &mut self,
        place: Place<'_>,
        line: &[u8],
        out: &mut Vec<u8>,
    ) -> Result<bool, AllocError>
        requires counted { place.offset + length line.now < 2 ^ 64 }
        ensures found { IfOk result (λ found. (res : List Re) → Mean self.old res
            → found ≡ is_found res (text_of self.old.options line.now)) }
        ensures shown { OnOk result ((res : List Re) → Mean self.old res → out.new.items
            ≡ out.old.items ++ shown_matches self.old.options place.entry.end res place.entry.name.now
            place.entry.number place.entry.offset line.now) }
        ensures kept { self.new ≡ self.old }
    {
        let matches = self.matches(self.text_of(line))?;
        if matches.is_empty() {
            return Ok(false);
        }
        let mark = self.mark(line)?;
        append_pieces(self.options, place, &mark, line, &matches, out)?;
        Ok(true)
    }

    /// Appends the line, with what comes before it.
    fn append_whole(
        &mut self,
        place: Place<'_>,
        line: &[u8],
        out: &mut Vec<u8>,
    ) -> Result<(), AllocError>
        ensures shown { OnOk result ((res : List Re) → Mean self.old res → out.new.items
            ≡ out.old.items ++ shown_whole self.old.options place.entry.end res place.entry.name.now place.entry.number
            place.entry.offset line.now) }
        ensures kept { self.new ≡ self.old }
    {
        let mark = self.mark(line)?;
        let some = has_text(self.options, line);
        append_head(self.options, place, &mark, some, out)?;
        match self.options.colours {
            Some(colours) => self.append_in(colours, place.end, line, out),
            None => append_record(line, self.options.end, out),
        }
    }

    /// Appends the line in these colours.
    fn append_in(
        &mut self,
        colours: Colours<'_>,
        end: u8,
        line: &[u8],
        out: &mut Vec<u8>,
    ) -> Result<(), AllocError>
        ensures shown { OnOk result ((res : List Re) → Mean self.old res → out.new.items
            ≡ out.old.items ++ painted_line self.old.options colours.entry end res line.now) }
        ensures kept { self.new ≡ self.old }
    {
        let options = self.options();
        let text = self.text_of(line);
        let by = LineColours {
            colours,
            line: line_colour(options, colours, end),
            hit: match_colour(end),
        };
        let matches = self.coloured_matches(colours, end, text)?;
        append_matched(by, text, &matches, out)?;
        append_record(&line[text.len()..], options.end, out)
    }

    /// Returns the matches that are in a colour of their own in the text of a line, if this byte is after its labels.
    fn coloured_matches(
        &mut self,
        colours: Colours<'_>,
        end: u8,
        text: &[u8],
    ) -> Result<Vec<Match>, AllocError>
        ensures all { IfOk result (λ found. (res : List Re) → Mean self.old res
            → map span_of (map found_of found.items)
            ≡ map span_of (coloured_found self.old.options colours.entry end res text.now)) }
        ensures apart { IfOk result (λ found. AreDisjoint (whole text.now) None (map found_of found.items)) }
        ensures kept { self.new ≡ self.old }
    {
        if has_colours(self.options, colours, end) {
            self.matches(text)
        } else {
            Ok(Vec::new(self.alloc))
        }
    }

    /// Returns the numbers of the patterns that match in the line, as they are printed, or nothing if they are not
    /// wanted.
    fn mark(&mut self, line: &[u8]) -> Result<Vec<u8>, AllocError>
        ensures mark { IfOk result (λ mark. (res : List Re) → Mean self.old res
            → mark.items ≡ mark_of self.old.options res line.now) }
        ensures kept { self.new ≡ self.old }
    {
        let mut mark = Vec::new(self.alloc);
        if let Some(which) = &mut self.which {
            which.append_numbers(
                self.alloc,
                record_content(line, self.options.end),
                &mut mark,
            )?;
        }
        Ok(mark)
    }
}

/// Returns the colour of the matches in a line, if this byte is after its labels.
#[inline(always)]
fn match_colour(end: u8) -> Colour
    ensures { result ≡ match_colour end }
{
    if end == b':' {
        Colour::Match
    } else {
        Colour::NearMatch
    }
}

/// Returns the colour of the rest of a line, if this byte is after its labels.
fn line_colour(options: Options<'_>, colours: Colours<'_>, end: u8) -> Colour
    ensures { result ≡ line_colour options.entry colours.entry end }
{
    let swapped = options.inverted && colours.reversed;
    if (end == b':') != swapped {
        Colour::Line
    } else {
        Colour::NearLine
    }
}

/// Returns whether the matches of a whole line are in a colour of their own, if this byte is after its labels.
fn has_colours(options: Options<'_>, colours: Colours<'_>, end: u8) -> bool
    ensures { result ≡ has_colours options.entry colours.entry end }
{
    let selected = end == b':';
    !code_of(colours, match_colour(end)).is_empty() && selected != options.inverted
}

/// Returns whether the line has a byte before its end.
#[inline(always)]
fn has_text(options: Options<'_>, line: &[u8]) -> bool
    ensures { result ≡ has_text options.entry line.now }
{
    match line {
        [] => false,
        [first, ..] => *first != options.end,
    }
}

/// Appends each match that is not empty as a line of its own.
fn append_pieces(
    options: Options<'_>,
    place: Place<'_>,
    mark: &[u8],
    line: &[u8],
    matches: &[Match],
    out: &mut Vec<u8>,
) -> Result<(), AllocError>
    requires counted { place.offset + length line.now < 2 ^ 64 }
    requires inside { All (λ m. (found_of m).end ≤ length line.now) matches.now }
    ensures { OnOk result (out.new.items ≡ out.old.items
        ++ flat_map (piece options.entry place.entry.end place.entry.name.now mark.now place.entry.number
        place.entry.offset line.now) (map span_of (map found_of matches.now))) }
{
    for found in matches {
        append_piece(options, place, mark, line, *found, out)?;
    }
    Ok(())
}

/// Appends the match as a line of its own, if it is not empty.
#[inline(always)]
fn append_piece(
    options: Options<'_>,
    place: Place<'_>,
    mark: &[u8],
    line: &[u8],
    found: Match,
    out: &mut Vec<u8>,
) -> Result<(), AllocError>
    requires counted { place.offset + length line.now < 2 ^ 64 }
    requires inside { (found_of found).end ≤ length line.now }
    ensures { OnOk result (out.new.items ≡ out.old.items
        ++ piece options.entry place.entry.end place.entry.name.now mark.now place.entry.number place.entry.offset
        line.now (span_of (found_of found))) }
{
    if found.start() == found.end() {
        return Ok(());
    }
    let at = Place {
        offset: place.offset + found.start() as u64,
        ..place
    };
    append_head(options, at, mark, true, out)?;
    let text = &line[found.start()..found.end()];
    append_painted(options.colours, match_colour(place.end), text, out)?;
    out.push(options.end)?;
    Ok(())
}
