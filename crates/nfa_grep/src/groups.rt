//! Groups of lines: those that are selected, and those around them.
ghost use Rattle.std.specs.Prelude.{◌≡◌, ◌+◌, ◌-◌, ◌<◌, ◌^◌, ◌++◌, ◌∷◌, [], IfOk, List, OnOk, false, if◌then◌else◌};
ghost use Rattle.std.specs.Prelude.{length, true, ◌≤◌, ◌&&◌, ◌==◌, All, not, ℕ};
ghost use Rattle.std.specs.List.{flat_map};
ghost use Rattle.regex_hir.specs.Re.{Re};
ghost use Rattle.nfa_grep.specs.Going.{IsInOrder, kept_texts, printed_later};
ghost use Rattle.nfa_grep.specs.Printed.{Item, between, grouped, left_after, is_selected, item_of};
ghost use Rattle.nfa_grep.specs.Meant.{Mean};

use crate::grep::Grep;
use crate::line::Place;
use crate::paint::{Colour, append_painted};
use grep_options::options::{Context, Request};
use std::alloc::{AllocError, Global};
use std::collections::VecDeque;

/// What is printed of the lines of an input, of which some are selected.
#[derive(Drop)]
pub struct Groups<'s, 'c> {
    alloc: Global,
    /// Which lines are printed around a selected one.
    pub context: Context<'s, 'c>,
    /// Some line was printed, of this input or of one before it.
    pub used: bool,
    /// The line before the first one that is kept was not printed.
    pub gap: bool,
    /// This many lines are still printed after the last selected one.
    pub left: u64,
    /// What is printed of the last lines if the next one is selected.
    pub kept: VecDeque<Vec<u8>>,
    /// What is printed before the last line that was taken.
    pub ahead: Vec<u8>,
    /// What is printed of the last line that was taken.
    pub text: Vec<u8>,
}

impl<'s, 'c> Groups<'s, 'c> {
    /// Returns the groups of an input of which no line was taken.
    pub fn new(alloc: Global, request: Request<'s, 'c>) -> Groups<'s, 'c>
        ensures printed { (later : List Item) → printed_later result later
            ≡ grouped request.entry.context request.entry.used true 0 later }
        ensures context { result.context ≡ request.entry.context }
        ensures none_left { result.left ≡ 0 }
        ensures in_order { IsInOrder result }
    {
        Groups {
            alloc,
            context: request.context,
            used: request.used,
            gap: true,
            left: 0,
            kept: VecDeque::new(alloc),
            ahead: Vec::new(alloc),
            text: Vec::new(alloc),
        }
    }

    /// Returns whether the next line is not printed, if it is not searched.
    pub fn is_done(&self, searched: bool) -> bool
        ensures { result ≡ (not searched && (self.now.left == 0)) }
    {
        !searched && self.left == 0
    }

    /// Returns whether the next line is not printed, if it is not selected.
    pub fn prints_only_selected(&self) -> bool
        ensures { result ≡ ((self.now.context.before == 0) && (self.now.left == 0)) }
    {
        self.context.before == 0 && self.left == 0
    }

    /// Takes this many lines, of which none is selected and none is printed.
    pub fn pass_all(&mut self, count: usize)
        requires in_order { IsInOrder self.old }
        requires none_before { self.old.context.before ≡ 0 }
        requires none_left { self.old.left ≡ 0 }
        ensures printed { (lines : List Item) → count ≡ length lines → All (λ line. line.selected ≡ false) lines
            → (later : List Item) → printed_later self.old (lines ++ later) ≡ printed_later self.new later }
        ensures in_order { IsInOrder self.new }
        ensures none_left { self.new.left ≡ 0 }
        ensures same_context { self.new.context ≡ self.old.context }
    {
        if count == 0 {
            return;
        }
        self.gap = true;
    }

    /// Takes the next line, and returns whether it is selected. If it is not searched, it is not. What is printed then
    /// is `ahead`, and after it `text`.
    pub fn take_line(
        &mut self,
        grep: &mut Grep<'_, '_>,
        searched: bool,
        place: Place<'_>,
        line: &[u8],
    ) -> Result<bool, AllocError>
        requires counted { place.offset + length line.now < 2 ^ 64 }
        requires in_order { IsInOrder self.old }
        ensures selected { IfOk result (λ selected. (res : List Re) → Mean grep.old res
            → selected ≡ (if searched then is_selected grep.old.options res line.now else false)) }
        ensures printed { IfOk result (λ selected. (res : List Re) → Mean grep.old res → (later : List Item)
            → printed_later self.old (item_of grep.old.options res place.entry.name.now
            place.entry.number place.entry.offset selected line.now ∷ later)
            ≡ (self.new.ahead.items ++ self.new.text.items) ++ printed_later self.new later) }
        ensures left { IfOk result (λ selected. self.new.left
            ≡ left_after self.old.context self.old.left selected) }
        ensures in_order { OnOk result (IsInOrder self.new) }
        ensures same_context { self.new.context ≡ self.old.context }
        ensures kept { grep.new ≡ grep.old }
    {
        self.ahead.clear();
        self.text.clear();
        let selected = if searched {
            grep.append_line(place, line, &mut self.text)?
        } else {
            false
        };
        if selected {
            self.begin_group()?;
        } else {
            self.pass(grep, place, line)?;
        }
        Ok(selected)
    }

    /// Appends to `ahead` what is printed before a line that is selected: a separator, and the lines that are kept.
    fn begin_group(&mut self) -> Result<(), AllocError>
        requires in_order { IsInOrder self.old }
        ensures printed { OnOk result ((text : List ℕ) → (later : List Item)
            → self.old.ahead.items ++ printed_later self.old (record { selected = true; text = text } ∷ later)
            ≡ self.new.ahead.items ++ (text ++ printed_later self.new later)) }
        ensures in_order { OnOk result (IsInOrder self.new) }
        ensures left { OnOk result (self.new.left ≡ self.old.context.after) }
        ensures same_context { self.new.context ≡ self.old.context }
        ensures same_text { self.new.text ≡ self.old.text }
    {
        let context = self.context;
        append_between(context, self.used, self.gap, &mut self.ahead)?;
        append_all(&self.kept, &mut self.ahead)?;
        self.kept.clear();
        self.used = true;
        self.gap = false;
        self.left = context.after;
        Ok(())
    }

    /// Takes a line that is not selected.
    fn pass(
        &mut self,
        grep: &mut Grep<'_, '_>,
        place: Place<'_>,
        line: &[u8],
    ) -> Result<(), AllocError>
        requires counted { place.offset + length line.now < 2 ^ 64 }
        requires in_order { IsInOrder self.old }
        ensures printed { OnOk result ((res : List Re) → Mean grep.old res → (later : List Item)
            → printed_later self.old (item_of grep.old.options res place.entry.name.now
            place.entry.number place.entry.offset false line.now ∷ later)
            ≡ self.new.text.items ++ printed_later self.new later) }
        ensures in_order { OnOk result (IsInOrder self.new) }
        ensures left { OnOk result (self.new.left ≡ self.old.left - 1) }
        ensures same_context { self.new.context ≡ self.old.context }
        ensures same_ahead { self.new.ahead ≡ self.old.ahead }
        ensures kept { grep.new ≡ grep.old }
    {
        self.text.clear();
        if self.left > 0 {
            self.left -= 1;
            return grep.append_near(place, line, &mut self.text);
        }
        if self.context.before == 0 {
            self.gap = true;
            return Ok(());
        }
        let mut text = self.room();
        grep.append_near(place, line, &mut text)?;
        self.kept.push_back(text)?;
        Ok(())
    }

    /// Returns an empty text for one more line that is kept: that of the first one, which is no longer kept, if there
    /// are as many as are printed before a selected line.
    fn room(&mut self) -> Vec<u8>
        requires in_order { IsInOrder self.old }
        requires keeping { 0 < self.old.context.before }
        requires none_left { self.old.left ≡ 0 }
        ensures empty { result.items ≡ [] }
        ensures printed { (text : List ℕ) → (later : List Item)
            → printed_later self.old (record { selected = false; text = text } ∷ later)
            ≡ printed_later self.new (record { selected = false; text = text } ∷ later) }
        ensures room { length (kept_texts self.new) < self.new.context.before }
        ensures same_context { self.new.context ≡ self.old.context }
        ensures same_left { self.new.left ≡ self.old.left }
        ensures same_ahead { self.new.ahead ≡ self.old.ahead }
        ensures same_text { self.new.text ≡ self.old.text }
    {
        if self.kept.len() < self.context.before {
            return Vec::new(self.alloc);
        }
        match self.kept.pop_front() {
            Some(mut text) => {
                self.gap = true;
                text.clear();
                text
            }
            None => Vec::new(self.alloc),
        }
    }
}

/// Appends the separator, if it is wanted, some line was printed before, and the last one was not.
fn append_between(
    context: Context<'_, '_>,
    used: bool,
    gap: bool,
    out: &mut Vec<u8>,
) -> Result<(), AllocError>
    ensures { OnOk result (out.new.items ≡ out.old.items ++ between context.entry used gap) }
{
    if used && gap && context.separated {
        append_painted(context.colours, Colour::Separator, context.separator, out)?;
        out.push(b'\n')?;
    }
    Ok(())
}

/// Appends these texts, one after the other.
fn append_all(texts: &VecDeque<Vec<u8>>, out: &mut Vec<u8>) -> Result<(), AllocError>
    ensures { OnOk result (out.new.items ≡ out.old.items ++ flat_map (λ text. text.items) texts.now.items) }
{
    for text in texts.iter() {
        out.extend_from_slice(text)?;
    }
    Ok(())
}
