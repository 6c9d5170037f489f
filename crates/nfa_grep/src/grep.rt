//! The lines in which a pattern matches.
ghost use Rattle.std.specs.Prelude.{◌≡◌, IfErr, IfOk, List, MatchOption, None, false, length, map, true, ◌⊎◌};
ghost use Rattle.std.specs.List.{AllZip};
ghost use Rattle.regex_hir.specs.Re.{Re};
ghost use Rattle.nfa_compiler.specs.Compiled.{IsNfaOf, res_of};
ghost use Rattle.nfa_grep.specs.Meant.{IsReadFrom, Mean, is_found, IsOfPatterns, IsTextRefusal, IsTreeRefusal};
ghost use Rattle.nfa_grep.specs.Printed.{IsNeeded, is_selected, text_of};

mod print;

use crate::fault::Fault;
use crate::joined::nfa_of;
use crate::needed::needed_bytes;
use crate::pattern::read_patterns;
use crate::which::Which;
use grep_options::options::Options;
use nfa_compiler::{Parsed, laws};
use nfa_meta::Regex;
use program_text::line::record_content;
use regex_search_core::Input;
use std::alloc::Global;
use std::marker::Model;

/// What is searched for in each line, what is printed of a line that is selected, and bytes that each such line has. It
/// owns the engine, and a second one that finds the numbers of the patterns that match, if they are wanted.
///
/// A contract sees the texts of the patterns and the options.
pub struct Grep<'p, 'c> {
    alloc: Global,
    patterns: &'p [&'p str],
    options: Options<'c>,
    regex: Regex,
    which: Option<Which>,
    needed: Vec<u8>,
}

// Written out, so that a drop is one call in a proof, and not one for each field.
impl<'p, 'c> Drop for Grep<'p, 'c> {
    fn drop(self) {
        let Grep {
            alloc: _,
            patterns: _,
            options: _,
            regex: _,
            which: _,
            needed: _,
        } = self;
    }
}

impl<'p, 'c> Model for Grep<'p, 'c> {
    ghost use Rattle.std.specs.Prelude.{◌≡◌, MatchOption, false, map, true};
    ghost use Rattle.nfa_compiler.specs.Compiled.{IsNfaOf};
    ghost use Rattle.nfa_grep.specs.Meant.{Grepping, IsBuilt, IsSearched};
    ghost use Rattle.nfa_grep.specs.Printed.{AreNeeded};

    ghost Value = { Grepping };

    ghost view = { λ g. record { patterns = map (λ text. text.now) g.patterns.now; options = g.options } };

    ghost invariant = { λ g. IsSearched g.options (map (λ text. text.now) g.patterns.now) g.regex.choice
        × MatchOption g.which (g.options.which ≡ false)
        (λ nfa. (g.options.which ≡ true) × IsBuilt IsNfaOf g.options (map (λ text. text.now) g.patterns.now) nfa)
        × AreNeeded g.options (map (λ text. text.now) g.patterns.now) g.needed.items };
}

impl<'p, 'c> Grep<'p, 'c> {
    /// Compiles the patterns. Fails if a text is not a pattern, if the patterns are too large, or if allocation failed.
    pub fn new(
        alloc: Global,
        patterns: &'p [&'p str],
        options: Options<'c>,
    ) -> Result<Grep<'p, 'c>, Fault>
        ensures patterns { IfOk result (λ grep. grep.patterns ≡ map (λ text. text.now) patterns.now) }
        ensures options { IfOk result (λ grep. grep.options ≡ options.entry) }
        ensures refused { IfErr result (λ fault. IsTextRefusal options.entry (map (λ text. text.now) patterns.now) fault
            ⊎ IsOfPatterns options.entry (map (λ text. text.now) patterns.now) fault) }
    {
        let trees = read_patterns(alloc, options, patterns)?;
        Grep::of_trees(alloc, patterns, options, &trees)
    }

    /// Compiles the patterns, which were read from these texts. Fails if they are too large, or if allocation failed.
    fn of_trees(
        alloc: Global,
        patterns: &'p [&'p str],
        options: Options<'c>,
        trees: &[Parsed],
    ) -> Result<Grep<'p, 'c>, Fault>
        requires { AllZip (IsReadFrom options) (map (λ text. text.now) patterns.now) trees.now }
        ensures patterns { IfOk result (λ grep. grep.patterns ≡ map (λ text. text.now) patterns.now) }
        ensures options { IfOk result (λ grep. grep.options ≡ options.entry) }
        ensures refused { IfErr result (IsOfPatterns options.entry (map (λ text. text.now) patterns.now)) }
    {
        let nfa = nfa_of(alloc, trees)?;
        let regex = Regex::new_from_nfa(alloc, nfa)?;
        let which = which_of(alloc, options.which, trees)?;
        let needed = needed_bytes(alloc, options, trees)?;
        Ok(Grep {
            alloc,
            patterns,
            options,
            regex,
            which,
            needed,
        })
    }

    /// Returns the options.
    pub fn options(&self) -> Options<'c>
        ensures { result ≡ self.now.options }
    {
        self.options
    }

    /// Prints the numbers of lines and offsets with blanks before them, if they have fewer digits than this.
    pub fn align(&mut self, width: usize)
        ensures { self.new ≡ record self.old { options = record self.old.options { width = width } } }
    {
        self.options.width = width;
    }

    /// Returns bytes that are in each line that is selected. They are empty if there are no such bytes, or if none are
    /// known.
    pub fn needed(&self) -> &[u8]
        ensures { (res : List Re) → Mean self.now res → IsNeeded self.now.options res result.now }
    {
        &self.needed
    }

    /// Returns the line without its end.
    fn text_of<'l>(&self, line: &'l [u8]) -> &'l [u8]
        ensures { result.now ≡ text_of self.now.options line.now }
    {
        record_content(line, self.options.end)
    }

    /// Returns whether some pattern matches somewhere in the text of a line, its end left out.
    fn finds(&mut self, text: &[u8]) -> bool
        ensures found { (res : List Re) → Mean self.old res → result ≡ is_found res text.now }
        ensures kept { self.new ≡ self.old }
    {
        laws::searches_find_hits();
        self.regex.is_match(Input::new(text))
    }

    /// Returns whether the line is selected: whether some pattern matches somewhere in it, or, if the options invert
    /// that, whether none does. The line may have its end.
    pub fn selects(&mut self, line: &[u8]) -> bool
        ensures selected { (res : List Re) → Mean self.old res
            → result ≡ is_selected self.old.options res line.now }
        ensures kept { self.new ≡ self.old }
    {
        let found = self.finds(self.text_of(line));
        if self.options.inverted { !found } else { found }
    }
}

/// Makes the search for all patterns that match, if it is wanted.
fn which_of(alloc: Global, wanted: bool, patterns: &[Parsed]) -> Result<Option<Which>, Fault>
    ensures made { IfOk result (λ which. MatchOption which (wanted ≡ false)
        (λ nfa. (wanted ≡ true) × IsNfaOf (res_of patterns.now) nfa)) }
    ensures refused { IfErr result (IsTreeRefusal (length patterns.now) (res_of patterns.now)) }
{
    if wanted {
        Ok(Some(Which::new(alloc, patterns)?))
    } else {
        Ok(None)
    }
}
