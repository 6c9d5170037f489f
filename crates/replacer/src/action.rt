//! What is done at the matches of a text.
ghost use Rattle.std.specs.Prelude.{◌≡◌, IfErr, IfOk};
ghost use Rattle.replacer.specs.Fillings.{pieces_in};
ghost use Rattle.replacer.specs.Printed.{AreFillings, IsActionOf, IsTemplateMistake, template_mistake};
ghost use Rattle.replacer.specs.Stretches.{all_stretched};

use crate::command::Command;
use crate::filling::{BadStretch, Filling};
use crate::job::{BadFilling, Mistake};
use crate::stretches::Stretch;
use nfa_meta::Regex;
use nfa_meta::interpolate::TemplateError;
use regex_search_core::PatternID;
use std::alloc::Global;

/// What is done at the matches of a text.
#[derive(Drop)]
pub enum Action<'w> {
    /// Replace each match by the filling that has the number of its pattern, or by nothing if there is none.
    Replace(Vec<Filling<'w>>),
    /// Print the text between the matches.
    Split,
    /// The same, but at most this many fields.
    SplitN(usize),
}

impl<'w> Action<'w> {
    /// Returns the action of this command, for the patterns of the regex. Fails if the template of a pattern cannot be
    /// read, or if allocation failed.
    pub fn new(alloc: Global, command: Command<'w>, regex: &Regex) -> Result<Action<'w>, Mistake>
        ensures action { IfOk result (IsActionOf regex.now.choice.nfa.groups command.entry) }
        ensures mistake { IfErr result (IsTemplateMistake regex.now.choice.nfa.groups command.entry) }
    {
        match command {
            Command::Replace(templates) => {
                let fillings = fillings_of(alloc, templates, regex)?;
                Ok(Action::Replace(fillings))
            }
            Command::Split => Ok(Action::Split),
            Command::SplitN(limit) => Ok(Action::SplitN(limit)),
        }
    }
}

/// Returns the filling of each of these templates, as many as there are numbers of patterns.
fn fillings_of<'w>(
    alloc: Global,
    templates: &'w [Vec<Stretch>],
    regex: &Regex,
) -> Result<Vec<Filling<'w>>, Mistake>
    ensures fillings { IfOk result (λ fillings. AreFillings regex.now.choice.nfa.groups
        (all_stretched templates.now) (pieces_in fillings.items)) }
    ensures mistake { IfErr result (IsTemplateMistake regex.now.choice.nfa.groups (Command.Replace templates.entry)) }
{
    let mut fillings = Vec::new(alloc);
    for (number, template) in templates.iter().enumerate() {
        let Some(pattern) = PatternID::new(number) else {
            return Ok(fillings);
        };
        match Filling::new(alloc, template, regex.group_info(), pattern) {
            Ok(filling) => fillings.push(filling)?,
            Err(bad) => return Err(mistake_of(number, bad)),
        }
    }
    Ok(fillings)
}

/// Returns what is wrong if this is wrong with the template of this number.
fn mistake_of(number: usize, bad: BadStretch) -> Mistake
    ensures { result ≡ template_mistake number bad }
{
    match bad.error {
        TemplateError::Memory => Mistake::Memory,
        TemplateError::UnknownGroup { .. } | TemplateError::Unclosed { .. } => {
            Mistake::Template(BadFilling { number, bad })
        }
    }
}
