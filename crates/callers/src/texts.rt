//! What a choice finds, cut out.
ghost use Rattle.std.specs.Prelude.{◌≡◌};
ghost use Rattle.nfa_choice.specs.ChoiceState.{KeepsEngines};

use nfa_choice::choose::Choice;
use nfa_engines::{Captures, Input};

/// The text of a named group.
pub fn choice_text<'t>(
    choice: &mut Choice,
    captures: &mut Captures,
    text: &'t [u8],
) -> Option<&'t [u8]> {
    choice.search(&Input::new(text), captures);
    let span = captures.get_group_by_name("name")?;
    Some(&text[span.start..span.end])
}

/// Two searches keep what one keeps, and answer alike.
pub fn twice(choice: &mut Choice, text: &[u8]) -> (bool, bool)
    ensures same { result.0 ≡ result.1 }
    ensures keeps { KeepsEngines choice.old choice.new }
{
    let first = choice.is_match(Input::new(text));
    (first, choice.is_match(Input::new(text)))
}
