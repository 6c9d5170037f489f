//! A call of a finder that is borrowed.
ghost use Rattle.regex_search_core.specs.Search.{search_of};
ghost use Rattle.nfa_search_base.specs.Finders.{Asks, IsCallableOn};
ghost use Rattle.nfa_search_base.specs.WithCaptures.{CanFill, Fills, filled_answer};

use crate::error::SearchError;
use regex_search_core::{Captures, Input};

// Calls a caller's finder once.
pub(crate) fn ask<F, R>(finder: &mut F, input: &Input<'_>) -> R
where
    F: FnMut(&Input<'_>) -> R,
    requires { IsCallableOn F.FnMut finder.old (search_of input.now) }
    ensures { Asks F.FnMut finder.old (search_of input.now) result finder.new }
{
    finder(input)
}

// Calls a caller's finder of captures once.
pub(crate) fn ask_with<F>(
    finder: &mut F,
    input: &Input<'_>,
    captures: &mut Captures,
) -> Result<(), SearchError>
where
    F: FnMut(&Input<'_>, &mut Captures) -> Result<(), SearchError>,
    requires { CanFill F.FnMut (record { finder = finder.old; captures = captures.old }) (search_of input.now) }
    ensures { Fills F.FnMut (record { finder = finder.old; captures = captures.old }) (search_of input.now)
        (filled_answer captures.new result) (record { finder = finder.new; captures = captures.new }) }
{
    finder(input, captures)
}
