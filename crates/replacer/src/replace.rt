//! The captures of the matches of a text that are replaced.
ghost use Rattle.std.specs.Prelude.{◌≡◌, All, IfOk, List, None, map, ℕ};
ghost use Rattle.regex_hir.specs.Re.{Re};
ghost use Rattle.regex_search_core.specs.Search.{whole};
ghost use Rattle.nfa_engines.specs.Runs.{CapturesInside, match_in};
ghost use Rattle.nfa_engines.specs.Lists.{AreDisjoint};
ghost use Rattle.nfa_engines.specs.Paths.{is_utf8_empty};
ghost use Rattle.nfa_compiler.specs.Patterns.{PatternHit};
ghost use Rattle.nfa_meta.specs.RegexState.{KeepsRegex};
ghost use Rattle.replacer.specs.Hits.{AreAllHits, SearchesFor, Sought, captured_by};
ghost use Rattle.replacer.specs.Printed.{AreFirstOf, limited};

use nfa_compiler::laws;
use nfa_meta::Regex;
use regex_search_core::{Captures, Input};
use std::alloc::{AllocError, Global};

/// Returns the captures of the first matches of the haystack, as many as the limit says, or of all if there is none.
/// The only error is that allocation failed.
///
/// If the regex searches for patterns, they are those of the first hits of what the patterns mean (`meant`).
pub fn captures_in(
    alloc: Global,
    regex: &mut Regex,
    haystack: &[u8],
    limit: Option<usize>,
) -> Result<Vec<Captures>, AllocError>
    ensures meant { IfOk result (λ caught. (sought : Sought) (res : List Re) (hits : List PatternHit)
        → SearchesFor sought res regex.old.choice
        → AreAllHits res (is_utf8_empty regex.old.choice.nfa) haystack.now hits
        → caught.items ≡ map (captured_by regex.old.choice.nfa.groups) (limited limit hits)) }
    ensures first { IfOk result (λ caught. AreFirstOf regex.old.choice haystack.now limit caught.items) }
    ensures inside { IfOk result (λ caught. All (CapturesInside (whole haystack.now)) caught.items) }
    ensures apart { IfOk result (λ caught. AreDisjoint (whole haystack.now) None (map match_in caught.items)) }
    ensures keeps { KeepsRegex regex.old regex.new }
{
    laws::iterations_find_texts();
    laws::iterations_of_strs_find_texts();
    laws::str_hits_are_find_str();
    let Ok(caught) = regex.captures_all(alloc, Input::new(haystack)) else {
        return Err(AllocError);
    };
    Ok(first_of(caught, limit))
}

/// Returns the first of these captures, as many as the limit says, or all.
fn first_of(mut caught: Vec<Captures>, limit: Option<usize>) -> Vec<Captures>
    ensures { result.items ≡ limited limit caught.items }
{
    let Some(count) = limit else {
        return caught;
    };
    caught.truncate(count);
    caught
}
