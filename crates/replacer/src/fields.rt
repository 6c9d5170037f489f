//! What is between the matches of a text.
ghost use Rattle.std.specs.Prelude.{◌≡◌, ◌+◌, ◌<◌, ◌≤◌, IfOk, List, None, length, map, ℕ, []};
ghost use Rattle.regex_hir.specs.Re.{Re};
ghost use Rattle.regex_search_core.specs.Found.{found_of};
ghost use Rattle.regex_search_core.specs.Search.{whole};
ghost use Rattle.nfa_engines.specs.Lists.{AreDisjoint};
ghost use Rattle.nfa_engines.specs.Paths.{is_utf8_empty};
ghost use Rattle.nfa_compiler.specs.Patterns.{PatternHit};
ghost use Rattle.nfa_meta.specs.RegexState.{KeepsRegex};
ghost use Rattle.replacer.specs.Hits.{AreAllHits, SearchesFor, Sought};
ghost use Rattle.replacer.specs.Separated.{AreAround, IsSplit, IsSplitUpTo, fields_by, first_fields_by, texts};

use nfa_compiler::laws;
use nfa_meta::Regex;
use regex_search_core::{Input, Match};
use std::alloc::{AllocError, Global};

/// Returns the fields of the haystack: what is before, between and after its matches. There is one field more than
/// there are matches, and a field may be empty. The only error is that allocation failed.
///
/// If the regex searches for patterns, the matches are all hits of what the patterns mean (`meant`).
pub fn split<'h>(
    alloc: Global,
    regex: &mut Regex,
    haystack: &'h [u8],
) -> Result<Vec<&'h [u8]>, AllocError>
    ensures meant { IfOk result (λ fields. (sought : Sought) (res : List Re) (hits : List PatternHit)
        → SearchesFor sought res regex.old.choice
        → AreAllHits res (is_utf8_empty regex.old.choice.nfa) haystack.now hits
        → texts fields.items ≡ fields_by haystack.now hits) }
    ensures fields { IfOk result (λ fields. IsSplit haystack.now regex.old.choice (texts fields.items)) }
    ensures keeps { KeepsRegex regex.old regex.new }
{
    laws::iterations_find_texts();
    laws::iterations_of_strs_find_texts();
    laws::str_hits_are_find_str();
    let Ok(matches) = regex.find_all(alloc, Input::new(haystack)) else {
        return Err(AllocError);
    };
    let fields = fields_between(alloc, haystack, &matches)?;
    Ok(fields)
}

/// Returns the first of these fields, of which the last is the rest of the haystack: at most `limit` of them, none if
/// that is 0. Searches for no more matches than are needed. The only error is that allocation failed.
pub fn splitn<'h>(
    alloc: Global,
    regex: &mut Regex,
    haystack: &'h [u8],
    limit: usize,
) -> Result<Vec<&'h [u8]>, AllocError>
    ensures meant { IfOk result (λ fields. (sought : Sought) (res : List Re) (hits : List PatternHit)
        → SearchesFor sought res regex.old.choice
        → AreAllHits res (is_utf8_empty regex.old.choice.nfa) haystack.now hits
        → texts fields.items ≡ first_fields_by limit haystack.now hits) }
    ensures none { limit ≡ 0 → IfOk result (λ fields. fields.items ≡ []) }
    ensures fields { 0 < limit → IfOk result (λ fields.
        IsSplitUpTo haystack.now regex.old.choice limit (texts fields.items)) }
    ensures few { IfOk result (λ fields. length fields.items ≤ limit) }
    ensures keeps { KeepsRegex regex.old regex.new }
{
    laws::iterations_find_texts();
    laws::iterations_of_strs_find_texts();
    laws::str_hits_are_find_str();
    if limit == 0 {
        return Ok(Vec::new(alloc));
    }
    let matches = regex.first_matches(alloc, Input::new(haystack), limit - 1)?;
    let fields = fields_between(alloc, haystack, &matches)?;
    Ok(fields)
}

/// Returns what is before, between and after these matches.
#[tactic(auto, using(std::proofs::lemmas::Grind::common_steps, std::proofs::lemmas::List::Folds::drop_split))]
fn fields_between<'h>(
    alloc: Global,
    haystack: &'h [u8],
    matches: &[Match],
) -> Result<Vec<&'h [u8]>, AllocError>
    requires { AreDisjoint (whole haystack.now) None (map found_of matches.now) }
    ensures around { IfOk result (λ fields. AreAround haystack.now (map found_of matches.now) (texts fields.items)) }
    ensures count { IfOk result (λ fields. length fields.items ≡ length matches.now + 1) }
{
    let mut fields = Vec::new(alloc);
    let mut from = 0;
    for found in matches {
        fields.push(&haystack[from..found.start()])?;
        from = found.end();
    }
    fields.push(&haystack[from..])?;
    Ok(fields)
}
