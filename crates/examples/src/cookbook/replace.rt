//! A text with other bytes in place of each match.
ghost use Rattle.std.specs.Prelude.{◌≡◌, IfOk, None, map};
ghost use Rattle.nfa_engines.specs.Found.{found_of};
ghost use Rattle.nfa_engines.specs.Lists.{AreDisjoint};
ghost use Rattle.nfa_engines.specs.Search.{whole};
ghost use Rattle.nfa_compiler.specs.Patterns.{found_by};
ghost use Rattle.nfa_compiler.specs.WrittenPatterns.{all_matches};
ghost use Rattle.nfa_meta.specs.Replaced.{replaced};

use crate::cookbook::matcher::Matcher;
use anyhow::Result;
use nfa_engines::Match;
use std::alloc::{AllocError, Global};

/// Returns the text with these bytes in place of each match.
pub fn replace_all(
    alloc: Global,
    matcher: &mut Matcher,
    text: &[u8],
    bytes: &[u8],
) -> Result<Vec<u8>>
    ensures { IfOk result (λ output. output.items
        ≡ replaced text.now bytes.now 0 (map found_by (all_matches matcher.old text.now))) }
{
    let matches = matcher.find_all(alloc, text)?;
    let output = replace_matches(alloc, text, bytes, &matches)?;
    Ok(output)
}

/// Returns the text with these bytes in place of each of these matches.
#[tactic(auto, using(std::proofs::lemmas::Grind::common_steps))]
fn replace_matches(
    alloc: Global,
    text: &[u8],
    bytes: &[u8],
    matches: &[Match],
) -> Result<Vec<u8>, AllocError>
    requires { AreDisjoint (whole text.now) None (map found_of matches.now) }
    ensures { IfOk result (λ output. output.items ≡ replaced text.now bytes.now 0 (map found_of matches.now)) }
{
    let mut output = Vec::new(alloc);
    let mut from = 0;
    for found in matches {
        output.extend_from_slice(&text[from..found.start()])?;
        output.extend_from_slice(bytes)?;
        from = found.end();
    }
    output.extend_from_slice(&text[from..])?;
    Ok(output)
}
