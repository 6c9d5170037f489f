//! How many lines have each value of a field.
ghost use Rattle.std.specs.Prelude.{◌≡◌, IfOk, List, unwrap_or, ℕ};
ghost use Rattle.std.specs.HashMap.{get_by};
ghost use Rattle.std.specs.List.{count_by};
ghost use Rattle.std.specs.Str.{bytes_eq};
ghost use Rattle.examples.specs.Fields.{has_key};

use crate::cookbook::field::Field;
use anyhow::Result;
use std::alloc::Global;
use std::collections::HashMap;

/// Returns for each key how many lines have it in the field.
#[tactic(auto, using(std::proofs::lemmas::Grind::text_counts))]
pub fn counts<'t>(
    alloc: Global,
    field: &mut Field,
    lines: &[&'t [u8]],
) -> Result<HashMap<&'t str, u64>>
    ensures counts { IfOk result (λ counts. (q : List ℕ)
        → unwrap_or (get_by (λ k. bytes_eq q k.now) counts) 0
        ≡ count_by (λ line. has_key field.old q line.now) lines.now) }
    ensures keeps { field.new ≡ field.old }
{
    let mut counts = HashMap::new(alloc);
    for line in lines {
        if let Some(key) = field.text(line) {
            *counts.entry(key)?.or_insert(0) += 1;
        }
    }
    Ok(counts)
}

/// Returns the count of a key, which is 0 if no line has it.
pub fn count_of(counts: &HashMap<&str, u64>, key: &str) -> u64
    ensures { result ≡ unwrap_or (get_by (λ k. bytes_eq key.now k.now) counts.now) 0 }
{
    counts.get(key).copied().unwrap_or(0)
}
