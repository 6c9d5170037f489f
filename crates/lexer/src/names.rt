//! Names of rules whose tokens are not printed.
ghost use Rattle.std.specs.Prelude.{◌≡◌};
ghost use Rattle.std.specs.Str.{bytes_eq};
ghost use Rattle.lexer.specs.Printed.{is_in};

use crate::rules::Rule;

/// Returns whether the name is one of these.
#[tactic(auto, using(std::proofs::lemmas::List::Folds::list_any_at))]
pub fn is_in(names: &[&str], name: &str) -> bool
    ensures { result ≡ is_in names.now name.now }
{
    for other in names {
        if is_same(other, name) {
            return true;
        }
    }
    false
}

/// Returns whether the names are the same.
fn is_same(other: &str, name: &str) -> bool
    ensures { result ≡ bytes_eq other.now name.now }
{
    other == name
}

/// Returns the first of these names that no rule has.
pub fn unknown_name<'w>(names: &[&'w str], rules: &[Rule<'_>]) -> Option<&'w str> {
    for name in names {
        if !is_rule(name, rules) {
            return Some(name);
        }
    }
    None
}

/// Returns whether a rule has this name.
fn is_rule(name: &str, rules: &[Rule<'_>]) -> bool {
    for rule in rules {
        if rule.name == name {
            return true;
        }
    }
    false
}
