//! The values of options that are globs or other texts.
use crate::error::OptionsError;
use crate::rules::{Rule, has_class};
use clap::ArgMatches;
use std::alloc::{AllocError, Global};

/// The options whose values are texts, other than patterns and files.
const TEXTS: &[&str] = &[
    "include",
    "exclude",
    "exclude-dir",
    "label",
    "group-separator",
];

/// Appends the rules of `--include` and `--exclude`, in order, to no rules. Fails if a glob has a class.
pub fn push_file_rules<'w>(
    alloc: Global,
    matches: &ArgMatches<'w>,
    rules: &mut Vec<Rule<'w>>,
) -> Result<(), OptionsError> {
    push_rules(alloc, matches, "include", rules)?;
    push_rules(alloc, matches, "exclude", rules)?;
    rules.sort_by_key(|rule| rule.place)?;
    Ok(())
}

/// Appends the rules of `--exclude-dir`. Fails if a glob has a class.
pub fn push_folder_rules<'w>(
    alloc: Global,
    matches: &ArgMatches<'w>,
    rules: &mut Vec<Rule<'w>>,
) -> Result<(), OptionsError> {
    push_rules(alloc, matches, "exclude-dir", rules)
}

/// Appends a rule for each value of the option. Fails if a glob has a class.
fn push_rules<'w>(
    alloc: Global,
    matches: &ArgMatches<'w>,
    name: &str,
    rules: &mut Vec<Rule<'w>>,
) -> Result<(), OptionsError> {
    let (Some(globs), Some(places)) = (matches.get_strs(name), matches.indices_of(name)) else {
        return Ok(());
    };
    for (glob, place) in globs.iter().zip(places) {
        if has_class(alloc, *glob)? {
            return Err(OptionsError::Class(String::from_str(alloc, *glob)?));
        }
        rules.push(Rule {
            place: *place,
            included: name == "include",
            glob: without_slashes(name, *glob),
        })?;
    }
    Ok(())
}

/// Returns the glob of this option. That of a folder loses slashes at its end.
fn without_slashes<'w>(name: &str, glob: &'w str) -> &'w str {
    if name != "exclude-dir" || glob == "/" {
        return glob;
    }
    glob.trim_end_matches('/')
}

/// Appends the values of options that have to be text.
pub fn push_texts<'w>(
    matches: &ArgMatches<'w>,
    texts: &mut Vec<&'w str>,
) -> Result<(), AllocError> {
    for name in TEXTS {
        if let Some(given) = matches.get_strs(name) {
            texts.extend_from_slice(given)?;
        }
    }
    Ok(())
}
