//! An option of a table, and the option that `clap` reads for it.
use clap::{Arg, ArgAction, Command};
use std::alloc::{AllocError, Global};

/// An option.
#[derive(Clone, Copy)]
pub struct Entry {
    pub name: &'static str,
    pub letter: Option<char>,
    /// How else it is written.
    pub also: Also,
    pub takes: Takes,
    /// Of this option and those, only the last one counts.
    pub rivals: &'static [&'static str],
    pub help: &'static str,
}

/// How an option is written, other than by its name and its letter.
#[derive(Clone, Copy)]
pub enum Also {
    Nothing,
    /// By another name.
    Name(&'static str),
    /// By another letter.
    Letter(char),
    /// By its letter only.
    NoName,
}

/// What comes after an option. A value may begin with a hyphen.
#[derive(Clone, Copy)]
pub enum Takes {
    Nothing,
    /// The same, and the help is printed.
    Help,
    /// A value, which the help calls this. The last one counts.
    One(&'static str),
    /// The same, and all values count.
    Many(&'static str),
    /// One of these values. The last one counts.
    OneOf(&'static str, &'static [&'static str]),
    /// The same after an equals sign, or nothing, which is this value.
    Optional(&'static str, &'static [&'static str], &'static str),
}

/// Adds these options.
pub fn with_each<'w>(
    alloc: Global,
    mut command: Command<'w>,
    entries: &[Entry],
) -> Result<Command<'w>, AllocError> {
    for entry in entries {
        match arg_of(alloc, entry) {
            Ok(arg) => command = command.arg(arg)?,
            Err(error) => {
                // Written out, so that it is one call in a proof, and not one for each field.
                drop(command);
                return Err(error);
            }
        }
    }
    Ok(command)
}

/// Returns the option, as `clap` has it.
fn arg_of<'w>(alloc: Global, entry: &Entry) -> Result<Arg<'w>, AllocError> {
    with_name(alloc, entry)?.overrides_with_all(entry.rivals)
}

/// Returns the option, without what it overrides.
fn with_name<'w>(alloc: Global, entry: &Entry) -> Result<Arg<'w>, AllocError> {
    match entry.also {
        Also::NoName => Ok(with_value(alloc, entry)),
        Also::Nothing => Ok(with_long(alloc, entry)),
        Also::Name(other) => with_long(alloc, entry).alias(other),
        Also::Letter(other) => with_long(alloc, entry).short_alias(other),
    }
}

/// Returns the option with its name, and not how else it is written.
fn with_long<'w>(alloc: Global, entry: &Entry) -> Arg<'w> {
    with_value(alloc, entry).long(entry.name)
}

/// Returns the option, without its name.
fn with_value<'w>(alloc: Global, entry: &Entry) -> Arg<'w> {
    match entry.takes {
        Takes::Nothing | Takes::Help => with_letter(alloc, entry),
        Takes::One(name) | Takes::Many(name) => named(alloc, entry, name),
        Takes::OneOf(name, values) => named(alloc, entry, name).value_parser(values),
        Takes::Optional(name, values, default) => {
            optional(named(alloc, entry, name), values, default)
        }
    }
}

/// Returns the option with one of these values after an equals sign. Without one, it has the default value.
fn optional<'w>(arg: Arg<'w>, values: &'w [&'w str], default: &'w str) -> Arg<'w> {
    arg.value_parser(values)
        .num_args(..=1)
        .require_equals(true)
        .default_missing_value(default)
}

/// Returns the option, of which the help calls the value this.
fn named<'w>(alloc: Global, entry: &Entry, name: &'static str) -> Arg<'w> {
    with_letter(alloc, entry)
        .value_name(name)
        .allow_hyphen_values(true)
}

/// Returns the option, without its name and what its value is.
fn with_letter<'w>(alloc: Global, entry: &Entry) -> Arg<'w> {
    match entry.letter {
        Some(letter) => started(alloc, entry).short(letter),
        None => started(alloc, entry),
    }
}

/// Returns the option, without how it is written and what its value is.
fn started<'w>(alloc: Global, entry: &Entry) -> Arg<'w> {
    Arg::new(alloc, entry.name)
        .help(entry.help)
        .action(action_of(entry.takes))
}

/// Returns what is done with the option.
fn action_of(takes: Takes) -> ArgAction {
    match takes {
        Takes::Nothing => ArgAction::SetTrue,
        Takes::Help => ArgAction::Help,
        Takes::One(_) | Takes::OneOf(_, _) | Takes::Optional(_, _, _) => ArgAction::Set,
        Takes::Many(_) => ArgAction::Append,
    }
}
