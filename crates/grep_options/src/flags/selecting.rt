//! The options that say what is searched, and which lines are selected.
use crate::flags::entry::{Also, Entry, Takes};

/// What is done with files that are not text, with folders, and with devices.
const TYPES: &[&str] = &["binary", "text", "without-match"];

const FOLDERS: &[&str] = &["read", "recurse", "skip"];

const DEVICES: &[&str] = &["read", "skip"];

/// The options that give the patterns, and say how they are read and which lines are selected.
pub const PATTERNS: &[Entry] = &[
    Entry {
        name: "regexp",
        letter: Some('e'),
        also: Also::Nothing,
        takes: Takes::Many("PATTERN"),
        rivals: &[],
        help: "Search for this pattern; may be given several times",
    },
    Entry {
        name: "file",
        letter: Some('f'),
        also: Also::Nothing,
        takes: Takes::Many("FILE"),
        rivals: &[],
        help: "Search for the patterns in this file, one on each line",
    },
    Entry {
        name: "extended-regexp",
        letter: Some('E'),
        also: Also::Nothing,
        takes: Takes::Nothing,
        rivals: &["fixed-strings", "basic-regexp", "perl-regexp"],
        help: "Read patterns in the syntax of the crate regex, as without it",
    },
    Entry {
        name: "fixed-strings",
        letter: Some('F'),
        also: Also::Nothing,
        takes: Takes::Nothing,
        rivals: &["extended-regexp", "basic-regexp", "perl-regexp"],
        help: "Search for the patterns as texts",
    },
    Entry {
        name: "basic-regexp",
        letter: Some('G'),
        also: Also::Nothing,
        takes: Takes::Nothing,
        rivals: &["extended-regexp", "fixed-strings", "perl-regexp"],
        help: "Read patterns as -E does; refuse those that mean something else in grep without -E",
    },
    Entry {
        name: "perl-regexp",
        letter: Some('P'),
        also: Also::Nothing,
        takes: Takes::Nothing,
        rivals: &["extended-regexp", "fixed-strings", "basic-regexp"],
        help: "Read patterns as -E does; refuse those that mean something else in Perl",
    },
    Entry {
        name: "ignore-case",
        letter: Some('i'),
        also: Also::Letter('y'),
        takes: Takes::Nothing,
        rivals: &["no-ignore-case"],
        help: "Find letters in upper and in lower case; -y is the same",
    },
    Entry {
        name: "no-ignore-case",
        letter: None,
        also: Also::Nothing,
        takes: Takes::Nothing,
        rivals: &["ignore-case"],
        help: "Find letters only as they are in the pattern, as without -i",
    },
    Entry {
        name: "word-regexp",
        letter: Some('w'),
        also: Also::Nothing,
        takes: Takes::Nothing,
        rivals: &[],
        help: "Find only words: no letter, digit or underscore is next to them",
    },
    Entry {
        name: "line-regexp",
        letter: Some('x'),
        also: Also::Nothing,
        takes: Takes::Nothing,
        rivals: &[],
        help: "Find only matches that are whole lines",
    },
    Entry {
        name: "invert-match",
        letter: Some('v'),
        also: Also::Nothing,
        takes: Takes::Nothing,
        rivals: &[],
        help: "Select the lines in which no pattern matches",
    },
];

/// The options that end a search early, and those that say which lines around a selected one are printed.
pub const LIMITS: &[Entry] = &[
    Entry {
        name: "quiet",
        letter: Some('q'),
        also: Also::Name("silent"),
        takes: Takes::Nothing,
        rivals: &[],
        help: "Print nothing, and end at the first selected line",
    },
    Entry {
        name: "max-count",
        letter: Some('m'),
        also: Also::Nothing,
        takes: Takes::One("NUM"),
        rivals: &[],
        help: "End the search of a file after this many selected lines",
    },
    Entry {
        name: "after-context",
        letter: Some('A'),
        also: Also::Nothing,
        takes: Takes::One("NUM"),
        rivals: &[],
        help: "Print this many lines after a selected one, too",
    },
    Entry {
        name: "before-context",
        letter: Some('B'),
        also: Also::Nothing,
        takes: Takes::One("NUM"),
        rivals: &[],
        help: "Print this many lines before a selected one, too",
    },
    Entry {
        name: "context",
        letter: Some('C'),
        also: Also::Nothing,
        takes: Takes::One("NUM"),
        rivals: &[],
        help: "Print this many lines before and after a selected one, too; -2 is -C 2",
    },
    Entry {
        name: "group-separator",
        letter: None,
        also: Also::Nothing,
        takes: Takes::One("SEP"),
        rivals: &["no-group-separator"],
        help: "Print this between groups of lines, and not --",
    },
    Entry {
        name: "no-group-separator",
        letter: None,
        also: Also::Nothing,
        takes: Takes::Nothing,
        rivals: &["group-separator"],
        help: "Print nothing between groups of lines",
    },
];

/// The options that say which files are searched.
pub const FILES: &[Entry] = &[
    Entry {
        name: "recursive",
        letter: Some('r'),
        also: Also::Nothing,
        takes: Takes::Nothing,
        rivals: &["directories"],
        help: "Search folders: all files in them, and in those in them, but no links in them",
    },
    Entry {
        name: "dereference-recursive",
        letter: Some('R'),
        also: Also::Nothing,
        takes: Takes::Nothing,
        rivals: &["directories"],
        help: "Search folders, and what links in them lead to",
    },
    Entry {
        name: "include",
        letter: None,
        also: Also::Nothing,
        takes: Takes::Many("GLOB"),
        rivals: &[],
        help: "Search files whose names match this, and only these",
    },
    Entry {
        name: "exclude",
        letter: None,
        also: Also::Nothing,
        takes: Takes::Many("GLOB"),
        rivals: &[],
        help: "Do not search files whose names match this",
    },
    Entry {
        name: "exclude-dir",
        letter: None,
        also: Also::Nothing,
        takes: Takes::Many("GLOB"),
        rivals: &[],
        help: "Do not search folders whose names match this",
    },
    Entry {
        name: "ignore-files",
        letter: None,
        also: Also::Nothing,
        takes: Takes::Nothing,
        rivals: &[],
        help: "In folders, do not search .git, and what the .gitignore files in them name",
    },
];

/// The options that say what is done with files that are not text, with folders and with devices.
pub const KINDS: &[Entry] = &[
    Entry {
        name: "directories",
        letter: Some('d'),
        also: Also::Nothing,
        takes: Takes::OneOf("ACTION", FOLDERS),
        rivals: &["recursive", "dereference-recursive"],
        help: "Do this with folders; recurse is -r",
    },
    Entry {
        name: "devices",
        letter: Some('D'),
        also: Also::Nothing,
        takes: Takes::OneOf("ACTION", DEVICES),
        rivals: &[],
        help: "Do this with devices, pipes and sockets; without it, -r skips those in folders",
    },
    Entry {
        name: "text",
        letter: Some('a'),
        also: Also::Nothing,
        takes: Takes::Nothing,
        rivals: &["no-binary", "binary-files"],
        help: "Print lines of files that are not text, too",
    },
    Entry {
        name: "no-binary",
        letter: Some('I'),
        also: Also::NoName,
        takes: Takes::Nothing,
        rivals: &["text", "binary-files"],
        help: "Select no lines of files that are not text",
    },
    Entry {
        name: "binary-files",
        letter: None,
        also: Also::Nothing,
        takes: Takes::OneOf("TYPE", TYPES),
        rivals: &["text", "no-binary"],
        help: "Take files that are not text as this; text is -a, and without-match is -I",
    },
    Entry {
        name: "binary",
        letter: Some('U'),
        also: Also::Nothing,
        takes: Takes::Nothing,
        rivals: &[],
        help: "Read files as they are, as without it",
    },
];
