//! The options that say what is printed.
use crate::flags::entry::{Also, Entry, Takes};

/// When colours are printed.
const WHENS: &[&str] = &["auto", "always", "never"];

/// The options that say what is printed of a file instead of its lines.
pub const REPORTS: &[Entry] = &[
    Entry {
        name: "count",
        letter: Some('c'),
        also: Also::Nothing,
        takes: Takes::Nothing,
        rivals: &[],
        help: "Print only the number of selected lines",
    },
    Entry {
        name: "files-with-matches",
        letter: Some('l'),
        also: Also::Nothing,
        takes: Takes::Nothing,
        rivals: &["files-without-match"],
        help: "Print only the names of files with selected lines",
    },
    Entry {
        name: "files-without-match",
        letter: Some('L'),
        also: Also::Nothing,
        takes: Takes::Nothing,
        rivals: &["files-with-matches"],
        help: "Print only the names of files without selected lines",
    },
];

/// The options that say what is printed of a line.
pub const LINES: &[Entry] = &[
    Entry {
        name: "only-matching",
        letter: Some('o'),
        also: Also::Nothing,
        takes: Takes::Nothing,
        rivals: &[],
        help: "Print each match that is not empty on a line of its own",
    },
    Entry {
        name: "line-number",
        letter: Some('n'),
        also: Also::Nothing,
        takes: Takes::Nothing,
        rivals: &[],
        help: "Print the number of the line, from 1",
    },
    Entry {
        name: "byte-offset",
        letter: Some('b'),
        also: Also::Nothing,
        takes: Takes::Nothing,
        rivals: &[],
        help: "Print the offset in bytes of the line, with -o of the match",
    },
    Entry {
        name: "which",
        letter: None,
        also: Also::Nothing,
        takes: Takes::Nothing,
        rivals: &[],
        help: "Print the numbers, from 0, of the patterns that match in the line",
    },
    Entry {
        name: "initial-tab",
        letter: Some('T'),
        also: Also::Nothing,
        takes: Takes::Nothing,
        rivals: &[],
        help: "Print a tab between what comes before a line and the line, and numbers of one width",
    },
    Entry {
        name: "null-data",
        letter: Some('z'),
        also: Also::Nothing,
        takes: Takes::Nothing,
        rivals: &[],
        help: "Lines end at a byte 0, not at a line feed",
    },
    Entry {
        name: "line-buffered",
        letter: None,
        also: Also::Nothing,
        takes: Takes::Nothing,
        rivals: &[],
        help: "Write each line at once",
    },
];

/// The options that say how files are named.
pub const NAMES: &[Entry] = &[
    Entry {
        name: "with-filename",
        letter: Some('H'),
        also: Also::Nothing,
        takes: Takes::Nothing,
        rivals: &["no-filename"],
        help: "Print the name of the file",
    },
    Entry {
        name: "no-filename",
        letter: Some('h'),
        also: Also::Nothing,
        takes: Takes::Nothing,
        rivals: &["with-filename"],
        help: "Do not print the name of the file",
    },
    Entry {
        name: "null",
        letter: Some('Z'),
        also: Also::Nothing,
        takes: Takes::Nothing,
        rivals: &[],
        help: "Print a byte 0 after the name of a file, and not what else is there",
    },
    Entry {
        name: "label",
        letter: None,
        also: Also::Nothing,
        takes: Takes::One("NAME"),
        rivals: &[],
        help: "Print this as the name of standard input",
    },
    Entry {
        name: "no-messages",
        letter: Some('s'),
        also: Also::Nothing,
        takes: Takes::Nothing,
        rivals: &[],
        help: "Do not name files that cannot be read",
    },
    Entry {
        name: "progress",
        letter: None,
        also: Also::Nothing,
        takes: Takes::Nothing,
        rivals: &[],
        help: "Show how many files were searched, if standard error is a terminal and the output is not",
    },
];

/// The option that says when colours are printed, and that for the help.
pub const COLOURS: &[Entry] = &[
    Entry {
        name: "color",
        letter: None,
        also: Also::Name("colour"),
        takes: Takes::Optional("WHEN", WHENS, "auto"),
        rivals: &[],
        help: "Print matches, names, numbers and separators in colours; auto, as without WHEN: on a terminal",
    },
    Entry {
        name: "help",
        letter: None,
        also: Also::Nothing,
        takes: Takes::Help,
        rivals: &[],
        help: "Print help",
    },
];
