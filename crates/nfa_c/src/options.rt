//! The settings of a regex as C gives them.
ghost use Rattle.std.specs.Prelude.{◌≡◌};
ghost use Rattle.nfa_c.specs.Options.{builder_in, config_in, has_flag, or_default, reading_in, syntax_in};

use nfa_compiler::Flags;
use nfa_meta::{Builder, Config, Syntax};

/// Letters match in both cases.
const CASE_INSENSITIVE: u32 = 1;

/// `^` and `$` match at each line.
const MULTI_LINE: u32 = 2;

/// `.` matches a line feed, too.
const DOT_MATCHES_NEW_LINE: u32 = 4;

/// `x*` and `x*?` mean each other.
const SWAP_GREED: u32 = 8;

/// White space and comments in patterns are ignored.
const IGNORE_WHITESPACE: u32 = 16;

/// A carriage return and a line feed end a line together.
const CRLF: u32 = 32;

/// Classes and case are those of ASCII.
const NO_UNICODE: u32 = 64;

/// Patterns may match bytes that are not UTF-8.
const BYTES: u32 = 128;

/// Each search is bound to its start.
const ANCHORED: u32 = 256;

/// No search begins with the lazy DFA.
const NO_DFA: u32 = 512;

/// `\141` is the character of this octal number.
const OCTAL: u32 = 1024;

/// Settings. Those of all bytes zero are the default.
#[repr(C)]
#[derive(Clone, Copy)]
pub struct NfaOptions {
    /// The sum of some of the flags.
    pub flags: u32,
    /// The most bytes that the tables of one pattern may take, or 0 for the default.
    pub size_limit: usize,
    /// The most bytes that the rows of the lazy DFA may take, or 0 for the default.
    pub dfa_capacity: usize,
    /// The most bytes that the marks of a backtracker's search may take, or 0 for the default.
    pub backtrack_capacity: usize,
}

/// Returns whether the flag is set.
fn has(flags: u32, flag: u32) -> bool
    ensures { result ≡ has_flag flags flag }
{
    flags & flag != 0
}

/// Returns the value, or the default for 0.
fn or_default(value: usize, default: usize) -> usize
    ensures { result ≡ or_default value default }
{
    if value == 0 { default } else { value }
}

/// Returns the syntax of patterns.
fn syntax(options: &NfaOptions) -> Syntax
    ensures { result ≡ syntax_in options.now }
{
    let set = options.flags;
    let flags = Flags {
        case_insensitive: has(set, CASE_INSENSITIVE),
        multi_line: has(set, MULTI_LINE),
        dot_matches_new_line: has(set, DOT_MATCHES_NEW_LINE),
        swap_greed: has(set, SWAP_GREED),
        unicode: !has(set, NO_UNICODE),
        crlf: has(set, CRLF),
        ignore_whitespace: has(set, IGNORE_WHITESPACE),
    };
    Syntax {
        flags,
        octal: has(set, OCTAL),
        ..Syntax::default()
    }
}

/// Returns the settings of the engines.
fn config(options: &NfaOptions) -> Config
    ensures { result ≡ config_in options.now }
{
    let default = Config::new();
    let backtrack_visited_capacity = if options.backtrack_capacity == 0 {
        None
    } else {
        Some(options.backtrack_capacity)
    };
    Config {
        anchored: has(options.flags, ANCHORED),
        utf8: !has(options.flags, BYTES),
        nfa_size_limit: or_default(options.size_limit, default.nfa_size_limit),
        line_terminator: default.line_terminator,
        which_captures: default.which_captures,
        hybrid: !has(options.flags, NO_DFA),
        hybrid_cache_capacity: or_default(options.dfa_capacity, default.hybrid_cache_capacity),
        backtrack_visited_capacity,
        onepass: default.onepass,
        onepass_size_limit: default.onepass_size_limit,
    }
}

/// Returns the builder of these settings.
pub(crate) fn builder(options: &NfaOptions) -> Builder
    ensures { result ≡ builder_in options.now }
{
    Builder {
        config: config(options),
        syntax: syntax(options),
    }
}

/// Returns the syntax that the compiler of these settings reads patterns by.
pub(crate) fn reading(options: &NfaOptions) -> Syntax
    ensures { result ≡ reading_in options.now }
{
    Syntax {
        utf8: config(options).utf8,
        ..syntax(options)
    }
}
