//! The bytes that a match may begin with.
ghost use Rattle.std.specs.Prelude.{◌≡◌, false, true};
ghost use Rattle.nfa_engines.specs.Paths.{NoMatchBegins};
ghost use Rattle.nfa_engines.specs.FirstBytes.{MayBegin};

use crate::regex::Regex;

impl Regex {
    /// Returns whether a match may begin with the byte.
    ///
    /// If this is false, no match starts at a position with the byte, so a caller may skip such positions. If it is
    /// true, a match may start there or not. It is true for every byte if the NFA can match the empty string, or if
    /// more than 64 states can be reached before a byte is read. It does not cover `Anchored::Pattern`, whose searches
    /// begin with another state.
    ///
    /// ```
    /// // regex of "foo(?<n>[0-9]+)"
    /// assert!(rt; regex.may_begin(b'f'));
    /// assert!(rt; !regex.may_begin(b'x'));
    /// ```
    pub fn may_begin(&self, byte: u8) -> bool
        ensures may { result ≡ true → MayBegin self.now.choice.nfa byte }
        ensures nothing { result ≡ false → NoMatchBegins self.now.choice.nfa byte }
    {
        self.choice.may_begin(byte)
    }
}
