//! The bytes that a match may begin with.
ghost use Rattle.std.specs.Prelude.{◌≡◌, false, true};
ghost use Rattle.nfa_engines.specs.Paths.{NoMatchBegins};
ghost use Rattle.nfa_engines.specs.FirstBytes.{MayBegin};

use crate::choose::Choice;

impl Choice {
    /// Returns whether a match may begin with the byte.
    ///
    /// If this is false, no match starts at a position with the byte, so a caller may skip such positions. If it is
    /// true, a match may start there or not. It is true for every byte if the NFA can match the empty string, or if
    /// more than 64 states can be reached before a byte is read. It does not cover `Anchored::Pattern`, whose searches
    /// begin with another state.
    ///
    /// ```
    /// // choice of "foo(?<n>[0-9]+)"
    /// assert!(rt; choice.may_begin(b'f'));
    /// assert!(rt; !choice.may_begin(b'x'));
    /// ```
    pub fn may_begin(&self, byte: u8) -> bool
        ensures may { result ≡ true → MayBegin self.now.nfa byte }
        ensures nothing { result ≡ false → NoMatchBegins self.now.nfa byte }
    {
        self.back.may_begin(byte)
    }
}
