//! The groups that a regex keeps.
ghost use Rattle.std.specs.Prelude.{◌≡◌, ◌≤◌, IfOk, IsOkUnless, length};
ghost use Rattle.nfa_facts.specs.Kept.{with_captures};
ghost use Rattle.nfa_meta.specs.Built.{HasCaptures};

use crate::builder::{Builder, Config};
use crate::error::BuildError;
use nfa_facts::{WhichCaptures, keep_captures};
use std::alloc::Global;
use thompson_nfa::NFA;

impl Config {
    /// Sets which groups of its patterns a regex keeps: [`WhichCaptures::All`] by default.
    ///
    /// With [`WhichCaptures::Implicit`] each pattern has only group 0, as if its other groups were `(?:..)`, and all
    /// matches stay the same. With [`WhichCaptures::None`] there are no groups: `is_match`, half matches, sets of
    /// patterns and the pattern of captures stay the same. But the span of a match is that of group 0, so `find`
    /// returns `None`, and lists of matches and of captures are empty. The laws of `nfa_facts::captures` say what
    /// stays.
    ///
    /// The cache of a PikeVM has a row of slots for each state, so fewer groups take less memory. This setting has no
    /// effect if a regex is made of an NFA: `nfa_facts::keep_captures` does the same there.
    ///
    /// ```
    /// let config = Config::new().which_captures(WhichCaptures::Implicit);
    /// let mut regex = Regex::builder().configure(config).build(alloc, "(fo)(o)")?;
    /// assert_eq!(rt; regex.group_info().slot_len(), 2);
    /// let found = regex.find(Input::new(b"a foo"));
    /// assert_eq!(rt; found.expect(rt, "a match").range(), 2..5);
    /// ```
    pub fn which_captures(self, which: WhichCaptures) -> Config
        ensures { result ≡ record self { which_captures = which } }
    {
        Config {
            which_captures: which,
            ..self
        }
    }

    /// Leaves the other captures out of an NFA with all captures. The only error is `Memory`. Requires that there are
    /// no more patterns than pattern numbers.
    pub(crate) fn keep_captures(&self, alloc: Global, nfa: NFA) -> Result<NFA, BuildError>
        requires { length nfa.patterns ≤ 2147483647 }
        ensures kept { IfOk result (HasCaptures self.now.which_captures (λ whole. whole ≡ nfa)) }
        ensures memory { IsOkUnless result BuildError.Memory }
    {
        match self.which_captures {
            WhichCaptures::All => Ok(nfa),
            which => kept(alloc, &nfa, which),
        }
    }
}

impl Builder {
    /// Sets which groups of its patterns a regex keeps, as [`Config::which_captures`] does.
    ///
    /// ```
    /// let builder = Regex::builder().which_captures(WhichCaptures::None);
    /// let mut regex = builder.build(alloc, "(fo)(o)")?;
    /// assert!(rt; regex.is_match(Input::new(b"a foo")));
    /// assert!(rt; regex.find(Input::new(b"a foo")).is_none());
    /// ```
    pub fn which_captures(self, which: WhichCaptures) -> Builder
        ensures { result ≡ record self { config = record self.config { which_captures = which } } }
    {
        let config = self.config.which_captures(which);
        self.configure(config)
    }
}

/// Returns the NFA with only these captures. The only error is `Memory`. Requires that there are no more patterns than
/// pattern numbers.
fn kept(alloc: Global, nfa: &NFA, which: WhichCaptures) -> Result<NFA, BuildError>
    requires { length nfa.now.patterns ≤ 2147483647 }
    ensures kept { IfOk result (λ kept. kept ≡ with_captures which nfa.now) }
    ensures memory { IsOkUnless result BuildError.Memory }
{
    match keep_captures(alloc, nfa, which) {
        Ok(kept) => Ok(kept),
        Err(thompson_nfa::BuildError::Memory) => Err(BuildError::Memory),
        Err(_) => unreachable!(),
    }
}
