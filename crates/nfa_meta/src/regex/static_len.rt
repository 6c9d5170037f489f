//! How many groups each match sets.
ghost use Rattle.std.specs.Prelude.{IfOk, IfSome};
ghost use Rattle.nfa_meta.specs.AlwaysSet.{SetsGroups};

use crate::regex::Regex;
use crate::regex::unwritten::groups_always_set;
use std::alloc::{AllocError, Global};

impl Regex {
    /// Returns the number of groups that each match sets, the whole match among them, if there is one pattern and each
    /// match sets all of its groups. Otherwise, or if the states of the NFA do not show it, it returns `None`, also for
    /// `(a)|(b)`, each match of which sets two groups of three. The only error is that allocation failed.
    ///
    /// It goes through the states once for each slot, so ask once, and keep the answer.
    ///
    /// ```
    /// let regex = Regex::new(alloc, r"(\w+)@(\w+)")?;
    /// assert_eq!(rt; regex.static_captures_len(alloc)?, Some(3));
    /// let regex = Regex::new(alloc, "(a)(b)?")?;
    /// assert_eq!(rt; regex.static_captures_len(alloc)?, None);
    /// ```
    pub fn static_captures_len(&self, alloc: Global) -> Result<Option<usize>, AllocError>
        ensures { IfOk result (λ found. IfSome found (SetsGroups self.now.choice.nfa)) }
    {
        groups_always_set(alloc, self.get_nfa())
    }
}
