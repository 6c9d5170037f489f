//! Matches and half matches, as what a finder finds.
ghost use Rattle.std.specs.Prelude.{◌≡◌, ◌≤◌};
ghost use Rattle.regex_search_core.specs.declared.search.Span.{Span};

use regex_search_core::{HalfMatch, Match, Span};

/// What a finder finds: a match, or only its end. Callers of the iterators do not need it.
pub trait Spanned: Copy {
    ghost Value: { Type 0 };

    // What contracts see.
    ghost value: { Self → Value };

    // The span of that.
    ghost span: { Value → Span };

    // The names of the iterators over a finder, for `Debug`.
    const ITER: &'static str;

    const TRY_ITER: &'static str;

    // The span in the haystack.
    fn to_span(&self) -> Span
        ensures { result ≡ span (value self.now) };

    ghost ordered: { (x : Self) → (span (value x)).start ≤ (span (value x)).end };
}

impl Spanned for Match {
    ghost use Rattle.regex_search_core.specs.Found.{Found, found_of};
    ghost use Rattle.nfa_search_base.specs.IterStates.{span_of};

    ghost Value = { Found };

    ghost value = { found_of };

    ghost span = { span_of };

    ghost ordered = { λ m. m.ordered };

    const ITER: &'static str = "MatchesIter";

    const TRY_ITER: &'static str = "TryMatchesIter";

    fn to_span(&self) -> Span {
        self.span()
    }
}

// Its offset, without bytes.
impl Spanned for HalfMatch {
    ghost use Rattle.std.proofs.Common.{rules};
    ghost use Rattle.regex_search_core.specs.Found.{HalfFound, half_found_of};
    ghost use Rattle.nfa_search_base.specs.IterStates.{half_span_of};

    ghost Value = { HalfFound };

    ghost value = { half_found_of };

    ghost span = { half_span_of };

    ghost ordered = { λ m. Prim.search rules };

    const ITER: &'static str = "HalfMatchesIter";

    const TRY_ITER: &'static str = "TryHalfMatchesIter";

    fn to_span(&self) -> Span {
        Span {
            start: self.offset(),
            end: self.offset(),
        }
    }
}
