//! The states of the samples whose patterns are words.
ghost use Rattle.std.specs.Prelude.{◌↔◌, IfErr, IfOk, IsNone, IsOkUnless};
ghost use Rattle.nfa_samples.specs.Names.{IsNoneOf, word_names};

use crate::some;
use crate::state_table::StateRow::{Byte, Capture, Either, Match, Union};
use crate::state_table::{ONE_PATTERN, StateTable, TWO_PATTERNS};
use std::alloc::Global;
use thompson_nfa::{BuildError, NFA};

/// Returns the sample of this name. `None` if no sample of words has the name.
pub fn named(alloc: Global, name: &str) -> Result<Option<NFA>, BuildError>
    ensures none { IfOk result (λ found. IsNone found ↔ IsNoneOf name.now word_names) }
    ensures known { IfErr result (λ _. ¬ (IsNoneOf name.now word_names)) }
    ensures memory { IsOkUnless result BuildError.Memory }
{
    match name {
        "abc" => some(abc(alloc)),
        "ab_b" => some(ab_b(alloc)),
        "ab_abc" => some(ab_abc(alloc)),
        "abc_ab" => some(abc_ab(alloc)),
        "abc_b" => some(abc_b(alloc)),
        "foo_bar" => some(foo_bar(alloc)),
        "b_a" => some(b_a(alloc)),
        "abc_a" => some(abc_a(alloc)),
        "abcd_b" => some(abcd_b(alloc)),
        _ => Ok(None),
    }
}

/// `abc`.
fn abc(alloc: Global) -> Result<NFA, BuildError>
    ensures { IsOkUnless result BuildError.Memory }
{
    StateTable {
        rows: &[
            Capture(0, 1),
            Byte(b'a', 2),
            Byte(b'b', 3),
            Byte(b'c', 4),
            Capture(1, 5),
            Match(0),
        ],
        ..ONE_PATTERN
    }
    .with_prefix(alloc)
}

/// `ab` and `b`.
fn ab_b(alloc: Global) -> Result<NFA, BuildError>
    ensures { IsOkUnless result BuildError.Memory }
{
    StateTable {
        rows: &[
            Either(1, 6),
            Capture(0, 2),
            Byte(b'a', 3),
            Byte(b'b', 4),
            Capture(1, 5),
            Match(0),
            Capture(2, 7),
            Byte(b'b', 8),
            Capture(3, 9),
            Match(1),
        ],
        starts: &[1, 6],
        ..TWO_PATTERNS
    }
    .with_prefix(alloc)
}

/// `ab` and `abc`.
fn ab_abc(alloc: Global) -> Result<NFA, BuildError>
    ensures { IsOkUnless result BuildError.Memory }
{
    StateTable {
        rows: &[
            Either(1, 6),
            Capture(0, 2),
            Byte(b'a', 3),
            Byte(b'b', 4),
            Capture(1, 5),
            Match(0),
            Capture(2, 7),
            Byte(b'a', 8),
            Byte(b'b', 9),
            Byte(b'c', 10),
            Capture(3, 11),
            Match(1),
        ],
        starts: &[1, 6],
        ..TWO_PATTERNS
    }
    .with_prefix(alloc)
}

/// `abc` and `ab`.
fn abc_ab(alloc: Global) -> Result<NFA, BuildError>
    ensures { IsOkUnless result BuildError.Memory }
{
    StateTable {
        rows: &[
            Either(1, 7),
            Capture(0, 2),
            Byte(b'a', 3),
            Byte(b'b', 4),
            Byte(b'c', 5),
            Capture(1, 6),
            Match(0),
            Capture(2, 8),
            Byte(b'a', 9),
            Byte(b'b', 10),
            Capture(3, 11),
            Match(1),
        ],
        starts: &[1, 7],
        ..TWO_PATTERNS
    }
    .with_prefix(alloc)
}

/// `abc` and `b`.
fn abc_b(alloc: Global) -> Result<NFA, BuildError>
    ensures { IsOkUnless result BuildError.Memory }
{
    StateTable {
        rows: &[
            Either(1, 7),
            Capture(0, 2),
            Byte(b'a', 3),
            Byte(b'b', 4),
            Byte(b'c', 5),
            Capture(1, 6),
            Match(0),
            Capture(2, 8),
            Byte(b'b', 9),
            Capture(3, 10),
            Match(1),
        ],
        starts: &[1, 7],
        ..TWO_PATTERNS
    }
    .with_prefix(alloc)
}

/// `foo`, `bar`, `barfoo` and `foobar`.
fn foo_bar(alloc: Global) -> Result<NFA, BuildError>
    ensures { IsOkUnless result BuildError.Memory }
{
    StateTable {
        rows: &[
            Union(&[1, 7, 13, 22]),
            Capture(0, 2),
            Byte(b'f', 3),
            Byte(b'o', 4),
            Byte(b'o', 5),
            Capture(1, 6),
            Match(0),
            Capture(2, 8),
            Byte(b'b', 9),
            Byte(b'a', 10),
            Byte(b'r', 11),
            Capture(3, 12),
            Match(1),
            Capture(4, 14),
            Byte(b'b', 15),
            Byte(b'a', 16),
            Byte(b'r', 17),
            Byte(b'f', 18),
            Byte(b'o', 19),
            Byte(b'o', 20),
            Capture(5, 21),
            Match(2),
            Capture(6, 23),
            Byte(b'f', 24),
            Byte(b'o', 25),
            Byte(b'o', 26),
            Byte(b'b', 27),
            Byte(b'a', 28),
            Byte(b'r', 29),
            Capture(7, 30),
            Match(3),
        ],
        starts: &[1, 7, 13, 22],
        groups: &[&[], &[], &[], &[]],
        has_empty: false,
        utf8: true,
    }
    .with_prefix(alloc)
}

/// `b` and `a`. The second pattern is preferred.
fn b_a(alloc: Global) -> Result<NFA, BuildError>
    ensures { IsOkUnless result BuildError.Memory }
{
    StateTable {
        rows: &[
            Either(5, 1),
            Capture(0, 2),
            Byte(b'b', 3),
            Capture(1, 4),
            Match(0),
            Capture(2, 6),
            Byte(b'a', 7),
            Capture(3, 8),
            Match(1),
        ],
        starts: &[1, 5],
        ..TWO_PATTERNS
    }
    .with_prefix(alloc)
}

/// `abc|a`. The end of the pattern is numbered before the branches, so the order of state numbers is not the order of
/// preference.
fn abc_a(alloc: Global) -> Result<NFA, BuildError>
    ensures { IsOkUnless result BuildError.Memory }
{
    StateTable {
        rows: &[
            Capture(0, 3),
            Capture(1, 2),
            Match(0),
            Either(5, 4),
            Byte(b'a', 1),
            Byte(b'a', 6),
            Byte(b'b', 7),
            Byte(b'c', 1),
        ],
        ..ONE_PATTERN
    }
    .with_prefix(alloc)
}

/// `abcd|b`.
fn abcd_b(alloc: Global) -> Result<NFA, BuildError>
    ensures { IsOkUnless result BuildError.Memory }
{
    StateTable {
        rows: &[
            Capture(0, 1),
            Either(2, 6),
            Byte(b'a', 3),
            Byte(b'b', 4),
            Byte(b'c', 5),
            Byte(b'd', 7),
            Byte(b'b', 7),
            Capture(1, 8),
            Match(0),
        ],
        ..ONE_PATTERN
    }
    .with_prefix(alloc)
}
