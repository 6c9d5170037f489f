//! The states of the samples that can match the empty string.
ghost use Rattle.std.specs.Prelude.{◌↔◌, IfErr, IfOk, IsNone, IsOkUnless};
ghost use Rattle.nfa_samples.specs.Names.{IsNoneOf, empty_names};

use crate::some;
use crate::state_table::StateRow::{Assert, Byte, Capture, Either, Match};
use crate::state_table::{ONE_PATTERN, StateRow, StateTable};
use std::alloc::Global;
use thompson_nfa::{BuildError, Look, NFA};

/// Returns the sample of this name. `None` if no sample that can match the empty string has the name.
pub fn named(alloc: Global, name: &str) -> Result<Option<NFA>, BuildError>
    ensures none { IfOk result (λ found. IsNone found ↔ IsNoneOf name.now empty_names) }
    ensures known { IfErr result (λ _. ¬ (IsNoneOf name.now empty_names)) }
    ensures memory { IsOkUnless result BuildError.Memory }
{
    match name {
        "a_or_empty" => some(a_or_empty(alloc)),
        "empty_or_a" => some(empty_or_a(alloc)),
        "empty" => some(empty(alloc)),
        "empty_bytes" => some(empty_bytes(alloc)),
        "empty_anchored" => some(empty_anchored(alloc)),
        "a_star" => some(a_star(alloc)),
        "a_star_bytes" => some(a_star_bytes(alloc)),
        "loop" => some(empty_loop(alloc)),
        "snowman" => some(snowman(alloc)),
        _ => Ok(None),
    }
}

/// `a|`.
fn a_or_empty(alloc: Global) -> Result<NFA, BuildError>
    ensures { IsOkUnless result BuildError.Memory }
{
    StateTable {
        rows: &[
            Capture(0, 1),
            Either(2, 3),
            Byte(b'a', 3),
            Capture(1, 4),
            Match(0),
        ],
        has_empty: true,
        ..ONE_PATTERN
    }
    .with_prefix(alloc)
}

/// `|a`.
fn empty_or_a(alloc: Global) -> Result<NFA, BuildError>
    ensures { IsOkUnless result BuildError.Memory }
{
    StateTable {
        rows: &[
            Capture(0, 1),
            Either(3, 2),
            Byte(b'a', 3),
            Capture(1, 4),
            Match(0),
        ],
        has_empty: true,
        ..ONE_PATTERN
    }
    .with_prefix(alloc)
}

/// The empty pattern.
fn empty(alloc: Global) -> Result<NFA, BuildError>
    ensures { IsOkUnless result BuildError.Memory }
{
    StateTable {
        rows: &[Capture(0, 1), Capture(1, 2), Match(0)],
        has_empty: true,
        ..ONE_PATTERN
    }
    .with_prefix(alloc)
}

/// The empty pattern, without UTF-8 mode.
fn empty_bytes(alloc: Global) -> Result<NFA, BuildError>
    ensures { IsOkUnless result BuildError.Memory }
{
    StateTable {
        rows: &[Capture(0, 1), Capture(1, 2), Match(0)],
        has_empty: true,
        utf8: false,
        ..ONE_PATTERN
    }
    .with_prefix(alloc)
}

/// The empty pattern, always anchored.
fn empty_anchored(alloc: Global) -> Result<NFA, BuildError>
    ensures { IsOkUnless result BuildError.Memory }
{
    StateTable {
        rows: &[Capture(0, 1), Capture(1, 2), Match(0)],
        has_empty: true,
        ..ONE_PATTERN
    }
    .anchored(alloc)
}

// The states of `a*`.
const A_STAR: &[StateRow<'static>] = &[
    Capture(0, 1),
    Either(2, 3),
    Byte(b'a', 1),
    Capture(1, 4),
    Match(0),
];

/// `a*`.
fn a_star(alloc: Global) -> Result<NFA, BuildError>
    ensures { IsOkUnless result BuildError.Memory }
{
    StateTable {
        rows: A_STAR,
        has_empty: true,
        ..ONE_PATTERN
    }
    .with_prefix(alloc)
}

/// `a*`, without UTF-8 mode.
fn a_star_bytes(alloc: Global) -> Result<NFA, BuildError>
    ensures { IsOkUnless result BuildError.Memory }
{
    StateTable {
        rows: A_STAR,
        has_empty: true,
        utf8: false,
        ..ONE_PATTERN
    }
    .with_prefix(alloc)
}

/// A loop that reads no byte and sets the start of group 1. The end of the group is never set.
fn empty_loop(alloc: Global) -> Result<NFA, BuildError>
    ensures { IsOkUnless result BuildError.Memory }
{
    StateTable {
        rows: &[
            Capture(0, 1),
            Either(2, 3),
            Capture(2, 1),
            Capture(1, 4),
            Match(0),
        ],
        groups: &[&[None]],
        has_empty: true,
        ..ONE_PATTERN
    }
    .with_prefix(alloc)
}

/// `☃|(?-u:\B)`.
fn snowman(alloc: Global) -> Result<NFA, BuildError>
    ensures { IsOkUnless result BuildError.Memory }
{
    StateTable {
        rows: &[
            Capture(0, 1),
            Either(2, 5),
            Byte(0xE2, 3),
            Byte(0x98, 4),
            Byte(0x83, 6),
            Assert(Look::WordAsciiNegate, 6),
            Capture(1, 7),
            Match(0),
        ],
        has_empty: true,
        ..ONE_PATTERN
    }
    .with_prefix(alloc)
}
