//! The states of the other samples.
ghost use Rattle.std.specs.Prelude.{◌↔◌, ◌≡◌, length, true, IfErr, IfOk, IsNone, IsOkUnless};
ghost use Rattle.std.specs.List.{list_all};
ghost use Rattle.nfa_samples.specs.Names.{IsNoneOf, table_names};
ghost use Rattle.nfa_samples.specs.StateTables.{is_row};

use crate::some;
use crate::state_table::StateRow::{self, Assert, Byte, Capture, Either, Match, Range, Ranges};
use crate::state_table::{ONE_PATTERN, StateTable, TWO_PATTERNS};
use std::alloc::{AllocError, Global};
use thompson_nfa::{BuildError, Look, NFA};

/// Returns the sample of this name. `None` if none of the other samples has the name.
pub fn named(alloc: Global, name: &str) -> Result<Option<NFA>, BuildError>
    ensures none { IfOk result (λ found. IsNone found ↔ IsNoneOf name.now table_names) }
    ensures known { IfErr result (λ _. ¬ (IsNoneOf name.now table_names)) }
    ensures memory { IsOkUnless result BuildError.Memory }
{
    match name {
        "groups" => some(groups(alloc)),
        "a_bare" => some(a_bare(alloc)),
        "a_pair" => some(a_pair(alloc)),
        "backwards" => some(backwards(alloc)),
        "three_digits" => some(three_digits(alloc)),
        "alnum100" => some(alnum100(alloc)),
        "words_numbers" => some(words_numbers(alloc)),
        "foo_num" => some(foo_num(alloc)),
        "date" => some(date(alloc)),
        "six" => some(six(alloc)),
        _ => Ok(None),
    }
}

/// `(a)c|(ab)`.
fn groups(alloc: Global) -> Result<NFA, BuildError>
    ensures { IsOkUnless result BuildError.Memory }
{
    StateTable {
        rows: &[
            Capture(0, 1),
            Either(2, 6),
            Capture(2, 3),
            Byte(b'a', 4),
            Capture(3, 5),
            Byte(b'c', 10),
            Capture(4, 7),
            Byte(b'a', 8),
            Byte(b'b', 9),
            Capture(5, 10),
            Capture(1, 11),
            Match(0),
        ],
        groups: &[&[None, None]],
        ..ONE_PATTERN
    }
    .with_prefix(alloc)
}

/// `a`, without captures.
fn a_bare(alloc: Global) -> Result<NFA, BuildError>
    ensures { IsOkUnless result BuildError.Memory }
{
    StateTable {
        rows: &[Byte(b'a', 1), Match(0)],
        groups: &[],
        ..ONE_PATTERN
    }
    .with_prefix(alloc)
}

/// `a`, without captures and always anchored: a pair of states.
fn a_pair(alloc: Global) -> Result<NFA, BuildError>
    ensures { IsOkUnless result BuildError.Memory }
{
    StateTable {
        rows: &[Byte(b'a', 1), Match(0)],
        groups: &[],
        ..ONE_PATTERN
    }
    .anchored(alloc)
}

/// `a`, with its end captured before the byte and its start after it.
fn backwards(alloc: Global) -> Result<NFA, BuildError>
    ensures { IsOkUnless result BuildError.Memory }
{
    StateTable {
        rows: &[Capture(1, 1), Byte(b'a', 2), Capture(0, 3), Match(0)],
        ..ONE_PATTERN
    }
    .with_prefix(alloc)
}

/// `\b[0-9]{3}\b`.
fn three_digits(alloc: Global) -> Result<NFA, BuildError>
    ensures { IsOkUnless result BuildError.Memory }
{
    StateTable {
        rows: &[
            Capture(0, 1),
            Assert(Look::WordUnicode, 2),
            Range(b'0', b'9', 3),
            Range(b'0', b'9', 4),
            Range(b'0', b'9', 5),
            Assert(Look::WordUnicode, 6),
            Capture(1, 7),
            Match(0),
        ],
        ..ONE_PATTERN
    }
    .with_prefix(alloc)
}

/// `[0-9A-Za-z]{100}`.
fn alnum100(alloc: Global) -> Result<NFA, BuildError>
    ensures { IsOkUnless result BuildError.Memory }
{
    let rows = alnum100_rows(alloc)?;
    StateTable {
        rows: &rows,
        starts: &[0],
        groups: &[&[]],
        has_empty: false,
        utf8: true,
    }
    .with_prefix(alloc)
}

/// The states of `alnum100`, which form a chain.
fn alnum100_rows(alloc: Global) -> Result<Vec<StateRow<'static>>, AllocError>
    ensures { IfOk result (λ rows. (length rows.items ≡ 103) × (list_all (is_row 105 2 1) rows.items ≡ true)) }
{
    let mut rows = Vec::with_capacity(alloc, 103)?;
    rows.push(Capture(0, 1))?;
    for next in 2..102 {
        rows.push(Ranges(&ALNUM, next))?;
    }
    rows.push(Capture(1, 102))?;
    rows.push(Match(0))?;
    Ok(rows)
}

const ALNUM: [(u8, u8); 3] = [(b'0', b'9'), (b'A', b'Z'), (b'a', b'z')];

/// `[a-z]+` and `[0-9]+`.
fn words_numbers(alloc: Global) -> Result<NFA, BuildError>
    ensures { IsOkUnless result BuildError.Memory }
{
    StateTable {
        rows: &[
            Either(1, 6),
            Capture(0, 2),
            Range(b'a', b'z', 3),
            Either(2, 4),
            Capture(1, 5),
            Match(0),
            Capture(2, 7),
            Range(b'0', b'9', 8),
            Either(7, 9),
            Capture(3, 10),
            Match(1),
        ],
        starts: &[1, 6],
        ..TWO_PATTERNS
    }
    .with_prefix(alloc)
}

/// `foo(?P<numbers>[0-9]+)`.
fn foo_num(alloc: Global) -> Result<NFA, BuildError>
    ensures { IsOkUnless result BuildError.Memory }
{
    StateTable {
        rows: &[
            Capture(0, 1),
            Byte(b'f', 2),
            Byte(b'o', 3),
            Byte(b'o', 4),
            Capture(2, 5),
            Range(b'0', b'9', 6),
            Either(5, 7),
            Capture(3, 8),
            Capture(1, 9),
            Match(0),
        ],
        groups: &[&[Some("numbers")]],
        ..ONE_PATTERN
    }
    .with_prefix(alloc)
}

/// `^([0-9]{4})-([0-9]{2})-([0-9]{2})$`, always anchored.
fn date(alloc: Global) -> Result<NFA, BuildError>
    ensures { IsOkUnless result BuildError.Memory }
{
    StateTable {
        rows: &[
            Capture(0, 1),
            Assert(Look::Start, 2),
            Capture(2, 3),
            Range(b'0', b'9', 4),
            Range(b'0', b'9', 5),
            Range(b'0', b'9', 6),
            Range(b'0', b'9', 7),
            Capture(3, 8),
            Byte(b'-', 9),
            Capture(4, 10),
            Range(b'0', b'9', 11),
            Range(b'0', b'9', 12),
            Capture(5, 13),
            Byte(b'-', 14),
            Capture(6, 15),
            Range(b'0', b'9', 16),
            Range(b'0', b'9', 17),
            Capture(7, 18),
            Assert(Look::End, 19),
            Capture(1, 20),
            Match(0),
        ],
        groups: &[&[None, None, None]],
        ..ONE_PATTERN
    }
    .anchored(alloc)
}

const LOWER_OR_DIGIT: [(u8, u8); 2] = [(b'0', b'9'), (b'a', b'z')];

/// `[a-z0-9]{6}` and `[a-z][a-z0-9]{5}`.
fn six(alloc: Global) -> Result<NFA, BuildError>
    ensures { IsOkUnless result BuildError.Memory }
{
    StateTable {
        rows: &[
            Either(1, 10),
            Capture(0, 2),
            Ranges(&LOWER_OR_DIGIT, 3),
            Ranges(&LOWER_OR_DIGIT, 4),
            Ranges(&LOWER_OR_DIGIT, 5),
            Ranges(&LOWER_OR_DIGIT, 6),
            Ranges(&LOWER_OR_DIGIT, 7),
            Ranges(&LOWER_OR_DIGIT, 8),
            Capture(1, 9),
            Match(0),
            Capture(2, 11),
            Range(b'a', b'z', 12),
            Ranges(&LOWER_OR_DIGIT, 13),
            Ranges(&LOWER_OR_DIGIT, 14),
            Ranges(&LOWER_OR_DIGIT, 15),
            Ranges(&LOWER_OR_DIGIT, 16),
            Ranges(&LOWER_OR_DIGIT, 17),
            Capture(3, 18),
            Match(1),
        ],
        starts: &[1, 10],
        ..TWO_PATTERNS
    }
    .with_prefix(alloc)
}
