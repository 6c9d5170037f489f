//! Answers of searches of the samples, leftmost first. Each row begins with the sample's name. These are the answers of
//! regex-automata 0.4.18, whose two engines agree. Where regex-automata leaves the answer open, it is none here: for
//! slots past those of the NFA, and for a match whose slots give no span (`a_bare`, `a_pair`, `backwards`).

/// A haystack, and the pattern followed by all slots of the NFA. A slot that is not set is `-`.
pub const SLOTS: &[(&str, &str, &str)] = &[
    ("abc", "xabcabc", "0 1 4"),
    ("abc", "ab", "none - -"),
    ("ab_b", "ab", "0 0 2 - -"),
    ("ab_b", "xb", "1 - - 1 2"),
    ("ab_abc", "abc", "0 0 2 - -"),
    ("abc_ab", "abc", "0 0 3 - -"),
    ("abc_ab", "abx", "1 - - 0 2"),
    ("abc_b", "abc", "0 0 3 - -"),
    ("abc_b", "abx", "1 - - 1 2"),
    ("foo_bar", "foobar", "0 0 3 - - - - - -"),
    ("foo_bar", "xbarfoo", "1 - - 1 4 - - - -"),
    ("b_a", "ab", "1 - - 0 1"),
    ("b_a", "ba", "0 0 1 - -"),
    ("abc_a", "abca", "0 0 3"),
    ("abc_a", "xab", "0 1 2"),
    ("a_or_empty", "abba", "0 0 1"),
    ("a_or_empty", "ba", "0 0 0"),
    ("empty_or_a", "a", "0 0 0"),
    ("empty", "a☃z", "0 0 0"),
    ("empty", "", "0 0 0"),
    ("empty_bytes", "☃", "0 0 0"),
    ("empty_anchored", "☃", "0 0 0"),
    ("a_star", "aab", "0 0 2"),
    ("a_star", "☃", "0 0 0"),
    ("a_star_bytes", "aab", "0 0 2"),
    ("groups", "ab", "0 0 2 - - 0 2"),
    ("groups", "xacab", "0 1 3 1 2 - -"),
    ("groups", "ad", "none - - - - - -"),
    ("loop", "", "0 0 0 - -"),
    ("loop", "a", "0 0 0 - -"),
    ("a_bare", "ba", "0"),
    ("a_bare", "b", "none"),
    ("a_pair", "a", "0"),
    ("a_pair", "ba", "none"),
    ("backwards", "a", "0 1 0"),
    ("backwards", "ba", "0 2 1"),
    ("snowman", "a☃b", "0 1 4"),
    ("snowman", "ab", "0 1 1"),
    ("three_digits", "x 123 y", "0 2 5"),
    ("three_digits", "1234", "none - -"),
    ("three_digits", "é123", "none - -"),
    ("alnum100", "abc", "none - -"),
    ("words_numbers", "abc 1 foo", "0 0 3 - -"),
    ("words_numbers", "12ab", "1 - - 0 2"),
    ("abcd_b", "abcd", "0 0 4"),
    ("abcd_b", "abce", "0 1 2"),
    ("foo_num", "foo1 foo12", "0 0 4 3 4"),
    ("foo_num", "foo", "none - - - -"),
    ("date", "2010-03-14", "0 0 10 0 4 5 7 8 10"),
    ("date", "x2010-03-14", "none - - - - - - - -"),
    ("six", "foo123", "0 0 6 - -"),
    ("six", "12345a", "0 0 6 - -"),
    ("six", "a1b2", "none - - - -"),
];

/// A haystack, and the pattern and span of the first match.
pub const FOUND: &[(&str, &str, &str)] = &[
    ("abc_a", "abc", "0 0..3"),
    ("ab_b", "xb", "1 1..2"),
    ("snowman", "a☃b", "0 1..4"),
    ("empty_or_a", "a", "0 0..0"),
    ("a_or_empty", "abba", "0 0..1"),
    ("empty", "a☃z", "0 0..0"),
    ("three_digits", "123", "0 0..3"),
    ("three_digits", "é123", "none"),
    ("abcd_b", "abcd", "0 0..4"),
    ("words_numbers", "abc 1 foo 4567 0 quux", "0 0..3"),
    ("foo_num", "foo1 foo12 foo123", "0 0..4"),
    ("date", "2010-03-14", "0 0..10"),
    ("six", "foo123", "0 0..6"),
    // There is no span if a slot is missing or if the end is before the start.
    ("a_bare", "a", "none"),
    ("a_pair", "a", "none"),
    ("backwards", "a", "none"),
];

/// A haystack, and the pattern and the end of the first match. The NFAs of the last rows do not write their bounds. The
/// end is then the position of the Match state that the first path reaches.
pub const HALVES: &[(&str, &str, &str)] = &[
    ("abc_a", "xabc", "0 4"),
    ("ab_b", "xb", "1 2"),
    ("b_a", "ab", "1 1"),
    ("foo_bar", "xbarfoo", "1 4"),
    ("snowman", "a☃b", "0 4"),
    ("empty_or_a", "a", "0 0"),
    ("empty", "☃", "0 0"),
    ("empty_anchored", "☃", "0 0"),
    ("three_digits", "x 123 y", "0 5"),
    ("three_digits", "é123", "none"),
    ("date", "2010-03-14", "0 10"),
    ("a_bare", "ba", "0 2"),
    ("a_bare", "b", "none"),
    ("backwards", "ba", "0 2"),
];

/// A haystack, the start and the end of the span to search, whether the search is anchored, and the pattern and span of
/// the first match.
pub const FOUND_IN_SPAN: &[(&str, &str, usize, usize, bool, &str)] = &[
    ("empty", "☃", 1, 3, true, "none"),
    ("empty", "☃", 1, 3, false, "0 3..3"),
    ("empty", "☃", 3, 3, true, "0 3..3"),
    ("empty_anchored", "☃", 1, 3, false, "0 3..3"),
    ("a_star", "☃", 1, 2, false, "none"),
    ("a_star_bytes", "☃", 1, 2, false, "0 1..1"),
    ("three_digits", "foo123bar", 3, 6, false, "none"),
    ("abc", "xabc", 1, 4, true, "0 1..4"),
    ("abc", "abc", 0, 2, false, "none"),
];

/// A haystack, and the pattern and span of each match of an iteration.
pub const ALL: &[(&str, &[u8], &str)] = &[
    ("a_or_empty", b"abba", "0 0..1, 0 2..2, 0 3..4, "),
    ("a_or_empty", b"\x80a", "0 1..2, "),
    ("a_or_empty", b"a\x80", "0 2..2, "),
    (
        "empty",
        b"a\xE2\x98\x83z",
        "0 0..0, 0 1..1, 0 4..4, 0 5..5, ",
    ),
    ("empty", b"\x80\x80", "0 2..2, "),
    (
        "empty_bytes",
        b"a\xE2\x98\x83z",
        "0 0..0, 0 1..1, 0 2..2, 0 3..3, 0 4..4, 0 5..5, ",
    ),
    ("empty_or_a", b"a", "0 0..0, 0 1..1, "),
    ("loop", b"aa", "0 0..0, 0 1..1, 0 2..2, "),
    (
        "words_numbers",
        b"abc 1 foo 4567 0 quux",
        "0 0..3, 1 4..5, 0 6..9, 1 10..14, 1 15..16, 0 17..21, ",
    ),
    (
        "foo_num",
        b"foo1 foo12 foo123",
        "0 0..4, 0 5..10, 0 11..17, ",
    ),
    ("a_bare", b"a", ""),
    ("backwards", b"a", ""),
    ("backwards", b"aa", ""),
];

/// Anchored searches of `abc`, without a name in the rows: a haystack, a number of slots, and the pattern followed by
/// that number of slots. A slot that is not set is `-`.
pub const OF_SLOT_LENS: &[(&str, usize, &str)] = &[
    ("abc", 0, "0"),
    ("abc", 1, "0 0"),
    ("abc", 4, "0 0 3 - -"),
    ("abc", 10, "0 0 3 - - - - - - - -"),
    ("abx", 4, "none - - - -"),
];

/// A haystack, a pattern, and the answer of a search anchored to that pattern, with four slots.
pub const OF_ONE_PATTERN: &[(&str, &str, usize, &str)] = &[
    ("six", "foo123", 0, "0 0 6 - -"),
    ("six", "foo123", 1, "1 - - 0 6"),
    ("six", "1oo123", 1, "none - - - -"),
    ("abc", "abc", 5, "none - - - -"),
];

/// The slots of `groups` on `ab`. The first pattern matches.
pub const GROUPS_ON_AB: [Option<usize>; 6] = [Some(0), Some(2), None, None, Some(0), Some(2)];
