//! Setters of a builder by the names of the crate regex: those of the flags and limits of its syntax, and of sizes.
ghost use Rattle.std.specs.Prelude.{◌≡◌};

use crate::builder::{Builder, Config};
use nfa_compiler::{Flags, Syntax};

impl Builder {
    /// Replaces the flags of the syntax.
    fn flags(self, flags: Flags) -> Builder
        ensures { result ≡ record self { syntax = record self.syntax { flags = flags } } }
    {
        let syntax = Syntax {
            flags,
            ..self.syntax
        };
        self.syntax(syntax)
    }

    /// Sets whether letters match in either case. A text can set it too, by `(?i)`. It is `false` by default.
    ///
    /// ```
    /// let builder = Regex::builder().case_insensitive(true);
    /// let mut regex = builder.build(alloc, "straße")?;
    /// assert!(rt; regex.is_match(Input::new("STRAßE".as_bytes())));
    /// ```
    pub fn case_insensitive(self, yes: bool) -> Builder
        ensures { result ≡ record self {
          syntax = record self.syntax {
            flags = record self.syntax.flags { case_insensitive = yes };
          };
        } }
    {
        self.flags(Flags {
            case_insensitive: yes,
            ..self.syntax.flags
        })
    }

    /// Sets whether `^` and `$` match at the start and the end of each line, and not only of the haystack. A text can
    /// set it too, by `(?m)`. It is `false` by default.
    ///
    /// ```
    /// let mut regex = Regex::builder().multi_line(true).build(alloc, "^b$")?;
    /// let found = regex.find(Input::new(b"a\nb\nc"));
    /// assert_eq!(rt; found.expect(rt, "a match").range(), 2..3);
    /// ```
    pub fn multi_line(self, yes: bool) -> Builder
        ensures { result ≡ record self {
          syntax = record self.syntax {
            flags = record self.syntax.flags { multi_line = yes };
          };
        } }
    {
        self.flags(Flags {
            multi_line: yes,
            ..self.syntax.flags
        })
    }

    /// Sets whether `.` matches a line feed too. A text can set it, by `(?s)`. It is `false` by default.
    ///
    /// ```
    /// let mut regex = Regex::builder().dot_matches_new_line(true).build(alloc, "a.b")?;
    /// assert!(rt; regex.is_match(Input::new(b"a\nb")));
    /// ```
    pub fn dot_matches_new_line(self, yes: bool) -> Builder
        ensures { result ≡ record self {
          syntax = record self.syntax {
            flags = record self.syntax.flags { dot_matches_new_line = yes };
          };
        } }
    {
        self.flags(Flags {
            dot_matches_new_line: yes,
            ..self.syntax.flags
        })
    }

    /// Sets whether repetitions prefer fewer rounds, as `a*?` does, and `a*?` more. A text can set it too, by `(?U)`.
    /// It is `false` by default.
    ///
    /// ```
    /// let mut regex = Regex::builder().swap_greed(true).build(alloc, "a+")?;
    /// let found = regex.find(Input::new(b"aaa"));
    /// assert_eq!(rt; found.expect(rt, "a match").range(), 0..1);
    /// ```
    pub fn swap_greed(self, yes: bool) -> Builder
        ensures { result ≡ record self {
          syntax = record self.syntax {
            flags = record self.syntax.flags { swap_greed = yes };
          };
        } }
    {
        self.flags(Flags {
            swap_greed: yes,
            ..self.syntax.flags
        })
    }

    /// Sets whether white space in a text is passed over, and a comment from `#` to the end of its line. A text can set
    /// it too, by `(?x)`. It is `false` by default.
    ///
    /// ```
    /// let builder = Regex::builder().ignore_whitespace(true);
    /// let mut regex = builder.build(alloc, "[0-9]{4}  # the year\n - [0-9]{2}")?;
    /// assert!(rt; regex.is_match(Input::new(b"2026-11")));
    /// ```
    pub fn ignore_whitespace(self, yes: bool) -> Builder
        ensures { result ≡ record self {
          syntax = record self.syntax {
            flags = record self.syntax.flags { ignore_whitespace = yes };
          };
        } }
    {
        self.flags(Flags {
            ignore_whitespace: yes,
            ..self.syntax.flags
        })
    }

    /// Sets whether classes such as `\w`, `.` and letters of either case are those of Unicode (`true`), or those of
    /// ASCII (`false`). A text can set it too, by `(?u)` or `(?-u)`. It is `true` by default.
    ///
    /// Without it a negated class or `.` may match bytes that are not UTF-8. Such a text is refused unless
    /// [`Config::utf8`] is `false`.
    ///
    /// ```
    /// let mut regex = Regex::builder().unicode(false).build(alloc, r"\w")?;
    /// assert!(rt; !regex.is_match(Input::new("δ".as_bytes())));
    /// ```
    pub fn unicode(self, yes: bool) -> Builder
        ensures { result ≡ record self {
          syntax = record self.syntax {
            flags = record self.syntax.flags { unicode = yes };
          };
        } }
    {
        self.flags(Flags {
            unicode: yes,
            ..self.syntax.flags
        })
    }

    /// Sets whether a line may also end with a carriage return, alone or before a line feed: for `^` and `$` with
    /// [`Builder::multi_line`], and for what `.` does not match. A text can set it too, by `(?R)`. It is `false` by
    /// default.
    ///
    /// ```
    /// let builder = Regex::builder().multi_line(true).crlf(true);
    /// let mut regex = builder.build(alloc, "^foo$")?;
    /// let found = regex.find(Input::new(b"\r\nfoo\r\n"));
    /// assert_eq!(rt; found.expect(rt, "a match").range(), 2..5);
    /// ```
    pub fn crlf(self, yes: bool) -> Builder
        ensures { result ≡ record self {
          syntax = record self.syntax {
            flags = record self.syntax.flags { crlf = yes };
          };
        } }
    {
        self.flags(Flags {
            crlf: yes,
            ..self.syntax.flags
        })
    }

    /// Sets whether a backslash before up to three octal digits is the character of that number. Otherwise such a text
    /// is refused. It is `false` by default.
    ///
    /// ```
    /// let mut regex = Regex::builder().octal(true).build(alloc, r"\141")?;
    /// assert!(rt; regex.is_match(Input::new(b"a")));
    /// assert!(rt; Regex::new(alloc, r"\141").is_err());
    /// ```
    pub fn octal(self, yes: bool) -> Builder
        ensures { result ≡ record self { syntax = record self.syntax { octal = yes } } }
    {
        let syntax = Syntax {
            octal: yes,
            ..self.syntax
        };
        self.syntax(syntax)
    }

    /// Sets how deep groups, repetitions and classes of a text may nest. A text that nests deeper is refused. It is 250
    /// by default. A higher limit needs a deeper stack.
    ///
    /// ```
    /// let builder = Regex::builder().nest_limit(2);
    /// assert!(rt; builder.build(alloc, "(a)").is_ok());
    /// assert!(rt; builder.build(alloc, "((((a))))").is_err());
    /// ```
    pub fn nest_limit(self, limit: u32) -> Builder
        ensures { result ≡ record self { syntax = record self.syntax { nest_limit = limit } } }
    {
        let syntax = Syntax {
            nest_limit: limit,
            ..self.syntax
        };
        self.syntax(syntax)
    }

    /// Sets the most bytes that the tables of one pattern may take while it is compiled, as
    /// [`Config::nfa_size_limit`] does.
    ///
    /// ```
    /// let builder = Regex::builder().size_limit(10_000);
    /// assert!(rt; builder.build(alloc, "[a-z]+").is_ok());
    /// assert!(rt; builder.build(alloc, r"\w{20}").is_err());
    /// ```
    pub fn size_limit(self, bytes: usize) -> Builder
        ensures { result ≡ record self { config = record self.config { nfa_size_limit = bytes } } }
    {
        let config = Config {
            nfa_size_limit: bytes,
            ..self.config
        };
        self.configure(config)
    }

    /// Sets the most bytes that the rows of the lazy DFA may take, as [`Config::hybrid_cache_capacity`] does.
    ///
    /// ```
    /// let regex = Regex::builder().dfa_size_limit(100_000).build(alloc, "fo+")?;
    /// assert_eq!(rt; regex.get_config().hybrid_cache_capacity, 100_000);
    /// ```
    pub fn dfa_size_limit(self, bytes: usize) -> Builder
        ensures { result ≡ record self { config = record self.config { hybrid_cache_capacity = bytes } } }
    {
        let config = Config {
            hybrid_cache_capacity: bytes,
            ..self.config
        };
        self.configure(config)
    }
}
