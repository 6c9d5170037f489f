//! The settings of a compiler.
ghost use Rattle.std.specs.Prelude.{◌≡◌, true, false};

/// The settings of the NFA that a compiler makes.
#[derive(Clone, Copy, Debug)]
pub struct Config {
    /// Whether each search is bound to its start.
    pub anchored: bool,
    /// Whether patterns match only UTF-8: see [`Config::utf8`].
    pub utf8: bool,
    /// The most bytes that the tables of one pattern may take: see [`Config::size_limit`].
    pub size_limit: usize,
}

impl Config {
    /// Returns the default settings: unanchored, in UTF-8 mode, with a size limit of ten mebibytes.
    pub fn new() -> Config
        ensures { result ≡ record { anchored = false; utf8 = true; size_limit = 10485760 } }
    {
        Config {
            anchored: false,
            utf8: true,
            size_limit: 10 << 20,
        }
    }

    /// Sets whether each search is bound to its start. An NFA with this setting has no prefix that skips bytes. An NFA
    /// has none either if each way through each of its patterns begins with the assertion `Start`: with `\A`, or with
    /// `^` without the flag `m`.
    pub fn anchored(self, yes: bool) -> Config
        ensures { result ≡ record self { anchored = yes } }
    {
        Config {
            anchored: yes,
            ..self
        }
    }

    /// Sets whether patterns match only UTF-8.
    ///
    /// With `true`, a text that could match bytes that are not UTF-8, such as `(?-u:\xFF)`, is not a pattern, and a
    /// search skips an empty match that splits a codepoint. With `false`, patterns may match any bytes, and an empty
    /// match may be anywhere. This setting replaces the field `utf8` of the syntax.
    pub fn utf8(self, yes: bool) -> Config
        ensures { result ≡ record self { utf8 = yes } }
    {
        Config { utf8: yes, ..self }
    }

    /// Sets the most bytes that the tables of one pattern may take while it is compiled.
    pub fn size_limit(self, bytes: usize) -> Config
        ensures { result ≡ record self { size_limit = bytes } }
    {
        Config {
            size_limit: bytes,
            ..self
        }
    }
}
