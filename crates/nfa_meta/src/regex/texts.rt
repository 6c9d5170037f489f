//! The texts that a regex was built of.
ghost use Rattle.std.specs.Prelude.{◌≡◌, map, option_map, string_bytes};
ghost use Rattle.nfa_meta.specs.Texts.{only_text};

use crate::builder::Texts;
use crate::regex::Regex;
use std::fmt;

impl Regex {
    /// Returns the texts of its patterns, in the order of their numbers, as the builder was given them. A regex that
    /// was made of an NFA has none.
    ///
    /// ```
    /// let regex = Regex::new_many(alloc, &[r"\pL+", r"\d+"])?;
    /// assert_eq!(rt; regex.patterns().len(), 2);
    /// assert_eq!(rt; regex.patterns()[1].as_str(), r"\d+");
    /// ```
    pub fn patterns(&self) -> &[String]
        ensures { map string_bytes result.now ≡ self.now.texts }
    {
        self.texts.as_slice()
    }

    /// Returns the text that the regex was built of. Returns `None` if it was made of an NFA, or of several patterns.
    ///
    /// ```
    /// let regex = Regex::new(alloc, "foo[0-9]+")?;
    /// assert_eq!(rt; regex.as_str(), Some("foo[0-9]+"));
    /// let several = Regex::new_many(alloc, &["a", "b"])?;
    /// assert_eq!(rt; several.as_str(), None);
    /// ```
    pub fn as_str(&self) -> Option<&str>
        ensures { option_map (λ text. text.now) result ≡ only_text self.now.texts }
    {
        match self.patterns() {
            [only] => Some(only.as_str()),
            _ => None,
        }
    }

    /// Returns the same regex with these texts.
    pub(crate) fn with_texts(self, texts: Texts) -> Regex
        ensures { result ≡ record self { texts = texts } }
    {
        let mut regex = self;
        regex.texts = texts;
        regex
    }
}

/// Writes the text that the regex was built of, or else the list of its texts.
impl fmt::Display for Regex {
    ghost use Rattle.nfa_meta.specs.Texts.{shown};

    ghost output = { λ r. shown r.texts };

    fn fmt<W: fmt::Write>(&self, f: &mut fmt::Formatter<W>) -> fmt::Result {
        match self.as_str() {
            Some(text) => write!(f, "{text}"),
            None => {
                let texts = self.patterns();
                write!(f, "{texts:?}")
            }
        }
    }
}

/// Writes the text that the regex was built of, or else the list of its texts, as an argument of `Regex`.
impl fmt::Debug for Regex {
    ghost use Rattle.nfa_meta.specs.Texts.{regex_debug};

    ghost debug_output = { λ r. regex_debug r.texts };

    fn fmt<W: fmt::Write>(&self, f: &mut fmt::Formatter<W>) -> fmt::Result {
        match self.as_str() {
            Some(text) => write!(f, "Regex({text:?})"),
            None => {
                let texts = self.patterns();
                write!(f, "Regex({texts:?})")
            }
        }
    }
}
