//! The texts that a set was built of.
ghost use Rattle.std.specs.Prelude.{◌≡◌, map, string_bytes};

use crate::builder::Texts;
use crate::set::RegexSet;
use std::fmt;

impl RegexSet {
    /// Returns the texts of its patterns, in the order of their numbers, as the builder was given them. A set that was
    /// made of an NFA has none.
    ///
    /// ```
    /// let set = RegexSet::new(alloc, &["foo", "[0-9]+"])?;
    /// assert_eq!(rt; set.patterns().len(), 2);
    /// assert_eq!(rt; set.patterns()[1].as_str(), "[0-9]+");
    /// ```
    pub fn patterns(&self) -> &[String]
        ensures { map string_bytes result.now ≡ self.now.texts }
    {
        self.texts.as_slice()
    }

    /// Returns the same set with these texts.
    pub(crate) fn with_texts(self, texts: Texts) -> RegexSet
        ensures { result ≡ record self { texts = texts } }
    {
        RegexSet { texts, ..self }
    }
}

/// Writes the list of the texts that the set was built of, as an argument of `RegexSet`.
impl fmt::Debug for RegexSet {
    ghost use Rattle.nfa_meta.specs.Texts.{set_debug};

    ghost debug_output = { λ s. set_debug s.texts };

    fn fmt<W: fmt::Write>(&self, f: &mut fmt::Formatter<W>) -> fmt::Result {
        let texts = self.patterns();
        write!(f, "RegexSet({texts:?})")
    }
}
