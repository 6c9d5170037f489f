//! The texts that a regex or a set was built of.
ghost use Rattle.std.specs.Prelude.{◌≡◌, [], IfOk, map, string_bytes};

use std::alloc::{AllocError, Global};
use std::marker::Model;

/// Copies of the texts of patterns, in the order of their numbers. A contract sees their bytes.
pub struct Texts {
    list: Vec<String>,
}

// Written out, so that a drop is one call in a proof.
impl Drop for Texts {
    fn drop(self) {
        let Texts { list: _ } = self;
    }
}

impl Model for Texts {
    ghost use Rattle.std.specs.Prelude.{List, map, string_bytes, ℕ};

    ghost Value = { List (List ℕ) };

    ghost view = { λ t. map string_bytes t.list.items };
}

impl Texts {
    /// Makes an empty list, without an allocation.
    pub fn none(alloc: Global) -> Texts
        ensures { result ≡ [] }
    {
        Texts {
            list: Vec::new(alloc),
        }
    }

    /// Copies these texts. The only error is that allocation failed.
    pub fn of(alloc: Global, patterns: &[&str]) -> Result<Texts, AllocError>
        ensures { IfOk result (λ made. made ≡ map (λ text. text.now) patterns.now) }
    {
        let mut list = Vec::new(alloc);
        for text in patterns {
            list.push(String::from_str(alloc, text)?)?;
        }
        Ok(Texts { list })
    }

    /// Copies the texts. The only error is that allocation failed.
    pub fn clone(&self, alloc: Global) -> Result<Texts, AllocError>
        ensures { IfOk result (λ made. made ≡ self.now) }
    {
        let list = copies(alloc, &self.list)?;
        Ok(Texts { list })
    }

    /// Returns the texts.
    pub fn as_slice(&self) -> &[String]
        ensures { map string_bytes result.now ≡ self.now }
    {
        &self.list
    }
}

/// Copies these texts. The only error is that allocation failed.
fn copies(alloc: Global, texts: &[String]) -> Result<Vec<String>, AllocError>
    ensures { IfOk result (λ made. map string_bytes made.items ≡ map string_bytes texts.now) }
{
    let mut list = Vec::new(alloc);
    for text in texts {
        list.push(String::from_str(alloc, text.as_str())?)?;
    }
    Ok(list)
}
