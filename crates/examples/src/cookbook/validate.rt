//! Whether a whole text is a date, a version or an IPv4 address.
use crate::cookbook::matcher::Matcher;
use anyhow::Result;
use std::alloc::Global;
use std::marker::Model;

pub const DATE: &str = r"\A[0-9]{4}-[0-9]{2}-[0-9]{2}\z";

pub const VERSION: &str = r"\A(?:0|[1-9][0-9]*)\.(?:0|[1-9][0-9]*)\.(?:0|[1-9][0-9]*)\z";

pub const IPV4: &str =
    r"\A(?:(?:25[0-5]|2[0-4][0-9]|1[0-9]{2}|[1-9]?[0-9])\.){3}(?:25[0-5]|2[0-4][0-9]|1[0-9]{2}|[1-9]?[0-9])\z";

/// The three patterns, compiled.
#[derive(Drop)]
pub struct Validator {
    date: Matcher,
    version: Matcher,
    ipv4: Matcher,
}

impl Model for Validator {
    ghost use Rattle.std.specs.Prelude.{◌≡◌, ⊤};
    ghost use Rattle.examples.specs.declared.cookbook.validate.TheConstants.{DATE, IPV4, VERSION};

    ghost Value = { ⊤ };

    ghost view = { λ v. tt };

    ghost invariant = { λ v. (v.date ≡ DATE.now) × (v.version ≡ VERSION.now) × (v.ipv4 ≡ IPV4.now) };
}

impl Validator {
    ghost use Rattle.std.specs.Prelude.{◌≡◌, ◌↔◌, true};
    ghost use Rattle.examples.specs.Shapes.{IsDate, IsIpv4, IsVersion};

    /// Compiles the patterns.
    pub fn new(alloc: Global) -> Result<Validator> {
        Ok(Validator {
            date: Matcher::new(alloc, DATE)?,
            version: Matcher::new(alloc, VERSION)?,
            ipv4: Matcher::new(alloc, IPV4)?,
        })
    }

    /// Returns whether the text is four digits, a dash, two digits, a dash and two digits.
    pub fn is_date(&mut self, text: &[u8]) -> bool
        ensures { (result ≡ true) ↔ IsDate text.now }
    {
        self.date.is_match(text)
    }

    /// Returns whether the text is three numbers with dots between them.
    pub fn is_version(&mut self, text: &[u8]) -> bool
        ensures { (result ≡ true) ↔ IsVersion text.now }
    {
        self.version.is_match(text)
    }

    /// Returns whether the text is four numbers below 256 in decimal, with dots between them.
    pub fn is_ipv4(&mut self, text: &[u8]) -> bool
        ensures { (result ≡ true) ↔ IsIpv4 text.now }
    {
        self.ipv4.is_match(text)
    }
}
